// Where a command's module comes from: a sheet, or Verilog text. The words that say so are taken here, all others by `options`. And
// what the command makes of a text: the names of its variables, and its sheet written out.
#![tactic(auto)]

ghost use Rattle.std.specs.Prelude.{◌≡◌, ◌<◌, length};
ghost use Rattle.writing.specs.Buffer.{filled, puts};
ghost use Rattle.naming.specs.Naming.{same_text};
ghost use Rattle.sources.specs.Sources.{counted, commanded, nothing, asks, with_options, fresh, taken, is_text, mark_size, starts_text};
ghost use Rattle.sources.specs.Contents.{named_one, named_from, digit_of, behind, pair_of, hex_from};

use options::Options;
use writing::put_byte;

// What the words so far have asked for: what `options` takes, whether `--verilog` is among them, and whether the command is `sheet`.
#[derive(Clone, Copy)]
pub struct Words {
    pub options: Options,
    pub verilog: bool,
    pub sheet: bool,
}

// Before the first word.
pub fn begin() -> Words
    ensures { result ≡ nothing }
{
    Words {
        options: options::begin(),
        verilog: false,
        sheet: false,
    }
}

// One word more, which asks nothing of `options`.
#[tactic(auto, unfolding(crate::specs::Sources::counted))]
fn counted(o: Options) -> Options
    ensures { result ≡ counted o }
{
    Options {
        words: stimulus::counted(o.words),
        ..o
    }
}

// One word more: `sheet`, which takes what `check` takes, a file and nothing else.
#[tactic(auto, unfolding(crate::specs::Sources::commanded))]
fn commanded(o: Options) -> Options
    ensures { result ≡ commanded o }
{
    Options {
        words: stimulus::counted(o.words),
        command: 2,
        ..o
    }
}

// Is it the word `sheet`, and in the command's place?
fn asks(o: Options, word: &[u8]) -> bool
    ensures { result ≡ asks o word.now }
{
    o.command == 0 && verilog_tokens::same(word, b"sheet")
}

// A word that `options` takes.
#[tactic(auto, unfolding(crate::specs::Sources::with_options))]
fn passed(w: Words, word: &[u8]) -> Words
    ensures { result ≡ with_options w word.now }
{
    Words {
        options: options::take(w.options, word),
        ..w
    }
}

// A word that no option wants.
fn fresh(w: Words, word: &[u8]) -> Words
    ensures { result ≡ fresh w word.now }
{
    let o = w.options;
    if verilog_tokens::same(word, b"--verilog") {
        return Words {
            options: counted(o),
            verilog: true,
            ..w
        };
    }
    if asks(o, word) {
        return Words {
            options: commanded(o),
            sheet: true,
            ..w
        };
    }
    passed(w, word)
}

// The next word.
pub fn take(w: Words, word: &[u8]) -> Words
    ensures { result ≡ taken w word.now }
{
    if w.options.wants != 0 {
        return passed(w, word);
    }
    fresh(w, word)
}

// Is a file of that name Verilog text? Where `--verilog` says so, or its name ends in `.v`.
#[tactic(auto, unfolding(crate::specs::Sources::is_text))]
pub fn is_text(verilog: bool, path: &[u8]) -> bool
    ensures { result ≡ is_text verilog path.now }
{
    verilog || matches!(path, [.., b'.', b'v'])
}

// How many bytes a byte order mark takes in front of a file.
#[tactic(auto, unfolding(crate::specs::Sources::mark_size))]
pub fn mark_size(bytes: &[u8]) -> usize
    ensures { result ≡ mark_size bytes.now }
{
    if bytes.starts_with(&[0xEF, 0xBB, 0xBF]) {
        3
    } else {
        0
    }
}

// Does a file start as Verilog text does, and as no sheet can?
#[tactic(auto, unfolding(crate::specs::Sources::starts_text))]
pub fn starts_text(bytes: &[u8]) -> bool
    ensures { result ≡ starts_text bytes.now }
{
    matches!(bytes, [b'm' | b'/' | b'`' | b'(', ..])
}

// ---- names

// A variable gets the name that stands so in a text; what is empty or does not lie in the text names nothing.
fn name_one(text: &[u8], place: u16, size: u16, v: usize, names: &mut [u8; 2560])
    ensures { names.new ≡ named_one text.now place size v names.old }
{
    if size == 0 {
        return;
    }
    let from = place as usize;
    let to = from + size as usize;
    if text.len() < to {
        return;
    }
    naming::set_name(names, v, &text[from..to]);
}

// Every variable gets its name out of a text, by places and lengths.
pub fn name_all(text: &[u8], places: &[u16; 80], lengths: &[u16; 80], names: &mut [u8; 2560])
    ensures { names.new
        ≡ named_from text.now places.now lengths.now 80 0 names.old }
{
    for v in 0..80 {
        name_one(text, places[v], lengths[v], v, names);
    }
}

// ---- a sheet as hexadecimal text

// One of the sixteen digits.
#[tactic(auto, unfolding(crate::specs::Contents::digit_of))]
fn digit(n: u8) -> u8
    requires { n < 16 }
    ensures { result ≡ digit_of n }
{
    if n < 10 { b'0' + n } else { b'a' - 10 + n }
}

// What stands behind byte i of a sheet of n: a line has sixteen bytes.
#[tactic(auto, unfolding(crate::specs::Contents::behind))]
fn behind(i: usize, n: usize) -> u8
    ensures { result ≡ behind i n }
{
    if n <= i || i % 16 == 0 { b'\n' } else { b' ' }
}

// A byte's two digits.
fn put_pair(b: u8, out: &mut [u8; 65536], pos: usize) -> usize
    ensures { filled out.new result ≡ puts (filled out.old pos) (pair_of b) }
{
    let p = put_byte(digit(b / 16), out, pos);
    put_byte(digit(b % 16), out, p)
}

// A sheet as hexadecimal text.
pub fn put_sheet(sheet: &[u8], out: &mut [u8; 65536], pos: usize) -> usize
    ensures { filled out.new result
        ≡ puts (filled out.old pos) (hex_from (length sheet.now) 0 sheet.now) }
{
    let mut p = pos;
    for i in 0..sheet.len() {
        let q = put_pair(sheet[i], out, p);
        p = put_byte(behind(i + 1, sheet.len()), out, q);
    }
    p
}
