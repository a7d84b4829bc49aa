// A sheet given as hex text. Blanks (space, tab, CR), line ends and comments, from `#` to the end of the line, are skipped; two
// hex digits of either case, which stand together, make a byte. Each function equals its definition in specs/, for every text.
#![tactic(auto)]

ghost use Rattle.std.specs.Prelude.{◌≡◌};
ghost use Rattle.std.proofs.lemmas.List.Edits.{sets};
ghost use Rattle.hextext.specs.Characters.{digit_of, is_blank, is_gap, is_text};
ghost use Rattle.hextext.specs.Scanning.{more, start, next_line, along, first, second, failed, step};
ghost use Rattle.hextext.specs.Decoding.{completes, stored, full, error_of, ending, decoded, bytes_of};
ghost use Rattle.hextext.specs.Decoding.{found, spotted, spot_of};

// Where a scan stands: the line and the column of the next character, or between the two digits of a byte those of the first;
// is it in a comment; does a first digit wait for its second, and its value; how many bytes are whole; the error, 0 for none.
#[derive(Clone, Copy)]
pub struct Scan {
    pub line: usize,
    pub column: usize,
    pub comment: bool,
    pub half: bool,
    pub high: u8,
    pub count: usize,
    pub error: u8,
}

// What decoding gives: the number of bytes; the error (0 none, 1 a character that is no hex digit, 2 a digit without its second)
// and the line and the column, from 1, of the wrong character or the single digit; without an error, of the place it ended at.
#[derive(Clone, Copy)]
pub struct Decoded {
    pub length: usize,
    pub error: u8,
    pub line: usize,
    pub column: usize,
}

// A place in a text: line and column, from 1.
#[derive(Clone, Copy)]
pub struct Place {
    pub line: usize,
    pub column: usize,
}

// ---- characters

// The value of a hex digit, 16 for another character: a number, as its definition and six crates have it.
#[tactic(auto, unfolding(crate::specs::Characters::digit_of))]
pub fn digit_of(b: u8) -> u8
    ensures { result ≡ digit_of b }
{
    match b {
        b'0'..=b'9' => b - b'0',
        b'A'..=b'F' => b - b'A' + 10,
        b'a'..=b'f' => b - b'a' + 10,
        _ => 16,
    }
}

// Is it a blank within a line: a space, a tab or CR?
#[tactic(auto, unfolding(crate::specs::Characters::is_blank))]
pub fn is_blank(b: u8) -> bool
    ensures { result ≡ is_blank b }
{
    b == b' ' || b == b'\t' || b == b'\r'
}

// Is it a blank or a line end?
#[tactic(auto, unfolding(crate::specs::Characters::is_gap))]
fn is_gap(b: u8) -> bool
    ensures { result ≡ is_gap b }
{
    b == b'\n' || is_blank(b)
}

// Is this hex text? It is if its first character that is neither a blank nor a line end is a hex digit or `#`.
pub fn is_text(bytes: &[u8]) -> bool
    ensures { result ≡ is_text bytes.now }
{
    for &b in bytes {
        if b == b'#' || digit_of(b) < 16 {
            return true;
        }
        if !is_gap(b) {
            return false;
        }
    }
    false
}

// ---- the scan, one character a step

// One more; a count stops at 4,294,967,295.
fn more(n: usize) -> usize
    ensures { result ≡ more n }
{
    if n < 4294967295 { n + 1 } else { n }
}

// The scan before the first character.
fn start() -> Scan
    ensures { result ≡ start }
{
    Scan {
        line: 1,
        column: 1,
        comment: false,
        half: false,
        high: 0,
        count: 0,
        error: 0,
    }
}

// Past a line end.
fn next_line(s: Scan) -> Scan
    ensures { result ≡ next_line s }
{
    Scan {
        line: more(s.line),
        column: 1,
        comment: false,
        ..s
    }
}

// Past a character of the line that is skipped.
fn along(comment: bool, s: Scan) -> Scan
    ensures { result ≡ along comment s }
{
    Scan {
        column: more(s.column),
        comment,
        ..s
    }
}

// A byte's first digit.
fn first(d: u8, s: Scan) -> Scan
    ensures { result ≡ first d s }
{
    Scan {
        half: true,
        high: d,
        ..s
    }
}

// A byte's second digit: the byte is whole.
fn second(s: Scan) -> Scan
    ensures { result ≡ second s }
{
    Scan {
        column: more(more(s.column)),
        half: false,
        count: more(s.count),
        ..s
    }
}

// An error is met.
fn failed(error: u8, s: Scan) -> Scan
    ensures { result ≡ failed error s }
{
    Scan { error, ..s }
}

// Past one character.
fn step(s: Scan, b: u8) -> Scan
    ensures { result ≡ step s b }
{
    if s.comment {
        if b == b'\n' {
            return next_line(s);
        }
        return along(true, s);
    }
    let d = digit_of(b);
    if s.half {
        if d < 16 {
            return second(s);
        }
        return failed(2, s);
    }
    if d < 16 {
        return first(d, s);
    }
    if b == b'\n' {
        return next_line(s);
    }
    if b == b'#' {
        return along(true, s);
    }
    if is_blank(b) {
        return along(false, s);
    }
    failed(1, s)
}

// ---- decoding

// Does the character make a byte whole?
#[tactic(auto, unfolding(crate::specs::Decoding::completes, crate::specs::Characters::is_digit))]
fn completes(s: Scan, b: u8) -> bool
    ensures { result ≡ completes s b }
{
    !s.comment && s.half && digit_of(b) < 16
}

// The byte that the character makes whole, if it makes one, put in its place.
fn store(bytes: &mut [u8; 8193], s: Scan, b: u8)
    ensures { bytes.new ≡ stored bytes.old s b }
{
    if !completes(s, b) {
        return;
    }
    let at = s.count;
    if 8193 <= at {
        return;
    }
    let d = digit_of(b);
    bytes[at] = s.high % 16 * 16 + d % 16;
}

// Does decoding stop here: at an error, or with 8,193 bytes?
#[tactic(auto, unfolding(crate::specs::Decoding::full))]
fn full(s: Scan) -> bool
    ensures { result ≡ full s }
{
    s.error != 0 || 8193 <= s.count
}

// The error that a scan which ends here has. A digit that still waits for its second is one.
#[tactic(auto, unfolding(crate::specs::Decoding::error_of))]
fn error_of(s: Scan) -> u8
    ensures { result ≡ error_of s }
{
    if s.error == 0 && s.half { 2 } else { s.error }
}

// What decoding gives where it ends.
fn ending(s: Scan) -> Decoded
    ensures { result ≡ ending s }
{
    Decoded {
        length: s.count,
        error: error_of(s),
        line: s.line,
        column: s.column,
    }
}

// The bytes of a text, at most 8,193 of them, which is more than any sheet has. Bytes behind them stay as they were.
pub fn decode(text: &[u8], bytes: &mut [u8; 8193]) -> Decoded
    ensures { (result ≡ decoded text.now)
        × (bytes.new ≡ sets bytes.old 0 (bytes_of text.now)) }
{
    let mut s = start();
    for &b in text {
        if full(s) {
            return ending(s);
        }
        store(bytes, s, b);
        s = step(s, b);
    }
    ending(s)
}

// ---- where a byte stands

// Is the first digit of byte `n` read, or an error met?
#[tactic(auto, unfolding(crate::specs::Decoding::found))]
fn found(n: usize, s: Scan) -> bool
    ensures { result ≡ found n s }
{
    s.error != 0 || s.half && s.count == n
}

// Where the scan stands.
fn spotted(s: Scan) -> Place
    ensures { result ≡ spotted s }
{
    Place {
        line: s.line,
        column: s.column,
    }
}

// Where the first digit of byte `n` of the sheet stands in the text; where there is none, the first error or the text's end.
pub fn spot(text: &[u8], n: usize) -> Place
    ensures { result ≡ spot_of text.now n }
{
    let mut s = start();
    for &b in text {
        if found(n, s) {
            return spotted(s);
        }
        s = step(s, b);
    }
    spotted(s)
}
