// The tables of words: commands, options, and which option goes with which command.
ghost use Rattle.std.specs.Prelude.{◌≡◌, true, ◌<◌, length};
ghost use Rattle.options.specs.Tables.{agrees, is_found, goes_on, lettered, ended, among_from, command_of};
ghost use Rattle.options.specs.Tables.{valued_option, lone_option, plain_option, short_option};
ghost use Rattle.options.specs.Tables.{either, option_of, is_number, is_written, is_fed, is_named, goes_with};
ghost use Rattle.options.specs.Tables.{is_course, is_column, goes_beside};

// Is byte n of a word this one?
#[tactic(auto, unfolding(crate::specs::Tables::agrees))]
fn agrees(word: &[u8], n: usize, b: u8) -> bool
    ensures { result ≡ agrees word.now n b }
{
    n < word.len() && word[n] == b
}

// Does the line's word end here, and is it the one?
#[tactic(auto, unfolding(crate::specs::Tables::is_found))]
fn is_found(word: &[u8], n: usize, same: bool, b: u8) -> bool
    ensures { result ≡ is_found word.now n same b }
{
    b == b' ' && same && n == word.len()
}

// Do the bytes of the line's word so far agree?
#[tactic(auto, unfolding(crate::specs::Tables::goes_on))]
fn goes_on(word: &[u8], n: usize, same: bool, b: u8) -> bool
    ensures { result ≡ goes_on word.now n same b }
{
    b == b' ' || (same && agrees(word, n, b))
}

// How many bytes of the line's word are passed.
#[tactic(auto, unfolding(crate::specs::Tables::lettered))]
fn lettered(n: usize, b: u8) -> usize
    requires { n < 18446744073709551615 }
    ensures { result ≡ lettered n b }
{
    if b == b' ' { 0 } else { n + 1 }
}

// How many words of the line are passed.
#[tactic(auto, unfolding(crate::specs::Tables::ended))]
fn ended(k: usize, b: u8) -> usize
    requires { k < 18446744073709551615 }
    ensures { result ≡ ended k b }
{
    if b == b' ' { k + 1 } else { k }
}

// Which word of a line it is, counted on from a number, 0 where it is none; a blank stands behind each word of the line.
fn among(word: &[u8], base: u8, line: &[u8]) -> usize
    requires { length line.now < 65536 }
    ensures { result ≡ among_from word.now base 0 true line.now }
{
    let mut k = base as usize;
    let mut n: usize = 0;
    let mut same = true;
    for i in 0..line.len() {
        let b = line[i];
        if is_found(word, n, same, b) {
            return k + 1;
        }
        same = goes_on(word, n, same, b);
        n = lettered(n, b);
        k = ended(k, b);
    }
    0
}

// A command's number by its word, 0 for any other word.
pub fn command_of(word: &[u8]) -> usize
    ensures { result ≡ command_of word.now }
{
    among(
        word,
        0,
        b"list check run extract compare verilog help explain ",
    )
}

// The slot of an option that takes the next word.
fn valued_option(word: &[u8]) -> usize
    ensures { result ≡ valued_option word.now }
{
    among(
        word,
        0,
        b"--vcd --names --seed --from --to --every --only --expect --user --allowance --save --load --init ",
    )
}

// The slot of an option that stands alone.
fn lone_option(word: &[u8]) -> usize
    ensures { result ≡ lone_option word.now }
{
    among(
        word,
        19,
        b"--by-expressions --wires --last --dot --progress --any-order --inputs --hex --binary --csv ",
    )
}

// The slot of an option that goes with every command, and of the work.
fn plain_option(word: &[u8]) -> usize
    ensures { result ≡ plain_option word.now }
{
    among(word, 31, b"--status --help --version --work ")
}

// The slot of an option in short.
fn short_option(word: &[u8]) -> usize
    ensures { result ≡ short_option word.now }
{
    among(word, 32, b"-h -V ")
}

// The first of two slots that is one.
#[tactic(auto, unfolding(crate::specs::Tables::either))]
fn either(a: usize, b: usize) -> usize
    ensures { result ≡ either a b }
{
    if a == 0 { b } else { a }
}

// The slot of an option, 0 for any other word.
pub fn option_of(word: &[u8]) -> usize
    ensures { result ≡ option_of word.now }
{
    let a = valued_option(word);
    let b = lone_option(word);
    let c = plain_option(word);
    let d = short_option(word);
    either(a, either(b, either(c, d)))
}

// Does a slot take a number?
#[tactic(auto, unfolding(crate::specs::Tables::is_number))]
pub fn is_number(slot: usize) -> bool
    ensures { result ≡ is_number slot }
{
    matches!(slot, 3..=6 | 9)
}

// Does a slot name a file that is written?
#[tactic(auto, unfolding(crate::specs::Tables::is_written))]
pub fn is_written(slot: usize) -> bool
    ensures { result ≡ is_written slot }
{
    matches!(slot, 1 | 11)
}

// Does the command take inputs?
#[tactic(auto, unfolding(crate::specs::Tables::is_fed))]
pub fn is_fed(command: usize) -> bool
    ensures { result ≡ is_fed command }
{
    matches!(command, 3 | 5)
}

// Does the command take names?
#[tactic(auto, unfolding(crate::specs::Tables::is_named))]
fn is_named(command: usize) -> bool
    ensures { result ≡ is_named command }
{
    matches!(command, 3 | 4 | 8)
}

// Does a slot go with a command?
#[tactic(auto, unfolding(crate::specs::Tables::goes_with))]
pub fn goes_with(command: usize, slot: usize) -> bool
    ensures { result ≡ goes_with command slot }
{
    match slot {
        2 => is_named(command),
        23 => command == 4,
        31 => is_fed(command),
        0..=29 | 35 => command == 3,
        _ => true,
    }
}

// ---- what goes with a run by its kind

// Does a slot say where the choices come from?
#[tactic(auto, unfolding(crate::specs::Tables::is_course))]
fn is_course(slot: usize) -> bool
    ensures { result ≡ is_course slot }
{
    matches!(slot, 3 | 20)
}

// Does it say which columns there are?
#[tactic(auto, unfolding(crate::specs::Tables::is_column))]
fn is_column(slot: usize) -> bool
    ensures { result ≡ is_column slot }
{
    matches!(slot, 7 | 21 | 26)
}

// Does a slot go with a run of that kind?
#[tactic(auto, unfolding(crate::specs::Tables::goes_beside))]
pub fn goes_beside(kind: usize, slot: usize) -> bool
    ensures { result ≡ goes_beside kind slot }
{
    match kind {
        10 => !(is_course(slot) || slot == 1 || is_column(slot)),
        11 => slot != 11,
        _ => true,
    }
}
