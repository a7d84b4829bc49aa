// The numbers of names: a name has that of the first one that is spelled the same.
ghost use Rattle.std.specs.Prelude.{◌≡◌, ◌≤◌, ◌<◌, eqb, length, take};
ghost use Rattle.values.specs.Values.{pick};
ghost use Rattle.naming.specs.Naming.{same_text};
ghost use Rattle.verilog_tokens.specs.Table.{place_of};
ghost use Rattle.verilog_scan.specs.Scan.{spelled_at, differs, names_at};

use verilog_tokens::{Class, run_end, same};

// Does a word begin with another byte than stands at a place?
#[tactic(auto, unfolding(crate::specs::Scan::differs))]
fn differs(text: &[u8], at: usize, word: &[u8]) -> bool
    requires { at < length text.now }
    ensures { result ≡ differs text.now at word.now }
{
    !word.is_empty() && text[at] != word[0]
}

// Is the word at a place spelled so?
fn spelled_so(text: &[u8], at: usize, word: &[u8]) -> bool
    ensures { result ≡ same_text (spelled_at text.now at) word.now }
{
    if text.len() <= at {
        return word.is_empty();
    }
    if differs(text, at, word) {
        return false;
    }
    let end = run_end(text, at, Class::Word);
    same(&text[at..end], word)
}

// The first of so many places whose word is spelled so; their number where none is.
fn first_spelled(text: &[u8], starts: &[u16; 16385], names: usize, word: &[u8]) -> usize
    requires { (names ≤ 16385) × (names ≤ length starts.now) }
    ensures { result ≡ place_of (names_at text.now (take names starts.now)) word.now }
{
    for i in 0..names {
        if spelled_so(text, starts[i] as usize, word) {
            return i;
        }
    }
    names
}

// The number of a token at a place: a name's among those before it, else the one that it has.
pub fn number_of(
    text: &[u8],
    starts: &[u16; 16385],
    names: usize,
    at: usize,
    kind: u8,
    number: u32,
) -> u32
    requires { (names ≤ 16385) × (names ≤ length starts.now) × (at ≤ length text.now) }
    ensures { result ≡ pick (eqb kind 64)
        (place_of (names_at text.now (take names starts.now)) (spelled_at text.now at)) number }
{
    if kind != 64 {
        return number;
    }
    let end = run_end(text, at, Class::Word);
    first_spelled(text, starts, names, &text[at..end]) as u32
}
