// Runs of characters of a kind.
ghost use Rattle.std.specs.Prelude.{◌≡◌, get_or};
ghost use Rattle.stimulus.specs.Words.{is_named, separates, in_class, run_end, ended};

use crate::Class;

// Is it a letter, a digit or `_`?
#[tactic(auto, unfolding(crate::specs::Words::is_named))]
fn is_named(b: u8) -> bool
    ensures { result ≡ is_named b }
{
    matches!(b, b'0'..=b'9' | b'A'..=b'Z' | b'_' | b'a'..=b'z')
}

// Is it a blank or a comma?
#[tactic(auto, unfolding(crate::specs::Words::separates))]
fn separates(b: u8) -> bool
    ensures { result ≡ separates b }
{
    b == b',' || hextext::is_blank(b)
}

// Is the character of that kind?
#[tactic(auto, unfolding(crate::specs::Words::in_class))]
fn in_class(class: Class, b: u8) -> bool
    ensures { result ≡ in_class class b }
{
    match class {
        Class::Blank => hextext::is_blank(b),
        Class::Word => b != b'#' && !separates(b),
        Class::Name => is_named(b),
    }
}

// The end of the run of such characters that starts at a place.
pub fn run_end(line: &[u8], at: usize, class: Class) -> usize
    ensures { result ≡ run_end class line.now at }
{
    for i in at..line.len() {
        if !in_class(class, line[i]) {
            return i;
        }
    }
    at.max(line.len())
}

// Is there nothing more at that place but a comment?
#[tactic(auto, unfolding(crate::specs::Words::ended))]
pub fn at_end(line: &[u8], p: usize) -> bool
    ensures { result ≡ ended line.now p }
{
    p >= line.len() || line[p] == b'#'
}

// The byte at a place, 0 past the end.
pub fn byte_at(s: &[u8], at: usize) -> u8
    ensures { result ≡ get_or s.now at 0 }
{
    s.get(at).copied().unwrap_or(0)
}
