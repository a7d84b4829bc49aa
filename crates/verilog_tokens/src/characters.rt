// Characters and runs of them.
ghost use Rattle.std.specs.Prelude.{◌≡◌};
ghost use Rattle.verilog_tokens.specs.Characters.{is_newline, is_space, is_letter, is_below, is_x, is_z, is_digit, is_named, is_text, in_class};
ghost use Rattle.verilog_tokens.specs.Characters.{run_end};

use crate::Class;

// Is it LF or CR?
#[tactic(auto, unfolding(crate::specs::Characters::is_newline))]
pub fn is_newline(b: u8) -> bool
    ensures { result ≡ is_newline b }
{
    matches!(b, b'\n' | b'\r')
}

// Is it white space?
#[tactic(auto, unfolding(crate::specs::Characters::is_space))]
fn is_space(b: u8) -> bool
    ensures { result ≡ is_space b }
{
    matches!(b, b' ' | b'\t' | 12) || is_newline(b)
}

// Is it a letter or `_`?
#[tactic(auto, unfolding(crate::specs::Characters::is_letter))]
pub fn is_letter(b: u8) -> bool
    ensures { result ≡ is_letter b }
{
    matches!(b, b'A'..=b'Z' | b'_' | b'a'..=b'z')
}

// Is it a digit below a radix?
#[tactic(auto, unfolding(crate::specs::Characters::is_below))]
pub fn is_below(radix: u8, b: u8) -> bool
    ensures { result ≡ is_below radix b }
{
    hextext::digit_of(b) < radix
}

// Is it x or X?
#[tactic(auto, unfolding(crate::specs::Characters::is_x))]
pub fn is_x(b: u8) -> bool
    ensures { result ≡ is_x b }
{
    matches!(b, b'x' | b'X')
}

// Is it z, Z or `?`?
#[tactic(auto, unfolding(crate::specs::Characters::is_z))]
fn is_z(b: u8) -> bool
    ensures { result ≡ is_z b }
{
    matches!(b, b'z' | b'Z' | b'?')
}

// Is it what may stand among the digits of a radix?
#[tactic(auto, unfolding(crate::specs::Characters::is_digit, crate::specs::Characters::is_underscore))]
fn is_digit(radix: u8, b: u8) -> bool
    ensures { result ≡ is_digit radix b }
{
    is_below(radix, b) || is_x(b) || is_z(b) || b == b'_'
}

// Is it what a word goes on with: a letter, a digit, `_` or `$`?
#[tactic(auto, unfolding(crate::specs::Characters::is_named))]
fn is_named(b: u8) -> bool
    ensures { result ≡ is_named b }
{
    is_letter(b) || is_below(10, b) || b == b'$'
}

// Is it what a one-line comment holds: ASCII, but no line end?
#[tactic(auto, unfolding(crate::specs::Characters::is_text))]
fn is_text(b: u8) -> bool
    ensures { result ≡ is_text b }
{
    b < 128 && !is_newline(b)
}

// Is the character of that kind?
#[tactic(auto, unfolding(crate::specs::Characters::in_class, crate::specs::Characters::is_underscore))]
fn in_class(class: Class, b: u8) -> bool
    ensures { result ≡ in_class class b }
{
    match class {
        Class::Space => is_space(b),
        Class::Word => is_named(b),
        Class::Comment => is_text(b),
        Class::Decimal => b == b'_' || is_below(10, b),
        Class::Binary => is_digit(2, b),
        Class::Octal => is_digit(8, b),
        Class::Hexadecimal => is_digit(16, b),
        Class::Underscore => b == b'_',
    }
}

// The end of the run of such characters that starts at a place.
pub fn run_end(text: &[u8], at: usize, class: Class) -> usize
    ensures { result ≡ run_end class text.now at }
{
    for i in at..text.len() {
        if !in_class(class, text[i]) {
            return i;
        }
    }
    at.max(text.len())
}
