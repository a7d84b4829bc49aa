// Constants: values behind a base.
ghost use Rattle.std.specs.Prelude.{◌≡◌, ◌+◌, ◌≤◌, drop};
ghost use Rattle.verilog_tokens.specs.Characters.{every};
ghost use Rattle.verilog_tokens.specs.Tokens.{broken, base_of, is_known, is_unknown, value_token, decimal_digits, based};
ghost use Rattle.verilog_tokens.specs.Pieces.{piece_of, piece_in, radix_in, digits_by, some_length};

use crate::characters::{is_below, is_x, run_end};
use crate::numbers::number_in;
use crate::{Class, Kind, Piece};

// The radix of a base's letter.
#[tactic(auto, unfolding(crate::specs::Pieces::radix_in, crate::specs::Tokens::radix_of, crate::specs::Tokens::base_of))]
fn radix_of(b: u8) -> Option<u8>
    ensures { result ≡ some_length (radix_in (base_of b)) }
{
    match b {
        b'b' | b'B' => Some(2),
        b'o' | b'O' => Some(8),
        b'd' | b'D' => Some(10),
        b'h' | b'H' => Some(16),
        _ => None,
    }
}

// Where the decimal digits at a place end, or the x that stands for them.
fn decimal_end(text: &[u8], at: usize) -> usize
    ensures { result ≡ at + decimal_digits (drop at text.now) }
{
    if text.len() <= at {
        return at;
    }
    if is_x(text[at]) {
        return run_end(text, at + 1, Class::Underscore);
    }
    run_end(text, at, Class::Decimal)
}

// Where the digits of a radix at a place end.
#[tactic(auto, unfolding(crate::specs::Pieces::digits_by, crate::specs::Characters::run_end))]
fn digits_end(radix: u8, text: &[u8], at: usize) -> usize
    ensures { result ≡ at + digits_by radix (drop at text.now) }
{
    match radix {
        2 => run_end(text, at, Class::Binary),
        8 => run_end(text, at, Class::Octal),
        10 => decimal_end(text, at),
        _ => run_end(text, at, Class::Hexadecimal),
    }
}

// Is it a digit below a radix, or `_`?
#[tactic(auto, unfolding(crate::specs::Tokens::is_known, crate::specs::Characters::is_underscore))]
fn is_known(radix: u8, b: u8) -> bool
    ensures { result ≡ is_known radix b }
{
    b == b'_' || is_below(radix, b)
}

// Is it x, X or `_`?
#[tactic(auto, unfolding(crate::specs::Tokens::is_unknown, crate::specs::Characters::is_underscore))]
fn is_unknown(b: u8) -> bool
    ensures { result ≡ is_unknown b }
{
    b == b'_' || is_x(b)
}

// Are all digits numbers?
fn all_known(radix: u8, digits: &[u8]) -> bool
    ensures { result ≡ every (is_known radix) digits.now }
{
    for &b in digits {
        if !is_known(radix, b) {
            return false;
        }
    }
    true
}

// Are all digits x?
fn all_unknown(digits: &[u8]) -> bool
    ensures { result ≡ every is_unknown digits.now }
{
    for &b in digits {
        if !is_unknown(b) {
            return false;
        }
    }
    true
}

// A token of that length that stands in no production.
#[tactic(auto, unfolding(crate::specs::Pieces::piece_of, crate::specs::Table::kind_of, crate::specs::Table::number_in))]
fn broken(size: usize) -> Piece
    ensures { result ≡ piece_of broken size }
{
    Piece {
        kind: Kind::Broken as u8,
        number: 0,
        size,
    }
}

// The value of digits in a radix, in a token of that length.
fn value_of(radix: u8, digits: &[u8], size: usize) -> Piece
    ensures { result ≡ piece_of (value_token radix digits.now) size }
{
    if digits.len() == 0 {
        return broken(size);
    }
    if digits[0] == b'_' {
        return broken(size);
    }
    if all_known(radix, digits) {
        let number = number_in(radix, digits);
        return Piece {
            kind: Kind::Known as u8,
            number,
            size,
        };
    }
    if all_unknown(digits) {
        return Piece {
            kind: Kind::Unknown as u8,
            number: 0,
            size,
        };
    }
    broken(size)
}

// The value whose `'` stands in front of the place.
pub fn based(text: &[u8], at: usize) -> Piece
    requires { 1 ≤ at }
    ensures { result ≡ piece_in (based (drop at text.now)) }
{
    if text.len() <= at {
        return broken(1);
    }
    match radix_of(text[at]) {
        Some(radix) => {
            let from = run_end(text, at + 1, Class::Space);
            let end = digits_end(radix, text, from);
            value_of(radix, &text[from..end], end - at + 1)
        }
        None => broken(1),
    }
}
