// Digits as numbers: up to 255, or cut to 32 bits.
ghost use Rattle.std.specs.Prelude.{◌≡◌, ◌%◌, ◌<◌, length, drop};
ghost use Rattle.verilog_tokens.specs.Characters.{with_digit, numeral};
ghost use Rattle.verilog_tokens.specs.Tokens.{number_token, unsigned};
ghost use Rattle.verilog_tokens.specs.Table.{up_to255, kind_of};
ghost use Rattle.verilog_tokens.specs.Pieces.{piece_in};

use crate::characters::run_end;
use crate::{Class, Kind, Piece};

// One decimal digit more, up to 255.
#[tactic(auto, unfolding(crate::specs::Table::up_to255, crate::specs::Characters::with_digit, crate::specs::Characters::is_underscore))]
fn grown(n: u8, b: u8) -> u8
    ensures { result ≡ up_to255 (with_digit 10 n b) }
{
    if b == b'_' {
        return n;
    }
    (n as u64 * 10 + hextext::digit_of(b) as u64).min(255) as u8
}

// The number that decimal digits spell, up to 255.
fn number_up_to(digits: &[u8]) -> u8
    ensures { result ≡ up_to255 (numeral 10 digits.now) }
{
    let mut n = 0;
    for &b in digits {
        n = grown(n, b);
    }
    n
}

// One digit more, cut to 32 bits.
fn shifted(radix: u8, n: u32, b: u8) -> u32
    ensures { result ≡ with_digit radix n b % 4294967296 }
{
    if b == b'_' {
        return n;
    }
    let m = n as u64 * radix as u64 + hextext::digit_of(b) as u64;
    (m % 4294967296) as u32
}

// The number that digits spell in a radix, cut to 32 bits.
pub fn number_in(radix: u8, digits: &[u8]) -> u32
    ensures { result ≡ numeral radix digits.now % 4294967296 }
{
    let mut n = 0;
    for &b in digits {
        n = shifted(radix, n, b);
    }
    n
}

// The kind of a number: does it open with 0?
#[tactic(auto, unfolding(crate::specs::Table::kind_of, crate::specs::Tokens::number_token, crate::specs::Tokens::opens_zero))]
fn number_kind(digits: &[u8]) -> u8
    ensures { result ≡ kind_of (number_token digits.now) }
{
    match digits {
        [b'0', ..] => Kind::ZeroFirst as u8,
        _ => Kind::Number as u8,
    }
}

// The number at a place.
pub fn unsigned(text: &[u8], at: usize) -> Piece
    requires { at < length text.now }
    ensures { result ≡ piece_in (unsigned (drop at text.now)) }
{
    let end = run_end(text, at, Class::Decimal);
    let kind = number_kind(&text[at..end]);
    let n = number_up_to(&text[at..end]);
    Piece {
        kind,
        number: n as u32,
        size: end - at,
    }
}
