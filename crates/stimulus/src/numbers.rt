// Words as numbers.
ghost use Rattle.std.specs.Prelude.{◌≡◌, ◌<◌, drop, Some, None};
ghost use Rattle.values.specs.Values.{pick};
ghost use Rattle.stimulus.specs.Counting.{found_at};
ghost use Rattle.stimulus.specs.Numbers.{is_letter_x, is_x, is_hex, grown, number_of};
ghost use Rattle.stimulus.specs.Numbers.{is_letter_b, is_bits, quote_at, is_sized, doubled, spelt, ahead, bits_of};

use crate::words::byte_at;
use crate::{Bits, Number};

// One digit more. A number past 32 bits grows no further.
fn grown(hex: bool, a: Number, b: u8) -> Number
    ensures { result ≡ grown hex a b }
{
    let d = hextext::digit_of(b);
    let n = a.n;
    if hex {
        if 16 <= d {
            return Number { good: false, n: 0 };
        }
        if n < 4294967296 {
            return Number {
                n: n * 16 + d as u64,
                ..a
            };
        }
        return a;
    }
    if 10 <= d {
        return Number { good: false, n: 0 };
    }
    if n < 4294967296 {
        return Number {
            n: n * 10 + d as u64,
            ..a
        };
    }
    a
}

// The digits of a word from a place on.
pub fn number_of(hex: bool, word: &[u8], from: usize) -> Number
    ensures { result ≡ number_of hex (drop from word.now) }
{
    let mut a = Number { good: true, n: 0 };
    for i in from..word.len() {
        a = grown(hex, a, word[i]);
    }
    a
}

#[tactic(auto, unfolding(crate::specs::Numbers::is_letter_x))]
fn is_letter_x(b: u8) -> bool
    ensures { result ≡ is_letter_x b }
{
    matches!(b, b'x' | b'X')
}

// Is the word `x`?
#[tactic(auto, unfolding(crate::specs::Numbers::is_x))]
pub fn is_x(word: &[u8]) -> bool
    ensures { result ≡ is_x word.now }
{
    word.len() == 1 && is_letter_x(byte_at(word, 0))
}

// Does the word start with `0x`, and go on?
#[tactic(auto, unfolding(crate::specs::Numbers::is_hex))]
pub fn is_hex(word: &[u8]) -> bool
    ensures { result ≡ is_hex word.now }
{
    2 < word.len() && byte_at(word, 0) == b'0' && is_letter_x(byte_at(word, 1))
}

#[tactic(auto, unfolding(crate::specs::Numbers::is_letter_b))]
fn is_letter_b(b: u8) -> bool
    ensures { result ≡ is_letter_b b }
{
    matches!(b, b'b' | b'B')
}

// Does the word start with `b`, and go on?
#[tactic(auto, unfolding(crate::specs::Numbers::is_bits))]
pub fn is_bits(word: &[u8]) -> bool
    ensures { result ≡ is_bits word.now }
{
    1 < word.len() && is_letter_b(byte_at(word, 0))
}

// The place of a quote behind one or two characters.
#[tactic(auto, unfolding(crate::specs::Numbers::quote_at))]
fn quote_at(word: &[u8]) -> Option<usize>
    ensures { result ≡ found_at (quote_at word.now) }
{
    if byte_at(word, 1) == b'\'' {
        Some(1)
    } else if byte_at(word, 2) == b'\'' {
        Some(2)
    } else {
        None
    }
}

// The place of the quote of a word that starts with a width and `'b`, and goes on.
#[tactic(auto, unfolding(crate::specs::Numbers::is_sized, crate::specs::Numbers::quote_at))]
pub fn sized_at(word: &[u8]) -> Option<usize>
    ensures { result ≡ pick (is_sized word.now) (Some (quote_at word.now)) None }
{
    match quote_at(word) {
        Some(q) if q + 2 < word.len() && is_letter_b(byte_at(word, q + 1)) => Some(q),
        _ => None,
    }
}

// 32 bits shifted left by one.
#[tactic(auto, unfolding(crate::specs::Numbers::doubled))]
fn doubled(n: u32) -> u32
    ensures value { result ≡ doubled n }
    ensures upper_bound { result < 4294967295 }
{
    n % 2147483648 * 2
}

// One binary digit more.
#[tactic(auto, unfolding(crate::specs::Numbers::spelt, crate::specs::Numbers::is_letter_x))]
fn spelt(a: Bits, b: u8) -> Bits
    ensures { result ≡ spelt a b }
{
    let n = doubled(a.number);
    let marks = doubled(a.marks);
    match b {
        b'0' => Bits {
            number: n,
            marks,
            ..a
        },
        b'1' => Bits {
            number: n + 1,
            marks,
            ..a
        },
        b'x' | b'X' => Bits {
            number: n,
            marks: marks + 1,
            ..a
        },
        _ => Bits {
            good: false,
            number: 0,
            marks: 0,
        },
    }
}

// The marks in front of the digits: all where the first is x.
#[tactic(auto, unfolding(crate::specs::Numbers::ahead))]
fn ahead(b: u8) -> u32
    ensures { result ≡ ahead b }
{
    if is_letter_x(b) { u32::MAX } else { 0 }
}

// The binary digits of a word from a place on.
pub fn bits_of(word: &[u8], from: usize) -> Bits
    ensures { result ≡ bits_of (drop from word.now) }
{
    let mut a = Bits {
        good: true,
        number: 0,
        marks: ahead(byte_at(word, from)),
    };
    for i in from..word.len() {
        a = spelt(a, word[i]);
    }
    a
}
