// Bytes of a sheet: plain, within limits, and four as a number.
ghost use Rattle.std.specs.Prelude.{◌≡◌, ◌-◌, length, get_or};
ghost use Rattle.sheet.specs.Reading.{within, word, word_of, word_at};
ghost use Rattle.sheet.specs.Expression.{variable_at};
ghost use Rattle.sheet.specs.Parts.{byte_answer, FunctionNamed};
ghost use Rattle.sheet.specs.Reader.{word_answer};

use super::{ByteRead, WordRead};

// The byte at a place, 0 past the end.
pub fn byte_at(s: &[u8], at: usize) -> u8
    ensures { result ≡ get_or s.now at 0 }
{
    s.get(at).copied().unwrap_or(0)
}

// Four bytes as a number, low byte first.
fn word(a: u8, b: u8, c: u8, d: u8) -> u32
    ensures { result ≡ word a b c d }
{
    u32::from_le_bytes([a, b, c, d])
}

// The number whose four bytes stand at a place, 0 for those past the end.
pub fn word_at(s: &[u8], at: usize) -> u32
    ensures { result ≡ word_of s.now at }
{
    if s.len() <= at {
        return 0;
    }
    word(
        byte_at(s, at),
        byte_at(s, at + 1),
        byte_at(s, at + 2),
        byte_at(s, at + 3),
    )
}

// The number at a place: all four bytes are read before it is judged.
pub(crate) fn read_word(sheet: &[u8], at: usize) -> WordRead
    ensures { result ≡ word_answer (word_at sheet.now at) }
{
    if left_of(sheet, at) < 4 {
        return WordRead::Refused {
            number: 2,
            place: sheet.len(),
        };
    }
    WordRead::Word(word_at(sheet, at))
}

// How many bytes a place has before it ends.
pub(crate) fn left_of(sheet: &[u8], at: usize) -> usize
    ensures { result ≡ length sheet.now - at }
{
    sheet.len().saturating_sub(at)
}

// A byte from low to high; outside, the number is met at that byte.
pub(crate) fn read_within(sheet: &[u8], at: usize, low: u8, high: u8, number: u8) -> ByteRead
    ensures { result ≡ byte_answer (within low high number sheet.now at) }
{
    let end = sheet.len();
    if end <= at {
        return ByteRead::Refused {
            number: 2,
            place: end,
        };
    }
    let b = sheet[at];
    if b < low || high < b {
        return ByteRead::Refused { number, place: at };
    }
    ByteRead::Byte(b)
}

// A byte that names one of the variables.
pub(crate) fn read_name(sheet: &[u8], widths: &[u8], at: usize) -> ByteRead
    ensures { result ≡ byte_answer (variable_at widths.now sheet.now at) }
{
    let end = sheet.len();
    if end <= at {
        return ByteRead::Refused {
            number: 2,
            place: end,
        };
    }
    let v = sheet[at];
    if widths.len() <= v as usize {
        return ByteRead::Refused {
            number: 6,
            place: at,
        };
    }
    ByteRead::Byte(v)
}

// A byte that names one of the functions that may be called here.
pub(crate) fn read_function(sheet: &[u8], declared: u8, callable: u8, at: usize) -> ByteRead
    ensures { FunctionNamed result declared callable sheet.now at }
{
    let end = sheet.len();
    if end <= at {
        return ByteRead::Refused {
            number: 2,
            place: end,
        };
    }
    let n = sheet[at];
    if declared <= n {
        return ByteRead::Refused {
            number: 6,
            place: at,
        };
    }
    if callable <= n {
        return ByteRead::Refused {
            number: 44,
            place: at,
        };
    }
    ByteRead::Byte(n)
}
