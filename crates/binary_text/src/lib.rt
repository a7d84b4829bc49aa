// A value bit by bit, put into a lent buffer: one digit a bit, x where it is unknown.
#![tactic(auto)]

ghost use Rattle.std.specs.Prelude.{◌≡◌};
ghost use Rattle.writing.specs.Buffer.{filled, puts};
ghost use Rattle.binary_text.specs.BinaryText.{bit, bits, bits_of, is_known, is_x};

use values::Value;
use writing::put_byte;

// The digit of the lowest bit of a number with marks.
fn bit(n: u32, marks: u32) -> u8
    ensures { result ≡ bit n marks }
{
    if marks % 2 != 0 {
        return b'x';
    }
    48 + (n % 2) as u8
}

// The digits of the lowest bits.
pub fn put_bits(width: u8, n: u32, marks: u32, text: &mut [u8; 65536], pos: usize) -> usize
    ensures { filled text.new result ≡ puts (filled text.old pos) (bits width n marks) }
{
    if width == 0 {
        return pos;
    }
    let p = put_bits(width - 1, n / 2, marks / 2, text, pos);
    put_byte(bit(n, marks), text, p)
}

// A value bit by bit.
pub fn put_value(width: u8, a: Value, text: &mut [u8; 65536], pos: usize) -> usize
    ensures { filled text.new result ≡ puts (filled text.old pos) (bits_of width a) }
{
    put_bits(width, a.number, a.unknown, text, pos)
}

// Is no bit unknown?
pub fn is_known(a: Value) -> bool
    ensures { result ≡ is_known a }
{
    a.unknown == 0
}

// Is every bit of the width unknown?
pub fn is_x(width: u8, a: Value) -> bool
    ensures { result ≡ is_x width a }
{
    a.unknown == values::all_unknown(width).unknown
}
