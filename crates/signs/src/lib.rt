// Operators and constants as Verilog writes them, put into a lent buffer of 65,536 bytes.
// Every contract says: buffer and new position are what putting the text at the old position gives.
#![tactic(auto)]

ghost use Rattle.std.specs.Prelude.{◌≡◌};
ghost use Rattle.writing.specs.Buffer.{filled, puts};
ghost use Rattle.signs.specs.Signs.{sign, operands, lead, constant_text, unknown_text};

use writing::{put_decimal, put_word};

// The sign of an operator, with blanks around one between two operands.
pub fn put_sign(op: u8, text: &mut [u8; 65536], pos: usize) -> usize
    ensures { filled text.new result ≡ puts (filled text.old pos) (sign op) }
{
    match op {
        1 => put_word(b"~", text, pos),
        2 => put_word(b"!", text, pos),
        3 => put_word(b" & ", text, pos),
        4 => put_word(b" | ", text, pos),
        5 => put_word(b" ^ ", text, pos),
        6 => put_word(b" + ", text, pos),
        7 => put_word(b" - ", text, pos),
        8 => put_word(b" == ", text, pos),
        9 => put_word(b" < ", text, pos),
        _ => pos,
    }
}

// How many operands an operator has.
pub fn operands(op: u8) -> u8
    ensures { result ≡ operands op }
{
    if op < 3 {
        1
    } else if op < 10 {
        2
    } else {
        3
    }
}

// What stands in front of an operand, when `n` operands are still to come, this one among them.
pub fn put_lead(op: u8, n: u8, text: &mut [u8; 65536], pos: usize) -> usize
    ensures { filled text.new result ≡ puts (filled text.old pos) (lead op n) }
{
    if n == 3 {
        return pos;
    }
    if n == 2 {
        if op == 10 {
            return put_word(b" ? ", text, pos);
        }
        return pos;
    }
    if op == 10 {
        return put_word(b" : ", text, pos);
    }
    put_sign(op, text, pos)
}

// A constant, as 8'd5.
pub fn put_constant(width: u8, value: u32, text: &mut [u8; 65536], pos: usize) -> usize
    ensures { filled text.new result ≡ puts (filled text.old pos) (constant_text width value) }
{
    let p = put_decimal(width as usize, text, pos);
    let q = put_word(b"'d", text, p);
    put_decimal(value as usize, text, q)
}

// An unknown constant, as 8'bx.
pub fn put_unknown(width: u8, text: &mut [u8; 65536], pos: usize) -> usize
    ensures { filled text.new result ≡ puts (filled text.old pos) (unknown_text width) }
{
    let p = put_decimal(width as usize, text, pos);
    put_word(b"'bx", text, p)
}
