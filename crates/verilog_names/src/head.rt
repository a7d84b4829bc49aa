// The head of a sheet.
ghost use Rattle.std.specs.Prelude.{◌≡◌, ◌∷◌, [], ◌≤◌, ◌<◌};
ghost use Rattle.writing.specs.Buffer.{filled, puts};
ghost use Rattle.verilog_grammar.specs.Meaning.{up_to};
ghost use Rattle.verilog_names.specs.Chosen.{capped, here, chosen, has_role, count_of};
ghost use Rattle.verilog_names.specs.Head.{widths_of, head_of};

use crate::tokens::{count_of, has_role, up_to};
use writing::put_byte;

// How many tokens have a role, past so many 255.
fn put_count(
    roles: &[u8; 16385],
    count: usize,
    role: u8,
    most: u8,
    text: &mut [u8; 65536],
    pos: usize,
) -> usize
    requires { count ≤ 16385 }
    ensures { filled text.new result ≡
        puts (filled text.old pos) (up_to most (count_of roles.now count role) ∷ []) }
{
    let n = count_of(roles, count, role);
    put_byte(up_to(most, n), text, pos)
}

// A token's width, where it has that role.
fn put_width(
    roles: &[u8; 16385],
    widths: &[u8; 16385],
    role: u8,
    i: usize,
    text: &mut [u8; 65536],
    pos: usize,
) -> usize
    requires { i < 16385 }
    ensures { filled text.new result ≡
        puts (filled text.old pos) (widths_of widths.now (here (has_role roles.now role) i)) }
{
    if has_role(roles, role, i) {
        return put_byte(widths[i], text, pos);
    }
    pos
}

// The widths of all tokens of a role.
fn put_widths(
    roles: &[u8; 16385],
    widths: &[u8; 16385],
    count: usize,
    role: u8,
    text: &mut [u8; 65536],
    pos: usize,
) -> usize
    requires { count ≤ 16385 }
    ensures { filled text.new result ≡
        puts (filled text.old pos) (widths_of widths.now (chosen (has_role roles.now role) count 0)) }
{
    let mut p = pos;
    for i in 0..count {
        p = put_width(roles, widths, role, i, text, p);
    }
    p
}

// The counts of inputs, registers, wires and threads, and the variables' widths.
pub fn put_head(
    roles: &[u8; 16385],
    widths: &[u8; 16385],
    count: usize,
    text: &mut [u8; 65536],
    pos: usize,
) -> usize
    ensures { filled text.new result ≡
        puts (filled text.old pos) (head_of roles.now widths.now (capped count)) }
{
    let n = count.min(16385);
    let a = put_count(roles, n, 1, 16, text, pos);
    let b = put_count(roles, n, 2, 32, text, a);
    let c = put_count(roles, n, 3, 32, text, b);
    let d = put_count(roles, n, 5, 8, text, c);
    let e = put_widths(roles, widths, n, 1, text, d);
    let f = put_widths(roles, widths, n, 2, text, e);
    put_widths(roles, widths, n, 3, text, f)
}
