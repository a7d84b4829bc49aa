// Nodes as text with infix operators. The functions call each other: an operand is printed out only where it is below its node.
ghost use Rattle.std.specs.Prelude.{◌≡◌};
ghost use Rattle.writing.specs.Buffer.{filled, puts};
ghost use Rattle.nextstate.specs.Nodes.{a_binary, a_conditional, a_branch};
ghost use Rattle.netlist.specs.Infix.{written, operand_below, own_text};

use crate::is_named;
use crate::words::{cell_at, narrow, wide};
use naming::put_name;
use nodes::Cell;
use signs::{put_constant, put_sign, put_unknown};
use writing::{put_byte, put_marked, put_word};

// Node `n` as an operand of node `below`.
#[cycle(print_binary_print_branch_print_conditional_print_operand_print_own)]
pub fn print_operand(
    nodes: &[u16; 16384],
    uses: &[u8; 4096],
    names: &[u8; 2560],
    below: u16,
    n: u16,
    text: &mut [u8; 65536],
    pos: usize,
) -> usize
    ensures { filled text.new result ≡ puts (filled text.old pos)
        (operand_below names.now nodes.now uses.now below n) }
{
    if below <= n {
        return put_marked(b'n', n as usize, text, pos);
    }
    if is_named(nodes, uses, n) {
        return put_marked(b'n', n as usize, text, pos);
    }
    print_own(nodes, uses, names, n, text, pos)
}

// An operator of node `n` between two operands.
#[cycle(print_binary_print_branch_print_conditional_print_operand_print_own)]
fn print_binary(
    nodes: &[u16; 16384],
    uses: &[u8; 4096],
    names: &[u8; 2560],
    n: u16,
    op: u8,
    a: u16,
    b: u16,
    text: &mut [u8; 65536],
    pos: usize,
) -> usize
    ensures { filled text.new result ≡ puts (filled text.old pos)
        (written names.now (operand_below names.now nodes.now uses.now n) (a_binary op a b)) }
{
    let p = put_byte(b'(', text, pos);
    let q = print_operand(nodes, uses, names, n, a, text, p);
    let s = put_sign(op, text, q);
    let e = print_operand(nodes, uses, names, n, b, text, s);
    put_byte(b')', text, e)
}

// ?: of node `n`.
#[cycle(print_binary_print_branch_print_conditional_print_operand_print_own)]
fn print_conditional(
    nodes: &[u16; 16384],
    uses: &[u8; 4096],
    names: &[u8; 2560],
    n: u16,
    c: u16,
    a: u16,
    b: u16,
    text: &mut [u8; 65536],
    pos: usize,
) -> usize
    ensures { filled text.new result ≡ puts (filled text.old pos)
        (written names.now (operand_below names.now nodes.now uses.now n) (a_conditional c a b)) }
{
    let p = put_byte(b'(', text, pos);
    let q = print_operand(nodes, uses, names, n, c, text, p);
    let s = put_word(b" ? ", text, q);
    let t = print_operand(nodes, uses, names, n, a, text, s);
    let u = put_word(b" : ", text, t);
    let e = print_operand(nodes, uses, names, n, b, text, u);
    put_byte(b')', text, e)
}

// A branch of node `n`.
#[cycle(print_binary_print_branch_print_conditional_print_operand_print_own)]
fn print_branch(
    nodes: &[u16; 16384],
    uses: &[u8; 4096],
    names: &[u8; 2560],
    n: u16,
    c: u16,
    a: u16,
    b: u16,
    text: &mut [u8; 65536],
    pos: usize,
) -> usize
    ensures { filled text.new result ≡ puts (filled text.old pos)
        (written names.now (operand_below names.now nodes.now uses.now n) (a_branch c a b)) }
{
    let p = put_word(b"if(", text, pos);
    let q = print_operand(nodes, uses, names, n, c, text, p);
    let s = put_word(b", ", text, q);
    let t = print_operand(nodes, uses, names, n, a, text, s);
    let u = put_word(b", ", text, t);
    let e = print_operand(nodes, uses, names, n, b, text, u);
    put_byte(b')', text, e)
}

// Node `n` written out.
#[cycle(print_binary_print_branch_print_conditional_print_operand_print_own)]
pub fn print_own(
    nodes: &[u16; 16384],
    uses: &[u8; 4096],
    names: &[u8; 2560],
    n: u16,
    text: &mut [u8; 65536],
    pos: usize,
) -> usize
    ensures { filled text.new result ≡ puts (filled text.old pos)
        (own_text names.now nodes.now uses.now n) }
{
    let cell = cell_at(nodes, n);
    match cell {
        Cell::Variable(v) => put_name(names, wide(v), text, pos),
        Cell::Constant { width, number } => put_constant(narrow(width), number, text, pos),
        Cell::Blank(width) => put_unknown(narrow(width), text, pos),
        Cell::Unary { op, a } => {
            let p = put_sign(op, text, pos);
            print_operand(nodes, uses, names, n, a, text, p)
        }
        Cell::Binary { op, a, b } => print_binary(nodes, uses, names, n, op, a, b, text, pos),
        Cell::Conditional { c, a, b } => {
            print_conditional(nodes, uses, names, n, c, a, b, text, pos)
        }
        Cell::Branch { c, a, b } => print_branch(nodes, uses, names, n, c, a, b, text, pos),
    }
}
