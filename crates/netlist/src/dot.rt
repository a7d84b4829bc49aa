// The lines of a Graphviz graph. Each function equals its definition in specs/Dot.
ghost use Rattle.std.specs.Prelude.{◌≡◌};
ghost use Rattle.writing.specs.Buffer.{filled, puts};
ghost use Rattle.signs.specs.Signs.{sign};
ghost use Rattle.nodes.specs.Cells.{node_of};
ghost use Rattle.netlist.specs.Dot.{unblanked, label, edge, plain_edge, lettered_edge, arms, edges};

use crate::words::{narrow, wide};
use naming::put_name;
use nodes::Cell;
use signs::{put_constant, put_unknown};
use writing::{put_byte, put_marked, put_word};

// An operator's sign without blanks.
fn print_sign(op: u8, text: &mut [u8; 65536], pos: usize) -> usize
    ensures { filled text.new result ≡ puts (filled text.old pos) (unblanked (sign op)) }
{
    match op {
        1 => put_byte(b'~', text, pos),
        2 => put_byte(b'!', text, pos),
        3 => put_byte(b'&', text, pos),
        4 => put_byte(b'|', text, pos),
        5 => put_byte(b'^', text, pos),
        6 => put_byte(b'+', text, pos),
        7 => put_byte(b'-', text, pos),
        8 => put_word(b"==", text, pos),
        9 => put_byte(b'<', text, pos),
        _ => pos,
    }
}

// A node's label.
pub fn print_label(names: &[u8; 2560], cell: Cell, text: &mut [u8; 65536], pos: usize) -> usize
    ensures { filled text.new result ≡ puts (filled text.old pos)
        (label names.now (node_of cell)) }
{
    match cell {
        Cell::Variable(v) => put_name(names, wide(v), text, pos),
        Cell::Constant { width, number } => put_constant(narrow(width), number, text, pos),
        Cell::Blank(width) => put_unknown(narrow(width), text, pos),
        Cell::Unary { op, a: _ } => print_sign(op, text, pos),
        Cell::Binary { op, a: _, b: _ } => print_sign(op, text, pos),
        Cell::Conditional { c: _, a: _, b: _ } => put_word(b"?:", text, pos),
        Cell::Branch { c: _, a: _, b: _ } => put_word(b"if", text, pos),
    }
}

// From a node to an operand.
fn print_edge(n: u16, m: u16, text: &mut [u8; 65536], pos: usize) -> usize
    ensures { filled text.new result ≡ puts (filled text.old pos) (edge n m) }
{
    let p = put_word(b"  ", text, pos);
    let q = put_marked(b'n', n as usize, text, p);
    let w = put_word(b" -> ", text, q);
    put_marked(b'n', m as usize, text, w)
}

fn print_plain(n: u16, m: u16, text: &mut [u8; 65536], pos: usize) -> usize
    ensures { filled text.new result ≡ puts (filled text.old pos) (plain_edge n m) }
{
    let p = print_edge(n, m, text, pos);
    put_word(b";\n", text, p)
}

fn print_lettered(n: u16, m: u16, letter: u8, text: &mut [u8; 65536], pos: usize) -> usize
    ensures { filled text.new result ≡ puts (filled text.old pos) (lettered_edge n m letter) }
{
    let p = print_edge(n, m, text, pos);
    let q = put_word(b" [label=\"", text, p);
    let w = put_byte(letter, text, q);
    put_word(b"\"];\n", text, w)
}

// From ?: or a branch to its condition and its arms.
fn print_arms(n: u16, c: u16, a: u16, b: u16, text: &mut [u8; 65536], pos: usize) -> usize
    ensures { filled text.new result ≡ puts (filled text.old pos) (arms n c a b) }
{
    let p = print_lettered(n, c, b'c', text, pos);
    let q = print_lettered(n, a, b'a', text, p);
    print_lettered(n, b, b'b', text, q)
}

// From a node to its operands.
pub fn print_edges(n: u16, cell: Cell, text: &mut [u8; 65536], pos: usize) -> usize
    ensures { filled text.new result ≡ puts (filled text.old pos) (edges n (node_of cell)) }
{
    match cell {
        Cell::Variable(_) => pos,
        Cell::Constant {
            width: _,
            number: _,
        } => pos,
        Cell::Blank(_) => pos,
        Cell::Unary { op: _, a } => print_plain(n, a, text, pos),
        Cell::Binary { op: _, a, b } => {
            let p = print_plain(n, a, text, pos);
            print_plain(n, b, text, p)
        }
        Cell::Conditional { c, a, b } => print_arms(n, c, a, b, text, pos),
        Cell::Branch { c, a, b } => print_arms(n, c, a, b, text, pos),
    }
}
