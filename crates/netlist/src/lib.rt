// The extracted expressions (document 01, "Extraction and the cycle run") as text: nodes with infix operators, rows, and a Graphviz
// graph, from lent tables of any contents. What is printed goes into a lent buffer of 65,536 bytes; such a contract says: buffer and
// new position are what putting the text at the old position gives.
#![tactic(auto)]

mod counting;
mod dot;
mod printing;
mod words;

ghost use Rattle.std.specs.Prelude.{◌≡◌, ◌<◌};
ghost use Rattle.writing.specs.Buffer.{filled, puts};
ghost use Rattle.netlist.specs.Cells.{blank, node_count};
ghost use Rattle.netlist.specs.Uses.{uses_of, named};
ghost use Rattle.netlist.specs.Infix.{infix_text, node_line, entry_line, place_line};
ghost use Rattle.netlist.specs.Dot.{dot_node};

use counting::{count_entries, count_nodes, lesser};
use dot::{print_edges, print_label};
use naming::put_name;
use printing::{print_operand, print_own};
use words::{cell_at, is_operator};
use writing::{put_byte, put_marked, put_word};

// ---- counts

// Are the four words of node `n` 0?
fn is_blank(nodes: &[u16; 16384], n: usize) -> bool
    requires { n < 4096 }
    ensures { result ≡ blank nodes.now n }
{
    let i = 4 * n;
    let kind = nodes[i];
    let first = nodes[i + 1];
    let second = nodes[i + 2];
    let third = nodes[i + 3];
    if kind != 0 {
        return false;
    }
    if first != 0 {
        return false;
    }
    if second != 0 {
        return false;
    }
    third == 0
}

// One past the last node with a word that isn't 0. Node 0 is always there.
pub fn node_count(nodes: &[u16; 16384]) -> usize
    ensures { result ≡ node_count nodes.now }
{
    let mut n: usize = 4096;
    while 1 < n {
        if !is_blank(nodes, n - 1) {
            return n;
        }
        n -= 1;
    }
    1
}

// How often each node is an operand of the first `count` nodes or an entry of the first `waits` rows: 0, 1, or 2 for more.
pub fn fill_uses(
    nodes: &[u16; 16384],
    rows: &[u16; 1056],
    count: usize,
    waits: usize,
    uses: &mut [u8; 4096],
)
    ensures { uses.new ≡ uses_of nodes.now rows.now count waits }
{
    *uses = [0u8; 4096];
    let n = lesser(count, 4096);
    count_nodes(nodes, n, uses);
    let k = 33 * lesser(waits, 32);
    count_entries(rows, k, uses);
}

// Has node `n` a line of its own?
pub fn is_named(nodes: &[u16; 16384], uses: &[u8; 4096], n: u16) -> bool
    ensures { result ≡ named nodes.now uses.now n }
{
    if 4096 <= n {
        return false;
    }
    let cell = cell_at(nodes, n);
    if !is_operator(cell) {
        return false;
    }
    2 <= uses[n as usize]
}

// ---- text

// A node where it is used: its name, or the node written out.
pub fn print_node(
    nodes: &[u16; 16384],
    uses: &[u8; 4096],
    names: &[u8; 2560],
    n: u16,
    text: &mut [u8; 65536],
    pos: usize,
) -> usize
    ensures { filled text.new result ≡ puts (filled text.old pos)
        (infix_text names.now nodes.now uses.now n) }
{
    print_operand(nodes, uses, names, 4096, n, text, pos)
}

// The line of a node that has one of its own.
pub fn print_definition(
    nodes: &[u16; 16384],
    uses: &[u8; 4096],
    names: &[u8; 2560],
    n: u16,
    text: &mut [u8; 65536],
    pos: usize,
) -> usize
    ensures { filled text.new result ≡ puts (filled text.old pos)
        (node_line names.now nodes.now uses.now n) }
{
    let p = put_marked(b'n', n as usize, text, pos);
    let q = put_word(b" = ", text, p);
    let e = print_own(nodes, uses, names, n, text, q);
    put_byte(b'\n', text, e)
}

// A register's next value in a row; `target` is the register's variable.
pub fn print_entry(
    nodes: &[u16; 16384],
    uses: &[u8; 4096],
    names: &[u8; 2560],
    target: usize,
    n: u16,
    text: &mut [u8; 65536],
    pos: usize,
) -> usize
    ensures { filled text.new result ≡ puts (filled text.old pos)
        (entry_line names.now nodes.now uses.now target n) }
{
    let p = put_word(b"  ", text, pos);
    let q = put_name(names, target, text, p);
    let w = put_word(b" <= ", text, q);
    let e = print_node(nodes, uses, names, n, text, w);
    put_byte(b'\n', text, e)
}

// The next place in a row.
pub fn print_place(
    nodes: &[u16; 16384],
    uses: &[u8; 4096],
    names: &[u8; 2560],
    n: u16,
    text: &mut [u8; 65536],
    pos: usize,
) -> usize
    ensures { filled text.new result ≡ puts (filled text.old pos)
        (place_line names.now nodes.now uses.now n) }
{
    let p = put_word(b"  next place: ", text, pos);
    let e = print_node(nodes, uses, names, n, text, p);
    put_byte(b'\n', text, e)
}

// ---- graph

// A node and its operands.
pub fn print_dot_node(
    nodes: &[u16; 16384],
    names: &[u8; 2560],
    n: u16,
    text: &mut [u8; 65536],
    pos: usize,
) -> usize
    ensures { filled text.new result ≡ puts (filled text.old pos)
        (dot_node names.now nodes.now n) }
{
    let cell = cell_at(nodes, n);
    let p = put_word(b"  ", text, pos);
    let q = put_marked(b'n', n as usize, text, p);
    let w = put_word(b" [label=\"", text, q);
    let l = print_label(names, cell, text, w);
    let e = put_word(b"\"];\n", text, l);
    print_edges(n, cell, text, e)
}
