// The nodes of lent tables: a node from its four words, and its width in a table. Each function equals its definition in specs/ for words of
// any contents.
#![tactic(auto)]

ghost use Rattle.std.specs.Prelude.{◌≡◌, get_or};
ghost use Rattle.nextstate.specs.Nodes.{node_from, node_at};
ghost use Rattle.nodes.specs.Cells.{node_of, operator_of, size_in};

// A node by its kind.
#[derive(Clone, Copy)]
pub enum Cell {
    Variable(u16),
    Constant { width: u16, number: u32 },
    Blank(u16),
    Unary { op: u8, a: u16 },
    Binary { op: u8, a: u16, b: u16 },
    Conditional { c: u16, a: u16, b: u16 },
    Branch { c: u16, a: u16, b: u16 },
}

// ---- nodes

// A word as a place.
pub fn wide(w: u16) -> usize
    ensures { result ≡ w }
{
    w as usize
}

// The word at a place, 0 past the end.
pub fn word_at(words: &[u16], at: usize) -> u16
    ensures { result ≡ get_or words.now at 0 }
{
    if at < words.len() { words[at] } else { 0 }
}

// A node of a kind that is none of a variable's, a constant's, ?: and a branch.
fn operator_of(k: u16, a: u16, b: u16) -> Cell
    ensures { node_of result ≡ operator_of k a b }
{
    if k < 11 || 19 < k {
        return Cell::Blank(0);
    }
    let op = (k - 10) as u8;
    if k <= 12 {
        Cell::Unary { op, a }
    } else {
        Cell::Binary { op, a, b }
    }
}

// The node of four words.
fn cell_of(k: u16, a: u16, b: u16, c: u16) -> Cell
    ensures { node_of result ≡ node_from k a b c }
{
    match k {
        0 => Cell::Variable(a),
        1 => Cell::Constant {
            width: a,
            number: b as u32 + 65536 * c as u32,
        },
        2 => Cell::Blank(a),
        20 => Cell::Conditional { c: a, a: b, b: c },
        40 => Cell::Branch { c: a, a: b, b: c },
        _ => operator_of(k, a, b),
    }
}

// Node `n` of the lent words.
pub fn cell_at(nodes: &[u16], n: u16) -> Cell
    ensures { node_of result ≡ node_at nodes.now n }
{
    let i = 4 * n as usize;
    cell_of(
        word_at(nodes, i),
        word_at(nodes, i + 1),
        word_at(nodes, i + 2),
        word_at(nodes, i + 3),
    )
}

// The width of node `n`, 0 past the last.
pub fn size_at(sizes: &[u8; 4096], n: u16) -> u8
    ensures { result ≡ size_in sizes.now n }
{
    if n < 4096 { sizes[n as usize] } else { 0 }
}
