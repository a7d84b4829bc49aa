// A node of the lent words. Each function equals its definition in specs/Cells, for words of any contents.
ghost use Rattle.std.specs.Prelude.{◌≡◌, ◌%◌};
ghost use Rattle.nodes.specs.Cells.{node_of};
ghost use Rattle.netlist.specs.Cells.{node_in, is_operator};

use nodes::Cell;

// A word as a place.
pub fn wide(w: u16) -> usize
    ensures { result ≡ w }
{
    w as usize
}

// A width in a byte.
pub fn narrow(w: u16) -> u8
    ensures { result ≡ w % 256 }
{
    (w % 256) as u8
}

// Node `n` of the lent words.
pub fn cell_at(nodes: &[u16; 16384], n: u16) -> Cell
    ensures { node_of result ≡ node_in nodes.now n }
{
    if 4096 <= n {
        return Cell::Blank(0);
    }
    nodes::cell_at(nodes, n)
}

// Is a node an operator, ?: or a branch?
pub fn is_operator(cell: Cell) -> bool
    ensures { result ≡ is_operator (node_of cell) }
{
    match cell {
        Cell::Variable(_) => false,
        Cell::Constant {
            width: _,
            number: _,
        } => false,
        Cell::Blank(_) => false,
        Cell::Unary { op: _, a: _ } => true,
        Cell::Binary { op: _, a: _, b: _ } => true,
        Cell::Conditional { c: _, a: _, b: _ } => true,
        Cell::Branch { c: _, a: _, b: _ } => true,
    }
}
