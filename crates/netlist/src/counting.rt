// How often nodes are used. Each function equals its definition in specs/Uses, for words and counts of any contents.
ghost use Rattle.std.specs.Prelude.{◌≡◌, ◌≤◌, min};
ghost use Rattle.nodes.specs.Cells.{node_of};
ghost use Rattle.netlist.specs.Uses.{operands_of, one_more, counted, all_counted, operand_uses, entry_uses};

use crate::words::cell_at;
use nodes::Cell;

// The lesser of two numbers.
pub fn lesser(a: usize, b: usize) -> usize
    ensures { result ≡ min a b }
{
    if a < b { a } else { b }
}

// One more, up to 2.
fn one_more(u: u8) -> u8
    ensures { result ≡ one_more u }
{
    if u < 2 { u + 1 } else { 2 }
}

// One use more of node `n`.
fn count_use(n: u16, uses: &mut [u8; 4096])
    ensures { uses.new ≡ counted uses.old n }
{
    let i = n as usize;
    if i < 4096 {
        uses[i] = one_more(uses[i]);
    }
}

// One use more of each operand.
fn count_operands(cell: Cell, uses: &mut [u8; 4096])
    ensures { uses.new ≡ all_counted uses.old (operands_of (node_of cell)) }
{
    match cell {
        Cell::Variable(_) => {}
        Cell::Constant {
            width: _,
            number: _,
        } => {}
        Cell::Blank(_) => {}
        Cell::Unary { op: _, a } => count_use(a, uses),
        Cell::Binary { op: _, a, b } => {
            count_use(a, uses);
            count_use(b, uses);
        }
        Cell::Conditional { c, a, b } => {
            count_use(c, uses);
            count_use(a, uses);
            count_use(b, uses);
        }
        Cell::Branch { c, a, b } => {
            count_use(c, uses);
            count_use(a, uses);
            count_use(b, uses);
        }
    }
}

// The operands of the first `count` nodes.
pub fn count_nodes(nodes: &[u16; 16384], count: usize, uses: &mut [u8; 4096])
    requires { count ≤ 4096 }
    ensures { uses.new ≡ operand_uses nodes.now uses.old count }
{
    for n in 0..count {
        let cell = cell_at(nodes, n as u16);
        count_operands(cell, uses);
    }
}

// The first `count` entries.
pub fn count_entries(rows: &[u16; 1056], count: usize, uses: &mut [u8; 4096])
    requires { count ≤ 1056 }
    ensures { uses.new ≡ entry_uses rows.now uses.old count }
{
    for k in 0..count {
        count_use(rows[k], uses);
    }
}
