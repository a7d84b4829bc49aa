// The nodes of lent tables: each is judged once, by the widths of those before it.
ghost use Rattle.std.specs.Prelude.{◌≡◌, ◌&&◌, ◌+◌, ◌-◌, ◌*◌, ◌^◌, ◌%◌, ◌≤◌, ltb, eqb, get_or, replicate};
ghost use Rattle.std.proofs.lemmas.List.Edits.{sets};
ghost use Rattle.plan.specs.Plan.{plan_of};
ghost use Rattle.nodes.specs.Cells.{node_of, size_in, is_width, arms_fit, fits_at};
ghost use Rattle.clock_check.specs.Judging.{variables_in, width_on, nodes_fit_below, width_table, Rest};

use nodes::{Cell, cell_at, size_at, word_at};
use plan::PlanTable;

// Is it a width?
fn is_width(w: u16) -> bool
    ensures { result ≡ is_width w }
{
    1 <= w && w <= 32
}

// Is it a width, and the number below 2 to it?
fn constant_fits(w: u16, n: u32) -> bool
    ensures { result ≡ (is_width w && ltb n (2 ^ w)) }
{
    is_width(w) && values::below(w as u8, n)
}

// Are two nodes before node `n`, and of one width?
#[tactic(auto, unfolding(nodes::specs::Cells::arms_fit))]
fn arms_fit(sizes: &[u8; 4096], n: u16, a: u16, b: u16) -> bool
    ensures { result ≡ arms_fit n (size_in sizes.now) a b }
{
    a < n && b < n && size_at(sizes, a) == size_at(sizes, b)
}

// Is node `n` in order, where there are so many variables and the nodes before it have these widths?
#[tactic(auto, unfolding(nodes::specs::Cells::node_of, nodes::specs::Cells::fits_at))]
fn node_fits(variables: usize, sizes: &[u8; 4096], n: u16, cell: Cell) -> bool
    ensures { result ≡ fits_at variables n (size_in sizes.now) (node_of cell) }
{
    match cell {
        Cell::Variable(v) => (v as usize) < variables,
        Cell::Constant { width, number } => constant_fits(width, number),
        Cell::Blank(width) => is_width(width),
        Cell::Unary { a, .. } => a < n,
        Cell::Binary { a, b, .. } => arms_fit(sizes, n, a, b),
        Cell::Conditional { c, a, b } | Cell::Branch { c, a, b } => {
            c < n && arms_fit(sizes, n, a, b)
        }
    }
}

// The width of a node, the nodes before it having these widths.
#[tactic(auto, unfolding(nodes::specs::Cells::node_of, crate::specs::Judging::width_on))]
fn node_width(plan: &PlanTable, sizes: &[u8; 4096], cell: Cell) -> u8
    ensures { result ≡ width_on (plan_of plan.now) (size_in sizes.now) (node_of cell) }
{
    match cell {
        Cell::Variable(v) => plan::width(plan, v as usize),
        Cell::Constant { width, .. } | Cell::Blank(width) => (width % 256) as u8,
        Cell::Unary { op, a } => values::unary_width(op, size_at(sizes, a)),
        Cell::Binary { op, a, .. } => values::binary_width(op, size_at(sizes, a)),
        Cell::Conditional { a, .. } | Cell::Branch { a, .. } => size_at(sizes, a),
    }
}

// How many variables there are.
#[tactic(auto, unfolding(crate::specs::Judging::variables_in))]
fn variables_in(plan: &PlanTable) -> usize
    ensures { result ≡ variables_in (plan_of plan.now) }
{
    plan::inputs(plan) + plan::registers(plan) + plan::wires(plan)
}

// ---- nodes that aren't in use

// Are the kind and the first operand of node `n` 0?
fn is_zero(nodes: &[u16], n: u16) -> bool
    ensures { result ≡ (eqb (get_or nodes.now (4 * n) 0) 0 && eqb (get_or nodes.now (4 * n + 1) 0) 0) }
{
    let i = 4 * n as usize;
    word_at(nodes, i) == 0 && word_at(nodes, i + 1) == 0
}

// How many nodes there are up to the last that isn't variable 0.
pub fn used_nodes(nodes: &[u16]) -> u16
    ensures { Rest nodes.now result }
{
    for n in (0..4096u16).rev() {
        if !is_zero(nodes, n) {
            return n + 1;
        }
    }
    0
}

// ---- all nodes

// The nodes from `from` on have this width.
fn fill_rest(width: u8, from: u16, sizes: &mut [u8; 4096])
    requires { from ≤ 4096 }
    ensures { sizes.new ≡ sets sizes.old from (replicate (4096 - from) width) }
{
    for n in from..4096 {
        sizes[n as usize] = width;
    }
}

// Are all 4,096 nodes in order, of which those from `used` on are variable 0? Fills their widths, up to the first that isn't; from
// there on they are 0.
pub fn nodes_fit(plan: &PlanTable, nodes: &[u16], used: u16, sizes: &mut [u8; 4096]) -> bool
    requires { Rest nodes.now used }
    ensures value { result ≡ nodes_fit_below (plan_of plan.now) nodes.now 4096 }
    ensures sizes_after { sizes.new ≡ width_table (plan_of plan.now) nodes.now }
{
    *sizes = [0; 4096];
    let variables = variables_in(plan);
    for n in 0u16..used {
        let cell = cell_at(nodes, n);
        if !node_fits(variables, sizes, n, cell) {
            return false;
        }
        sizes[n as usize] = node_width(plan, sizes, cell);
    }
    if 4096 <= used {
        return true;
    }
    if variables == 0 {
        return false;
    }
    fill_rest(plan::width(plan, 0), used, sizes);
    true
}
