// Nodes worked out in one plane of cells: the variables' cells first, then the nodes' own. Defined for nodes of any contents.
#![tactic(auto)]

ghost use Rattle.std.specs.Prelude.{◌≡◌, ◌<◌};
ghost use Rattle.values.specs.Cells.{cell_of, cell_at};
ghost use Rattle.plan.specs.Plan.{node, plan_of};
ghost use Rattle.plan_nodes.specs.Nodes.{leaf_of, worth_of, work_node, work};

use plan::{
    BINARY, BRANCH, CHOICE, CONSTANT, Cells, OPERATORS, PlanTable, UNARY, VARIABLE, low, slot,
};

// What a node below the operators is worth, as a cell.
fn leaf(cells: &Cells, kind: u32, a: u32, b: u32, c: u32) -> u64
    ensures { result ≡ cell_of (leaf_of (cell_at cells.now) (node kind a b c)) }
{
    match kind {
        CONSTANT => b as u64,
        VARIABLE => values::store(values::load(cells[slot(a)])),
        _ => values::store(values::all_unknown(low(c))),
    }
}

// What a node is worth, as a cell.
fn worth(cells: &Cells, kind: u32, a: u32, b: u32, c: u32) -> u64
    ensures { result ≡ cell_of (worth_of (cell_at cells.now) (node kind a b c)) }
{
    if kind < UNARY {
        return leaf(cells, kind, a, b, c);
    }
    let x = cells[slot(a)];
    let y = cells[slot(b)];
    if kind < BINARY {
        return values::unary_cell(low(kind - OPERATORS), low(c), x);
    }
    if kind < CHOICE {
        return values::binary_cell(low(kind - OPERATORS), low(c), x, y);
    }
    let z = cells[slot(c)];
    if kind == CHOICE {
        return values::choice_cell(x, y, z);
    }
    if kind == BRANCH {
        return values::branch_cell(x, y, z);
    }
    values::store(values::all_unknown(low(c)))
}

// Works out a node into its own cell.
fn work_node(plan: &PlanTable, i: usize, cells: &mut Cells)
    requires { i < 4176 }
    ensures { cells.new ≡ work_node (plan_of plan.now).node i cells.old }
{
    let j = 4 * i;
    cells[i] = worth(cells, plan[j], plan[j + 1], plan[j + 2], plan[j + 3]);
}

// Works out the nodes from `lo` up to `hi`.
pub fn work(plan: &PlanTable, lo: usize, hi: usize, cells: &mut Cells)
    ensures { cells.new ≡ work (plan_of plan.now).node lo hi cells.old }
{
    if 4176 < hi {
        return;
    }
    for i in lo..hi {
        work_node(plan, i, cells);
    }
}
