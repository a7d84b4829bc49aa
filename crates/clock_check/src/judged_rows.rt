// The rows of lent tables: which nodes stand for a wait of a thread, then the entries of the rows of its waits.
ghost use Rattle.std.specs.Prelude.{◌≡◌, false, not, ◌&&◌, ◌||◌, ◌≤◌, ◌<◌, ltb, replicate};
ghost use Rattle.state.specs.Rows.{all_below};
ghost use Rattle.plan.specs.Plan.{plan_of};
ghost use Rattle.clock_nodes.specs.Rows.{entry_at};
ghost use Rattle.clock_steps.specs.Numbers.{waits_in};
ghost use Rattle.nodes.specs.Cells.{node_of, marks_in, lands_at};
ghost use Rattle.clock_check.specs.Judging.{wait_of, lands_below, register_fits_on, entry_fits_on, row_fits_on};
ghost use Rattle.clock_check.specs.Judging.{thread_fits_on, rows_fit_on, Rest};

use clock_steps::at_most;
use nodes::{Cell, cell_at, size_at, word_at};
use plan::PlanTable;

// ---- nodes that stand for a wait

// Is a number a place of thread `i`, and a wait?
fn waits_at(plan: &PlanTable, i: usize, p: u32) -> bool
    ensures { result ≡ wait_of (plan_of plan.now) i p }
{
    let n = at_most(256, plan::size(plan, i));
    if n <= p as usize {
        return false;
    }
    plan::waits(plan, i, p as u8)
}

// Is node `a` before node `n`, and marked?
#[tactic(auto, unfolding(nodes::specs::Cells::marks_in))]
fn marked(marks: &[bool; 4096], n: u16, a: u16) -> bool
    ensures { result ≡ (ltb a n && marks_in marks.now a) }
{
    a < n && a < 4096 && marks[a as usize]
}

// Does node `n` stand for a wait of thread `i`, the nodes before it being marked?
#[tactic(auto, unfolding(nodes::specs::Cells::node_of, nodes::specs::Cells::lands_at))]
fn lands(plan: &PlanTable, i: usize, marks: &[bool; 4096], n: u16, cell: Cell) -> bool
    ensures { result ≡ lands_at (wait_of (plan_of plan.now) i) n (marks_in marks.now) (node_of cell) }
{
    match cell {
        Cell::Constant { width, number } => width == 8 && waits_at(plan, i, number),
        Cell::Branch { a, b, .. } => marked(marks, n, a) && marked(marks, n, b),
        Cell::Variable(_)
        | Cell::Blank(_)
        | Cell::Unary { .. }
        | Cell::Binary { .. }
        | Cell::Conditional { .. } => false,
    }
}

// Marks the nodes that stand for a wait of thread `i`; those past the last in use stand for none.
fn land(plan: &PlanTable, nodes: &[u16], used: u16, i: usize, marks: &mut [bool; 4096])
    requires rest { Rest nodes.now used }
    requires marks_value { marks.old ≡ replicate 4096 false }
    ensures { marks.new ≡ lands_below (wait_of (plan_of plan.now) i) nodes.now 4096 }
{
    for n in 0u16..used {
        marks[n as usize] = lands(plan, i, marks, n, cell_at(nodes, n));
    }
}

// ---- a row

// Entry `c` of a row.
fn entry_at(rows: &[u16], row: u16, c: usize) -> u16
    requires { c < 256 }
    ensures { result ≡ entry_at rows.now row c }
{
    word_at(rows, 33 * row as usize + c)
}

// Is the entry of register `r` a node, and of the register's width?
fn register_fits(plan: &PlanTable, sizes: &[u8; 4096], rows: &[u16], row: u16, r: usize) -> bool
    requires { r < 256 }
    ensures { result ≡ register_fits_on (plan_of plan.now) sizes.now rows.now row r }
{
    let n = entry_at(rows, row, r);
    if 4096 <= n {
        return false;
    }
    size_at(sizes, n) == plan::width(plan, plan::inputs(plan) + r)
}

// Is it so, if the register is written?
fn entry_fits(
    plan: &PlanTable,
    sizes: &[u8; 4096],
    rows: &[u16],
    written: u32,
    row: u16,
    r: usize,
) -> bool
    requires { r < 256 }
    ensures { result ≡ entry_fits_on (plan_of plan.now) sizes.now rows.now written row r }
{
    !masks::has(written, r) || register_fits(plan, sizes, rows, row, r)
}

// Are the entries of the registers that are written in order?
fn registers_fit(plan: &PlanTable, sizes: &[u8; 4096], rows: &[u16], written: u32, row: u16) -> bool
    ensures { result ≡ all_below (plan_of plan.now).registers
        (entry_fits_on (plan_of plan.now) sizes.now rows.now written row) }
{
    let n = plan::registers(plan);
    for r in 0..n {
        if !entry_fits(plan, sizes, rows, written, row, r) {
            return false;
        }
    }
    true
}

// Is a row in order?
fn row_fits(
    plan: &PlanTable,
    sizes: &[u8; 4096],
    rows: &[u16],
    written: u32,
    marks: &[bool; 4096],
    row: u16,
) -> bool
    ensures { result ≡ row_fits_on (plan_of plan.now) sizes.now rows.now written marks.now row }
{
    if !registers_fit(plan, sizes, rows, written, row) {
        return false;
    }
    let n = entry_at(rows, row, 32) as usize;
    if 4096 <= n {
        return false;
    }
    marks[n]
}

// Is it so, if the place is a wait?
fn wait_fits(
    plan: &PlanTable,
    sizes: &[u8; 4096],
    rows: &[u16],
    written: u32,
    marks: &[bool; 4096],
    row: u16,
    waits: bool,
) -> bool
    ensures { result ≡ (not waits
        || row_fits_on (plan_of plan.now) sizes.now rows.now written marks.now row) }
{
    !waits || row_fits(plan, sizes, rows, written, marks, row)
}

// ---- the rows of a thread's waits

// Are the rows of thread `i`'s waits in order, of which the first is number `first`?
fn thread_fits(
    plan: &PlanTable,
    sizes: &[u8; 4096],
    rows: &[u16],
    written: u32,
    marks: &[bool; 4096],
    i: usize,
    first: u16,
) -> bool
    requires { first ≤ 2048 }
    ensures { result ≡ thread_fits_on (plan_of plan.now) sizes.now rows.now written marks.now i first }
{
    let n = at_most(256, plan::size(plan, i));
    let mut row = first;
    for p in 0..n {
        let waits = plan::waits(plan, i, p as u8);
        if !wait_fits(plan, sizes, rows, written, marks, row, waits) {
            return false;
        }
        row += u16::from(waits);
    }
    true
}

// How many waits thread `i` has.
fn waits_in(plan: &PlanTable, i: usize) -> u16
    ensures value { result ≡ waits_in (plan_of plan.now) i }
    ensures upper_bound { result ≤ 256 }
{
    let n = at_most(256, plan::size(plan, i));
    let mut k: u16 = 0;
    for p in 0..n {
        k += u16::from(plan::waits(plan, i, p as u8));
    }
    k
}

// Marks the nodes that stand for a wait of thread `i`, and judges its rows.
fn thread_rows_fit(
    plan: &PlanTable,
    sizes: &[u8; 4096],
    nodes: &[u16],
    rows: &[u16],
    used: u16,
    written: u32,
    i: usize,
    first: u16,
) -> bool
    requires rest { Rest nodes.now used }
    requires first_bound { first ≤ 2048 }
    ensures { result ≡ thread_fits_on (plan_of plan.now) sizes.now rows.now written
        (lands_below (wait_of (plan_of plan.now) i) nodes.now 4096) i first }
{
    let mut marks = [false; 4096];
    land(plan, nodes, used, i, &mut marks);
    thread_fits(plan, sizes, rows, written, &marks, i, first)
}

// Are the rows of all waits in order?
pub fn rows_fit(
    plan: &PlanTable,
    written: &[u32; 8],
    nodes: &[u16],
    used: u16,
    rows: &[u16],
    sizes: &[u8; 4096],
) -> bool
    requires { Rest nodes.now used }
    ensures { result ≡ rows_fit_on (plan_of plan.now) sizes.now rows.now written.now nodes.now }
{
    let threads = at_most(8, plan::threads(plan));
    let mut first: u16 = 0;
    for i in 0..threads {
        if !thread_rows_fit(plan, sizes, nodes, rows, used, written[i], i, first) {
            return false;
        }
        first += waits_in(plan, i);
    }
    true
}
