// The plan of a sheet that was read, filled once: counts, widths, readers, watchers and sizes, then the nodes of each wire and of each
// thread's instructions. Each function equals its definition in specs/Filling for any bytes and words.
#![tactic(auto)]

ghost use Rattle.std.specs.Prelude.{◌≡◌, ◌%◌, ◌<◌, ◌≤◌};
ghost use Rattle.plan_fill.specs.Filling.{up_to, put_four, copy_word, put_width, watch_term, watch_instr, watch_place};
ghost use Rattle.plan_fill.specs.Filling.{watch_thread, filling, fill_wire, put_term, fill_wait, fill_expr, fill_act};
ghost use Rattle.plan_fill.specs.Filling.{fill_instr, fill_place, fill_thread, with_counts, with_widths, with_readers};
ghost use Rattle.plan_fill.specs.Filling.{with_watchers, with_sizes, filled_plan};

use plan::PlanTable;
use plan_exprs::{add_expr, more, put_node};
use pseudocode::{Action, EdgeTerms, Instruction};
use sheet::{Layout, byte_at};

// Puts four words in a row.
fn put_four(plan: &mut PlanTable, at: usize, k: u32, a: u32, b: u32, c: u32)
    requires { at < 25209 }
    ensures { plan.new ≡ put_four at k a b c plan.old }
{
    plan[at] = k;
    plan[at + 1] = a;
    plan[at + 2] = b;
    plan[at + 3] = c;
}

// Puts the 80 words of a table, from a base on.
fn copy(table: &[u32; 80], base: usize, plan: &mut PlanTable)
    requires { base < 25120 }
    ensures { plan.new ≡ up_to (copy_word table.now base) 80 plan.old }
{
    for k in 0..80 {
        plan[base + k] = table[k];
    }
}

// Puts the counts.
fn fill_counts(layout: Layout, plan: &mut PlanTable)
    ensures { plan.new ≡ with_counts layout plan.old }
{
    put_four(
        plan,
        plan::COUNTS,
        layout.inputs as u32,
        layout.registers as u32,
        layout.wires as u32,
        layout.threads as u32,
    );
}

// Puts the first widths, which stand at a place of the sheet.
fn put_widths(sheet: &[u8], at: usize, n: usize, plan: &mut PlanTable)
    requires at_bound { at ≤ 5 }
    requires n_bound { n ≤ 80 }
    ensures { plan.new ≡ up_to (put_width sheet.now at) n plan.old }
{
    for v in 0..n {
        plan[plan::WIDTHS + v] = byte_at(sheet, at + v) as u32;
    }
}

// Puts the widths of all variables.
fn fill_widths(sheet: &[u8], layout: Layout, plan: &mut PlanTable)
    ensures { plan.new ≡ with_widths sheet.now layout plan.old }
{
    let n = layout.inputs as usize + layout.registers as usize + layout.wires as usize;
    put_widths(sheet, layout.widths.min(5), n.min(80), plan);
}

// Puts each variable's readers.
fn fill_readers(sheet: &[u8], layout: Layout, plan: &mut PlanTable)
    ensures { plan.new ≡ with_readers sheet.now layout plan.old }
{
    let definitions = layout.definitions;
    let mut readers = [0u32; 80];
    tables::fill_readers(
        sheet,
        &definitions,
        &layout.starts,
        layout.wires,
        &mut readers,
    );
    copy(&readers, plan::READERS, plan);
}

// Marks thread `i` at the variables of a wait's first terms.
fn watch_terms(t: EdgeTerms, n: u8, i: usize, watchers: &mut [u32; 80])
    ensures { watchers.new ≡ up_to (watch_term i t) n watchers.old }
{
    for k in 0u8..n {
        let term = pseudocode::term_at(t, k);
        tables::mark_variable(i, term.variable, watchers);
    }
}

// Marks thread `i` at the variables that an instruction names.
fn watch_instr(x: Instruction, i: usize, watchers: &mut [u32; 80])
    ensures { watchers.new ≡ watch_instr i x watchers.old }
{
    let Instruction::Wait(t) = x else {
        return;
    };
    watch_terms(t, tables::term_count(t.count), i, watchers);
}

// Marks thread `i` at the variables that its first instructions name.
fn watch_thread(sheet: &[u8], code: &[u16; 4096], i: usize, n: usize, watchers: &mut [u32; 80])
    ensures { watchers.new ≡ up_to (watch_place sheet.now code.now i) n watchers.old }
{
    for p in 0..n {
        watch_instr(pseudocode::fetch(sheet, code, i, p), i, watchers);
    }
}

// Marks the first threads at the variables that they name.
fn watch_threads(
    sheet: &[u8],
    code: &[u16; 4096],
    sizes: &[usize; 8],
    n: usize,
    watchers: &mut [u32; 80],
)
    requires { n ≤ 8 }
    ensures { watchers.new
        ≡ up_to (watch_thread sheet.now code.now sizes.now) n watchers.old }
{
    for i in 0..n {
        watch_thread(sheet, code, i, sizes[i].min(256), watchers);
    }
}

// Puts each variable's watchers.
fn fill_watchers(
    sheet: &[u8],
    code: &[u16; 4096],
    sizes: &[usize; 8],
    n: usize,
    plan: &mut PlanTable,
)
    requires { n ≤ 8 }
    ensures { plan.new
        ≡ with_watchers sheet.now code.now sizes.now n plan.old }
{
    let mut watchers = [0u32; 80];
    watch_threads(sheet, code, sizes, n, &mut watchers);
    copy(&watchers, plan::WATCHERS, plan);
}

// Puts the threads' sizes.
fn fill_sizes(sizes: &[usize; 8], plan: &mut PlanTable)
    ensures { plan.new ≡ with_sizes sizes.now plan.old }
{
    for i in 0..8 {
        plan[plan::SIZES + i] = sizes[i].min(256) as u32;
    }
}

// Lays out wire `k`, whose expression stands at `start`; the next free node.
fn fill_wire(sheet: &[u8], starts: &[usize; 32], k: usize, free: u32, plan: &mut PlanTable) -> u32
    requires { k < 32 }
    ensures { filling result plan.new
        ≡ fill_wire sheet.now starts.now k (filling free plan.old) }
{
    let a = add_expr(sheet, starts[k], 16, free, plan);
    let at = plan::WIRES + 2 * k;
    plan[at] = free;
    plan[at + 1] = a.root;
    a.free
}

// Lays out the first wires; the next free node.
fn fill_wires(sheet: &[u8], starts: &[usize; 32], n: usize, plan: &mut PlanTable) -> u32
    requires { n ≤ 32 }
    ensures { filling result plan.new
        ≡ up_to (fill_wire sheet.now starts.now) n (filling 80 plan.old) }
{
    let mut free: u32 = 80;
    for k in 0..n {
        free = fill_wire(sheet, starts, k, free, plan);
    }
    free
}

// Puts a wait's first terms as nodes; the next free node.
fn put_terms(t: EdgeTerms, n: u8, first: u32, plan: &mut PlanTable) -> u32
    ensures { filling result plan.new ≡ up_to (put_term t) n (filling first plan.old) }
{
    let mut free = first;
    for k in 0u8..n {
        let term = pseudocode::term_at(t, k);
        put_node(
            plan,
            free,
            values::edge_number(term.edge) as u32,
            term.variable as u32,
            0,
            0,
        );
        free = more(free);
    }
    free
}

// Puts a wait at a place of the plan; the next free node.
fn fill_wait(t: EdgeTerms, at: usize, free: u32, plan: &mut PlanTable) -> u32
    requires { at < 25209 }
    ensures { filling result plan.new ≡ fill_wait t at (filling free plan.old) }
{
    let next = put_terms(t, tables::term_count(t.count), free, plan);
    put_four(plan, at, plan::WAIT, t.count as u32, free, 0);
    next
}

// Puts an instruction with the expression at `start` at a place of the plan; the next free node.
fn fill_expr(
    sheet: &[u8],
    start: usize,
    kind: u32,
    number: u32,
    at: usize,
    free: u32,
    plan: &mut PlanTable,
) -> u32
    requires { at < 25209 }
    ensures { filling result plan.new
        ≡ fill_expr sheet.now start kind number at (filling free plan.old) }
{
    let a = add_expr(sheet, start, 16, free, plan);
    put_four(plan, at, kind, number, free, a.root);
    a.free
}

// Puts a `go` at a place of the plan.
fn fill_go(goal: usize, at: usize, free: u32, plan: &mut PlanTable) -> u32
    requires { at < 25209 }
    ensures { filling result plan.new ≡ filling free (put_four at 3 (goal % 256) 0 0 plan.old) }
{
    put_four(plan, at, plan::GO, (goal % 256) as u32, 0, 0);
    free
}

// Puts an instruction that runs at a place of the plan; the next free node.
fn fill_act(sheet: &[u8], a: Action, at: usize, free: u32, plan: &mut PlanTable) -> u32
    requires { at < 25209 }
    ensures { filling result plan.new ≡ fill_act sheet.now a at (filling free plan.old) }
{
    match a {
        Action::Set { target, at: p } => {
            fill_expr(sheet, p, plan::SET, target as u32, at, free, plan)
        }
        Action::Later { target, at: p } => {
            fill_expr(sheet, p, plan::LATER, target as u32, at, free, plan)
        }
        Action::Go(g) => fill_go(g, at, free, plan),
        Action::IfNot { goal, at: p } => {
            fill_expr(sheet, p, plan::IFNOT, (goal % 256) as u32, at, free, plan)
        }
    }
}

// Puts an instruction at a place of the plan; the next free node.
fn fill_instr(sheet: &[u8], x: Instruction, at: usize, free: u32, plan: &mut PlanTable) -> u32
    requires { at < 25209 }
    ensures { filling result plan.new ≡ fill_instr sheet.now x at (filling free plan.old) }
{
    match x {
        Instruction::Wait(t) => fill_wait(t, at, free, plan),
        Instruction::Act(a) => fill_act(sheet, a, at, free, plan),
    }
}

// Puts the first instructions of thread `i`; the next free node.
fn fill_thread(
    sheet: &[u8],
    code: &[u16; 4096],
    i: usize,
    n: usize,
    first: u32,
    plan: &mut PlanTable,
) -> u32
    requires i_bound { i < 8 }
    requires n_bound { n ≤ 256 }
    ensures { filling result plan.new
        ≡ up_to (fill_place sheet.now code.now i) n (filling first plan.old) }
{
    let mut free = first;
    for p in 0..n {
        let at = plan::CODE + 1024 * i + 4 * p;
        free = fill_instr(sheet, pseudocode::fetch(sheet, code, i, p), at, free, plan);
    }
    free
}

// Puts the first threads.
fn fill_threads(
    sheet: &[u8],
    code: &[u16; 4096],
    sizes: &[usize; 8],
    n: usize,
    first: u32,
    plan: &mut PlanTable,
) -> u32
    requires { n ≤ 8 }
    ensures { filling result plan.new
        ≡ up_to (fill_thread sheet.now code.now sizes.now) n (filling first plan.old) }
{
    let mut free = first;
    for i in 0..n {
        free = fill_thread(sheet, code, i, sizes[i].min(256), free, plan);
    }
    free
}

// Fills the plan of the sheet with this layout, whatever it held before.
pub fn fill(sheet: &[u8], layout: Layout, plan: &mut PlanTable)
    ensures { plan.new ≡ filled_plan sheet.now layout plan.old }
{
    let mut code = [0u16; 4096];
    let sizes = pseudocode::compile(
        sheet,
        &layout.definitions,
        layout.threads,
        layout.body,
        &mut code,
    );
    let threads = (layout.threads as usize).min(8);
    fill_counts(layout, plan);
    fill_widths(sheet, layout, plan);
    fill_readers(sheet, layout, plan);
    fill_watchers(sheet, &code, &sizes, threads, plan);
    fill_sizes(&sizes, plan);
    let free = fill_wires(sheet, &layout.starts, (layout.wires as usize).min(32), plan);
    fill_threads(sheet, &code, &sizes, threads, free, plan);
}
