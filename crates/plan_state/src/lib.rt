// A state's planes into cells and back, its marks into masks and back, and the threads that stand off a wait. Each function equals its
// definition in specs/ for plans and states of any contents.
#![tactic(auto)]

ghost use Rattle.std.specs.Prelude.{◌≡◌, ◌≤◌, length, replicate};
ghost use Rattle.values.specs.Cells.{number_in, marks_in};
ghost use Rattle.masks.specs.Masks.{bits};
ghost use Rattle.plan.specs.Plan.{plan_of};
ghost use Rattle.plan_changes.specs.Changes.{eight};
ghost use Rattle.plan_engine.specs.Live.{live};
ghost use Rattle.plan_state.specs.Planes.{marked, cells_below};
ghost use Rattle.plan_state.specs.Packing.{ready_below, slots_of, unpacked_in, numbers_in, unknowns_in, packed};

use plan::{Cells, PlanTable};
use plan_changes::Marks;
use state::{Counters, State};

// ---- one cell

// The cell of a number and its marks.
pub fn marked(n: u32, marks: u32) -> u64
    ensures { result ≡ marked n marks }
{
    n as u64 + marks as u64 * 4294967296
}

// The number that lies in a cell.
pub fn number_in(c: u64) -> u32
    ensures { result ≡ number_in c }
{
    (c % 4294967296) as u32
}

// The marks that lie in a cell.
pub fn marks_in(c: u64) -> u32
    ensures { result ≡ marks_in c }
{
    (c / 4294967296 % 4294967296) as u32
}

// ---- a state into cells and masks

// The first cells from two planes.
fn lay<'a, const N: usize, const M: usize>(
    value: &'a [u32; N],
    unknown: &'a [u32; N],
    cells: &mut [u64; M],
)
    requires { N ≤ M }
    ensures { cells.new ≡ cells_below value.now unknown.now N cells.old }
{
    for v in 0..N {
        cells[v] = marked(value[v], unknown[v]);
    }
}

// The variables' cells from a state's values.
pub fn fill_cells<'a>(value: &'a [u32; 80], unknown: &'a [u32; 80], cells: &mut Cells)
    ensures { cells.new ≡ cells_below value.now unknown.now 80 cells.old }
{
    lay::<80, 4176>(value, unknown, cells);
}

// The registers' cells from a state's pending values.
pub fn slots_of<'a>(pending: &'a [u32; 32], unsure: &'a [u32; 32]) -> [u64; 32]
    ensures { result ≡ cells_below pending.now unsure.now 32 (replicate 32 0) }
{
    let mut slots = [0u64; 32];
    lay::<32, 32>(pending, unsure, &mut slots);
    slots
}

// The threads that stand off a wait.
pub fn ready(plan: &PlanTable, places: &[u8; 8]) -> u32
    ensures { bits result
        ≡ ready_below (plan_of plan.now) places.now (eight (plan_of plan.now).threads) }
{
    let n = plan::threads(plan).min(8);
    let mut m: u32 = 0;
    for i in 0..n {
        if !plan::waits(plan, i, places[i]) {
            m = masks::with(m, i);
        }
    }
    m
}

// Lays a state out: its values into the cells. Gives its marks; its pending cells are `slots_of`'s, its places its own.
pub fn unpack(plan: &PlanTable, st: State, cells: &mut Cells) -> Marks
    ensures { live cells.new (slots_of st) st.places result ≡ unpacked_in cells.old (plan_of plan.now) st }
{
    fill_cells(&st.value, &st.unknown, cells);
    let due = masks::mask_of(st.due);
    let held = masks::mask_of(st.held);
    let ready = ready(plan, &st.places);
    Marks { due, ready, held }
}

// ---- and back

// The numbers of the first cells.
fn numbers_in<const N: usize>(cells: &[u64]) -> [u32; N]
    requires { N ≤ length cells.now }
    ensures { result ≡ numbers_in cells.now N }
{
    let mut a = [0u32; N];
    for v in 0..N {
        a[v] = number_in(cells[v]);
    }
    a
}

// Their marks.
fn unknowns_in<const N: usize>(cells: &[u64]) -> [u32; N]
    requires { N ≤ length cells.now }
    ensures { result ≡ unknowns_in cells.now N }
{
    let mut a = [0u32; N];
    for v in 0..N {
        a[v] = marks_in(cells[v]);
    }
    a
}

// The state that lies in these cells, places and marks.
pub fn pack(
    cells: &Cells,
    pending: &[u64; 32],
    places: [u8; 8],
    marks: Marks,
    counters: Counters,
) -> State
    ensures { result ≡ packed (live cells.now pending.now places marks) counters }
{
    let value = numbers_in::<80>(cells);
    let unknown = unknowns_in::<80>(cells);
    let numbers = numbers_in::<32>(pending);
    let unsure = unknowns_in::<32>(pending);
    let held = masks::flags(marks.held);
    let due = masks::flags(marks.due);
    State {
        value,
        unknown,
        pending: numbers,
        unsure,
        held,
        places,
        due,
        counters,
    }
}
