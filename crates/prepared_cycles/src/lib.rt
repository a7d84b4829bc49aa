// Many clock cycles in one call on a prepared plan. The state is laid out once, each instant and the plain run after it go on in the same
// cells, and it is packed at the end; a trace writes what each of them leaves into a lent array. Each function equals its definition in
// specs/, for plans, states and rows of any contents.
#![tactic(auto)]

mod drives;
mod instants;
mod rows;
mod traces;

ghost use Rattle.std.specs.Prelude.{◌≡◌, true, false, ◌*◌, ◌/◌, ◌≤◌, length};
ghost use Rattle.plan.specs.Plan.{plan_of};
ghost use Rattle.prepared_cycles.specs.Cycles.{cycled, row_inputs};
ghost use Rattle.prepared_cycles.specs.Phases.{moment_of, state_at, course, phases_at, ended, laid_out, cycles_at};
ghost use Rattle.prepared_cycles.specs.Drives.{going, going_of, driven, told, on_plan, drives, rows, arrived};
ghost use Rattle.prepared_cycles.specs.Drives.{to_rest, settled_at, drive_at, driven_at};
ghost use Rattle.prepared_cycles.specs.Traces.{rounds, trace_from_at, trace_at, traced_at};

use plan::{Cells, PlanTable};
use plan_changes::Marks;
use prepared::USERS;
use state::{Counters, State};

// What many cycles give: how many instants were accepted and run to rest or to 65,535 choices; where they were stopped earlier,
// the number that stopped them and whether it was the run after an instant that did; the state reached.
#[derive(Clone, Copy)]
pub struct Cycled {
    pub phases: usize,
    pub number: u8,
    pub running: bool,
    pub state: State,
}

// What goes along with the cells: the marks, the counters, and the user whose choices are run.
#[derive(Clone, Copy)]
pub struct Standing {
    pub marks: Marks,
    pub counters: Counters,
    pub user: u8,
}

// What a phase leaves: the number that stopped it, 0 where none did, whether a run was, and what goes along with the cells.
#[derive(Clone, Copy)]
pub struct Phased {
    pub number: u8,
    pub running: bool,
    pub standing: Standing,
}

// How it goes with cycles that are run to rest: the number that refused an instant, whether the run after it came to rest, the
// generator's next seed, and what goes along with the cells.
#[derive(Clone, Copy)]
pub struct Went {
    pub number: u8,
    pub rested: bool,
    pub seed: u64,
    pub standing: Standing,
}

// What driven cycles give: how many instants were accepted and came to rest; whether all did, and where not, the number that refused one
// (0 where it was run and did not come to rest); the generator's next seed, and the state reached.
#[derive(Clone, Copy)]
pub struct Driven {
    pub phases: usize,
    pub number: u8,
    pub rested: bool,
    pub seed: u64,
    pub state: State,
}

// What a refused call gives.
fn refused_with(number: u8, state: State) -> Cycled
    ensures { result ≡ cycled 0 number false state }
{
    Cycled {
        phases: 0,
        number,
        running: false,
        state,
    }
}

// Where the cycles end: the state packed again.
fn ended(
    cells: &Cells,
    pending: &[u64; 32],
    places: [u8; 8],
    standing: Standing,
    phases: usize,
    number: u8,
    running: bool,
) -> Cycled
    ensures { result ≡ ended (course phases number running (moment_of cells.now pending.now places standing)) }
{
    let state = plan_state::pack(cells, pending, places, standing.marks, standing.counters);
    Cycled {
        phases,
        number,
        running,
        state,
    }
}

// Two instants to each row, up to the first that is stopped, from a state laid out.
fn run_phases(plan: &PlanTable, st: State, user: u8, value: &[u32], unknown: &[u32]) -> Cycled
    requires { length unknown.now ≡ length value.now }
    ensures { result ≡ ended
        (phases_at (plan_of plan.now)
        (row_inputs (plan_of plan.now).inputs value.now unknown.now)
        (2 * (length value.now / 16)) 0 (laid_out (plan_of plan.now) st user)) }
{
    let mut cells = [0u64; 4176];
    let marks = plan_state::unpack(plan, st, &mut cells);
    let mut pending = plan_state::slots_of(&st.pending, &st.unsure);
    let mut places = st.places;
    let mut standing = Standing {
        marks,
        counters: st.counters,
        user,
    };
    let n = 2 * (value.len() / 16);
    for p in 0..n {
        let a = rows::inputs_at(plan, value, unknown, p);
        let f = instants::phase(plan, &mut cells, &mut pending, &mut places, standing, a);
        standing = f.standing;
        if f.number != 0 {
            return ended(&cells, &pending, places, standing, p, f.number, f.running);
        }
    }
    ended(&cells, &pending, places, standing, n, 0, false)
}

// Rows of 16 inputs, for each an instant with the clock low and one with the clock high, a plain run of the user after each.
pub fn run_cycles(plan: &PlanTable, st: State, user: u8, value: &[u32], unknown: &[u32]) -> Cycled
    ensures { result ≡ cycles_at (plan_of plan.now) st user value.now unknown.now }
{
    if !plan_fitting::state_fits(plan, st) {
        return refused_with(31, st);
    }
    if user >= USERS {
        return refused_with(46, st);
    }
    if !fitting::rows_whole(value, unknown) {
        return refused_with(25, st);
    }
    run_phases(plan, st, user, value, unknown)
}

// ---- traces

// The same as `run_phases`; the rows of the instants that are accepted and run are written.
fn trace_phases(
    plan: &PlanTable,
    st: State,
    user: u8,
    value: &[u32],
    unknown: &[u32],
    out: &mut [u64],
) -> Cycled
    requires unknown_len { length unknown.now ≡ length value.now }
    requires value_in_bounds { rounds value.now ≤ length out.old / 88 }
    ensures value { result ≡ ended
        (phases_at (plan_of plan.now)
        (row_inputs (plan_of plan.now).inputs value.now unknown.now)
        (rounds value.now) 0 (laid_out (plan_of plan.now) st user)) }
    ensures out_after { out.new
        ≡ trace_from_at (plan_of plan.now)
        (row_inputs (plan_of plan.now).inputs value.now unknown.now)
        (rounds value.now) 0 (laid_out (plan_of plan.now) st user) out.old }
{
    let mut cells = [0u64; 4176];
    let marks = plan_state::unpack(plan, st, &mut cells);
    let mut pending = plan_state::slots_of(&st.pending, &st.unsure);
    let mut stood = st.places;
    let mut standing = Standing {
        marks,
        counters: st.counters,
        user,
    };
    let n = 2 * (value.len() / 16);
    for p in 0..n {
        let a = rows::inputs_at(plan, value, unknown, p);
        let f = instants::phase(plan, &mut cells, &mut pending, &mut stood, standing, a);
        standing = f.standing;
        if f.number != 0 {
            return ended(&cells, &pending, stood, standing, p, f.number, f.running);
        }
        traces::put_row(&cells, &stood, out, p);
    }
    ended(&cells, &pending, stood, standing, n, 0, false)
}

// The cycles of `run_cycles`, and for each instant that is accepted and run a row of 88 words in the array that is lent, two rows to a
// cycle: the 80 variables, then the 8 places. Where the array is too short for all instants nothing is run. An instant whose run was
// spent has its row too; the next one is refused with 32.
pub fn trace(
    plan: &PlanTable,
    st: State,
    user: u8,
    value: &[u32],
    unknown: &[u32],
    out: &mut [u64],
) -> Cycled
    ensures value { result ≡ trace_at (plan_of plan.now) st user value.now unknown.now out.old }
    ensures out_after { out.new
        ≡ traced_at (plan_of plan.now) st user value.now unknown.now out.old }
{
    let n = 2 * (value.len() / 16);
    if out.len() / 88 < n {
        return refused_with(23, st);
    }
    if !plan_fitting::state_fits(plan, st) {
        return refused_with(31, st);
    }
    if user >= USERS {
        return refused_with(46, st);
    }
    if !fitting::rows_whole(value, unknown) {
        return refused_with(25, st);
    }
    trace_phases(plan, st, user, value, unknown, out)
}

// ---- driven cycles

// What a refused call gives.
fn undriven(number: u8, seed: u64, state: State) -> Driven
    ensures { result ≡ told 0 number false seed state }
{
    Driven {
        phases: 0,
        number,
        rested: false,
        seed,
        state,
    }
}

// Where driven cycles end: the state packed again.
fn arrived(cells: &Cells, pending: &[u64; 32], places: [u8; 8], g: Went, phases: usize) -> Driven
    ensures { result ≡ arrived state_at (driven phases (going_of cells.now pending.now places g)) }
{
    let standing = g.standing;
    let state = plan_state::pack(cells, pending, places, standing.marks, standing.counters);
    Driven {
        phases,
        number: g.number,
        rested: g.rested,
        seed: g.seed,
        state,
    }
}

// A state run to rest, from where it is.
fn run_to_rest(plan: &PlanTable, st: State, user: u8, drawn: bool, seed: u64) -> Driven
    ensures { result ≡ arrived state_at
        (driven 0 (to_rest (on_plan (plan_of plan.now)) drawn (going 0 false seed (laid_out (plan_of plan.now) st user)))) }
{
    let mut cells = [0u64; 4176];
    let marks = plan_state::unpack(plan, st, &mut cells);
    let mut pending = plan_state::slots_of(&st.pending, &st.unsure);
    let mut places = st.places;
    let standing = Standing {
        marks,
        counters: st.counters,
        user,
    };
    let begun = Went {
        number: 0,
        rested: false,
        seed,
        standing,
    };
    let g = drives::to_rest(plan, &mut cells, &mut pending, &mut places, drawn, begun);
    arrived(&cells, &pending, places, g, 0)
}

// A state run to rest: by the plain run of 65,535 choices, or by at most 4,000,000 choices drawn from a seed on.
pub fn settle(plan: &PlanTable, st: State, user: u8, drawn: bool, seed: u64) -> Driven
    ensures { result ≡ settled_at (plan_of plan.now) drawn seed st user }
{
    if !plan_fitting::state_fits(plan, st) {
        return undriven(31, seed, st);
    }
    if user >= USERS {
        return undriven(46, seed, st);
    }
    run_to_rest(plan, st, user, drawn, seed)
}

// Two instants to each row, each run to rest, up to the first that isn't; their rows are written.
fn drive_phases(
    plan: &PlanTable,
    st: State,
    user: u8,
    drawn: bool,
    seed: u64,
    value: &[u32],
    unknown: &[u32],
    out: &mut [u64],
) -> Driven
    requires unknown_len { length unknown.now ≡ length value.now }
    requires value_in_bounds { rounds value.now ≤ length out.old / 88 }
    ensures value { result ≡ arrived state_at
        (drives (on_plan (plan_of plan.now)) drawn
        (row_inputs (plan_of plan.now).inputs value.now unknown.now)
        (rounds value.now) 0 (going 0 true seed (laid_out (plan_of plan.now) st user))) }
    ensures out_after { out.new
        ≡ rows (on_plan (plan_of plan.now)) drawn
        (row_inputs (plan_of plan.now).inputs value.now unknown.now)
        (rounds value.now) 0 (going 0 true seed (laid_out (plan_of plan.now) st user)) out.old }
{
    let mut cells = [0u64; 4176];
    let marks = plan_state::unpack(plan, st, &mut cells);
    let mut pending = plan_state::slots_of(&st.pending, &st.unsure);
    let mut stood = st.places;
    let standing = Standing {
        marks,
        counters: st.counters,
        user,
    };
    let mut went = Went {
        number: 0,
        rested: true,
        seed,
        standing,
    };
    let n = 2 * (value.len() / 16);
    for p in 0..n {
        let a = rows::inputs_at(plan, value, unknown, p);
        went = drives::drive(plan, &mut cells, &mut pending, &mut stood, drawn, went, a);
        if !went.rested {
            return arrived(&cells, &pending, stood, went, p);
        }
        traces::put_row(&cells, &stood, out, p);
    }
    arrived(&cells, &pending, stood, went, n)
}

// Rows of 16 inputs, for each an instant with the clock low and one with the clock high, each run to rest as by `settle`; the row of each
// that came to rest is written, as `trace` writes it. Where the array is too short for all instants nothing is run.
pub fn drive(
    plan: &PlanTable,
    st: State,
    user: u8,
    drawn: bool,
    seed: u64,
    value: &[u32],
    unknown: &[u32],
    out: &mut [u64],
) -> Driven
    ensures value { result ≡ drive_at (plan_of plan.now) drawn seed st user value.now unknown.now out.old }
    ensures out_after { out.new
        ≡ driven_at (plan_of plan.now) drawn seed st user value.now unknown.now out.old }
{
    let n = 2 * (value.len() / 16);
    if out.len() / 88 < n {
        return undriven(23, seed, st);
    }
    if !plan_fitting::state_fits(plan, st) {
        return undriven(31, seed, st);
    }
    if user >= USERS {
        return undriven(46, seed, st);
    }
    if !fitting::rows_whole(value, unknown) {
        return undriven(25, seed, st);
    }
    drive_phases(plan, st, user, drawn, seed, value, unknown, out)
}
