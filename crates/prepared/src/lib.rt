// A sheet prepared once, and the event simulator's calls on its plan. Each function equals its definition in specs/Prepared, for sheets,
// plans and states of any contents.
#![tactic(auto)]

ghost use Rattle.std.specs.Prelude.{◌≡◌, List, ℕ, ◌<◌, get_or};
ghost use Rattle.values.specs.Values.{ones};
ghost use Rattle.state.specs.State.{full};
ghost use Rattle.state.specs.Rows.{list_of};
ghost use Rattle.events.specs.declared.Verdict.TheVariants.{Refused};
ghost use Rattle.events.specs.Calls.{due_below};
ghost use Rattle.plan.specs.Plan.{plan_of};
ghost use Rattle.plan_engine.specs.Live.{live};
ghost use Rattle.prepared.specs.Prepared.{read_of, prepared_plan, widths_of, start_at, room_in, raised, accepted, userless, verdict_of};
ghost use Rattle.prepared.specs.Prepared.{choose_at, run_at, plain_at, later, instant_at};

use events::{Chosen, Inputs, Ran, Rested, Verdict};
use plan::PlanTable;
use plan_changes::Marks;
use state::{Counters, FULL, State};

// The users' numbers lie below it.
pub const USERS: u8 = 4;

// Whether a sheet was accepted: 0, or the number that refuses it and the place.
#[derive(Clone, Copy)]
pub struct Prepared {
    pub number: u8,
    pub place: usize,
}

// Reads a sheet, and fills the plan where it is accepted. Where it is refused the plan stays.
pub fn prepare(sheet: &[u8], plan: &mut PlanTable) -> Prepared
    ensures value { result ≡ record { number = (read_of sheet.now).number; place = (read_of sheet.now).place } }
    ensures plan_after { plan.new ≡ prepared_plan sheet.now plan.old }
{
    let read = sheet::read(sheet);
    let answer = Prepared {
        number: read.number,
        place: read.place,
    };
    if answer.number != 0 {
        return answer;
    }
    plan_fill::fill(sheet, read.layout, plan);
    answer
}

// ---- start

// The marks of the wires below n, and of no others.
fn due_below(n: usize) -> [bool; 32]
    ensures { result ≡ due_below n }
{
    let mut due: u32 = 0;
    for k in 0..n {
        due = masks::with(due, k);
    }
    masks::flags(due)
}

// The width of a variable; past the variables 32.
fn width_at(plan: &PlanTable, v: usize) -> u8
    ensures { result ≡ get_or (widths_of (plan_of plan.now)) v 32 }
{
    if v < plan::inputs(plan) + plan::registers(plan) + plan::wires(plan) {
        return plan::width(plan, v);
    }
    32
}

// The marks of the variables: each is x in all bits of its width.
fn unset_marks(plan: &PlanTable) -> [u32; 80]
    ensures { result ≡ list_of 80 (λ v. ones (get_or (widths_of (plan_of plan.now)) v 32)) }
{
    let mut marks = [0u32; 80];
    for v in 0..80 {
        marks[v] = values::marks_of(values::all_unknown(width_at(plan, v)));
    }
    marks
}

// The state at the start. "Each has an allowance of choices fixed at the start".
pub fn start(plan: &PlanTable, allowances: [u32; 4]) -> State
    ensures { result ≡ start_at (plan_of plan.now) allowances }
{
    State {
        value: [0u32; 80],
        unknown: unset_marks(plan),
        pending: [0u32; 32],
        unsure: [0u32; 32],
        held: [false; 32],
        places: [0u8; 8],
        due: due_below(plan::wires(plan)),
        counters: Counters {
            time: 0,
            counts: [0u64; 4],
            allowances,
        },
    }
}

// ---- counting

// The choices that a user's allowance has left.
pub fn room_in(c: Counters, user: u8) -> u64
    ensures { result ≡ room_in c user }
{
    if user >= USERS {
        return 0;
    }
    let u = user as usize;
    (c.allowances[u] as u64).saturating_sub(c.counts[u])
}

// `n` more accepted choices of a user, where his allowance has so many left.
pub fn raised(n: u64, user: u8, c: Counters) -> Counters
    ensures { result ≡ raised n user c }
{
    if user >= USERS {
        return c;
    }
    if room_in(c, user) < n {
        return c;
    }
    let mut counts = c.counts;
    counts[user as usize] += n;
    Counters { counts, ..c }
}

// How many choices were accepted where one was answered by `number`.
pub fn accepted(number: u8) -> u64
    ensures { result ≡ accepted number }
{
    u64::from(number == 0)
}

// ---- the calls

// What a refused choice or instant gives.
fn refused(number: u8, state: State) -> Chosen
    ensures { result ≡ record { number = number; state = state } }
{
    Chosen { number, state }
}

// The number of a choice whose user is above 3.
fn userless(plan: &PlanTable, c: u8) -> u8
    ensures { result ≡ userless (plan_of plan.now) c }
{
    if (c as usize) < plan::threads(plan) + plan::wires(plan) {
        return 46;
    }
    if c == 255 { 46 } else { 22 }
}

// A choice of a user: an item by its number, or 255 for the commit.
pub fn choose(plan: &PlanTable, st: State, user: u8, c: u8) -> Chosen
    ensures { result ≡ choose_at (plan_of plan.now) st user c }
{
    if !plan_fitting::state_fits(plan, st) {
        return refused(31, st);
    }
    if user >= USERS {
        return refused(userless(plan, c), st);
    }
    let mut cells = [0u64; 4176];
    let marks = plan_state::unpack(plan, st, &mut cells);
    let mut pending = plan_state::slots_of(&st.pending, &st.unsure);
    let mut places = st.places;
    let room = room_in(st.counters, user);
    let t = plan_engine::take_choice(
        plan,
        &mut cells,
        &mut pending,
        &mut places,
        marks,
        c as usize,
        room,
    );
    let counters = raised(accepted(t.number), user, st.counters);
    let state = plan_state::pack(&cells, &pending, places, t.marks, counters);
    Chosen {
        number: t.number,
        state,
    }
}

// What a refused run gives.
fn not_run(number: u8, state: State) -> Ran
    ensures { result ≡ record { accepted = 0; number = number; state = state } }
{
    Ran {
        accepted: 0,
        number,
        state,
    }
}

// A run of a user over a list of choices. It ends at the first refused one.
pub fn run(plan: &PlanTable, st: State, user: u8, choices: &[u8]) -> Ran
    ensures { result ≡ run_at (plan_of plan.now) st user choices.now }
{
    if !plan_fitting::state_fits(plan, st) {
        return not_run(31, st);
    }
    if user >= USERS {
        return not_run(46, st);
    }
    let mut cells = [0u64; 4176];
    let marks = plan_state::unpack(plan, st, &mut cells);
    let mut pending = plan_state::slots_of(&st.pending, &st.unsure);
    let mut places = st.places;
    let room = room_in(st.counters, user);
    let t = plan_engine::run_list(
        plan,
        &mut cells,
        &mut pending,
        &mut places,
        marks,
        choices,
        room,
    );
    let counters = raised(t.accepted as u64, user, st.counters);
    let state = plan_state::pack(&cells, &pending, places, t.marks, counters);
    Ran {
        accepted: t.accepted,
        number: t.number,
        state,
    }
}

// How a plain run ended that a number stopped, or none, with these marks left.
fn verdict_of(number: u8, marks: Marks) -> Verdict
    ensures { (cs ns ps : List ℕ) → result ≡ verdict_of number (live cs ns ps marks) }
{
    if number != 0 {
        return Verdict::Stopped(number);
    }
    if plan_engine::busy(marks) {
        return Verdict::Spent;
    }
    Verdict::Quiet
}

// What a refused plain run gives.
fn not_rested(number: u8, state: State) -> Rested
    ensures { result ≡ record { accepted = 0; verdict = Refused number; state = state } }
{
    Rested {
        accepted: 0,
        verdict: Verdict::Refused(number),
        state,
    }
}

// The plain run of a user, of at most `limit` choices: it takes the lowest enabled item, else the commit.
pub fn run_plain(plan: &PlanTable, st: State, user: u8, limit: u16) -> Rested
    ensures { result ≡ plain_at (plan_of plan.now) st user limit }
{
    if !plan_fitting::state_fits(plan, st) {
        return not_rested(31, st);
    }
    if user >= USERS {
        return not_rested(46, st);
    }
    let mut cells = [0u64; 4176];
    let marks = plan_state::unpack(plan, st, &mut cells);
    let mut pending = plan_state::slots_of(&st.pending, &st.unsure);
    let mut places = st.places;
    let room = room_in(st.counters, user);
    let t = plan_engine::run_plain(
        plan,
        &mut cells,
        &mut pending,
        &mut places,
        marks,
        limit,
        room,
    );
    let verdict = verdict_of(t.number, t.marks);
    let counters = raised(t.accepted as u64, user, st.counters);
    let state = plan_state::pack(&cells, &pending, places, t.marks, counters);
    Rested {
        accepted: t.accepted,
        verdict,
        state,
    }
}

// The time one further.
fn later(c: Counters) -> Counters
    requires { c.time < full }
    ensures { result ≡ later c }
{
    Counters {
        time: c.time + 1,
        ..c
    }
}

// An instant: all inputs are set as one change, and the time goes on.
pub fn instant(plan: &PlanTable, st: State, a: Inputs) -> Chosen
    ensures { result ≡ instant_at (plan_of plan.now) st a }
{
    if !plan_fitting::state_fits(plan, st) {
        return refused(31, st);
    }
    if !plan_fitting::inputs_fit(plan, a) {
        return refused(25, st);
    }
    let mut cells = [0u64; 4176];
    let marks = plan_state::unpack(plan, st, &mut cells);
    if plan_engine::busy(marks) {
        return refused(32, st);
    }
    if st.counters.time == FULL {
        return refused(36, st);
    }
    let mut pending = plan_state::slots_of(&st.pending, &st.unsure);
    let mut places = st.places;
    let left = plan_engine::feed(
        plan,
        &mut cells,
        &mut pending,
        &mut places,
        marks,
        &a.value,
        &a.unknown,
    );
    let counters = later(st.counters);
    let state = plan_state::pack(&cells, &pending, places, left, counters);
    Chosen { number: 0, state }
}
