// The plain run's wire stores, counted on a plan: a run up to quiet or the next commit with the number of wires that it stores, and the
// number of wires that read a variable whose value differs between two states. crates/work proves that the two are equal.
#![tactic(auto)]

ghost use Rattle.std.specs.Prelude.{◌≡◌, ◌≤◌};
ghost use Rattle.plan.specs.Plan.{plan_of};
ghost use Rattle.plan_engine.specs.Live.{live};
ghost use Rattle.events.specs.Cycle.{changed};
ghost use Rattle.state.specs.State.{value_of};
ghost use Rattle.counted.specs.Counted.{stores_at, stretch, up_to, work_at, reads_at, reads_changed, readers_at};

use plan::{Cells, PlanTable};
use plan_changes::Marks;
use prepared::USERS;
use state::State;

// What no item can have as its number: the commit's choice.
const COMMIT: usize = 255;

const VARIABLES: usize = 80;

// What a run on cells and masks leaves: the choices accepted, how many of them stored a wire, the number that stopped it, the marks.
#[derive(Clone, Copy)]
struct Stretched {
    accepted: u16,
    stores: u16,
    number: u8,
    marks: Marks,
}

// The same with the state that it leaves.
#[derive(Clone, Copy)]
pub struct Worked {
    pub accepted: u16,
    pub stores: u16,
    pub number: u8,
    pub state: State,
}

// How many wires the choice `c` stores.
fn stored(plan: &PlanTable, c: usize) -> u16
    ensures value { result ≡ stores_at (plan_of plan.now) c }
    ensures upper_bound { result ≤ 1 }
{
    if c < plan::threads(plan) { 0 } else { 1 }
}

// The plain run of at most `limit` choices, up to quiet or the next commit.
fn run_up(
    plan: &PlanTable,
    cells: &mut Cells,
    pending: &mut [u64; 32],
    places: &mut [u8; 8],
    marks: Marks,
    limit: u16,
    room: u64,
) -> Stretched
    ensures { stretch result.accepted result.stores result.number
        (live cells.new pending.new places.new result.marks)
        ≡ up_to (plan_of plan.now) limit room
        (live cells.old pending.old places.old marks) }
{
    let mut m = marks;
    let mut left = room;
    let mut stores: u16 = 0;
    for i in 0u16..limit {
        let c = plan_engine::plain_choice(plan, m);
        if COMMIT <= c {
            return Stretched {
                accepted: i,
                stores,
                number: 0,
                marks: m,
            };
        }
        let t = plan_engine::take_choice(plan, cells, pending, places, m, c, left);
        m = t.marks;
        if t.number != 0 {
            return Stretched {
                accepted: i,
                stores,
                number: t.number,
                marks: m,
            };
        }
        stores += stored(plan, c);
        left -= 1;
    }
    Stretched {
        accepted: limit,
        stores,
        number: 0,
        marks: m,
    }
}

// What a refused run gives.
fn not_run(number: u8, state: State) -> Worked
    ensures { result ≡ record { accepted = 0; stores = 0; number = number; state = state } }
{
    Worked {
        accepted: 0,
        stores: 0,
        number,
        state,
    }
}

// The plain run of a user, of at most `limit` choices, up to quiet or the next commit, and how many wires it stores.
pub fn work(plan: &PlanTable, st: State, user: u8, limit: u16) -> Worked
    ensures { result ≡ work_at (plan_of plan.now) st user limit }
{
    if !plan_fitting::state_fits(plan, st) {
        return not_run(31, st);
    }
    if user >= USERS {
        return not_run(46, st);
    }
    let mut cells = [0u64; 4176];
    let marks = plan_state::unpack(plan, st, &mut cells);
    let mut pending = plan_state::slots_of(&st.pending, &st.unsure);
    let mut places = st.places;
    let room = prepared::room_in(st.counters, user);
    let t = run_up(
        plan,
        &mut cells,
        &mut pending,
        &mut places,
        marks,
        limit,
        room,
    );
    let counters = prepared::raised(t.accepted as u64, user, st.counters);
    let state = plan_state::pack(&cells, &pending, places, t.marks, counters);
    Worked {
        accepted: t.accepted,
        stores: t.stores,
        number: t.number,
        state,
    }
}

// ---- the wires that read a variable whose value differs

// Has a variable another value in the second state?
fn differs(a: State, b: State, v: usize) -> bool
    ensures { result ≡ changed (value_of a) (value_of b) v }
{
    let x = values::value_at(&a.value, &a.unknown, v);
    let y = values::value_at(&b.value, &b.unknown, v);
    !values::same(x, y)
}

// Does wire `k` read variable `v`, and has it changed?
fn reads_it(plan: &PlanTable, k: usize, a: State, b: State, v: usize) -> bool
    ensures { result ≡ reads_at (plan_of plan.now) a b k v }
{
    masks::has(plan::readers(plan, v), k) && differs(a, b, v)
}

// Does wire `k` read a variable that has changed?
fn reads_changed(plan: &PlanTable, k: usize, a: State, b: State) -> bool
    ensures { result ≡ reads_changed (plan_of plan.now) a b k 80 }
{
    for v in 0..VARIABLES {
        if reads_it(plan, k, a, b, v) {
            return true;
        }
    }
    false
}

// How many wires read a variable whose value differs?
pub fn readers(plan: &PlanTable, a: State, b: State) -> usize
    ensures { result ≡ readers_at (plan_of plan.now) a b (plan_of plan.now).wires }
{
    let wires = plan::wires(plan);
    let mut count: usize = 0;
    for k in 0..wires {
        let reads = reads_changed(plan, k, a, b);
        count += usize::from(reads);
    }
    count
}
