// The work of clock cycles: the wires that the plain run stores, and the wires that read a variable whose value changed, counted from
// each instant and each commit up to quiet or the next commit and summed over a cycle. Each function equals its definition in specs/.
#![tactic(auto)]

ghost use Rattle.std.specs.Prelude.{◌≡◌, ◌<◌, ◌≤◌, get_or};
ghost use Rattle.plan.specs.Plan.{plan_of};
ghost use Rattle.workload.specs.Workload.{tally, summed, stretched, committed, is_over, to_rest, driven, row_of, inputs_at, cycled};
ghost use Rattle.workload.specs.Workload.{after, written, traced_from, rows_from};

use driving::{Rest, Traced};
use events::Inputs;
use plan::PlanTable;
use state::State;

// How many choices the run may take up to quiet or a commit, and how many commits there may be.
const MOST: u16 = 65535;

const COMMIT: u8 = 255;

// The number of a commit where nothing is enabled and nothing pending.
const NONE_PENDING: u8 = 35;

// How many rows of inputs a trace takes at most.
const ROWS: usize = 32;

// What was counted so far: the number that stopped it, whether all is quiet, the wires stored, the wires that read a changed variable,
// and the state.
#[derive(Clone, Copy)]
pub struct Tally {
    pub number: u8,
    pub rested: bool,
    pub stores: u32,
    pub readers: u32,
    pub state: State,
}

// A sum of 32 bits.
#[tactic(auto, unfolding(crate::specs::Workload::summed))]
fn summed(a: u32, b: usize) -> u32
    ensures { result ≡ summed a b }
{
    ((a as usize + b % 4294967296) % 4294967296) as u32
}

// ---- from an instant or a commit on

// The plain run up to quiet or the next commit, behind a change on the state before.
fn stretched(plan: &PlanTable, user: u8, before: State, t: Tally) -> Tally
    ensures { result ≡ stretched (plan_of plan.now) user before t }
{
    let w = counted::work(plan, t.state, user, MOST);
    let n = counted::readers(plan, before, w.state);
    Tally {
        number: w.number,
        rested: false,
        stores: summed(t.stores, w.stores as usize),
        readers: summed(t.readers, n),
        state: w.state,
    }
}

// The commit; one that finds nothing pending says that all is quiet.
fn committed(plan: &PlanTable, user: u8, t: Tally) -> Tally
    ensures { result ≡ committed (plan_of plan.now) user t }
{
    let c = prepared::choose(plan, t.state, user, COMMIT);
    if c.number == NONE_PENDING {
        return Tally {
            number: 0,
            rested: true,
            state: c.state,
            ..t
        };
    }
    Tally {
        number: c.number,
        rested: false,
        state: c.state,
        ..t
    }
}

// Is it quiet, or stopped?
#[tactic(auto, unfolding(crate::specs::Workload::is_over))]
fn is_over(t: Tally) -> bool
    ensures { result ≡ is_over t }
{
    t.rested || t.number != 0
}

// From commit to commit until all is quiet.
fn to_rest(plan: &PlanTable, user: u8, before: State, t: Tally) -> Tally
    ensures { result ≡ to_rest (plan_of plan.now) user 65535 before t }
{
    let mut old = before;
    let mut e = t;
    for _ in 0..MOST {
        let w = stretched(plan, user, old, e);
        if w.number != 0 {
            return w;
        }
        let c = committed(plan, user, w);
        if is_over(c) {
            return c;
        }
        old = w.state;
        e = c;
    }
    e
}

// An instant, and then to rest.
fn driven(plan: &PlanTable, user: u8, a: Inputs, t: Tally) -> Tally
    ensures { result ≡ driven (plan_of plan.now) user a t }
{
    let c = prepared::instant(plan, t.state, a);
    let e = Tally {
        number: c.number,
        rested: false,
        state: c.state,
        ..t
    };
    if c.number != 0 {
        return e;
    }
    to_rest(plan, user, t.state, e)
}

// ---- rows of inputs

// The number in a slot; past the end 0.
fn number_at(numbers: &[u32], v: usize) -> u32
    ensures { result ≡ get_or numbers.now v 0 }
{
    numbers.get(v).copied().unwrap_or(0)
}

// The numbers of a row, or their marks, with another one in front.
fn row_of(numbers: &[u32], at: usize, first: u32) -> [u32; 16]
    requires { at ≤ 512 }
    ensures { result ≡ row_of numbers.now at first }
{
    let mut a = [0u32; 16];
    for k in 0..16 {
        a[k] = number_at(numbers, at + k);
    }
    a[0] = first;
    a
}

// The inputs of an instant, with the clock low or high.
fn inputs_at(plan: &PlanTable, value: &[u32], unknown: &[u32], at: usize, clock: u32) -> Inputs
    requires { at ≤ 512 }
    ensures { result ≡ inputs_at (plan_of plan.now) value.now unknown.now at clock }
{
    let numbers = row_of(value, at, clock);
    let marks = row_of(unknown, at, 0);
    Inputs {
        count: plan::inputs(plan) as u8,
        value: numbers,
        unknown: marks,
    }
}

// A cycle.
fn cycled(plan: &PlanTable, user: u8, value: &[u32], unknown: &[u32], at: usize, st: State) -> Tally
    requires { at ≤ 512 }
    ensures { result ≡ cycled (plan_of plan.now) user value.now unknown.now at st }
{
    let begun = Tally {
        number: 0,
        rested: true,
        stores: 0,
        readers: 0,
        state: st,
    };
    let down = inputs_at(plan, value, unknown, at, 0);
    let low = driven(plan, user, down, begun);
    if !low.rested {
        return low;
    }
    let up = inputs_at(plan, value, unknown, at, 1);
    driven(plan, user, up, low)
}

// How a run goes on behind a cycle.
#[tactic(auto, unfolding(crate::specs::Workload::after))]
fn after(r: Rest, t: Tally) -> Rest
    ensures { result ≡ after r t }
{
    Rest {
        number: t.number,
        rested: t.rested,
        state: t.state,
        ..r
    }
}

// The stores and the readers of a cycle.
#[tactic(auto, unfolding(crate::specs::Workload::written))]
fn put_cycle(out: &mut [u64; 5720], k: usize, t: Tally)
    requires { k < 32 }
    ensures { out.new ≡ written k t out.old }
{
    out[176 * k + 88] = t.stores as u64;
    out[176 * k + 89] = t.readers as u64;
}

// Rows of 16 inputs, at most 32, for each an instant with the clock low and one with the clock high, each run to rest by a user; the
// stores and the readers of each cycle that came to rest are written in front of its second row in what is lent.
pub fn trace(
    plan: &PlanTable,
    r: Rest,
    user: u8,
    value: &[u32],
    unknown: &[u32],
    out: &mut [u64; 5720],
) -> Traced
    ensures value { result ≡ traced_from (plan_of plan.now) user value.now unknown.now 32 0 r }
    ensures out_after { out.new
        ≡ rows_from (plan_of plan.now) user value.now unknown.now 32 0 r out.old }
{
    let mut rest = r;
    for k in 0..ROWS {
        if value.len() < 16 * k + 16 {
            return Traced {
                phases: 2 * k,
                rest,
            };
        }
        let t = cycled(plan, user, value, unknown, 16 * k, rest.state);
        rest = after(rest, t);
        if !rest.rested {
            return Traced {
                phases: 2 * k,
                rest,
            };
        }
        put_cycle(out, k, t);
    }
    Traced {
        phases: 2 * ROWS,
        rest,
    }
}
