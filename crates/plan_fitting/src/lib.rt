// 31 and 25: does a state fit a plan's counts, widths and thread sizes, do an instant's inputs? Each function equals its definition in
// specs/Fitting, for plans and states of any contents.
#![tactic(auto)]

ghost use Rattle.std.specs.Prelude.{◌≡◌, false, get_or};
ghost use Rattle.std.proofs.Math.Option.{none, some};
ghost use Rattle.values.specs.Values.{pick, fits};
ghost use Rattle.values.specs.Planes.{value_at};
ghost use Rattle.events.specs.Cycle.{all_below};
ghost use Rattle.events.specs.Calls.{pending_fits};
ghost use Rattle.plan.specs.Plan.{plan_of};
ghost use Rattle.plan_fitting.specs.Fitting.{slots_fit, places_fit, none_past, counts_fit, plan_fits, plan_inputs_fit};

use events::Inputs;
use plan::PlanTable;
use sheet::byte_at;
use state::{Counters, State};
use values::{Value, fits, value_at};

// The flag at a place, down past the end.
fn flag_at(flags: &[bool], at: usize) -> bool
    ensures { result ≡ get_or flags.now at false }
{
    at < flags.len() && flags[at]
}

// Do the first `n` values fit their widths?
fn values_fit<'a>(plan: &PlanTable, n: usize, value: &'a [u32], unknown: &'a [u32]) -> bool
    ensures { result ≡ all_below n
        (λ v. fits ((plan_of plan.now).width v) (value_at value.now unknown.now v)) }
{
    for v in 0..n {
        if !fits(plan::width(plan, v), value_at(value, unknown, v)) {
            return false;
        }
    }
    true
}

// Does a slot's pending value, if it is held, fit the width?
fn slot_fits(width: u8, held: bool, a: Value) -> bool
    ensures { result ≡ pending_fits width (pick held (some a) none) }
{
    !held || fits(width, a)
}

// Do the pending values of the registers fit the registers' widths?
fn slots_fit(plan: &PlanTable, st: State) -> bool
    ensures { result ≡ slots_fit (plan_of plan.now) st }
{
    let from = plan::inputs(plan);
    let n = plan::registers(plan);
    for r in 0..n {
        let width = plan::width(plan, from + r);
        let held = flag_at(&st.held, r);
        let a = value_at(&st.pending, &st.unsure, r);
        if !slot_fits(width, held, a) {
            return false;
        }
    }
    true
}

// Is each thread's place below the thread's size?
fn places_fit(plan: &PlanTable, places: &[u8]) -> bool
    ensures { result ≡ places_fit (plan_of plan.now) places.now }
{
    let n = plan::threads(plan);
    for i in 0..n {
        if plan::size(plan, i) <= byte_at(places, i) as usize {
            return false;
        }
    }
    true
}

// Is no flag up from place `n` on?
fn none_past(flags: &[bool; 32], n: usize) -> bool
    ensures { result ≡ none_past flags.now n }
{
    for k in n..32 {
        if flags[k] {
            return false;
        }
    }
    true
}

// Is no user's count above its allowance?
fn counts_fit(c: Counters) -> bool
    ensures { result ≡ counts_fit c }
{
    for u in 0..4 {
        if c.counts[u] > c.allowances[u] as u64 {
            return false;
        }
    }
    true
}

// 31: does the state fit?
pub fn state_fits(plan: &PlanTable, st: State) -> bool
    ensures { result ≡ plan_fits (plan_of plan.now) st }
{
    let n = plan::inputs(plan) + plan::registers(plan) + plan::wires(plan);
    if !values_fit(plan, n, &st.value, &st.unknown) {
        return false;
    }
    if !slots_fit(plan, st) {
        return false;
    }
    if !places_fit(plan, &st.places) {
        return false;
    }
    if !none_past(&st.due, plan::wires(plan)) {
        return false;
    }
    if !none_past(&st.held, plan::registers(plan)) {
        return false;
    }
    counts_fit(st.counters)
}

// 25: are the inputs as many as the plan's, and does each fit its width?
pub fn inputs_fit(plan: &PlanTable, a: Inputs) -> bool
    ensures { result ≡ plan_inputs_fit (plan_of plan.now) a }
{
    let n = plan::inputs(plan);
    a.count as usize == n && values_fit(plan, n, &a.value, &a.unknown)
}
