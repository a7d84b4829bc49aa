// What a comparison of runs says: where the rows of two runs differ after a cycle, which of several orders differs first from the
// extracted expressions, and the verdict over all cycles, with its words. Each function equals its definition in specs/.
#![tactic(auto)]

mod saying;

ghost use Rattle.std.specs.Prelude.{◌≡◌, ◌∷◌, [], ◌-◌};
ghost use Rattle.stimulus.specs.Counting.{first_from, found_below};
ghost use Rattle.comparison.specs.Comparison.{values_differ, places_differ, difference, differs, finding};
ghost use Rattle.comparison.specs.Verdicts.{after, is_agreed, cycle_of, agreed_outcome, outcome_of};

use options::Outcome;
pub use saying::put_verdict;
use stimulus::counted;
use trace_row::{place_in, value_in};
use values::Value;

// How many of each kind a module has.
#[derive(Clone, Copy)]
pub struct Counts {
    pub inputs: u8,
    pub registers: u8,
    pub wires: u8,
    pub threads: u8,
}

// Where two rows differ first: nowhere, in a register or a wire, with the two values, or in the place of a thread.
#[derive(Clone, Copy)]
pub enum Difference {
    Nowhere,
    Variable {
        variable: usize,
        here: Value,
        there: Value,
    },
    Place(usize),
}

// What a cycle shows: all orders agree with the expressions, or one differs. Stays an enum of its own: the theorem ByCycles speaks of it.
#[derive(Clone, Copy)]
pub enum Finding {
    Same,
    Apart {
        order: usize,
        difference: Difference,
    },
}

// What all cycles show: so many agree, or one does not.
#[derive(Clone, Copy)]
pub enum Verdict {
    Agreed(usize),
    Differs {
        cycle: usize,
        order: usize,
        difference: Difference,
    },
}

// ---- two rows

// The first variable from one number to another in which two rows differ.
fn first_variable(a: &[u64], b: &[u64], from: usize, to: usize) -> Option<usize>
    ensures { result ≡ found_below to (first_from (values_differ a.now b.now) (to - from) from) }
{
    for v in from..to {
        let here = value_in(a, v);
        let there = value_in(b, v);
        if !values::same(here, there) {
            return Some(v);
        }
    }
    None
}

// The first of n threads whose places differ.
fn first_place(a: &[u64], b: &[u64], n: u8) -> Option<u8>
    ensures { result ≡ found_below n (first_from (places_differ a.now b.now) n 0) }
{
    for i in 0..n {
        if place_in(a, i) != place_in(b, i) {
            return Some(i);
        }
    }
    None
}

// Where two rows of a module differ first.
pub fn first_difference(m: Counts, a: &[u64], b: &[u64]) -> Difference
    ensures { result ≡ difference m a.now b.now }
{
    let from = m.inputs as usize;
    let to = from + (m.registers as usize + m.wires as usize);
    if let Some(variable) = first_variable(a, b, from, to) {
        return Difference::Variable {
            variable,
            here: value_in(a, variable),
            there: value_in(b, variable),
        };
    }
    match first_place(a, b, m.threads) {
        Some(i) => Difference::Place(i as usize),
        None => Difference::Nowhere,
    }
}

// ---- a cycle

// Is there a difference?
#[tactic(auto, unfolding(crate::specs::Comparison::differs))]
fn differs(d: Difference) -> bool
    ensures { result ≡ differs d }
{
    !matches!(d, Difference::Nowhere)
}

// An order that differs.
fn apart(order: usize, difference: Difference) -> Finding
    ensures { result ≡ Finding.Apart order difference }
{
    Finding::Apart { order, difference }
}

// The first of three orders whose row differs from that of the expressions.
pub fn compare(
    m: Counts,
    plain: &[u64],
    first: &[u64],
    second: &[u64],
    expressed: &[u64],
) -> Finding
    ensures { result ≡ finding m (plain.now ∷ first.now ∷ second.now ∷ []) expressed.now }
{
    let d = first_difference(m, plain, expressed);
    if differs(d) {
        return apart(0, d);
    }
    let e = first_difference(m, first, expressed);
    if differs(e) {
        return apart(1, e);
    }
    let f = first_difference(m, second, expressed);
    if differs(f) {
        return apart(2, f);
    }
    Finding::Same
}

// ---- all cycles

// The verdict with one cycle more.
pub fn after(v: Verdict, f: Finding) -> Verdict
    ensures { result ≡ after v f }
{
    match v {
        Verdict::Agreed(n) => match f {
            Finding::Same => Verdict::Agreed(counted(n)),
            Finding::Apart { order, difference } => Verdict::Differs {
                cycle: n,
                order,
                difference,
            },
        },
        Verdict::Differs { .. } => v,
    }
}

// Has no order differed?
#[tactic(auto, unfolding(crate::specs::Verdicts::is_agreed))]
pub fn is_agreed(v: Verdict) -> bool
    ensures { result ≡ is_agreed v }
{
    matches!(v, Verdict::Agreed(_))
}

// The cycle to come, or the one that differs.
pub fn cycle_of(v: Verdict) -> usize
    ensures { result ≡ cycle_of v }
{
    match v {
        Verdict::Agreed(n) => n,
        Verdict::Differs { cycle, .. } => cycle,
    }
}

// How a command ends that has seen so many cycles agree: none is a mistake.
fn agreed_outcome(n: usize) -> Outcome
    ensures { result ≡ agreed_outcome n }
{
    if n == 0 {
        Outcome::Mistaken
    } else {
        Outcome::Done
    }
}

// How a command with that verdict ends.
pub fn outcome_of(v: Verdict) -> Outcome
    ensures { result ≡ outcome_of v }
{
    match v {
        Verdict::Agreed(n) => agreed_outcome(n),
        Verdict::Differs { .. } => Outcome::Different,
    }
}
