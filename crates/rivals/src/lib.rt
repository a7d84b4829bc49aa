// The four runs of a comparison: how far they came, the verdict over the rows of their traces, chunk by chunk, and how it ends. Each
// function equals its definition in specs/.
#![tactic(auto)]

mod meeting;

ghost use Rattle.std.specs.Prelude.{◌≡◌, ◌<◌};
ghost use Rattle.rivals.specs.Judging.{lesser, comparable, halted, found, cycles_in, judged, is_done, is_said, concluded};

use comparison::{Counts, Finding, Verdict};
use driving::Ending;
pub use meeting::{first_ending, meet, telling_of};
use options::Outcome;
use trace_row::row_of;

// What each of the four runs of a comparison has: the plain run, the orders of seeds 1 and 2, the expressions.
#[derive(Clone, Copy)]
pub struct Four<T> {
    pub plain: T,
    pub first: T,
    pub second: T,
    pub expressed: T,
}

// How many whole cycles each of them did.
pub type Progress = Four<usize>;

// The one of them that stopped first.
#[derive(Clone, Copy)]
pub enum Halt {
    Plain,
    First,
    Second,
    Expressed,
}

// How each of them ended a cycle, or the start.
pub type Endings = Four<Ending>;

// A cycle: does the comparison go on behind it, how did the first run end that stopped, and the verdict.
#[derive(Clone, Copy)]
pub struct Met {
    pub on: bool,
    pub ending: Ending,
    pub verdict: Verdict,
}

// What is said at the end: nothing, that there was no cycle to compare, or the verdict.
#[derive(Clone, Copy)]
pub enum Telling {
    Silent,
    Uncompared,
    Told,
}

// ---- how far the runs came

// The lesser of two numbers.
#[tactic(auto, unfolding(crate::specs::Judging::lesser))]
fn lesser(a: usize, b: usize) -> usize
    ensures { result ≡ lesser a b }
{
    a.min(b)
}

// How many cycles can be compared: those that all four did.
pub fn comparable(p: Progress) -> usize
    ensures { result ≡ comparable p }
{
    lesser(lesser(p.plain, p.first), lesser(p.second, p.expressed))
}

// Which of them was the first that stopped before it had done so many cycles.
pub fn first_halted(cycles: usize, p: Progress) -> Option<Halt>
    ensures { result ≡ halted cycles p }
{
    let n = comparable(p);
    if cycles <= n {
        return None;
    }
    if p.plain == n {
        return Some(Halt::Plain);
    }
    if p.first == n {
        return Some(Halt::First);
    }
    if p.second == n {
        return Some(Halt::Second);
    }
    Some(Halt::Expressed)
}

// ---- the verdict

// What a cycle shows: the rows after the clock's rise.
fn found(
    m: Counts,
    cycle: usize,
    plain: &[u64],
    first: &[u64],
    second: &[u64],
    expressed: &[u64],
) -> Finding
    requires { cycle < 4611686018427387904 }
    ensures { result ≡ found m plain.now first.now second.now expressed.now cycle }
{
    let r = 2 * cycle + 1;
    let a = row_of(plain, r);
    let b = row_of(first, r);
    let c = row_of(second, r);
    let d = row_of(expressed, r);
    comparison::compare(m, a, b, c, d)
}

// How many whole cycles four traces have.
fn cycles_in(plain: &[u64], first: &[u64], second: &[u64], expressed: &[u64]) -> usize
    ensures { result ≡ cycles_in plain.now first.now second.now expressed.now }
{
    comparable(Progress {
        plain: plain.len() / 176,
        first: first.len() / 176,
        second: second.len() / 176,
        expressed: expressed.len() / 176,
    })
}

// The verdict with so many cycles more, no more than each of the traces has, up to the first in which an order differs.
pub fn judge(
    m: Counts,
    v: Verdict,
    cycles: usize,
    plain: &[u64],
    first: &[u64],
    second: &[u64],
    expressed: &[u64],
) -> Verdict
    ensures { result ≡ judged m v cycles
        plain.now first.now second.now expressed.now }
{
    let n = lesser(cycles, cycles_in(plain, first, second, expressed));
    let mut verdict = v;
    for c in 0..n {
        let f = found(m, c, plain, first, second, expressed);
        verdict = comparison::after(verdict, f);
    }
    verdict
}

// ---- how the comparison ends

// Has nothing kept it from its end?
#[tactic(auto, unfolding(crate::specs::Judging::is_done))]
fn is_done(o: Outcome) -> bool
    ensures { result ≡ is_done o }
{
    matches!(o, Outcome::Done)
}

// Is the verdict said, where the runs or the inputs ended so?
pub fn is_said(v: Verdict, o: Outcome) -> bool
    ensures { result ≡ is_said v o }
{
    if comparison::is_agreed(v) {
        return is_done(o);
    }
    true
}

// How the comparison ends, where the runs or the inputs ended so.
pub fn conclude(v: Verdict, o: Outcome) -> Outcome
    ensures { result ≡ concluded v o }
{
    if is_said(v, o) {
        return comparison::outcome_of(v);
    }
    o
}
