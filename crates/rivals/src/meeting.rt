// A cycle of a comparison, by how each of the four runs ended it, and what is said at the end.
ghost use Rattle.std.specs.Prelude.{◌≡◌};
ghost use Rattle.rivals.specs.Meeting.{done_of, progress_of, ending_at, first_ending, goes_on, met, verdict_telling, telling};

use crate::{Endings, Halt, Met, Progress, Telling, comparable, first_halted, is_said, judge};
use comparison::{Counts, Verdict};
use driving::Ending;
use options::Outcome;

// ---- the run that stopped first

// How many cycles a run did of one.
#[tactic(auto, unfolding(crate::specs::Meeting::done_of))]
fn done_of(e: Ending) -> usize
    ensures { result ≡ done_of e }
{
    match e {
        Ending::Rested => 1,
        Ending::Refused(_) => 0,
        Ending::Restless(_) => 0,
    }
}

// How far each of them came in one cycle.
#[tactic(auto, unfolding(crate::specs::Meeting::progress_of))]
fn progress_of(e: Endings) -> Progress
    ensures { result ≡ progress_of e }
{
    Progress {
        plain: done_of(e.plain),
        first: done_of(e.first),
        second: done_of(e.second),
        expressed: done_of(e.expressed),
    }
}

// How the one of them ended that stopped first.
#[tactic(auto, unfolding(crate::specs::Meeting::ending_at))]
fn ending_at(e: Endings, h: Option<Halt>) -> Ending
    ensures { result ≡ ending_at e h }
{
    match h {
        None => Ending::Rested,
        Some(Halt::Plain) => e.plain,
        Some(Halt::First) => e.first,
        Some(Halt::Second) => e.second,
        Some(Halt::Expressed) => e.expressed,
    }
}

// How the first of them ended that stopped in a cycle; at rest where none did.
pub fn first_ending(e: Endings) -> Ending
    ensures { result ≡ first_ending e }
{
    let h = first_halted(1, progress_of(e));
    ending_at(e, h)
}

// ---- the cycle

// Does the comparison go on?
#[tactic(auto, unfolding(crate::specs::Meeting::goes_on))]
fn goes_on(e: Ending, v: Verdict) -> bool
    ensures { result ≡ goes_on e v }
{
    match e {
        Ending::Rested => comparison::is_agreed(v),
        Ending::Refused(_) | Ending::Restless(_) => false,
    }
}

// A verdict with one cycle more, by how the runs ended it and by its rows.
pub fn meet(
    m: Counts,
    v: Verdict,
    e: Endings,
    plain: &[u64],
    first: &[u64],
    second: &[u64],
    expressed: &[u64],
) -> Met
    ensures { result ≡ met m v e plain.now first.now second.now expressed.now }
{
    let n = comparable(progress_of(e));
    let verdict = judge(m, v, n, plain, first, second, expressed);
    let ending = first_ending(e);
    let on = goes_on(ending, verdict);
    Met {
        on,
        ending,
        verdict,
    }
}

// ---- its end

// What is said of a verdict.
#[tactic(auto, unfolding(crate::specs::Meeting::verdict_telling))]
fn verdict_telling(v: Verdict) -> Telling
    ensures { result ≡ verdict_telling v }
{
    match v {
        Verdict::Agreed(n) => {
            if n == 0 {
                Telling::Uncompared
            } else {
                Telling::Told
            }
        }
        Verdict::Differs { .. } => Telling::Told,
    }
}

// What is said at the end, where the runs or the inputs ended so.
pub fn telling_of(v: Verdict, o: Outcome) -> Telling
    ensures { result ≡ telling v o }
{
    if is_said(v, o) {
        return verdict_telling(v);
    }
    Telling::Silent
}
