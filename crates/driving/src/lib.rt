// A module driven by events through the halves of clock cycles: an instant, and then the plain run, or choices drawn by a seed until
// nothing is left to choose. Each function equals its definition in specs/.
#![tactic(auto)]

mod going;
mod saying;
mod states;

ghost use Rattle.std.specs.Prelude.{◌≡◌};
ghost use Rattle.plan.specs.Plan.{plan_of};
ghost use Rattle.driving.specs.Endings.{most_of, ending_of, outcome_of, is_expressed, is_counted, line_outcome, time_of};
ghost use Rattle.driving.specs.Plans.{seed_of, is_drawn, stopped_by, rest_of, resumed_at, begun_at, traced_at, rows_at};

pub use going::{after_expressions, line_of, run_unextracted};
use options::{Outcome, Way};
use plan::PlanTable;
use prepared_cycles::Driven;
pub use saying::put_restless;
use state::State;
pub use states::{registers_of, row_of, unsettled};

// How many choices a run to rest may take, of a plain run and of one whose choices are drawn.
const PLAIN_MOST: usize = 65535;

const DRAWN_MOST: usize = 4000000;

// The number of a choice whose user's allowance is used up.
const USED_UP: u8 = 47;

// A state, and how it is run: by which way, the number that refused a call or stopped a run, whether it came to rest, and the generator's
// next seed.
#[derive(Clone, Copy)]
pub struct Rest {
    pub way: Way,
    pub number: u8,
    pub rested: bool,
    pub state: State,
    pub seed: u64,
}

// What a trace gives: how many instants were accepted and came to rest, whose rows are written, and how it goes on from there.
#[derive(Clone, Copy)]
pub struct Traced {
    pub phases: usize,
    pub rest: Rest,
}

// What is said of a run that was to come to rest: that it did, the number that refused it, or that it was not at rest after so many
// choices.
#[derive(Clone, Copy)]
pub enum Ending {
    Rested,
    Refused(u8),
    Restless(usize),
}

// What a line of the inputs is: a row of a cycle, a blank line that is passed over, the end of the file, or a line that is wrong.
#[derive(Clone, Copy)]
pub enum Line {
    Cycle,
    Passed,
    Last,
    Wrong,
}

// What becomes of a run whose module extraction refuses: it is held back, it goes on behind a warning, or it goes on and says nothing.
#[derive(Clone, Copy)]
pub enum Unextracted {
    Held,
    Warned,
    Silent,
}

// The seed that choices are drawn by.
#[tactic(auto, unfolding(crate::specs::Plans::seed_of))]
fn seed_of(way: Way) -> u64
    ensures { result ≡ seed_of way }
{
    match way {
        Way::Drawn(seed) => seed as u64,
        Way::Plain | Way::Expressed | Way::Counted => 0,
    }
}

// Are the choices drawn?
#[tactic(auto, unfolding(crate::specs::Plans::is_drawn))]
fn is_drawn(way: Way) -> bool
    ensures { result ≡ is_drawn way }
{
    matches!(way, Way::Drawn(_))
}

// The number that stopped driven cycles: where a run is not at rest and its user's allowance is used up, 47.
fn stopped_by(user: u8, d: Driven) -> u8
    ensures { result ≡ stopped_by user d }
{
    if d.number != 0 {
        return d.number;
    }
    if d.rested {
        return 0;
    }
    if prepared::room_in(d.state.counters, user) == 0 {
        return USED_UP;
    }
    0
}

// What driven cycles leave.
fn rest_of(user: u8, way: Way, d: Driven) -> Rest
    ensures { result ≡ rest_of user way d }
{
    let number = stopped_by(user, d);
    Rest {
        way,
        number,
        rested: d.rested,
        state: d.state,
        seed: d.seed,
    }
}

// A state, run to rest by a user.
pub fn resume(plan: &PlanTable, st: State, user: u8, way: Way) -> Rest
    ensures { result ≡ resumed_at (plan_of plan.now) st user way }
{
    let seed = seed_of(way);
    let d = prepared_cycles::settle(plan, st, user, is_drawn(way), seed);
    rest_of(user, way, d)
}

// The state at the start with these allowances, run to rest by a user.
pub fn begin(plan: &PlanTable, allowances: [u32; 4], user: u8, way: Way) -> Rest
    ensures { result ≡ begun_at (plan_of plan.now) allowances user way }
{
    let st = prepared::start(plan, allowances);
    resume(plan, st, user, way)
}

// Rows of 16 inputs, for each an instant with the clock low and one with the clock high, each run to rest by a user; the row of each that
// came to rest is written into what is lent, 88 words.
pub fn trace(
    plan: &PlanTable,
    r: Rest,
    user: u8,
    value: &[u32],
    unknown: &[u32],
    out: &mut [u64],
) -> Traced
    ensures value { result ≡ traced_at (plan_of plan.now) r user value.now unknown.now out.old }
    ensures out_after { out.new ≡ rows_at (plan_of plan.now) r user value.now unknown.now out.old }
{
    if value.len() < 16 {
        return Traced { phases: 0, rest: r };
    }
    let d = prepared_cycles::drive(
        plan,
        r.state,
        user,
        is_drawn(r.way),
        r.seed,
        value,
        unknown,
        out,
    );
    let rest = rest_of(user, r.way, d);
    Traced {
        phases: d.phases,
        rest,
    }
}

// ---- what is said of it

// How many choices a run may take.
#[tactic(auto, unfolding(crate::specs::Endings::most_of))]
fn most_of(way: Way) -> usize
    ensures { result ≡ most_of way }
{
    match way {
        Way::Drawn(_) => DRAWN_MOST,
        Way::Plain | Way::Expressed | Way::Counted => PLAIN_MOST,
    }
}

// Did it come to rest, and if not, why?
pub fn ending_of(r: Rest) -> Ending
    ensures { result ≡ ending_of r }
{
    if r.number != 0 {
        return Ending::Refused(r.number);
    }
    if r.rested {
        return Ending::Rested;
    }
    Ending::Restless(most_of(r.way))
}

// How a command ends whose run ends so.
#[tactic(auto, unfolding(crate::specs::Endings::outcome_of))]
pub fn outcome_of(e: Ending) -> Outcome
    ensures { result ≡ outcome_of e }
{
    match e {
        Ending::Rested => Outcome::Done,
        Ending::Refused(_) | Ending::Restless(_) => Outcome::Refused,
    }
}

// Is it by the extracted expressions?
#[tactic(auto, unfolding(crate::specs::Endings::is_expressed))]
pub fn is_expressed(way: Way) -> bool
    ensures { result ≡ is_expressed way }
{
    matches!(way, Way::Expressed)
}

// Is its work counted?
#[tactic(auto, unfolding(crate::specs::Endings::is_counted))]
pub fn is_counted(way: Way) -> bool
    ensures { result ≡ is_counted way }
{
    matches!(way, Way::Counted)
}

// How a run ends at a line of its inputs that is none of a cycle: its end is right, and so is a blank one.
pub fn line_outcome(error: u8) -> Outcome
    ensures { result ≡ line_outcome error }
{
    if error < 2 {
        Outcome::Done
    } else {
        Outcome::Mistaken
    }
}

// The time of a cycle's inputs, or of its rise, in a waveform.
pub fn time_of(cycle: usize, clock: u32) -> usize
    ensures { result ≡ time_of cycle clock }
{
    10 * (cycle % 4294967296) + 10 + 5 * (clock % 2) as usize
}
