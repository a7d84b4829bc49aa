// A sheet prepared once, and the event simulator's calls on its plan, from C and Rust. A state lies in saved bytes, as for the calls on a
// sheet; bytes that are no saved state are refused with 31. Each call equals its definition for plans of any contents; specs/PlanClaims
// says that on what `walbryts_prepare` filled it is the call on the sheet.
ghost use Rattle.std.specs.Prelude.{◌≡◌, false};
ghost use Rattle.sheet.specs.Module.{read};
ghost use Rattle.saved.specs.Saved.{saved, loaded};
ghost use Rattle.events.specs.Verdict.{number_of_verdict, word_of_verdict};
ghost use Rattle.plan.specs.Plan.{plan_of};
ghost use Rattle.prepared.specs.Prepared.{prepared_plan, start_at, choose_at, run_at, plain_at, instant_at};
ghost use Rattle.prepared_cycles.specs.Phases.{cycles_at};
ghost use Rattle.prepared_cycles.specs.Traces.{trace_at, traced_at};
ghost use Rattle.exports.specs.Exports.{number_of, place_of};
ghost use Rattle.exports.specs.Clocked.{inputs_in};
ghost use Rattle.exports.specs.Saved.{bytes_on, told_on, ran, rested};
ghost use Rattle.exports.specs.Plans.{number_at, verdict_at, cycled_at, untraced, trace_number};

use crate::{number_of_verdict, word_of_verdict};
use events::Inputs;
use plan::PlanTable;

// Reads a sheet, and fills the plan where it is accepted. `place` takes the byte at which a refusal was met, 0 where it is read.
#[unsafe(no_mangle)]
pub extern "C" fn walbryts_prepare(sheet: &[u8], plan: &mut PlanTable, place: &mut usize) -> u8
    ensures value { result ≡ number_of (read sheet.now) }
    ensures plan_after { plan.new ≡ prepared_plan sheet.now plan.old }
    ensures place_after { place.new ≡ place_of (read sheet.now) }
{
    let found = prepared::prepare(sheet, plan);
    *place = found.place;
    found.number
}

// The state becomes the start state, with these allowances.
#[unsafe(no_mangle)]
pub extern "C" fn walbryts_plan_start(
    plan: &PlanTable,
    allowances: &[u32; 4],
    state: &mut [u8; 1025],
)
    ensures { state.new ≡ saved (start_at (plan_of plan.now) allowances.now) }
{
    let first = prepared::start(plan, *allowances);
    saved::save(first, state);
}

// A choice of a user.
#[unsafe(no_mangle)]
pub extern "C" fn walbryts_plan_choose(
    plan: &PlanTable,
    state: &mut [u8; 1025],
    user: u8,
    choice: u8,
) -> u8
    ensures value { result ≡ number_at (loaded state.old) (λ st. choose_at (plan_of plan.now) st user choice) }
    ensures state_after { state.new
        ≡ bytes_on state.old (loaded state.old) (λ st. choose_at (plan_of plan.now) st user choice) }
{
    let l = saved::load(state);
    if !l.found {
        return 31;
    }
    let st = l.state;
    let chosen = prepared::choose(plan, st, user, choice);
    let left = chosen.state;
    saved::save(left, state);
    chosen.number
}

// A run over a list of a user's choices; `accepted` takes how many were accepted.
#[unsafe(no_mangle)]
pub extern "C" fn walbryts_plan_run(
    plan: &PlanTable,
    state: &mut [u8; 1025],
    user: u8,
    choices: &[u8],
    accepted: &mut usize,
) -> u8
    ensures value { result
        ≡ number_at (loaded state.old)
        (λ st. ran (run_at (plan_of plan.now) st user choices.now)) }
    ensures state_after { state.new
        ≡ bytes_on state.old (loaded state.old)
        (λ st. ran (run_at (plan_of plan.now) st user choices.now)) }
    ensures accepted_after { accepted.new
        ≡ told_on 0 (loaded state.old)
        (λ st. (run_at (plan_of plan.now) st user choices.now).accepted) }
{
    let l = saved::load(state);
    if !l.found {
        *accepted = 0;
        return 31;
    }
    let st = l.state;
    let reached = prepared::run(plan, st, user, choices);
    let left = reached.state;
    saved::save(left, state);
    *accepted = reached.accepted;
    reached.number
}

// The plain run of a user; `accepted` takes how many choices were accepted, `word` 0 for quiet, 1 for spent, 2 for stopped, 3 for refused.
#[unsafe(no_mangle)]
pub extern "C" fn walbryts_plan_run_plain(
    plan: &PlanTable,
    state: &mut [u8; 1025],
    user: u8,
    limit: u16,
    accepted: &mut u16,
    word: &mut u8,
) -> u8
    ensures value { result
        ≡ number_of_verdict
        (verdict_at (loaded state.old) (λ st. plain_at (plan_of plan.now) st user limit)) }
    ensures state_after { state.new
        ≡ bytes_on state.old (loaded state.old)
        (λ st. rested (plain_at (plan_of plan.now) st user limit)) }
    ensures accepted_after { accepted.new
        ≡ told_on 0 (loaded state.old) (λ st. (plain_at (plan_of plan.now) st user limit).accepted) }
    ensures word_after { word.new
        ≡ word_of_verdict
        (verdict_at (loaded state.old) (λ st. plain_at (plan_of plan.now) st user limit)) }
{
    let l = saved::load(state);
    if !l.found {
        *accepted = 0;
        *word = 3;
        return 31;
    }
    let st = l.state;
    let rest = prepared::run_plain(plan, st, user, limit);
    let left = rest.state;
    saved::save(left, state);
    *accepted = rest.accepted;
    let v = rest.verdict;
    *word = word_of_verdict(v);
    number_of_verdict(v)
}

// An instant, its inputs counted with the clock's: numbers, and the marks of their unknown bits.
#[unsafe(no_mangle)]
pub extern "C" fn walbryts_plan_instant(
    plan: &PlanTable,
    state: &mut [u8; 1025],
    count: u8,
    value: &[u32; 16],
    unknown: &[u32; 16],
) -> u8
    ensures value { result
        ≡ number_at (loaded state.old)
        (λ st. instant_at (plan_of plan.now) st (inputs_in count value.now unknown.now)) }
    ensures state_after { state.new
        ≡ bytes_on state.old (loaded state.old)
        (λ st. instant_at (plan_of plan.now) st (inputs_in count value.now unknown.now)) }
{
    let l = saved::load(state);
    if !l.found {
        return 31;
    }
    let st = l.state;
    let a = Inputs {
        count,
        value: *value,
        unknown: *unknown,
    };
    let entered = prepared::instant(plan, st, a);
    let left = entered.state;
    saved::save(left, state);
    entered.number
}

// Many clock cycles, whose choices are a user's: rows of 16 inputs and of their marks, the clock's not looked at; `phases` takes how
// many instants were done, `running` whether it was the run after an instant that stopped it.
#[unsafe(no_mangle)]
pub extern "C" fn walbryts_plan_run_cycles(
    plan: &PlanTable,
    state: &mut [u8; 1025],
    user: u8,
    value: &[u32],
    unknown: &[u32],
    phases: &mut usize,
    running: &mut bool,
) -> u8
    ensures value { result
        ≡ number_at (loaded state.old)
        (λ st. cycled_at (cycles_at (plan_of plan.now) st user value.now unknown.now)) }
    ensures state_after { state.new
        ≡ bytes_on state.old (loaded state.old)
        (λ st. cycled_at (cycles_at (plan_of plan.now) st user value.now unknown.now)) }
    ensures phases_after { phases.new
        ≡ told_on 0 (loaded state.old)
        (λ st. (cycles_at (plan_of plan.now) st user value.now unknown.now).phases) }
    ensures running_after { running.new
        ≡ told_on false (loaded state.old)
        (λ st. (cycles_at (plan_of plan.now) st user value.now unknown.now).running) }
{
    let l = saved::load(state);
    if !l.found {
        *phases = 0;
        *running = false;
        return 31;
    }
    let st = l.state;
    let done = prepared_cycles::run_cycles(plan, st, user, value, unknown);
    let left = done.state;
    saved::save(left, state);
    *phases = done.phases;
    *running = done.running;
    done.number
}

// The number of a trace on bytes that are no saved state.
fn untraced(value: &[u32], trace: &[u64]) -> u8
    ensures { result ≡ untraced value.now trace.now }
{
    if trace.len() / 88 < 2 * (value.len() / 16) {
        return 23;
    }
    31
}

// The cycles of `walbryts_plan_run_cycles`, and for each instant that was done a row of 88 words: the cells of 80 variables, then the
// eight places. 23, before all else, where there are not two rows lent for each row of inputs.
#[unsafe(no_mangle)]
pub extern "C" fn walbryts_plan_trace(
    plan: &PlanTable,
    state: &mut [u8; 1025],
    user: u8,
    value: &[u32],
    unknown: &[u32],
    trace: &mut [u64],
    phases: &mut usize,
    running: &mut bool,
) -> u8
    ensures value { result
        ≡ trace_number (loaded state.old) value.now trace.old
        (λ st. trace_at (plan_of plan.now) st user value.now unknown.now trace.old) }
    ensures state_after { state.new
        ≡ bytes_on state.old (loaded state.old)
        (λ st. cycled_at (trace_at (plan_of plan.now) st user value.now unknown.now trace.old)) }
    ensures trace_after { trace.new
        ≡ told_on trace.old (loaded state.old)
        (λ st. traced_at (plan_of plan.now) st user value.now unknown.now trace.old) }
    ensures phases_after { phases.new
        ≡ told_on 0 (loaded state.old)
        (λ st. (trace_at (plan_of plan.now) st user value.now unknown.now trace.old).phases) }
    ensures running_after { running.new
        ≡ told_on false (loaded state.old)
        (λ st. (trace_at (plan_of plan.now) st user value.now unknown.now trace.old).running) }
{
    let l = saved::load(state);
    if !l.found {
        *phases = 0;
        *running = false;
        return untraced(value, trace);
    }
    let st = l.state;
    let done = prepared_cycles::trace(plan, st, user, value, unknown, trace);
    let left = done.state;
    saved::save(left, state);
    *phases = done.phases;
    *running = done.running;
    done.number
}
