// The functions that C and Rust call. A slice passes as a pointer and its length, an array or a number as a pointer. A refused call
// leaves every lent byte and word as it was (specs/Refused); what it tells beside its number is its answer.
#![tactic(auto)]

pub mod dispatcher;
pub mod plan_calls;
pub mod plan_cycles;
pub mod reader;
pub mod words;

ghost use Rattle.std.specs.Prelude.{◌≡◌, false};
ghost use Rattle.sheet.specs.Module.{read};
ghost use Rattle.listings.specs.Listing.{listed, laid_in};
ghost use Rattle.saved.specs.Saved.{loaded};
ghost use Rattle.saved.specs.Older.{brought_over};
ghost use Rattle.events.specs.Calls.{start, choose, run_list, run_plain, instant};
ghost use Rattle.events.specs.Verdict.{number_of_verdict, word_of_verdict};
ghost use Rattle.batch.specs.Cycles.{run_cycles};
ghost use Rattle.nextstate.specs.Extraction.{extract};
ghost use Rattle.nextstate.specs.CycleRun.{cycle_run};
ghost use Rattle.cycles.specs.Many.{cycles_run};
ghost use Rattle.exports.specs.Exports.{number_of, place_of};
ghost use Rattle.exports.specs.Clocked.{registers_in, inputs_in, arrays, after_cycle, after_cycles};
ghost use Rattle.exports.specs.Saved.{is_state, brought_into, started_in, unfit};
ghost use Rattle.exports.specs.Saved.{number_on, bytes_on, told_on, ran, rested, verdict_on, cycled_as};

use events::{Inputs, Verdict};
use nextstate::Registers;

// The number of the sheet's refusal, 0 where it is read; `place` takes the byte at which it was met, 0 where it is read.
#[unsafe(no_mangle)]
pub extern "C" fn walbryts_read(sheet: &[u8], place: &mut usize) -> u8
    ensures value { result ≡ number_of (read sheet.now) }
    ensures place_after { place.new ≡ place_of (read sheet.now) }
{
    let found = sheet::read(sheet);
    *place = found.place;
    found.number
}

// The sheet's listing, at the front of `text`; what lies behind it stays. `length` takes its length, 0 where the sheet is refused.
#[unsafe(no_mangle)]
pub extern "C" fn walbryts_list(sheet: &[u8], text: &mut [u8; 65536], length: &mut usize) -> u8
    ensures value { result ≡ (listed (read sheet.now)).number }
    ensures text_after { text.new ≡ laid_in text.old (read sheet.now) }
    ensures length_after { length.new ≡ (listed (read sheet.now)).length }
{
    let listing = listings::list(sheet, text);
    *length = listing.length;
    listing.number
}

// ---- the simulator, on a saved state. Each call gives its number; bytes that are no saved state are refused with 31.

// Are the bytes a saved state in the form that the calls take?
#[unsafe(no_mangle)]
pub extern "C" fn walbryts_is_state(bytes: &[u8]) -> bool
    ensures { result ≡ is_state bytes.now }
{
    let l = saved::load(bytes);
    l.found
}

// A saved state of any form, in the form that the calls take: one with one count is brought over with that count as user 0's and
// these allowances, and the x of an older form becomes marks on all bits of the sheet's variable.
#[unsafe(no_mangle)]
pub extern "C" fn walbryts_bring_over(
    sheet: &[u8],
    old: &[u8],
    allowances: &[u32; 4],
    state: &mut [u8; 1025],
) -> u8
    ensures value { result ≡ (brought_over sheet.now old.now allowances.now).number }
    ensures state_after { state.new
        ≡ brought_into state.old (brought_over sheet.now old.now allowances.now) }
{
    let brought = saved::bring_over(sheet, old, *allowances);
    if brought.number != 0 {
        return brought.number;
    }
    let st = brought.state;
    saved::save(st, state);
    brought.number
}

// The state becomes the start state, with these allowances.
#[unsafe(no_mangle)]
pub extern "C" fn walbryts_start(sheet: &[u8], allowances: &[u32; 4], state: &mut [u8; 1025]) -> u8
    ensures value { result ≡ (start sheet.now allowances.now).number }
    ensures state_after { state.new
        ≡ started_in state.old (start sheet.now allowances.now) }
{
    let first = simulator::start(sheet, *allowances);
    if first.number != 0 {
        return first.number;
    }
    let left = first.state;
    saved::save(left, state);
    first.number
}

// The number of a call on bytes that are no saved state: the sheet's own, else 31.
fn unfit(sheet: &[u8]) -> u8
    ensures { result ≡ unfit (read sheet.now) }
{
    let r = sheet::read(sheet);
    if r.number != 0 {
        return r.number;
    }
    31
}

// A choice of a user.
#[unsafe(no_mangle)]
pub extern "C" fn walbryts_choose(sheet: &[u8], state: &mut [u8; 1025], user: u8, choice: u8) -> u8
    ensures value { result ≡ number_on sheet.now (loaded state.old) (λ st. choose sheet.now st user choice) }
    ensures state_after { state.new
        ≡ bytes_on state.old (loaded state.old) (λ st. choose sheet.now st user choice) }
{
    let l = saved::load(state);
    if !l.found {
        return unfit(sheet);
    }
    let st = l.state;
    let chosen = simulator::choose(sheet, st, user, choice);
    let left = chosen.state;
    saved::save(left, state);
    chosen.number
}

// A run over a list of a user's choices; `accepted` takes how many were accepted.
#[unsafe(no_mangle)]
pub extern "C" fn walbryts_run(
    sheet: &[u8],
    state: &mut [u8; 1025],
    user: u8,
    choices: &[u8],
    accepted: &mut usize,
) -> u8
    ensures value { result
        ≡ number_on sheet.now (loaded state.old)
        (λ st. ran (run_list sheet.now st user choices.now)) }
    ensures state_after { state.new
        ≡ bytes_on state.old (loaded state.old)
        (λ st. ran (run_list sheet.now st user choices.now)) }
    ensures accepted_after { accepted.new
        ≡ told_on 0 (loaded state.old) (λ st. (run_list sheet.now st user choices.now).accepted) }
{
    let l = saved::load(state);
    if !l.found {
        *accepted = 0;
        return unfit(sheet);
    }
    let st = l.state;
    let reached = simulator::run(sheet, st, user, choices);
    let left = reached.state;
    saved::save(left, state);
    *accepted = reached.accepted;
    reached.number
}

// A plain run's number.
fn number_of_verdict(v: Verdict) -> u8
    ensures { result ≡ number_of_verdict v }
{
    match v {
        Verdict::Quiet => 0,
        Verdict::Spent => 0,
        Verdict::Stopped(n) => n,
        Verdict::Refused(n) => n,
    }
}

// A plain run's word.
fn word_of_verdict(v: Verdict) -> u8
    ensures { result ≡ word_of_verdict v }
{
    match v {
        Verdict::Quiet => 0,
        Verdict::Spent => 1,
        Verdict::Stopped(_) => 2,
        Verdict::Refused(_) => 3,
    }
}

// The plain run of a user; `accepted` takes how many choices were accepted, `word` 0 for quiet, 1 for spent, 2 for stopped, 3 for refused.
#[unsafe(no_mangle)]
pub extern "C" fn walbryts_run_plain(
    sheet: &[u8],
    state: &mut [u8; 1025],
    user: u8,
    limit: u16,
    accepted: &mut u16,
    word: &mut u8,
) -> u8
    ensures value { result
        ≡ number_of_verdict
        (verdict_on sheet.now (loaded state.old) (λ st. run_plain sheet.now st user limit)) }
    ensures state_after { state.new
        ≡ bytes_on state.old (loaded state.old) (λ st. rested (run_plain sheet.now st user limit)) }
    ensures accepted_after { accepted.new
        ≡ told_on 0 (loaded state.old) (λ st. (run_plain sheet.now st user limit).accepted) }
    ensures word_after { word.new
        ≡ word_of_verdict
        (verdict_on sheet.now (loaded state.old) (λ st. run_plain sheet.now st user limit)) }
{
    let l = saved::load(state);
    if !l.found {
        *accepted = 0;
        *word = 3;
        return unfit(sheet);
    }
    let st = l.state;
    let rest = simulator::run_plain(sheet, st, user, limit);
    let left = rest.state;
    saved::save(left, state);
    *accepted = rest.accepted;
    let v = rest.verdict;
    *word = word_of_verdict(v);
    number_of_verdict(v)
}

// An instant, its inputs counted with the clock's: numbers, and the marks of their unknown bits.
#[unsafe(no_mangle)]
pub extern "C" fn walbryts_instant(
    sheet: &[u8],
    state: &mut [u8; 1025],
    count: u8,
    value: &[u32; 16],
    unknown: &[u32; 16],
) -> u8
    ensures value { result
        ≡ number_on sheet.now (loaded state.old)
        (λ st. instant sheet.now st (inputs_in count value.now unknown.now)) }
    ensures state_after { state.new
        ≡ bytes_on state.old (loaded state.old)
        (λ st. instant sheet.now st (inputs_in count value.now unknown.now)) }
{
    let l = saved::load(state);
    if !l.found {
        return unfit(sheet);
    }
    let st = l.state;
    let a = Inputs {
        count,
        value: *value,
        unknown: *unknown,
    };
    let entered = simulator::instant(sheet, st, a);
    let left = entered.state;
    saved::save(left, state);
    entered.number
}

// Many clock cycles, whose choices are a user's: rows of 16 inputs and of their marks, the clock's not looked at; `phases` takes how
// many instants were done, `running` whether it was the run after an instant that stopped it.
#[unsafe(no_mangle)]
pub extern "C" fn walbryts_run_cycles(
    sheet: &[u8],
    state: &mut [u8; 1025],
    user: u8,
    value: &[u32],
    unknown: &[u32],
    phases: &mut usize,
    running: &mut bool,
) -> u8
    ensures value { result
        ≡ number_on sheet.now (loaded state.old)
        (λ st. cycled_as (run_cycles sheet.now st user value.now unknown.now)) }
    ensures state_after { state.new
        ≡ bytes_on state.old (loaded state.old)
        (λ st. cycled_as (run_cycles sheet.now st user value.now unknown.now)) }
    ensures phases_after { phases.new
        ≡ told_on 0 (loaded state.old)
        (λ st. (run_cycles sheet.now st user value.now unknown.now).phases) }
    ensures running_after { running.new
        ≡ told_on false (loaded state.old)
        (λ st. (run_cycles sheet.now st user value.now unknown.now).running) }
{
    let l = saved::load(state);
    if !l.found {
        *phases = 0;
        *running = false;
        return unfit(sheet);
    }
    let st = l.state;
    let done = batch::run_cycles(sheet, st, user, value, unknown);
    let left = done.state;
    saved::save(left, state);
    *phases = done.phases;
    *running = done.running;
    done.number
}

// ---- extraction and the cycle run

// The nodes and rows of the sheet's expressions, into 16,384 and 1,056 lent words.
#[unsafe(no_mangle)]
pub extern "C" fn walbryts_extract(sheet: &[u8], nodes: &mut [u16], rows: &mut [u16]) -> u8
    ensures value { result ≡ (extract sheet.now nodes.old rows.old).number }
    ensures nodes_after { nodes.new ≡ (extract sheet.now nodes.old rows.old).nodes }
    ensures rows_after { rows.new ≡ (extract sheet.now nodes.old rows.old).rows }
{
    extraction::extract(sheet, nodes, rows)
}

// A clock cycle by lent tables. `value`, `unknown` and `places` hold the registers, the marks of their unknown bits and the places
// before it and become those after it; `inputs` are the inputs from 1 up; `wire` and `unsure` take the wires and their marks.
#[unsafe(no_mangle)]
pub extern "C" fn walbryts_cycle(
    sheet: &[u8],
    nodes: &[u16],
    rows: &[u16],
    value: &mut [u32; 32],
    unknown: &mut [u32; 32],
    places: &mut [u8; 8],
    count: u8,
    inputs: &[u32; 16],
    inputs_unknown: &[u32; 16],
    wire: &mut [u32; 32],
    unsure: &mut [u32; 32],
) -> u8
    ensures value { result
        ≡ (cycle_run sheet.now nodes.now rows.now
        (registers_in value.old unknown.old places.old)
        (inputs_in count inputs.now inputs_unknown.now)
        ).number }
    ensures unsure_after { arrays value.new unknown.new places.new wire.new unsure.new
        ≡ after_cycle
        (arrays value.old unknown.old places.old wire.old unsure.old)
        (cycle_run sheet.now nodes.now rows.now
        (registers_in value.old unknown.old places.old)
        (inputs_in count inputs.now inputs_unknown.now)) }
{
    let before = Registers {
        value: *value,
        unknown: *unknown,
        places: *places,
    };
    let a = Inputs {
        count,
        value: *inputs,
        unknown: *inputs_unknown,
    };
    let c = cycles::cycle(sheet, nodes, rows, before, a);
    if c.number != 0 {
        return c.number;
    }
    let registers = c.value;
    *value = registers;
    let marks = c.unknown;
    *unknown = marks;
    let waits = c.places;
    *places = waits;
    let wires = c.wire;
    *wire = wires;
    let doubts = c.unsure;
    *unsure = doubts;
    c.number
}

// Many clock cycles by lent tables: rows of 16 inputs, the clock's not looked at; `cycles` takes how many were accepted. The
// arrays become what the last accepted one gave; where none was, they stay.
#[unsafe(no_mangle)]
pub extern "C" fn walbryts_cycles(
    sheet: &[u8],
    nodes: &[u16],
    rows: &[u16],
    value: &mut [u32; 32],
    unknown: &mut [u32; 32],
    places: &mut [u8; 8],
    inputs: &[u32],
    inputs_unknown: &[u32],
    cycles: &mut usize,
    wire: &mut [u32; 32],
    unsure: &mut [u32; 32],
) -> u8
    ensures value { result
        ≡ (cycles_run sheet.now nodes.now rows.now
        (registers_in value.old unknown.old places.old)
        inputs.now inputs_unknown.now
        ).number }
    ensures cycles_after { cycles.new
        ≡ (cycles_run sheet.now nodes.now rows.now
        (registers_in value.old unknown.old places.old)
        inputs.now inputs_unknown.now
        ).cycles }
    ensures unsure_after { arrays value.new unknown.new places.new wire.new unsure.new
        ≡ after_cycles
        (arrays value.old unknown.old places.old wire.old unsure.old)
        (cycles_run sheet.now nodes.now rows.now
        (registers_in value.old unknown.old places.old)
        inputs.now inputs_unknown.now) }
{
    let before = Registers {
        value: *value,
        unknown: *unknown,
        places: *places,
    };
    let r = cycles::run(sheet, nodes, rows, before, inputs, inputs_unknown);
    *cycles = r.cycles;
    if r.cycles == 0 {
        return r.number;
    }
    let registers = r.value;
    *value = registers;
    let marks = r.unknown;
    *unknown = marks;
    let waits = r.places;
    *places = waits;
    let wires = r.wire;
    *wire = wires;
    let doubts = r.unsure;
    *unsure = doubts;
    r.number
}
