// States in files: the one that a run begins with, and the one that it leaves.
use crate::files::{behind_mark, read_whole};
use crate::machine::{Plan, Stand};
use crate::running::started;
use crate::system::{Stream, System};
use crate::{machine, report, wave};
use first_values::Counts;
use options::{Outcome, RunOptions};
use plan::PlanTable;
use state::State;
use writing::put_word;

// ---- the state that a run begins with

// The state that bytes are a saved form of; where they are none, or of an older form that is refused, says so.
fn brought(
    system: &mut System,
    index: usize,
    sheet: &[u8],
    bytes: &[u8],
    allowances: [u32; 4],
) -> Result<State, Outcome> {
    let b = saved::bring_over(sheet, bytes, allowances);
    if b.number != 0 {
        report::refuse_state(system, index, b.number);
        return Err(Outcome::Refused);
    }
    Ok(b.state)
}

// The state of the file that a word names, or that of the start where there is none.
fn loaded(
    system: &mut System,
    index: usize,
    p: &Plan,
    plan: &PlanTable,
    sheet: &[u8],
) -> Result<State, Outcome> {
    if index == 0 {
        return Ok(prepared::start(plan, p.allowances));
    }
    let mut buffer = [0u8; 4096];
    let Ok(got) = read_whole(system, index, &mut buffer) else {
        return Err(Outcome::Mistaken);
    };
    system.close(got.stream);
    let bytes = buffer.get(..got.size).unwrap_or(&buffer);
    brought(system, index, sheet, bytes, p.allowances)
}

// The registers of a state by the lines of a file; where one is wrong, says so.
fn valued(
    system: &mut System,
    index: usize,
    p: &Plan,
    names: &[u8; 2560],
    st: State,
    bytes: &[u8],
) -> Result<State, Outcome> {
    let m = Counts {
        inputs: p.inputs,
        registers: p.registers,
    };
    let t = first_values::take_lines(bytes, m, &p.widths, names, st);
    if t.error != 0 {
        report::wrong_values(system, index, t.line, t.column, t.error);
        return Err(Outcome::Mistaken);
    }
    Ok(t.state)
}

// The registers of a state by the file that a word names.
fn with_values(
    system: &mut System,
    index: usize,
    p: &Plan,
    names: &[u8; 2560],
    st: State,
) -> Result<State, Outcome> {
    let mut buffer = [0u8; 65536];
    let Ok(got) = read_whole(system, index, &mut buffer) else {
        return Err(Outcome::Mistaken);
    };
    system.close(got.stream);
    if got.size >= 65536 {
        report::wrong_with(system, index, b": a file of 65,536 bytes or longer\n", 0);
        return Err(Outcome::Mistaken);
    }
    match behind_mark(&buffer, got.size) {
        Some(bytes) => valued(system, index, p, names, st, bytes),
        None => Ok(st),
    }
}

// Where a run begins: from the start or a state that was saved, with the registers that are set, and every wire due where some are, at
// rest. Where it does not begin, or does not come to rest, says why.
pub fn begin(
    system: &mut System,
    o: RunOptions,
    p: &Plan,
    plan: &PlanTable,
    sheet: &[u8],
    names: &[u8; 2560],
) -> Result<Stand, Outcome> {
    // the words stay numbers, 0 for none: `options` hands them over so (RunOptions)
    let mut st = loaded(system, o.load, p, plan, sheet)?;
    if o.init != 0 {
        st = driving::unsettled(plan, with_values(system, o.init, p, names, st)?);
    }
    let stand = machine::resume(p, plan, st, o.way);
    let source = if o.load != 0 { o.load } else { o.sheet };
    started(system, source, stand.ending())?;
    Ok(stand)
}

// ---- the state that it leaves

// The state that a run leaves, in its file where there is one; where it can't be written, says why.
pub fn save(system: &mut System, p: &Plan, inputs: Stream, s: &Stand) -> Result<(), Outcome> {
    if p.save == 0 {
        return Ok(());
    }
    let mut name = [0u8; 4096];
    let target = wave::target_again(system, p.save, p.kept, p.source, inputs, &mut name)?;
    let path = name.get(..target.length()).unwrap_or(&name);
    let mut file = wave::made(system, target, path)?;
    let mut bytes = [0u8; 1025];
    saved::save(s.rest.state, &mut bytes);
    let mut text = [0u8; 65536];
    file.pos = put_word(&bytes, &mut text, 0);
    file.spill(system, &text);
    file.close(system, Ok(()))
}
