// Many clock cycles in one call, equal to the repeated single calls of its definition in specs/Cycles for every sheet, state
// and rows. The sheet is prepared, and the cycles are run on its plan.
#![tactic(auto)]

ghost use Rattle.std.specs.Prelude.{◌≡◌, false};
ghost use Rattle.batch.specs.Cycles.{cycled, run_cycles, told};

use state::State;

// What `run_cycles` gives: how many instants were accepted and run to rest or to 65,535 choices; where it was stopped earlier,
// the number that stopped it and whether it was the run after an instant that did; the state reached.
// stays a record of its own, with a flag: specs/Cycles defines the call by it, apart from prepared_cycles
#[derive(Clone, Copy)]
pub struct Cycled {
    pub phases: usize,
    pub number: u8,
    pub running: bool,
    pub state: State,
}

// What a refused call gives.
fn refused_with(number: u8, state: State) -> Cycled
    ensures { result ≡ cycled 0 number false state }
{
    Cycled {
        phases: 0,
        number,
        running: false,
        state,
    }
}

// What the call on a plan gives.
fn told(c: prepared_cycles::Cycled) -> Cycled
    ensures { result ≡ told c }
{
    Cycled {
        phases: c.phases,
        number: c.number,
        running: c.running,
        state: c.state,
    }
}

// Rows of 16 inputs, for each an instant with the clock low and one with the clock high, a user's plain run after each.
pub fn run_cycles(sheet: &[u8], st: State, user: u8, value: &[u32], unknown: &[u32]) -> Cycled
    ensures { result ≡ run_cycles sheet.now st user value.now unknown.now }
{
    let mut plan = [0u32; plan::WORDS];
    let read = prepared::prepare(sheet, &mut plan);
    if read.number != 0 {
        return refused_with(read.number, st);
    }
    let c = prepared_cycles::run_cycles(&plan, st, user, value, unknown);
    told(c)
}
