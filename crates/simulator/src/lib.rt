// The event simulator (document 01, "The simulation cycle"): start, choose, run, run_plain, instant.
// Each public call equals its definition in events' specs/Calls, for every sheet, state, choice, list and input.
// A call reads the sheet, prepares its plan, and runs on that plan.
#![tactic(auto)]

ghost use Rattle.std.specs.Prelude.{◌≡◌};
ghost use Rattle.events.specs.Calls.{start, choose, run_list, run_plain, instant};

use events::{Chosen, Inputs, Ran, Rested, Verdict};
use state::State;

// ---- start

// The state at the start, with each user's allowance. Where the sheet is refused, that of no variables and no wires: so says a plan of
// zeros.
pub fn start(sheet: &[u8], allowances: [u32; 4]) -> Chosen
    ensures { result ≡ start sheet.now allowances }
{
    let mut plan = [0u32; plan::WORDS];
    let answer = prepared::prepare(sheet, &mut plan);
    let state = prepared::start(&plan, allowances);
    Chosen {
        number: answer.number,
        state,
    }
}

// ---- the calls

// What a choice or an instant on a refused sheet gives.
fn refused(number: u8, state: State) -> Chosen
    ensures { result ≡ record { number = number; state = state } }
{
    Chosen { number, state }
}

// A user's choice: an item by its number, or 255 for the commit.
pub fn choose(sheet: &[u8], st: State, user: u8, c: u8) -> Chosen
    ensures { result ≡ choose sheet.now st user c }
{
    let mut plan = [0u32; plan::WORDS];
    let read = prepared::prepare(sheet, &mut plan);
    if read.number != 0 {
        return refused(read.number, st);
    }
    prepared::choose(&plan, st, user, c)
}

// A user's run over a list of choices. It ends at the first refused one.
pub fn run(sheet: &[u8], st: State, user: u8, choices: &[u8]) -> Ran
    ensures { result ≡ run_list sheet.now st user choices.now }
{
    let mut plan = [0u32; plan::WORDS];
    let read = prepared::prepare(sheet, &mut plan);
    if read.number != 0 {
        return Ran {
            accepted: 0,
            number: read.number,
            state: st,
        };
    }
    prepared::run(&plan, st, user, choices)
}

// A user's plain run of at most `limit` choices: it takes the lowest enabled item, else the commit.
pub fn run_plain(sheet: &[u8], st: State, user: u8, limit: u16) -> Rested
    ensures { result ≡ run_plain sheet.now st user limit }
{
    let mut plan = [0u32; plan::WORDS];
    let read = prepared::prepare(sheet, &mut plan);
    if read.number != 0 {
        return Rested {
            accepted: 0,
            verdict: Verdict::Refused(read.number),
            state: st,
        };
    }
    prepared::run_plain(&plan, st, user, limit)
}

// An instant: all inputs are set as one change, and the time goes on.
pub fn instant(sheet: &[u8], st: State, a: Inputs) -> Chosen
    ensures { result ≡ instant sheet.now st a }
{
    let mut plan = [0u32; plan::WORDS];
    let answer = prepared::prepare(sheet, &mut plan);
    if answer.number != 0 {
        return refused(answer.number, st);
    }
    prepared::instant(&plan, st, a)
}
