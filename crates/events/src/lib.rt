// What the calls of the event simulator are given and answer (document 01, "The simulation cycle"). The calls themselves stand
// in `simulator`, what they answer is defined in specs/.
#![tactic(auto)]

use state::State;

// The input values of an instant, the clock's first: numbers, and the marks of their unknown bits.
#[derive(Clone, Copy)]
pub struct Inputs {
    pub count: u8,
    pub value: [u32; 16],
    pub unknown: [u32; 16],
}

// What a choice or an instant gives: 0 and the state that it leaves, or a refusal's number and the state that it got.
// number stays a number: C hands it over (walbryts_choose), and a refusal has a state too (specs/Calls)
#[derive(Clone, Copy)]
pub struct Chosen {
    pub number: u8,
    pub state: State,
}

// What a run over a list gives: how many choices were accepted, the state reached, and the number that stopped it.
#[derive(Clone, Copy)]
pub struct Ran {
    pub accepted: usize,
    pub number: u8,
    pub state: State,
}

// How a plain run ended: at rest, with its choices spent, stopped at a choice; or it was a refused call. specs/Verdict has the
// number and the word of each case.
#[derive(Clone, Copy)]
pub enum Verdict {
    Quiet,
    Spent,
    Stopped(u8),
    Refused(u8),
}

// What a plain run gives.
#[derive(Clone, Copy)]
pub struct Rested {
    pub accepted: u16,
    pub verdict: Verdict,
    pub state: State,
}
