// The dispatcher (document 02, request [8]): up to eight modules are run side by side, and each call gives one of them a turn.
#![tactic(auto)]

mod picking;
pub mod records;
pub mod slices;

ghost use Rattle.std.specs.Prelude.{◌≡◌};
ghost use Rattle.dispatch.specs.Dispatch.{number_of, picked_of};

// A module's turn record: "busy or not, and turns given".
#[derive(Clone, Copy, Debug, PartialEq, Eq)]
pub struct Record {
    pub busy: bool,
    pub turns: u32,
}

// What a call answers: the number picked, that no record is busy, or the paper's number.
#[derive(Clone, Copy, Debug, PartialEq, Eq)]
pub enum Dispatched {
    Picked(u8),
    Nothing,
    Refused(u8),
}

// What a call gives: its answer, and the place at which it stores so many turns; past the list it stores none.
#[derive(Clone, Copy, Debug, PartialEq, Eq)]
pub struct Turn {
    pub answer: Dispatched,
    pub at: usize,
    pub turns: u32,
}

// The paper's number of an answer, 0 where there is none.
pub fn number_of(d: Dispatched) -> u8
    ensures { result ≡ number_of d }
{
    match d {
        Dispatched::Picked(_) => 0,
        Dispatched::Nothing => 0,
        Dispatched::Refused(number) => number,
    }
}

// The number picked, 255 where none is.
pub fn picked_of(d: Dispatched) -> u8
    ensures { result ≡ picked_of d }
{
    match d {
        Dispatched::Picked(i) => i,
        Dispatched::Nothing => 255,
        Dispatched::Refused(_) => 255,
    }
}
