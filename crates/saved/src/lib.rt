// The saved form of a state: written, read, and brought over from the older forms.
#![tactic(auto)]

mod bringing;
mod fields;
mod loading;
mod saving;

pub use bringing::bring_over;
pub use loading::load;
pub use saving::save;
use state::State;

// What loading finds: a state, or none.
// stays a flag beside a state: the clause of `load` cites the record (specs/Saved, `loaded_answer`)
#[derive(Clone, Copy)]
pub struct Loaded {
    pub found: bool,
    pub state: State,
}

// What bringing over gives: 0 and a state, or the number that refuses it.
// stays a number beside a state: a clause of walbryts_bring_over cites both, on a refusal too
#[derive(Clone, Copy)]
pub struct Brought {
    pub number: u8,
    pub state: State,
}
