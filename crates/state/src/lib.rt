// A state of the simulation (document 01, "The simulation cycle").
#![tactic(auto)]

// The time, and for each user the accepted choices and how many may be: "Each accepted choice names its user, 0 to 3, and is counted for
// that user alone", "Each has an allowance of choices fixed at the start, a number of 32 bits".
#[derive(Clone, Copy)]
pub struct Counters {
    pub time: u64,
    pub counts: [u64; 4],
    pub allowances: [u32; 4],
}

// A time that can't go on: number 36.
pub const FULL: u64 = u64::MAX;

// A state. A value is a number and a second one that marks its unknown bits, in `unknown`, and of a pending value in `unsure`. A
// register's pending value counts where its held flag is up.
#[derive(Clone, Copy)]
pub struct State {
    pub value: [u32; 80],
    pub unknown: [u32; 80],
    pub pending: [u32; 32],
    pub unsure: [u32; 32],
    pub held: [bool; 32],
    pub places: [u8; 8],
    pub due: [bool; 32],
    pub counters: Counters,
}
