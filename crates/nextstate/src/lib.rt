// What extraction and the cycle run are given and answer (document 01, "Extraction and the cycle run"). The calls themselves stand
// in `extraction` and `cycles`, what they answer is defined in specs/.
#![tactic(auto)]

// The registers' values, and the places at which the threads wait.
#[derive(Clone, Copy)]
pub struct Registers {
    pub value: [u32; 32],
    pub unknown: [u32; 32],
    pub places: [u8; 8],
}

// What a cycle run gives: 0 and the registers, places and wires after the cycle, or a refusal's number, the registers and places
// that it got, and wires all x.
// number stays a number: C hands it over (walbryts_cycle), and a refusal has registers too
#[derive(Clone, Copy)]
pub struct Clocked {
    pub number: u8,
    pub value: [u32; 32],
    pub unknown: [u32; 32],
    pub places: [u8; 8],
    pub wire: [u32; 32],
    pub unsure: [u32; 32],
}
