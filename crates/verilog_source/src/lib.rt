// Verilog text to a sheet (document 02, request [1]): what the call answers is said in specs/.
#![tactic(auto)]

// What a text gave: 0 or the number of its refusal, the place at which it was met (a byte of the text; of the sheet for the sheet's own
// numbers), and the sheet's length, 0 where refused.
#[derive(Clone, Copy)]
pub struct TextRead {
    pub number: u8,
    pub place: usize,
    pub length: usize,
}
