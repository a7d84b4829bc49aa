// What is said of a Verilog text that is refused (document 02, request [1]): the line and column of a place, the line itself with a
// caret, the token that stands there, the tokens that could have stood there, the rule that a name breaks, and words outside the forms.
// Each function equals its definition in specs/, for every text and every place.
#![tactic(auto)]

mod choices;
mod faults;
mod found;
mod notes;
mod spots;

pub use choices::put_choices;
pub use faults::put_fault;
pub use found::put_found;
pub use notes::{put_note, put_permission};
pub use spots::{put_line, spot_of};

// A line and a column, both from 1 on.
#[derive(Clone, Copy)]
pub struct Spot {
    pub line: usize,
    pub column: usize,
}

// Which of 43's rules a name breaks, 0 where none is seen, and the place of the name that it is told beside:
// 1 it isn't declared; 2 it is declared a second time, first there; 3 it is a wire without `assign`; 4 it has an `assign` and is no
// wire; 5 it is a wire with a second `assign`, the first there.
#[derive(Clone, Copy)]
pub struct Broken {
    pub rule: u8,
    pub first: usize,
}
