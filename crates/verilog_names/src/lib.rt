// Names and numbers of a Verilog text (document 02, request [1]), from the tables of its tokens: a kind (64 is a name), a number (of a
// name its id: equal where the spellings are), a place, a role (1 a name declared by `input`, 2 by `reg`, 3 by `wire`, 4 the target of
// an `assign`, 5 the word `always`) and a declared name's width. Each function equals its definition in specs/, for tables of any
// contents.
#![tactic(auto)]

mod faults;
mod head;
mod numbers;
mod order;
mod tokens;

pub use faults::first_fault;
pub use head::put_head;
pub use numbers::number;
pub use order::{next_of, target_of};

// Kinds of tokens: a name in use; a declared name; a declared wire; the target of an `assign`.
#[derive(Clone, Copy)]
pub enum Class {
    Used,
    Declared,
    Wire,
    Target,
}

// Is a name at fault, and the lowest place of one; 65,536 where there is none.
#[derive(Clone, Copy)]
pub struct Fault {
    pub found: bool,
    pub place: usize,
}
