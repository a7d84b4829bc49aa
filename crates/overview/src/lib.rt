// What the command says of a sheet that is read, of its extraction, and of a sheet that is refused. Each function equals its definition in
// specs/, for bytes and tables of any contents. What is said goes into a lent buffer of 65,536 bytes; such a contract says: buffer and new
// position are what putting the text at the old position gives.
#![tactic(auto)]

mod found;
mod heads;
mod lines;
mod nets;

pub use found::{put_found, put_place};
pub use heads::fill_heads;
pub use lines::{put_counts, put_sizes, put_threads};
pub use nets::{put_row_head, put_shown_entry, put_shown_node};
