// Demand 3: the order in which threads and wires are taken counts for nothing. A crate of one claim and its proof, without code.
#![tactic(auto)]
