// Exact work of the plain run: which wires it stores after an instant or a commit. A crate of one claim and its proof, without code.
#![tactic(auto)]
