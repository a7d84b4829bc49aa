// Wires: what they settle to, how many stores that takes, and what the plain run stores: a crate of definitions and laws, without code.
#![tactic(auto)]
