// The walk of a function's body along its instructions: a crate of definitions and laws, without code.
#![tactic(auto)]
