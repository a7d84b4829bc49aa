// The two phases of a clock cycle, settling and running: a crate of definitions and laws, without code.
#![tactic(auto)]
