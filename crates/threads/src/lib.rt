// What a thread does between two waits, alone and beside others: a crate of definitions and laws, without code.
#![tactic(auto)]
