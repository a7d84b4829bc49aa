// What holds of every module that was read: a crate of definitions and laws, without code.
#![tactic(auto)]
