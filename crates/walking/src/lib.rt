// What the extracted nodes are worth: a crate of laws, without code.
#![tactic(auto)]
