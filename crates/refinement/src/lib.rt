// Laws of the simulation cycle that its steps on a plan rely on: a crate of laws, without code.
#![tactic(auto)]
