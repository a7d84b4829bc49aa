// The steps of `plan_engine` on the plan of a module are the steps of the simulation cycle: specs/ and proofs/.
#![tactic(auto)]
