// The converse of reading: definitions and laws only (specs/, proofs/).
#![tactic(auto)]
