// The tokens of the printed module (crate verilog; document 02, request [1]): definitions and laws only (specs/, proofs/).
#![tactic(auto)]
