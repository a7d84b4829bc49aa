// The grammar of Verilog text (document 02, request [1]): definitions and laws only (specs/, proofs/).
#![tactic(auto)]
