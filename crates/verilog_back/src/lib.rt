// The way back from the printed Verilog to the sheet (document 02, request [1]): definitions and laws only (specs/, proofs/).
#![tactic(auto)]
