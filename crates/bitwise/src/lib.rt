// Unknown bit by bit: what each operator makes of every bit, by IEEE 1364's tables and for every width together. Without code.
#![tactic(auto)]
