// The tables that extraction fills pass the cycle run's check: laws, without code.
#![tactic(auto)]
