// The cycle run on a plan is document 01's: what is claimed of `clock_run`'s calls on tables that were filled from lent ones. Without code.
#![tactic(auto)]
