// The thread as written: what a statement means over its tree, and that a thread run alone does that. Without code.
#![tactic(auto)]
