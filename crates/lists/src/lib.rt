// Mathematics that is not about tables: no code.
#![tactic(auto)]
