// What is promised, in one record over calls of the public functions: no code.
#![tactic(auto)]
