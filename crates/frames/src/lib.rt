// The program's work as a library: lines in, lines out.
#![tactic(auto)]

pub mod lines;
pub mod pages;
pub mod report;
