// The answer lines of a run: what a call was answered, or the fault of a line.
#![tactic(auto)]

pub mod lines;
