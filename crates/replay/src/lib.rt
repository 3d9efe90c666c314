// A whole list of calls on one new line, and what is promised of it.
#![tactic(auto)]

mod replays;
pub mod turn;
