// The reader of run files: cuts a text into lines, and reads a line as a form, or as a fault with its place.
#![tactic(auto)]

pub mod faults;
mod fields;
pub mod forms;
pub mod lines;
mod numbers;
pub mod place;
mod reader;
mod scanner;
mod tokens;
mod words;
