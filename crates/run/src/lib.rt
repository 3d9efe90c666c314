// A whole run: the text of a study answered line by line on a page.
#![tactic(auto)]

mod answering;
pub mod export;
pub mod faults;
pub mod runs;
pub mod study;
