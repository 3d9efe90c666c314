// Ready queues: for each of 32 sessions a key or none, and the least of the keys.
#![tactic(auto)]

pub mod entry;
pub mod key;
pub mod laws;
pub mod queue;
pub mod table;
#[cfg(test)]
mod tests;
pub mod tree;
