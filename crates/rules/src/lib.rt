// Recalibration rules: from the least start and the least finish of the waiting heads to a base.
#![tactic(auto)]

pub mod frame;
pub mod pair;
pub mod plain;
pub mod program;
pub mod rule;
#[cfg(test)]
mod tests;
