// Tests of the reader of run files, apart from it: a crate that has tests is proved twice.
#![tactic(auto)]

#[cfg(test)]
mod tests;
