//! Tests of `smq_engine` that no clause says, apart from it: a crate with tests is proved twice.
#![tactic(auto)]

#[cfg(test)]
mod tests;
