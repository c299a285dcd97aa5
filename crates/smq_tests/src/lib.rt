//! Tests of `smq_tally`, `smq_report`, `smq_book` and `smq_load` that no case of a script can show, apart from them: a crate with
//! tests is proved twice.
#![tactic(auto)]

#[cfg(test)]
mod tests;
