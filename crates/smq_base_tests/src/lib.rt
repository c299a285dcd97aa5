//! Tests of `smq_kit`, `smq_shelf`, `smq_frame`, `smq_pdu`, `smq_receipt`, `smq_pair` and `smq_route`, apart from them: a
//! crate with tests is proved twice.
#![tactic(auto)]

#[cfg(test)]
mod tests;
