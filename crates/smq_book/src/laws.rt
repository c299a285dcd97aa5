//! Laws of edits: each is the contract of a function with no body.
pub mod edits;
