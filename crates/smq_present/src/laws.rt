//! Laws of the definitions: each is the contract of a function with no body.
pub mod join;
pub mod pairing;
pub mod present;
pub mod whole;
