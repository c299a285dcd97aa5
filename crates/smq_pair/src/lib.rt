//! Which response belongs to which request, as the PDUs of a session come in, whichever of its directions is read first.
#![tactic(auto)]

mod laws;
mod paired_pdu;
mod pairing;
mod places;
mod stream;
mod streams;

pub use laws::{
    known_pairings, order_of_directions_is_idle, pairs_are_by_rank, pairs_grow_by_one,
    pairs_have_two_places,
};
pub use pairing::{Pair, Pairing};
pub use places::Places;
