//! What a script leaves, dealt to scripts whose reports add up to its own: what is settled and the rest, or parts by key.
#![tactic(auto)]

mod dealt;
mod direction_rows;
mod head;
mod keys;
mod laws;
mod open;
mod rule;

pub use dealt::{Dealt, MOST_PARTS};
pub use head::{Head, Setting};
pub use laws::{
    counts_of_parts_add, known_parts, known_rows, known_settlement, parts_are_few,
    parts_keep_pairs_and_keys,
};
pub use open::Open;
