//! What every crate of the monitor speaks of: links, sessions, places, moments, windows, numbers, ids, keys, errors and
//! refusals.
#![tactic(auto)]

mod error_code;
mod hashed_key;
mod known;
mod laws;
mod link_key;
mod maps;
mod message_id;
mod moment;
mod names;
mod number;
mod place;
mod place_order;
mod refusal;
mod window;

pub use error_code::{ErrorCode, ErrorText, error_codes_are_ordered};
pub use hashed_key::HashedKey;
pub use known::{known_error_texts, known_keys, known_limits, known_orders, known_refusals};
pub use laws::clone_is_equal;
pub use link_key::{LinkKey, link_keys_match_where_they_are_one};
pub use maps::maps_by_place_are_one_by_one;
pub use message_id::{
    Form, Key, LONGEST_ID, MessageId, key_of, keys_are_ordered, message_ids_are_ordered,
};
pub use moment::{LAST_MOMENT, Moment, moments_are_ordered};
pub use names::{LinkId, RouteId, SessionId, names_are_ordered};
pub use number::{Digits, Network, digits_are_ordered, networks_are_ordered};
pub use place::{Dir, LEAST_PLACE, Place, places_are_ordered};
pub use refusal::{Refusal, refusals_are_told_apart};
pub use window::{OPENING_WINDOW, Window, windows_are_told_apart};
