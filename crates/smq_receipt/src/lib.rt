//! What a deliver_sm or data_sm says as a delivery receipt (SMPP 3.4, appendix B).
#![tactic(auto)]

mod date;
mod laws;
mod message_state;
mod reading;
mod text;

pub use laws::{
    dates_are_of_the_calendar, known_limits, least_places_are_found, patterns_are_found,
    readings_are_told_apart, readings_of_known_receipts, states_are_the_table,
};
pub use message_state::{MessageState, message_states_are_ordered};
pub use reading::{Reading, Receipt, read};
pub use smq_kit::{ErrorCode, ErrorText};
