//! What the octets that are present say: messages with their responses, receipts, and the places that need a look.
pub mod notes;
pub mod pairs;
pub mod sides;
pub mod submits;
pub mod traffic;
