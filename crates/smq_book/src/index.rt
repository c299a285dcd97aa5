//! What is stored of messages and delivery receipts, by place, and how each edit changes it.
pub mod append;
pub mod appended_pdu;
pub mod clock;
pub mod due_at;
pub mod end_at;
pub mod forms;
pub mod index;
pub mod moves;
pub mod notes;
pub mod pairings;
pub mod routes;
pub mod stored;
pub mod window;
pub mod withdraw;
