//! What is known of messages: what each and the receipt that decides it say, wherever these are stored, and what became of it.
pub mod fact;
pub mod lines;
pub mod message;
