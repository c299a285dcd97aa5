//! What is present: sessions with the octets of both directions, and what is set.
pub mod batch;
pub mod edit;
pub mod forms;
pub mod kept;
pub mod plain_book;
pub mod present;
pub mod session;
pub mod settings;
