//! Edits, each a transaction over what is present and what is stored, which is made or refused and then changes nothing. A file has one
//! edit from its refusal to its end; what finds no memory midway is undone.
pub mod append;
pub mod clock;
pub mod forms;
pub mod routes;
pub mod window;
pub mod withdraw;
