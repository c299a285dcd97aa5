//! The book: edits of what is present, and the tables of it, kept current.
pub mod book;
pub mod indexed_book;
