//! The scripts of links and days that the rows of a capture go to.
#![tactic(auto)]

mod by;
mod folder;
mod gathered;
mod laws;

pub use by::{By, Part};
pub use folder::Folder;
pub use gathered::Gathered;
pub use laws::{known_parts, parts_have_their_rows};
