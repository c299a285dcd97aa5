//! Scripts and settings as rows.
mod readers;
pub(crate) mod records;
mod scripts;
pub(crate) mod settings;
