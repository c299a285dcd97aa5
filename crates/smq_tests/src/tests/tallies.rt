//! Tables of facts and notes that are written out, names as they are printed, and refused memory.
mod known;
mod memory;
pub mod tables;
