//! The program's commands: what its words ask for, by a runtime that reads files, captures and standard input, and writes.
#![tactic(auto)]

mod add;
mod capture;
mod capture_rows;
mod capture_words;
mod deal;
mod error_lines;
mod first_octets;
mod laws;
mod live;
mod played;
mod progress;
mod questions;
mod scripts;
mod sources;
mod status;
mod tasks;
mod timed_input;
mod told;
mod window_length;
mod window_rows;

pub use laws::{known_names, known_statuses, rows_are_read};
pub use progress::Terminals;
pub use tasks::obey;
pub use timed_input::{Blocks, blocks, send_all};
