//! What the program's words ask for.
#![tactic(auto)]

mod add_rules;
mod capture_rules;
mod count_rules;
mod deal_rules;
mod help;
mod laws;
mod names;
mod orders;
mod rules;
mod window_rules;
mod words;

pub use laws::{
    known_words, known_words_of_add, known_words_of_capture, known_words_of_captures,
    known_words_of_check, known_words_of_count, known_words_of_deal, known_words_of_follow,
    known_words_of_lines, known_words_of_total, known_words_of_window,
};
pub use orders::{Captures, Counting, Dealing, Order, Task};
pub use words::{bad_words, order, own_words};
