//! The tables of what is present, counted from nothing: by one thread from what the sessions keep of their PDUs, or by many, which
//! decode all octets again; and a line for each message and each delivery receipt. Nothing here looks at what a book stores of its
//! tables.
#![tactic(auto)]

mod blanked;
mod from_nothing;
mod groups;
mod joined;
mod key_numbers;
mod laws;
mod receipts;
mod received;
mod submitted;

// laws
pub use blanked::{
    figures_of_what_is_read_alike_are_the_same, known_pdus_are_read_alike,
    known_streams_are_read_alike, pdus_read_alike_keep_the_same, streams_read_alike_keep_the_same,
};
pub use laws::{
    lines_are_of_few_commands, lines_name_each_other, lines_name_what_decides,
    lines_of_known_messages, message_lines_are_counted, message_lines_have_the_facts,
    open_and_lapsed_lines_are_listed, receipt_lines_give_the_lists,
};

// calls
pub use from_nothing::{audit, tables_from_nothing};
pub use received::receipt_lines;
pub use submitted::{MessageLines, message_lines};
