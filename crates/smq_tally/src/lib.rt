//! Counts of messages by views and outcomes, and lists of places that need a look.
#![tactic(auto)]

mod band;
mod copies;
mod counts;
mod equality;
mod fact;
mod laws;
mod list;
mod noted;
mod outcome;
mod packed_fact;
mod rows;
mod tables;
mod tally;
mod undo_log;
mod value;
mod view;

pub use band::Band;
pub use fact::{CountKey, Fact};
pub use laws::{
    bands_are_in_order, counts_are_numbers, equal_tables_are_one, facts_are_told_apart,
    known_lists, known_names, known_tables, lists_are_in_order,
    messages_are_counted_once_in_a_view, one_fact_moves_its_counts,
    open_and_lapsed_messages_are_listed, rows_are_in_order, values_are_in_order,
};
pub use list::{List, Listed};
pub use outcome::Outcome;
pub use rows::{Places, Rows};
pub use tables::Tables;
pub use tally::Tally;
pub use value::{SubmitError, Value};
pub use view::View;
