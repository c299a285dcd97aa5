//! Counts of messages by any columns, as CSV: a line for each combination of what messages have in them.
#![tactic(auto)]

mod cell;
mod column;
mod counted;
mod counting;
mod laws;
mod local;
mod period;

pub use cell::Cell;
pub use column::{Column, Period};
pub use counted::{Counted, Counts, write_counts};
pub use counting::{Condition, Counting};
pub use laws::{
    counts_add_up, counts_are_numbers, days_are_written_by_their_dates, known_cells, known_columns,
    known_days, known_local_times,
};
pub use local::{Local, MOST_ZONE, Zone};
pub use period::{push_day, push_hour};
