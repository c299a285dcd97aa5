//! The texts that are written: reports, the tables' views and lists as CSV or as tables to read; and lines for messages and for
//! delivery receipts, as CSV.
#![tactic(auto)]

mod csv_layout;
mod fields;
mod laws;
mod lines;
mod page;
mod pick;
mod records;
mod report;
mod table_layout;
mod value;

pub use fields::Fields;
pub use laws::{
    keys_of_a_kind_are_printed_apart, known_beginnings, known_columns, known_keys, known_messages,
    known_names, known_quotes, known_receipts, known_reports, known_sections, known_texts,
    what_is_asked_for_is_told_apart, whole_reports_are_those_of_views_and_lists,
};
pub use lines::{Line, write_lines, write_messages, write_receipts};
pub use pick::{Format, Output, Pick, Query, ReportFault, Section};
pub use report::{write_csv, write_octets, write_report, write_table};
pub use value::push_value;
