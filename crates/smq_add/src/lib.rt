//! Adds reports as CSV.
#![tactic(auto)]

mod apart;
mod checks;
mod field;
mod laws;
mod line;
mod owners;
mod reading;
mod row;
mod sections;
mod sum;
mod text;

pub use apart::{Apart, Checks};
pub use checks::{Owner, is_whole};
pub use laws::{
    known_apart, known_lines, known_numbers, known_sums, known_wholes, reports_add_in_any_order,
};
pub use line::row_of;
pub use owners::Shared;
pub use reading::{ReadFault, read_report};
pub use row::{Key, Row};
pub use sum::{AddFault, Sum};
