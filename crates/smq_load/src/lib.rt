//! What a script of records and a document of settings say, as rows.
#![tactic(auto)]

mod field;
mod input;
mod laws;
mod link_settings;
mod load_fault;
mod record;
mod script;
mod settings;
mod table;

pub use field::{is_word, read_decimal, read_dir, read_session};
pub use input::MOST_OCTETS;
pub use laws::{
    fault_eq_is_equality, known_decimals, known_fields, known_instants, known_limits,
    known_numbers, known_pieces, known_rows, known_scripts, known_settings, one_reading,
};
pub use link_settings::MOST_LINKS;
pub use load_fault::LoadFault;
pub use record::{Row, read_row};
pub use script::{MOST_RECORDS, read_record, read_script, record_reader};
pub use settings::{MOST_SETTINGS, read_settings};
pub use smq_present::PieceRow;
