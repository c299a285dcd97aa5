//! What the program does with settings and rows: it reads them, plays them, and writes an output of what they leave; makes them by
//! threads at a desk as well, and compares; or answers the questions among them as they come.
#![tactic(auto)]

mod answer;
mod comparison;
mod desk_play;
mod feed;
mod laws;
mod output;
mod play;
mod question;
mod record;
mod record_stream;
mod retrying_reader;
mod row_copies;
mod row_stream;
mod run_fault;
mod runs;
mod scripts;
mod totals;
mod workers;

pub use comparison::{Checked, check};
pub use feed::{Followed, follow};
pub use laws::{
    answers_stand, counts_by_a_views_column_are_the_view, each_is_asked, known_answers,
    known_checks, known_faults, known_lines, known_play, known_records,
    sessions_are_loaded_in_order, totals_are_runs,
};
pub use play::{PlayedBook, play_next, play_row, play_rows};
pub use question::Question;
pub use record::{Loss, Record};
pub use retrying_reader::RetryingReader;
pub use row_stream::read_next_row;
pub use run_fault::RunFault;
pub use runs::{Limit, Ran, count, run, total};
pub use workers::WORKERS;
