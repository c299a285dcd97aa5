//! A book that many threads edit: under one lock, with the history of all edits, and a seat for each caller, which keeps
//! what it asked for and was answered. Watchers read editions of it without the lock.
#![tactic(auto)]

mod board;
mod closed;
mod desk;
mod edition;
mod entries;
mod entry;
mod gate;
mod history;
mod job;
mod laws;
mod ledger;
mod load;
mod matching;
mod published_history;
mod seat;
mod torn_calls;
mod watcher;
mod worker;

pub use board::MOST_WATCHERS;
pub use closed::{CloseFault, Closed};
pub use desk::Desk;
pub use edition::{Edition, Note};
pub use entries::Entries;
pub use entry::{Call, Entry, Reply};
pub use gate::{Gate, NoGate};
pub use history::{CHUNK_LENGTH, History};
pub use job::LinkJob;
pub use laws::{
    beginnings_are_passed_on, interleavings_agree, known_history, known_interleavings, known_job,
    known_ledgers, known_limits, known_loads, known_schedules, loads_are_as_of_one_thread,
    schedules_end_as_one_thread, seats_agree_up_to_where_they_agree_at_each,
    seats_load_as_one_thread,
};
pub use ledger::{LONGEST_HISTORY, Ledger, MOST_SEATS};
pub use load::load_links;
pub use matching::fault_of;
pub use seat::Seat;
pub use torn_calls::torn_call;
pub use watcher::Watcher;
