//! One book of captured sessions: its edits and their replies, and the tables of what is present, which each edit keeps current.
#![tactic(auto)]

mod edits;
mod index;
mod laws;
mod whole;

// laws
pub use laws::edits::{
    advances_change_due_messages_alone, appends_note_few_places,
    appends_put_in_the_notes_of_their_pdus, appends_put_in_what_their_pdus_say,
    changed_places_are_bounded_by_reach, clocks_and_windows_commute,
    edits_of_routes_stay_under_their_prefix, forms_are_set_while_their_link_is_out,
    forms_change_their_link_alone, known_edits_reach_so_much,
    mismatched_pairs_are_noted_at_their_request, moves_change_their_key_alone,
    moves_in_turn_change_what_each_changes, notes_of_known_appends, responses_answer_one_message,
    told_changes_cover, told_standings_give_facts, window_edits_stay_on_their_link,
    windows_lapse_and_open_messages_alone, windows_set_back_leave_all_as_it_was,
    withdrawals_take_what_their_session_says,
};

// values and calls
pub use smq_present::{
    Band, Batch, Content, CountKey, Direction, Edit, Fact, Forms, List, Listed, Message, Outcome,
    Piece, PieceRow, Places, PlainBook, Present, ReceivedReceipt, Response, Rows, Session,
    SessionForms, Settings, StoredPdu, SubmitError, Tables, Value, View, fact_in_settings,
    place_of, prepare,
};
pub use whole::book::{Book, book_of_edits};
