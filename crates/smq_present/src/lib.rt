//! What is present of captured sessions, and what edits leave present; what its PDUs say; and what is known of each message: the
//! definitions of all figures, their laws, and the code that reads by them.
#![tactic(auto)]

mod join;
mod laws;
mod pairing;
mod present;

// laws
pub use laws::join::{
    clock_lapses_open_messages_alone, delays_are_of_decided_messages, each_message_has_its_fact,
    facts_rest_on_circumstances, forms_of_other_links_are_idle, keys_are_of_their_link,
    known_submits_lapse_by_their_windows, messages_lapse_at_the_end_of_their_window,
    moves_leave_other_facts, notes_follow_the_standings_of_receipts, outcomes_are_in_order,
    outcomes_of_known_submits, receipts_decide_known_submits, routes_are_of_the_moment,
    versions_change_routes_alone,
};
pub use laws::pairing::{
    each_message_has_its_place, messages_and_receipts_stand_apart, notes_of_a_known_session,
    pairs_stay_in_parts, pushes_change_few_messages, responses_are_those_of_pairs,
    responses_come_in_turn, responses_stand_in_pairs, unread_places_are_noted,
};
pub use laws::present::{
    absent_sessions_have_no_octets, appends_of_sessions_commute, batches_that_fit_are_not_refused,
    cutting_changes_nothing, edit_eq_is_equality, edits_of_a_known_clock, edits_of_a_known_session,
    edits_of_known_routes, forms_are_verbatim_until_set, forms_eq_is_equality, known_edits_fold,
    known_pdus_are_stored, octets_are_put_after_their_direction, pieces_are_refused_in_order,
    replies_are_of_edits, replies_stand_in_order, steps_are_plain_changes, windows_of_known_links,
    withdrawals_leave_no_trace, withdrawals_of_a_known_book,
};
pub use laws::whole::{
    counts_deal_by_key, counts_split_by_link, figures_of_a_known_book, known_receipts_are_listed,
    lists_deal_by_key, lists_say_the_same, lists_split_by_link, parts_keep_keys_together,
    parts_of_known_traffic, present_tables_are_of_traffic, receipts_are_listed_by_their_matches,
    tables_list_receipts_by_their_matches,
};

// values and calls
pub use join::fact::{fact_from_parts, fact_in_settings, restated};
pub use join::lines::{DecidingReceipt, MessageLine, ReceiptLine, ReceiptStanding};
pub use join::message::{Message, ReceivedReceipt, Response};
pub use pairing::notes::read_notes;
pub use pairing::pairs::{SessionForms, pdu_at, place_of};
pub use pairing::sides::{Side, sides_of};
pub use pairing::submits::SubmittedMessage;
pub use pairing::traffic::{
    DecodedSession, SessionReading, SessionView, concatenated, decoded_sessions, read_session,
    read_sessions, sessions_with_forms,
};
pub use present::batch::{Batch, PieceRow, prepare};
pub use present::edit::Edit;
pub use present::forms::Forms;
pub use present::kept::{Content, StoredPdu, shared};
pub use present::plain_book::PlainBook;
pub use present::present::{Present, append_refusal};
pub use present::session::{Direction, Piece, Session};
pub use present::settings::{Settings, Windows};
pub use smq_tally::{
    Band, CountKey, Fact, List, Listed, Outcome, Places, Rows, SubmitError, Tables, Value, View,
};
