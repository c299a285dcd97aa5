//! Submits and delivery receipts in groups by link and key: what each member is to its group, as members come and go.
#![tactic(auto)]

mod candidates;
mod change;
mod changes;
mod group_summary;
mod groups;
mod laws;
mod links;
mod member;
mod receipts;
mod walks;

pub use change::{Change, Standing};
pub use groups::Groups;
pub use laws::{
    changes_are_told_one_way, deciding_receipts_are_earliest, keys_are_apart, known_changes,
    known_links, known_standings, moves_leave_no_trace, order_of_members_is_idle,
    single_keys_have_no_other,
};
