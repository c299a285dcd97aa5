//! Dated routes of prefixes of E.164 numbers: which route and network a number had at a moment, and where the messages to
//! the numbers of a prefix stand.
#![tactic(auto)]

mod laws;
mod number_key;
mod numbers;
mod prefix_search;
mod routes;
mod version;
mod walk;

pub use laws::{
    corrections_keep_dates, edits_change_one_version, edits_keep_versions_apart,
    edits_stay_in_their_prefix, known_edits, known_numbers, known_routes, one_version_holds,
    order_of_adding_is_idle, overlaps_are_told_by_the_least_beginning,
    routes_are_of_the_longest_prefix, versions_are_ordered, versions_end_at_their_end,
};
pub use numbers::{NumberAt, Numbers};
pub use routes::Routes;
pub use version::{Version, VersionKey};
