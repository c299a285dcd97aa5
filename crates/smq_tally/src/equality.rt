//! Whether two maps have the same entries.
ghost use Rattle.std.specs.Prelude.{◌≡◌, ◌↔◌, IsTrue};
ghost use Rattle.std.specs.Cmp.Lexicographic.{pointwise};
ghost use Rattle.smq_tally.specs.Tables.{rows_of};
ghost use Rattle.smq_tally.specs.within.Equal.{both_eq, same_shown};

use crate::{Rows, Tables, View};
use smq_shelf::Entries;

/// Whether two maps have the same keys with the same values, entry by entry.
pub(crate) fn have_same_entries<K: PartialEq, V: PartialEq>(
    mut these: Entries<'_, K, V>,
    mut those: Entries<'_, K, V>,
) -> bool
    ensures { result ≡ pointwise (both_eq K.eq V.eq) these.entry those.entry }
{
    while let Some((key, value)) = these.next() {
        match those.next() {
            Some((other, its)) if key == other && value == its => (),
            _ => return false,
        }
    }
    those.next().is_none()
}

/// Whether two tables show the same rows in each view.
#[tactic(auto, using(crate::proofs::Equals::shown_apart, crate::proofs::Equals::shown_alike))]
pub(crate) fn have_same_rows(these: &Tables, those: &Tables) -> bool
    ensures { IsTrue result
        ↔ ((view : View) → rows_of these.now.shown view ≡ rows_of those.now.shown view) }
{
    for view in View::all() {
        if !are_same_rows(these.rows(*view), those.rows(*view)) {
            return false;
        }
    }
    true
}

/// Whether the rows that are to come are the same, one by one.
fn are_same_rows(mut these: Rows<'_>, mut those: Rows<'_>) -> bool
    ensures { result ≡ pointwise same_shown these.entry those.entry }
{
    while let Some((value, outcome, count)) = these.next() {
        match those.next() {
            Some((other, its, number)) if value == other && outcome == its && count == number => (),
            _ => return false,
        }
    }
    those.next().is_none()
}
