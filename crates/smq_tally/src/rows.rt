//! The rows of a view as they are shown, in the order of values and then of outcomes: the counts that aren't 0 of the map's rows that
//! are of the view, which stand beside each other there. And the places of a list.
ghost use Rattle.std.specs.Prelude.{◌≡◌, [], ◌∷◌, MatchOption};
ghost use Rattle.std.specs.Iterator.{YieldsFirstBy, item_count, YieldsFirst};
ghost use Rattle.smq_tally.specs.within.RowCounts.{numbers_under};

use crate::counts::OutcomeCounts;
use crate::fact::RowKey;
use crate::{Listed, Outcome, Value};
use smq_kit::Place;
use smq_shelf::Entries;
use std::marker::Model;

/// The outcomes, in their order.
static OUTCOMES: [Outcome; 10] = [
    Outcome::Waiting,
    Outcome::Mismatched,
    Outcome::Refused,
    Outcome::NoId,
    Outcome::Ambiguous,
    Outcome::Delivered,
    Outcome::Failed,
    Outcome::Unasked,
    Outcome::Lapsed,
    Outcome::Open,
];

/// The rows of a view that are still to come, each as its value, its outcome and its count.
#[derive(Drop)]
pub struct Rows<'a> {
    /// What was begun of the map's row.
    begun: Option<(&'a RowKey, &'a OutcomeCounts)>,
    /// The outcomes that are left of it.
    outcomes: &'a [Outcome],
    /// The map's rows after it.
    left: Entries<'a, RowKey, OutcomeCounts>,
}

impl<'a> Model for Rows<'a> {
    ghost use Rattle.std.specs.Prelude.{List, ◌++◌, option_map};
    ghost use Rattle.std.specs.Map.Iter.{deref_pair};
    ghost use Rattle.smq_tally.specs.Tables.{ShownRow};
    ghost use Rattle.smq_tally.specs.within.RowCounts.{begun_left, shown_among};

    ghost Value = { List ShownRow };

    ghost view = { λ r.
        begun_left (option_map deref_pair r.begun) r.outcomes.now ++ shown_among r.left };
}

impl<'a> Rows<'a> {
    ghost use Rattle.smq_tally.specs.within.RowCounts.{shown_among};

    /// All counts of the map's rows.
    pub(crate) fn of(left: Entries<'a, RowKey, OutcomeCounts>) -> Rows<'a>
        ensures { result ≡ shown_among left.entry }
    {
        Rows {
            begun: None,
            outcomes: &[],
            left,
        }
    }
}

impl<'a> Iterator for Rows<'a> {
    type Item = (&'a Value, Outcome, u64);

    ghost next_gives = { YieldsFirstBy (λ x. (x.0.now, x.1, x.2)) (λ r. r) };

    ghost remaining = { item_count (λ r. r) };

    fn next(&mut self) -> Option<(&'a Value, Outcome, u64)> {
        loop {
            if let Some((key, row)) = self.begun {
                if let Some((outcome, count, after)) = next_count(row, self.outcomes) {
                    self.outcomes = after;
                    return Some((&key.value, outcome, count));
                }
            }
            self.begun = Some(self.left.next()?);
            self.outcomes = OUTCOMES.as_slice();
        }
    }
}

/// The first of these outcomes of which there are any, how many there are, and the outcomes after it.
fn next_count<'a>(
    row: &OutcomeCounts,
    outcomes: &'a [Outcome],
) -> Option<(Outcome, u64, &'a [Outcome])>
    ensures { MatchOption result (numbers_under row.now outcomes.now ≡ [])
        (λ x. numbers_under row.now outcomes.now ≡ (x.0, x.1) ∷ numbers_under row.now x.2.now) }
{
    let mut left = outcomes;
    while let Some((outcome, after)) = left.split_first() {
        let count = row.under(*outcome);
        if count > 0 {
            return Some((*outcome, count, after));
        }
        left = after;
    }
    None
}

/// The places of a list that are still to come.
#[derive(Drop)]
pub struct Places<'a> {
    pub(crate) left: Entries<'a, Listed, ()>,
}

impl<'a> Model for Places<'a> {
    ghost use Rattle.std.specs.Prelude.{List, map};
    ghost use Rattle.smq_kit.specs.declared.place.Place.{Place};

    ghost Value = { List Place };

    ghost view = { λ p. map (λ e. e.0.place) p.left };
}

impl<'a> Iterator for Places<'a> {
    type Item = Place;

    ghost next_gives = { YieldsFirst (λ p. p) };

    ghost remaining = { item_count (λ p. p) };

    fn next(&mut self) -> Option<Place> {
        match self.left.next() {
            Some((listed, _)) => Some(listed.place),
            None => None,
        }
    }
}
