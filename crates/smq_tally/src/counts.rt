//! Counts of facts in rows by view and value, in one ordered map that can be undone, in which no row is of no messages. A fact that is
//! put in the place of another moves its counts: one look-up in each view where both have one value.
ghost use Rattle.std.specs.Prelude.{◌≡◌, ◌<◌, ◌+◌, IsTrue, IfSome, IfOk, OnOk, OnErr, None, Some, [], option_copied, option_to_list, slice_get};
ghost use Rattle.smq_tally.specs.within.Counting.{keys_left, keys_after, key_in_if, count_in, steps, IsMoved, AreCounted, HaveRoom};
ghost use Rattle.smq_tally.specs.within.Kept.{counts_in, IsLogged, AreLogged};
ghost use Rattle.smq_tally.specs.within.RowCounts.{keys_with, count_under, no_counts, row_step, row_after};
ghost use Rattle.smq_tally.specs.Rows.{key_in, value_in, views, view_rank};

use crate::fact::{RowKey, have_same_value, row_in};
use crate::undo_log::{take_back, take_back_both};
use crate::{CountKey, Fact, Outcome, View};
use smq_shelf::{Change, KeptMap};
use std::alloc::AllocError;

/// Whether one more stands at a key, or one fewer.
#[derive(Clone, Copy)]
pub enum Delta {
    Plus,
    Minus,
}

impl Delta {
    ghost use Rattle.smq_tally.specs.within.RowCounts.{stepped_within};

    /// Makes a count one more, or one fewer. It never overflows.
    fn make(self, count: &mut u64)
        ensures { count.new ≡ stepped_within self count.old }
    {
        *count = match self {
            Delta::Plus => count.saturating_add(1),
            Delta::Minus => count.saturating_sub(1),
        };
    }
}

/// How many messages have each outcome.
#[derive(Clone, Copy, Debug, PartialEq, Eq)]
pub struct OutcomeCounts {
    waiting: u64,
    mismatched: u64,
    refused: u64,
    no_id: u64,
    ambiguous: u64,
    delivered: u64,
    failed: u64,
    unasked: u64,
    lapsed: u64,
    open: u64,
}

impl OutcomeCounts {
    /// The counts of no messages.
    fn none() -> OutcomeCounts
        ensures { result ≡ no_counts }
    {
        OutcomeCounts {
            waiting: 0,
            mismatched: 0,
            refused: 0,
            no_id: 0,
            ambiguous: 0,
            delivered: 0,
            failed: 0,
            unasked: 0,
            lapsed: 0,
            open: 0,
        }
    }

    /// How many have this outcome.
    pub(crate) fn under(&self, outcome: Outcome) -> u64
        ensures { result ≡ count_under self.now outcome }
    {
        match outcome {
            Outcome::Waiting => self.waiting,
            Outcome::Mismatched => self.mismatched,
            Outcome::Refused => self.refused,
            Outcome::NoId => self.no_id,
            Outcome::Ambiguous => self.ambiguous,
            Outcome::Delivered => self.delivered,
            Outcome::Failed => self.failed,
            Outcome::Unasked => self.unasked,
            Outcome::Lapsed => self.lapsed,
            Outcome::Open => self.open,
        }
    }

    fn step(&mut self, step: Delta, outcome: Outcome)
        ensures { self.new ≡ row_step step self.old outcome }
    {
        match outcome {
            Outcome::Waiting => step.make(&mut self.waiting),
            Outcome::Mismatched => step.make(&mut self.mismatched),
            Outcome::Refused => step.make(&mut self.refused),
            Outcome::NoId => step.make(&mut self.no_id),
            Outcome::Ambiguous => step.make(&mut self.ambiguous),
            Outcome::Delivered => step.make(&mut self.delivered),
            Outcome::Failed => step.make(&mut self.failed),
            Outcome::Unasked => step.make(&mut self.unasked),
            Outcome::Lapsed => step.make(&mut self.lapsed),
            Outcome::Open => step.make(&mut self.open),
        }
    }
}

/// A change of a row: one fewer of an outcome, then one more of another. It never overflows.
#[derive(Clone, Copy)]
pub struct RowChange {
    pub(crate) less: Option<Outcome>,
    pub(crate) more: Option<Outcome>,
}

impl Change<OutcomeCounts> for RowChange {
    ghost after = { row_after };

    // A row of no messages is none: it can only be where no message came.
    fn make(&self, place: &mut Option<OutcomeCounts>) -> Option<OutcomeCounts> {
        let before = *place;
        let counts = place.get_or_insert(OutcomeCounts::none());
        if let Some(outcome) = self.less {
            counts.step(Delta::Minus, outcome);
        }
        if let Some(outcome) = self.more {
            counts.step(Delta::Plus, outcome);
        } else if *counts == OutcomeCounts::none() {
            *place = None;
        }
        before
    }
}

/// Counts a fact no more and another in its place. Either may be none. An error changes nothing.
pub(crate) fn recount(
    counts: &mut KeptMap<RowKey, OutcomeCounts>,
    before: Option<&Fact>,
    after: Option<&Fact>,
) -> Result<(), AllocError>
    requires counted { AreCounted (keys_left View.Link (option_copied before))
        (counts_in counts.old.content) }
    requires room { HaveRoom (keys_left View.Link (option_copied after))
        (counts_in counts.old.content) }
    ensures ok { OnOk result (counts_in counts.new.content ≡ steps Delta.Plus
        (steps Delta.Minus (counts_in counts.old.content) (keys_left View.Link (option_copied before.entry)))
        (keys_left View.Link (option_copied after.entry))) }
    ensures settled { counts.new.settled ≡ counts.old.settled }
    ensures err { OnErr result (counts.new ≡ counts.old) }
{
    recount_from(counts, View::Link, before, after)?;
    Ok(())
}

/// The same in this view and those after it.
fn recount_from(
    counts: &mut KeptMap<RowKey, OutcomeCounts>,
    view: View,
    before: Option<&Fact>,
    after: Option<&Fact>,
) -> Result<(), AllocError>
    requires counted { AreCounted (keys_left view (option_copied before))
        (counts_in counts.old.content) }
    requires room { HaveRoom (keys_left view (option_copied after))
        (counts_in counts.old.content) }
    ensures ok { OnOk result (IsMoved (keys_left view (option_copied before.entry))
        (keys_left view (option_copied after.entry))
        (counts_in counts.old.content) (counts_in counts.new.content)) }
    ensures settled { counts.new.settled ≡ counts.old.settled }
    ensures err { OnErr result (counts.new ≡ counts.old) }
{
    let are_logged = recount_in_view(counts, view, before, after)?;
    let Some(next) = next_view(view, before, after) else {
        return Ok(());
    };
    if let Err(error) = recount_from(counts, next, before, after) {
        take_back_both(counts, are_logged);
        return Err(error);
    }
    Ok(())
}

/// The view after one, unless neither has a value in any that is left: those of errors and delays come last.
fn next_view(view: View, before: Option<&Fact>, after: Option<&Fact>) -> Option<View>
    ensures next { IfSome result (λ next. Some next ≡ slice_get views (view_rank view + 1)) }
    ensures last { result ≡ None → keys_after view (option_copied before.entry) ≡ [] }
    ensures last_after { result ≡ None → keys_after view (option_copied after.entry) ≡ [] }
{
    match view {
        View::Network if is_counted_last(before) && is_counted_last(after) => None,
        _ => view.next(),
    }
}

/// Whether a message has no value in the views after that of networks.
fn is_counted_last(fact: Option<&Fact>) -> bool
    ensures { IsTrue result → keys_after View.Network (option_copied fact.entry) ≡ [] }
{
    match fact {
        Some(fact) => {
            fact.error.is_none() && fact.link_delay.is_none() && fact.centre_delay.is_none()
        }
        None => true,
    }
}

/// The same in one view. It says which of two changes it left to take back.
fn recount_in_view(
    counts: &mut KeptMap<RowKey, OutcomeCounts>,
    view: View,
    before: Option<&Fact>,
    after: Option<&Fact>,
) -> Result<(bool, bool), AllocError>
    requires counted { AreCounted (option_to_list (key_in_if view (option_copied before)))
        (counts_in counts.old.content) }
    requires room { HaveRoom (option_to_list (key_in_if view (option_copied after)))
        (counts_in counts.old.content) }
    ensures ok { OnOk result (IsMoved
        (option_to_list (key_in_if view (option_copied before.entry)))
        (option_to_list (key_in_if view (option_copied after.entry)))
        (counts_in counts.old.content) (counts_in counts.new.content)) }
    ensures logged { IfOk result (λ are_logged. AreLogged are_logged counts.old counts.new) }
    ensures settled { counts.new.settled ≡ counts.old.settled }
    ensures err { OnErr result (counts.new ≡ counts.old) }
{
    let Some(before) = before else {
        let Some(after) = after else {
            return Ok((false, false));
        };
        let is_logged = change_in_view(counts, view, after, None, Some(after.outcome))?;
        return Ok((false, is_logged));
    };
    match after {
        Some(after) => count_instead(counts, view, before, after),
        None => {
            let is_logged = change_in_view(counts, view, before, Some(before.outcome), None)?;
            Ok((is_logged, false))
        }
    }
}

/// One message fewer in a view and another in its place: nothing where they are counted alike, one look-up where they have
/// one value, and else two.
fn count_instead(
    counts: &mut KeptMap<RowKey, OutcomeCounts>,
    view: View,
    before: &Fact,
    after: &Fact,
) -> Result<(bool, bool), AllocError>
    requires counted { AreCounted (option_to_list (key_in view before.now))
        (counts_in counts.old.content) }
    requires room { HaveRoom (option_to_list (key_in view after.now))
        (counts_in counts.old.content) }
    ensures ok { OnOk result (IsMoved (option_to_list (key_in view before.now))
        (option_to_list (key_in view after.now))
        (counts_in counts.old.content) (counts_in counts.new.content)) }
    ensures logged { IfOk result (λ are_logged. AreLogged are_logged counts.old counts.new) }
    ensures settled { counts.new.settled ≡ counts.old.settled }
    ensures err { OnErr result (counts.new ≡ counts.old) }
{
    if have_same_value(view, before, after) {
        if before.outcome == after.outcome {
            return Ok((false, false));
        }
        let less = Some(before.outcome);
        let is_logged = change_in_view(counts, view, after, less, Some(after.outcome))?;
        return Ok((false, is_logged));
    }
    let was_logged = change_in_view(counts, view, before, Some(before.outcome), None)?;
    match change_in_view(counts, view, after, None, Some(after.outcome)) {
        Ok(is_logged) => Ok((was_logged, is_logged)),
        Err(error) => {
            take_back(counts, was_logged);
            Err(error)
        }
    }
}

/// In the row of a message in a view, if it has a value there, one fewer under an outcome and one more under another.
fn change_in_view(
    counts: &mut KeptMap<RowKey, OutcomeCounts>,
    view: View,
    fact: &Fact,
    less: Option<Outcome>,
    more: Option<Outcome>,
) -> Result<bool, AllocError>
    requires counted { AreCounted (keys_with (value_in view fact.now) view less)
        (counts_in counts.old.content) }
    requires room { HaveRoom (keys_with (value_in view fact.now) view more)
        (counts_in counts.old.content) }
    ensures ok { OnOk result (IsMoved (keys_with (value_in view fact.now) view less)
        (keys_with (value_in view fact.now) view more)
        (counts_in counts.old.content) (counts_in counts.new.content)) }
    ensures logged { IfOk result (λ is_logged. IsLogged is_logged counts.old counts.new) }
    ensures settled { counts.new.settled ≡ counts.old.settled }
    ensures err { OnErr result (counts.new ≡ counts.old) }
{
    match row_in(view, fact) {
        Some(row) => counts.change(row, &RowChange { less, more }),
        None => Ok(false),
    }
}

/// The count at a key, 0 where none stands.
pub(crate) fn count_of(counts: &KeptMap<RowKey, OutcomeCounts>, key: CountKey) -> u64
    ensures { result ≡ count_in (counts_in counts.now.content) key }
{
    let outcome = key.outcome;
    match counts.get(&key.into_row()) {
        Some(row) => row.under(outcome),
        None => 0,
    }
}
