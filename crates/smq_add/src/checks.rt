//! Whether reports can be added.
ghost use Rattle.std.specs.Prelude.{◌≡◌, ◌*◌, ◌≤◌, ◌^◌, length};
ghost use Rattle.std.specs.List.{list_all};
ghost use Rattle.smq_add.specs.Checks.{is_counted, is_in_all, is_listed, is_whole, length_of, number_in, owner_of, section_of};

use crate::field::OUTCOMES;
use crate::row::{Key, Row};
use smq_kit::{LinkId, SessionId};
use smq_report::Section;
use smq_tally::{List, Outcome, Value, View};

/// What all of has to stand in one report, where they are of links.
#[derive(Clone, Copy, Debug, PartialEq, Eq, PartialOrd, Ord)]
pub enum Owner {
    Link(LinkId),
    Session(SessionId),
}

impl Key {
    /// The part of a report in which it stands.
    pub fn section(&self) -> Section
        ensures { result ≡ section_of self.now }
    {
        match self {
            Key::Counted(at) => Section::View(at.view),
            Key::Listed(list, _) => Section::List(*list),
        }
    }

    /// Whose it is, if no other report may have that.
    pub fn owner(&self) -> Option<Owner>
        ensures { result ≡ owner_of self.now }
    {
        match self {
            Key::Counted(at) => match &at.value {
                Value::Link(link) => Some(Owner::Link(*link)),
                _ => None,
            },
            Key::Listed(_, place) => match place {
                Some(place) => Some(Owner::Session(place.session)),
                None => None,
            },
        }
    }

    fn is_counted(&self, view: View, outcome: Outcome) -> bool
        ensures { result ≡ is_counted view outcome self.now }
    {
        match self {
            Key::Counted(at) => { at.view as u8 == view as u8 && at.outcome as u8 == outcome as u8 }
            Key::Listed(_, _) => false,
        }
    }

    fn is_listed(&self, list: List) -> bool
        ensures { result ≡ is_listed list self.now }
    {
        match self {
            Key::Counted(_) => false,
            Key::Listed(other, _) => *other as u8 == list as u8,
        }
    }
}

/// Whether rows are a whole report: all messages stand in each view that has all, and are listed where their outcome has a list.
pub fn is_whole(rows: &[Row]) -> bool
    ensures { result ≡ is_whole rows.now }
{
    are_in_all(rows, OUTCOMES.as_slice())
        && length_of(rows, List::Open) == number_in(rows, View::Link, Outcome::Open)
        && length_of(rows, List::Lapsed) == number_in(rows, View::Link, Outcome::Lapsed)
}

/// Whether the views that have all messages have the same number of each of these outcomes.
fn are_in_all(rows: &[Row], outcomes: &[Outcome]) -> bool
    ensures { result ≡ list_all (is_in_all rows.now) outcomes.now }
{
    outcomes.iter().all(|outcome| is_in_all(rows, *outcome))
}

/// Whether they have the same number of an outcome.
fn is_in_all(rows: &[Row], outcome: Outcome) -> bool
    ensures { result ≡ is_in_all rows.now outcome }
{
    let linked = number_in(rows, View::Link, outcome);
    number_in(rows, View::Route, outcome) == linked
        && number_in(rows, View::Network, outcome) == linked
}

/// How many messages of an outcome a view counts.
fn number_in(rows: &[Row], view: View, outcome: Outcome) -> u128
    ensures value { result ≡ number_in view outcome rows.now }
    ensures bound { result ≤ length rows.now * 2 ^ 64 }
{
    let mut number: u128 = 0;
    for row in rows {
        if row.key.is_counted(view, outcome) {
            number += row.count as u128;
        }
    }
    number
}

/// How many places a list has.
fn length_of(rows: &[Row], list: List) -> u128
    ensures value { result ≡ length_of list rows.now }
    ensures bound { result ≤ length rows.now * 2 ^ 64 }
{
    let mut number: u128 = 0;
    for row in rows {
        if row.key.is_listed(list) {
            number += row.count as u128;
        }
    }
    number
}
