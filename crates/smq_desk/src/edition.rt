//! Editions: what was published of a history, which stays as it is whatever is committed later.
ghost use Rattle.std.specs.Prelude.{◌≡◌, ◌<◌, ◌≤◌, ◌-◌, ◌⊎◌, length, slice_get, Some, IfOk, MatchOption};
ghost use Rattle.std.specs.Arc.{arc_value};
ghost use Rattle.smq_present.specs.whole.Scratch.{scratch};
ghost use Rattle.smq_desk.specs.History.{replay, IsLegal};

use crate::published_history::PublishedHistory;
use crate::{Entry, History};
use smq_present::Tables;
use std::alloc::AllocError;
use std::marker::Model;
use std::sync::Arc;

/// A history as it was published, with the tables of what it left present. A contract sees the entries.
#[derive(Drop)]
pub struct Edition {
    published: Arc<PublishedHistory>,
}

impl Model for Edition {
    ghost use Rattle.std.specs.Arc.{arc_value};
    ghost use Rattle.smq_desk.specs.Editions.{EditionValue};

    ghost Value = { EditionValue };

    ghost view = { λ e. record { entries = arc_value e.published } };
}

impl Edition {
    pub(crate) fn of(published: Arc<PublishedHistory>) -> Edition
        ensures { result.entries ≡ arc_value published }
    {
        Edition { published }
    }

    /// The tables of what the entries leave present.
    pub fn tables(&self) -> &Tables
        ensures { result.now.shown ≡ scratch (replay self.now.entries) }
    {
        self.published.tables()
    }

    /// The number of entries, which is that of the last one.
    pub fn front(&self) -> u64
        ensures value { result ≡ length self.now.entries }
        ensures legal { IsLegal self.now.entries }
    {
        self.history().len()
    }

    /// The entry of a number, from 1. None has the number 0 or one beyond `front`.
    pub fn entry(&self, number: u64) -> Option<&Entry>
        ensures { MatchOption result ((number ≡ 0) ⊎ (length self.now.entries < number))
            (λ entry. (0 < number) × (number ≤ length self.now.entries)
            × (slice_get self.now.entries (number - 1) ≡ Some entry.now)) }
    {
        self.history().get(number)
    }

    pub(crate) fn history(&self) -> &History
        ensures value { result.now.entries ≡ self.now.entries }
        ensures legal { IsLegal self.now.entries }
    {
        self.published.history()
    }

    /// One more owner of the same edition.
    pub(crate) fn copy(&self) -> Result<Edition, AllocError>
        ensures { IfOk result (λ edition. edition ≡ self.now) }
    {
        Ok(Edition {
            published: Arc::try_clone(&self.published)?,
        })
    }
}

/// What a publish gives to its caller, for watchers to learn: the edition that it put on the board. A contract sees the entries.
#[derive(Drop)]
pub struct Note {
    edition: Edition,
}

impl Model for Note {
    ghost use Rattle.smq_desk.specs.Editions.{EditionValue};

    ghost Value = { EditionValue };

    ghost view = { λ n. n.edition };
}

impl Note {
    pub(crate) fn new(edition: Edition) -> Note
        ensures { result ≡ edition }
    {
        Note { edition }
    }

    pub(crate) fn edition(&self) -> &Edition
        ensures { result.now ≡ self.now }
    {
        &self.edition
    }
}
