//! What stands on a board: a history with its tables, as they were when they were published.
ghost use Rattle.std.specs.Prelude.{◌≡◌, [], IfOk};
ghost use Rattle.std.specs.Arc.{arc_value};
ghost use Rattle.smq_present.specs.whole.Scratch.{scratch};
ghost use Rattle.smq_desk.specs.History.{replay, IsLegal};

use crate::History;
use left_right::Absorb;
use smq_book::Book;
use smq_present::Tables;
use std::alloc::{AllocError, Global};
use std::marker::Model;
use std::sync::Arc;

/// A history, and the tables of what it left present. A contract sees the entries.
#[derive(Drop)]
pub(crate) struct PublishedHistory {
    history: History,
    tables: Tables,
}

impl Model for PublishedHistory {
    ghost use Rattle.std.specs.Prelude.{List};
    ghost use Rattle.smq_desk.specs.declared.entry.Entry.{Entry};
    ghost use Rattle.smq_desk.specs.Editions.{AreOfOneHistory};

    ghost Value = { List Entry };

    ghost view = { λ p. p.history.entries };

    ghost invariant = { λ p. AreOfOneHistory p.history.entries p.tables.shown };
}

impl PublishedHistory {
    /// A history as it is now, with the tables of the book that it made.
    pub(crate) fn of(
        alloc: Global,
        history: &History,
        book: &Book,
    ) -> Result<Arc<PublishedHistory>, AllocError>
        requires legal { IsLegal history.now.entries }
        requires book { book.now.present ≡ replay history.now.entries }
        ensures { IfOk result (λ published. arc_value published ≡ history.now.entries) }
    {
        let history = history.copy()?;
        let tables = book.tables().copy(alloc)?;
        PublishedHistory { history, tables }.shared(alloc)
    }

    /// That of no entry. No book is made for it: its tables are counted of nothing.
    pub(crate) fn opening(alloc: Global) -> Result<Arc<PublishedHistory>, AllocError>
        ensures { IfOk result (λ published. arc_value published ≡ []) }
    {
        let tables = Tables::of(alloc, &[], &[])?;
        let history = History::new(alloc);
        PublishedHistory { history, tables }.shared(alloc)
    }

    fn shared(self, alloc: Global) -> Result<Arc<PublishedHistory>, AllocError>
        ensures { IfOk result (λ published. arc_value published ≡ self) }
    {
        match Arc::new(alloc, self) {
            Ok(published) => Ok(published),
            Err(_) => Err(AllocError),
        }
    }

    /// The tables of what the history left present.
    pub(crate) fn tables(&self) -> &Tables
        ensures { result.now.shown ≡ scratch (replay self.now) }
    {
        &self.tables
    }

    pub(crate) fn history(&self) -> &History
        ensures value { result.now.entries ≡ self.now }
        ensures legal { IsLegal self.now }
    {
        &self.history
    }
}

/// What readers of a board take.
#[derive(Drop)]
pub(crate) struct Shown {
    pub(crate) published: Arc<PublishedHistory>,
}

impl Absorb<Arc<PublishedHistory>> for Shown {
    // A clause reads an array as a list, of any length.
    type State = [crate::Entry; 0];

    ghost state = { λ shown. arc_value shown.published };

    ghost applied = { λ _ published. arc_value published };

    fn absorb_first(
        &mut self,
        operation: &Arc<PublishedHistory>,
        _other: &Shown,
    ) -> Result<(), AllocError> {
        self.published = Arc::try_clone(operation)?;
        Ok(())
    }

    fn absorb_second(
        &mut self,
        operation: Arc<PublishedHistory>,
        _other: &Shown,
    ) -> Result<(), Arc<PublishedHistory>> {
        self.published = operation;
        Ok(())
    }
}
