//! Tables, and which of their listed places are notes. In a list into which facts put no places each place is a note, so the
//! notes of the other lists alone are kept apart.
ghost use Rattle.std.specs.Prelude.{◌≡◌, ◌<◌, ◌+◌, ◌^◌, IsTrue, cond, OnOk, OnErr};
ghost use Rattle.std.specs.List.{list_any};
ghost use Rattle.std.specs.FinMap as fin;
ghost use Rattle.smq_tally.specs.Lists.{listings_of_fact};
ghost use Rattle.smq_tally.specs.Rows.{keys_of_fact};
ghost use Rattle.smq_tally.specs.Tables.{tables_of};
ghost use Rattle.smq_tally.specs.within.Counting.{AreCounted, count_of, one_more, one_less, with_listed};
ghost use Rattle.smq_tally.specs.within.ListOrder.{takes_facts};

use crate::tables::has_listing;
use crate::undo_log::take_back;
use crate::{CountKey, Fact, Listed, Tables};
use smq_shelf::KeptMap;
use std::alloc::{AllocError, Global};
use std::marker::Model;

/// Tables and notes.
#[derive(Drop)]
pub(crate) struct NotedTables {
    apart: KeptMap<Listed, ()>,
    tables: Tables,
}

impl Model for NotedTables {
    ghost use Rattle.smq_tally.specs.within.Kept.{places_in};
    ghost use Rattle.smq_tally.specs.within.Noted.{NotedValue, noted_code, notes_among, AreApart};

    ghost Value = { NotedValue };

    ghost coded = { noted_code };

    ghost view = { λ t. record {
      notes = notes_among (places_in t.apart.content) t.tables.shown.places;
      settled_notes = notes_among (places_in t.apart.settled) t.tables.settled.places;
      shown = t.tables.shown;
      settled = t.tables.settled;
    } };

    ghost invariant = { λ t.
        AreApart (places_in t.apart.content) × AreApart (places_in t.apart.settled) };
}

impl NotedTables {
    /// The tables of no facts and no notes.
    #[tactic(auto, using(crate::proofs::NotesAmong::apart_none))]
    pub(crate) fn new(alloc: Global) -> NotedTables
        ensures shown { result.shown ≡ tables_of fin.empty fin.empty }
        ensures settled { result.settled ≡ tables_of fin.empty fin.empty }
        ensures notes { result.notes ≡ fin.empty }
        ensures settled_notes { result.settled_notes ≡ fin.empty }
    {
        NotedTables {
            apart: KeptMap::new(alloc),
            tables: Tables::new(alloc),
        }
    }

    /// Lists one place more, as a note. An error changes nothing.
    pub(crate) fn note(&mut self, note: Listed) -> Result<(), AllocError>
        ensures ok { OnOk result (self.new ≡ record self.old {
          notes = fin.insert self.old.notes note tt;
          shown = record self.old.shown {
            places = fin.insert self.old.shown.places note tt;
          };
        }) }
        ensures err { OnErr result (self.new ≡ self.old) }
    {
        if !note.list.takes_facts() {
            self.tables.list_place(note)?;
            return Ok(());
        }
        self.apart.set(note, ())?;
        if let Err(error) = self.tables.list_place(note) {
            take_back(&mut self.apart, true);
            return Err(error);
        }
        Ok(())
    }

    /// Whether a place is noted.
    #[tactic(auto, using(crate::proofs::NotesAmong::noted_facts))]
    pub(crate) fn is_noted(&self, note: &Listed) -> bool
        ensures { result ≡ fin.contains_key self.now.notes note.now }
    {
        if note.list.takes_facts() {
            self.apart.get(note).is_some()
        } else {
            self.tables.is_listed(note)
        }
    }

    /// Takes a note out, if it is there, and lists its place no more unless it stays for a fact. An error changes nothing.
    pub(crate) fn forget(&mut self, note: &Listed, stays: bool) -> Result<(), AllocError>
        requires stays { IsTrue stays → IsTrue (takes_facts note.now.list) }
        ensures ok { OnOk result (self.new ≡ record self.old {
          notes = fin.remove self.old.notes note.now;
          shown = record self.old.shown {
            places = cond stays self.old.shown.places (fin.remove self.old.shown.places note.now);
          };
        }) }
        ensures err { OnErr result (self.new ≡ self.old) }
    {
        if !note.list.takes_facts() {
            self.tables.unlist_place(note)?;
            return Ok(());
        }
        let taken = self.apart.take(note)?;
        if stays {
            return Ok(());
        }
        if let Err(error) = self.tables.unlist_place(note) {
            take_back(&mut self.apart, taken.is_some());
            return Err(error);
        }
        Ok(())
    }

    /// Counts one fact more, and lists it where it is open or lapsed. An error changes nothing.
    #[tactic(auto, using(crate::proofs::NotesAmong::notes_with))]
    pub(crate) fn add_fact(&mut self, fact: &Fact) -> Result<(), AllocError>
        requires room { (key : CountKey) → count_of self.old.shown key + 1 < 2 ^ 64 }
        ensures ok { OnOk result (self.new.shown ≡ one_more self.old.shown fact.now) }
        ensures notes { OnOk result (self.new.notes ≡ self.old.notes) }
        ensures settled { self.new.settled ≡ self.old.settled }
        ensures settled_notes { self.new.settled_notes ≡ self.old.settled_notes }
        ensures err { OnErr result (self.new ≡ self.old) }
    {
        self.tables.add_fact(fact)?;
        Ok(())
    }

    /// Counts a fact no more, and lists its place no more unless it is noted. An error changes nothing.
    #[tactic(auto, using(crate::proofs::NotesAmong::notes_without))]
    pub(crate) fn remove_fact(&mut self, fact: &Fact) -> Result<(), AllocError>
        requires counted { AreCounted (keys_of_fact fact.now) self.old.shown.counts }
        ensures ok { OnOk result (self.new.shown ≡ one_less self.old.shown fact.now
            (list_any (fin.contains_key self.old.notes) (listings_of_fact fact.now))) }
        ensures notes { OnOk result (self.new.notes ≡ self.old.notes) }
        ensures settled { self.new.settled ≡ self.old.settled }
        ensures settled_notes { self.new.settled_notes ≡ self.old.settled_notes }
        ensures err { OnErr result (self.new ≡ self.old) }
    {
        let is_noted = has_listing(&self.apart, fact);
        self.tables.remove_fact(fact, is_noted)?;
        Ok(())
    }

    /// Counts a fact no more and another in its place, and lists the other where it is open or lapsed. The place of the
    /// first is listed no more unless it is noted. An error leaves what was settled.
    #[tactic(auto, using(crate::proofs::NotesAmong::notes_with, crate::proofs::NotesAmong::notes_without))]
    pub(crate) fn replace_fact(&mut self, before: &Fact, after: &Fact) -> Result<(), AllocError>
        requires room { (key : CountKey) → count_of self.old.shown key + 1 < 2 ^ 64 }
        requires counted { AreCounted (keys_of_fact before.now) self.old.shown.counts }
        requires listed { with_listed self.old.shown.places (listings_of_fact before.now)
            ≡ self.old.shown.places }
        ensures ok { OnOk result (self.new.shown ≡ one_more (one_less self.old.shown before.now
            (list_any (fin.contains_key self.old.notes) (listings_of_fact before.now))) after.now) }
        ensures notes { OnOk result (self.new.notes ≡ self.old.notes) }
        ensures settled { self.new.settled ≡ self.old.settled }
        ensures settled_notes { self.new.settled_notes ≡ self.old.settled_notes }
    {
        let is_noted = has_listing(&self.apart, before);
        self.tables.replace_fact(before, after, is_noted)?;
        Ok(())
    }

    /// The tables.
    pub(crate) fn tables(&self) -> &Tables
        ensures { result.now.shown ≡ self.now.shown }
    {
        &self.tables
    }

    /// Shows again what was shown when they were last settled, with the notes of then. It takes no memory.
    pub(crate) fn undo(&mut self)
        ensures shown { self.new.shown ≡ self.old.settled }
        ensures settled { self.new.settled ≡ self.old.settled }
        ensures notes { self.new.notes ≡ self.old.settled_notes }
        ensures settled_notes { self.new.settled_notes ≡ self.old.settled_notes }
    {
        self.apart.undo();
        self.tables.undo();
    }

    /// Makes what is shown, with its notes, what `undo` shows again. It takes no memory.
    pub(crate) fn settle(&mut self)
        ensures shown { self.new.shown ≡ self.old.shown }
        ensures settled { self.new.settled ≡ self.old.shown }
        ensures notes { self.new.notes ≡ self.old.notes }
        ensures settled_notes { self.new.settled_notes ≡ self.old.notes }
    {
        self.apart.settle();
        self.tables.settle();
    }
}
