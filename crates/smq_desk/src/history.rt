//! A history in sealed chunks, which its copies share, and the entries after them.
//!
//! A chunk has `CHUNK_LENGTH` entries, which stay as they are. So a copy of a history costs its chunks and the entries after
//! them, of which there are no more than a chunk has.
ghost use Rattle.std.specs.Prelude.{◌≡◌, ◌≤◌, ◌<◌, ◌-◌, ◌+◌, ◌⊎◌, ◌↔◌, ◌++◌, ◌∷◌, [], length, Some, slice_get, IfOk, OnOk, OnErr, IsTrue, MatchOption};
ghost use Rattle.smq_desk.specs.History.{StartsWith, EntriesComeInOrder};
ghost use Rattle.smq_desk.specs.within.Chunks.{AreShared, Seals};
ghost use Rattle.smq_desk.specs.declared.ledger.TheConstants.{LONGEST_HISTORY};

use crate::{Entries, Entry};
use std::alloc::{AllocError, Global};
use std::marker::Model;
use std::mem;
use std::sync::Arc;

/// How many entries a sealed chunk has.
pub const CHUNK_LENGTH: usize = 1_024;

/// As many entries as a chunk has. A contract sees them.
#[derive(Drop)]
pub(crate) struct Chunk {
    entries: Vec<Entry>,
}

impl Model for Chunk {
    ghost use Rattle.std.specs.Prelude.{◌≡◌, List, length};
    ghost use Rattle.smq_desk.specs.declared.entry.Entry.{Entry};

    ghost Value = { List Entry };

    ghost view = { λ c. c.entries.items };

    ghost invariant = { λ c. length c.entries.items ≡ 1024 };
}

impl Chunk {
    /// Its entries, in order.
    pub(crate) fn entries(&self) -> &[Entry]
        ensures value { result.now ≡ self.now }
        ensures full { length self.now ≡ 1024 }
    {
        self.entries.as_slice()
    }
}

/// Entries in order, numbered from 1. A contract sees them, and how many more go in without memory.
#[derive(Drop)]
pub struct History {
    alloc: Global,
    sealed: Vec<Arc<Chunk>>,
    rest: Vec<Entry>,
}

impl Model for History {
    ghost use Rattle.std.specs.Prelude.{◌≤◌, ◌++◌, length};
    ghost use Rattle.std.specs.Vec.{vec_capacity};
    ghost use Rattle.smq_desk.specs.Ledger.{HistoryValue};
    ghost use Rattle.smq_desk.specs.within.Chunks.{joined, room_in, AreFull};

    ghost Value = { HistoryValue };

    ghost view = { λ h. record {
      entries = joined h.sealed.items ++ h.rest.items;
      room = room_in h.rest.items (vec_capacity h.rest);
    } };

    ghost invariant = { λ h. AreFull h.sealed.items × (length h.rest.items ≤ 1024)
        × (length (joined h.sealed.items ++ h.rest.items) ≤ 1048576) };
}

impl History {
    /// A history of no entries. It takes no memory.
    pub fn new(alloc: Global) -> History
        ensures { result.entries ≡ [] }
    {
        History {
            alloc,
            sealed: Vec::new(alloc),
            rest: Vec::new(alloc),
        }
    }

    /// How many entries it has.
    pub fn len(&self) -> u64
        ensures value { result ≡ length self.now.entries }
        ensures in_range { length self.now.entries ≤ LONGEST_HISTORY }
    {
        (self.sealed.len() * CHUNK_LENGTH + self.rest.len()) as u64
    }

    /// Makes room for one entry more. Its entries stay, whatever comes of it.
    pub fn reserve(&mut self) -> Result<(), AllocError>
        ensures entries { self.new.entries ≡ self.old.entries }
        ensures room { OnOk result (0 < self.new.room) }
    {
        let History {
            alloc,
            sealed,
            rest,
        } = self;
        if rest.len() < CHUNK_LENGTH {
            return rest.reserve(1);
        }
        seal(*alloc, sealed, rest)?;
        rest.reserve(1)
    }

    /// Adds an entry at the end, where there is room for it. It takes no memory.
    pub fn push_reserved(&mut self, entry: Entry)
        requires room { 0 < self.old.room }
        requires in_range { length self.old.entries < LONGEST_HISTORY }
        ensures entries { self.new.entries ≡ self.old.entries ++ entry ∷ [] }
        ensures room { self.new.room + 1 ≡ self.old.room }
    {
        self.rest.push_reserved(entry);
    }

    /// The entry of a number, from 1.
    pub fn get(&self, number: u64) -> Option<&Entry>
        ensures { MatchOption result ((number ≡ 0) ⊎ (length self.now.entries < number))
            (λ entry. (0 < number) × (number ≤ length self.now.entries)
            × (slice_get self.now.entries (number - 1) ≡ Some entry.now)) }
    {
        let index = number.checked_sub(1)? as usize;
        match self.sealed.get(index / CHUNK_LENGTH) {
            Some(chunk) => chunk.entries().get(index % CHUNK_LENGTH),
            None => self.rest.get(index - self.sealed.len() * CHUNK_LENGTH),
        }
    }

    /// The entries, in the order of their numbers.
    pub fn iter(&self) -> Entries<'_>
        ensures value { result ≡ self.now.entries }
        ensures runs { EntriesComeInOrder }
        ensures in_range { length self.now.entries ≤ LONGEST_HISTORY }
    {
        Entries::new(self.sealed.as_slice(), self.rest.as_slice())
    }

    /// A history of equal entries. It shares the chunks, and copies the entries after them.
    pub fn copy(&self) -> Result<History, AllocError>
        ensures { IfOk result (λ history. history.entries ≡ self.now.entries) }
    {
        let sealed = share(self.alloc, self.sealed.as_slice())?;
        let rest = copy_entries(self.alloc, self.rest.as_slice())?;
        Ok(History {
            alloc: self.alloc,
            sealed,
            rest,
        })
    }

    /// Whether the entries of another are the beginning of these. It compares all of the other's, also those that both
    /// share: no contract tells that two owners of one chunk have equal entries.
    pub fn starts_with(&self, other: &History) -> bool
        ensures { IsTrue result ↔ StartsWith self.now.entries other.now.entries }
    {
        let mut ours = self.iter();
        let mut theirs = other.iter();
        while let Some(entry) = theirs.next() {
            let Some(own) = ours.next() else {
                return false;
            };
            if !own.is_same(entry) {
                return false;
            }
        }
        true
    }
}

/// Makes a chunk of the entries after the chunks. An error changes no entry.
fn seal(
    alloc: Global,
    sealed: &mut Vec<Arc<Chunk>>,
    rest: &mut Vec<Entry>,
) -> Result<(), AllocError>
    requires full { length rest.old.items ≡ 1024 }
    ensures ok { OnOk result (Seals sealed.old.items sealed.new.items rest.old.items) }
    ensures none { OnOk result (rest.new.items ≡ []) }
    ensures err { OnErr result ((sealed.new.items ≡ sealed.old.items)
        × (rest.new.items ≡ rest.old.items)) }
{
    sealed.reserve(1)?;
    let full = mem::replace(rest, Vec::new(alloc));
    match Arc::new(alloc, Chunk { entries: full }) {
        Ok(chunk) => {
            sealed.push_reserved(chunk);
            Ok(())
        }
        Err(failed) => {
            let Chunk { entries } = failed.value;
            *rest = entries;
            Err(AllocError)
        }
    }
}

/// One more owner of each chunk.
fn share(alloc: Global, chunks: &[Arc<Chunk>]) -> Result<Vec<Arc<Chunk>>, AllocError>
    ensures { IfOk result (λ shared. AreShared chunks.now shared.items) }
{
    let mut shared = Vec::with_capacity(alloc, chunks.len())?;
    for chunk in chunks {
        shared.push(Arc::try_clone(chunk)?)?;
    }
    Ok(shared)
}

/// Equal entries.
fn copy_entries(alloc: Global, entries: &[Entry]) -> Result<Vec<Entry>, AllocError>
    ensures { IfOk result (λ copies. copies.items ≡ entries.now) }
{
    let mut copies = Vec::with_capacity(alloc, entries.len())?;
    for entry in entries {
        copies.push(entry.copy()?)?;
    }
    Ok(copies)
}
