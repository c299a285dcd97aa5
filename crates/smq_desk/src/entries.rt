//! The entries of a history, in the order of their numbers: of one chunk after another, and then those after the chunks.
ghost use Rattle.std.specs.Prelude.{◌≡◌, ◌++◌};
ghost use Rattle.std.specs.Iterator.{YieldsFirstRef, item_count};
ghost use Rattle.smq_desk.specs.within.Chunks.{joined};

use crate::Entry;
use crate::history::Chunk;
use std::marker::Model;
use std::sync::Arc;

/// The entries of a history that are still to come. A contract sees their list.
#[derive(Drop)]
pub struct Entries<'a> {
    /// What is left of the chunk that was begun.
    chunk: &'a [Entry],
    /// The chunks after it.
    later: &'a [Arc<Chunk>],
    /// The entries after the chunks.
    rest: &'a [Entry],
}

impl<'a> Model for Entries<'a> {
    ghost use Rattle.std.specs.Prelude.{List, ◌++◌};
    ghost use Rattle.smq_desk.specs.declared.entry.Entry.{Entry};

    ghost Value = { List Entry };

    ghost use Rattle.smq_desk.specs.within.Chunks.{joined};

    ghost view = { λ e. e.chunk.now ++ (joined e.later.now ++ e.rest.now) };
}

impl<'a> Entries<'a> {
    /// The entries of chunks, and those after them.
    pub(crate) fn new(chunks: &'a [Arc<Chunk>], rest: &'a [Entry]) -> Entries<'a>
        ensures { result ≡ joined chunks.now ++ rest.now }
    {
        Entries {
            chunk: &[],
            later: chunks,
            rest,
        }
    }
}

impl<'a> Iterator for Entries<'a> {
    type Item = &'a Entry;

    ghost next_gives = { YieldsFirstRef (λ left. left) };

    ghost remaining = { item_count (λ left. left) };

    fn next(&mut self) -> Option<&'a Entry> {
        if let Some((entry, others)) = self.chunk.split_first() {
            self.chunk = others;
            return Some(entry);
        }
        if let Some((chunk, later)) = self.later.split_first() {
            let entries = chunk.entries();
            self.chunk = &entries[1..];
            self.later = later;
            return Some(&entries[0]);
        }
        let (entry, others) = self.rest.split_first()?;
        self.rest = others;
        Some(entry)
    }
}
