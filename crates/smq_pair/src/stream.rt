//! The PDUs of one direction, as they are kept: a list, since each comes after those that are there.
ghost use Rattle.std.specs.Prelude.{◌≡◌, ◌<◌, ◌≤◌, ◌+◌, ◌++◌, ◌∷◌, [], IfNone, IfOk, IfSome, OnErr, OnOk, length, slice_index_or, vec_capacity, vec_len};
ghost use Rattle.std.specs.List.{All};
ghost use Rattle.smq_pair.specs.within.Stream.{Ascend, Held, logged};
ghost use Rattle.smq_pair.specs.within.Kept.{held_at, linked};

use crate::paired_pdu::{PairedPdu, PduLink};
use std::alloc::{AllocError, Global};
use std::marker::Model;

/// The most changes for which an emptied log keeps its room.
const MOST_KEPT_CHANGES: usize = 1_024;

/// The PDUs of a direction with their offsets, which ascend, and those that can be brought back: the first so many, of
/// which a log has what was changed since.
#[derive(Drop)]
pub(crate) struct Stream {
    entries: Vec<(u64, PairedPdu)>,
    /// How many there were at the last `settle`.
    settled: usize,
    /// The index of each of these that was changed since, and what stood there.
    log: Vec<(usize, (u64, PairedPdu))>,
}

impl Model for Stream {
    ghost use Rattle.std.specs.Prelude.{◌-◌, take, vec_capacity, vec_len};
    ghost use Rattle.smq_pair.specs.within.Stream.{IsUndoable, StreamValue, undone};

    ghost Value = { StreamValue };

    ghost view = { λ s. record {
      content = s.entries.items;
      settled = undone s.log.items (take s.settled s.entries.items);
      room = vec_capacity s.entries - vec_len s.entries;
    } };

    ghost invariant = { λ s. IsUndoable s.entries.items s.settled s.log.items };
}

impl Stream {
    /// No PDUs.
    pub(crate) fn new(alloc: Global) -> Stream
        ensures content { result.content ≡ [] }
        ensures settled { result.settled ≡ [] }
    {
        Stream {
            entries: Vec::new(alloc),
            settled: 0,
            log: Vec::new(alloc),
        }
    }

    /// The PDUs, by offset.
    pub(crate) fn entries(&self) -> &[(u64, PairedPdu)]
        ensures content { result.now ≡ self.now.content }
        ensures ordered { Ascend self.now.content }
    {
        self.entries.as_slice()
    }

    /// The PDU at an offset.
    pub(crate) fn get(&self, offset: u64) -> Option<PairedPdu>
        ensures { result ≡ held_at offset self.now.content }
    {
        let index = index_of(&self.entries, offset)?;
        Some(self.entries[index].1)
    }

    /// Makes room for one more. An error changes nothing.
    pub(crate) fn make_room(&mut self) -> Result<(), AllocError>
        ensures room { OnOk result (0 < self.new.room) }
        ensures content { self.new.content ≡ self.old.content }
        ensures ordered { Ascend self.new.content }
        ensures settled { self.new.settled ≡ self.old.settled }
    {
        make_room(&mut self.entries)
    }

    /// Puts a PDU after those that are there, where there is room.
    pub(crate) fn push(&mut self, offset: u64, entry: PairedPdu)
        requires room { 0 < self.old.room }
        requires above { All (λ e. e.0 < offset) self.old.content }
        ensures content { self.new.content ≡ self.old.content ++ (offset, entry) ∷ [] }
        ensures settled { self.new.settled ≡ self.old.settled }
    {
        self.entries.push_reserved((offset, entry));
    }

    /// Gives the PDU at an offset, if there is one, a link, and tells what was kept of it. An error changes nothing.
    pub(crate) fn link(
        &mut self,
        offset: u64,
        link: PduLink,
    ) -> Result<Option<PairedPdu>, AllocError>
        ensures content { OnOk result
            (self.new.content ≡ linked (Some offset) link self.old.content) }
        ensures found { IfOk result (λ found. found ≡ held_at offset self.old.content) }
        ensures err { OnErr result (self.new.content ≡ self.old.content) }
        ensures settled { self.new.settled ≡ self.old.settled }
        ensures room { self.new.room ≡ self.old.room }
    {
        let Some(index) = index_of(&self.entries, offset) else {
            return Ok(None);
        };
        let (at, entry) = self.entries[index];
        log_change(&mut self.log, self.settled, index, (at, entry))?;
        self.entries[index] = (at, PairedPdu { link, ..entry });
        Ok(Some(entry))
    }

    /// Brings back the PDUs of the last `settle`, or none. It takes no memory.
    pub(crate) fn undo(&mut self)
        ensures content { self.new.content ≡ self.old.settled }
        ensures settled { self.new.settled ≡ self.old.settled }
    {
        self.entries.truncate(self.settled);
        while let Some((index, held)) = self.log.pop() {
            self.entries[index] = held;
        }
        give_back_room(&mut self.log);
    }

    /// Makes the PDUs those that `undo` brings back. It takes no memory.
    pub(crate) fn settle(&mut self)
        ensures content { self.new.content ≡ self.old.content }
        ensures settled { self.new.settled ≡ self.old.content }
    {
        self.settled = self.entries.len();
        if !self.log.is_empty() {
            self.log.clear();
            give_back_room(&mut self.log);
        }
    }
}

/// The index of the PDU at an offset.
fn index_of(entries: &[(u64, PairedPdu)], offset: u64) -> Option<usize>
    requires { Ascend entries.now }
    ensures within { IfSome result (λ index. index < length entries.now) }
    ensures found { IfSome result (λ index. (e : Held)
        → (slice_index_or entries.now index e).0 ≡ offset) }
    ensures none { IfNone result (held_at offset entries.now ≡ None) }
{
    match entries.binary_search_by_key(&offset, |held| held.0) {
        Ok(index) => Some(index),
        Err(_) => None,
    }
}

/// Puts what stands at an index into a log, if that was settled. An error changes nothing.
fn log_change(
    log: &mut Vec<(usize, (u64, PairedPdu))>,
    settled: usize,
    index: usize,
    held: (u64, PairedPdu),
) -> Result<(), AllocError>
    ensures ok { OnOk result (log.new.items ≡ logged settled index held log.old.items) }
    ensures err { OnErr result (log.new.items ≡ log.old.items) }
{
    if index < settled {
        log.push((index, held))?;
    }
    Ok(())
}

/// Makes room for one more: where there is none, for an eighth of what is there. PDUs are kept for long, so little of their
/// room is to be empty. An error changes nothing.
fn make_room(entries: &mut Vec<(u64, PairedPdu)>) -> Result<(), AllocError>
    ensures items { entries.new.items ≡ entries.old.items }
    ensures room { OnOk result (vec_len entries.new < vec_capacity entries.new) }
    ensures err { OnErr result (vec_capacity entries.old ≤ vec_len entries.old) }
{
    if entries.len() < entries.capacity() {
        return Ok(());
    }
    entries.reserve_exact(entries.len() / 8 + 3)
}

/// Gives back the room of an emptied log that had many changes.
fn give_back_room(log: &mut Vec<(usize, (u64, PairedPdu))>)
    ensures { log.new.items ≡ log.old.items }
{
    if log.capacity() > MOST_KEPT_CHANGES {
        log.shrink_to_fit();
    }
}
