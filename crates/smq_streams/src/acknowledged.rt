//! What the other end acknowledges while octets wait behind a gap.
ghost use Rattle.std.specs.Prelude.{◌≡◌, ℕ, ◌<◌, ◌≤◌, OnOk, OnErr, [], length, true};
ghost use Rattle.std.specs.Option.{option_or};
ghost use Rattle.smq_streams.specs.Acknowledged.{StandsBehind, noted, since};

use std::alloc::{AllocError, Global};
use std::collections::VecDeque;
use std::marker::Model;

/// A place before which the other end has all octets, and the moment at which it said so.
#[derive(Clone, Copy)]
pub(crate) struct Note {
    pub(crate) place: u64,
    pub(crate) moment: u64,
}

/// Since when the other end acknowledges each place.
#[derive(Drop)]
pub(crate) struct Acknowledged {
    notes: VecDeque<Note>,
}

impl Model for Acknowledged {
    ghost use Rattle.std.specs.Prelude.{List};
    ghost use Rattle.smq_streams.specs.declared.acknowledged.Note.{Note};

    ghost Value = { List Note };

    ghost view = { λ a. a.notes.items };
}

impl Acknowledged {
    /// Nothing.
    pub(crate) fn new(alloc: Global) -> Acknowledged
        ensures { result ≡ [] }
    {
        Acknowledged {
            notes: VecDeque::new(alloc),
        }
    }

    /// How many places it keeps.
    pub(crate) fn len(&self) -> usize
        ensures { result ≡ length self.now }
    {
        self.notes.len()
    }

    /// Forgets all.
    pub(crate) fn clear(&mut self)
        ensures { self.new ≡ [] }
    {
        self.notes.clear();
    }

    /// Takes note that the other end has all octets before a place.
    pub(crate) fn note(&mut self, place: u64, moment: u64) -> Result<(), AllocError>
        ensures ok { OnOk result ((n : ℕ) → since self.new n ≡ option_or (since self.old n) (noted place moment n)) }
        ensures err { OnErr result (self.new ≡ self.old) }
    {
        if is_noted(&self.notes, place) {
            return Ok(());
        }
        Ok(self.notes.push_back(Note { place, moment })?)
    }

    /// Since when the other end acknowledges a place. What it knows of places before that is let go.
    pub(crate) fn since(&mut self, place: u64) -> Option<u64>
        ensures value { result ≡ since self.old place }
        ensures same { (n : ℕ) → place ≤ n → since self.new n ≡ since self.old n }
    {
        let_go(&mut self.notes, place);
        Some(self.notes.front()?.moment)
    }
}

/// Whether a note of a place would tell nothing new.
fn is_noted(notes: &VecDeque<Note>, place: u64) -> bool
    ensures { result ≡ true → (moment n : ℕ)
        → since notes.now.items n ≡ option_or (since notes.now.items n) (noted place moment n) }
{
    match notes.back() {
        Some(last) => place <= last.place,
        None => false,
    }
}

/// Lets go of the first notes of places before one.
fn let_go(notes: &mut VecDeque<Note>, place: u64)
    ensures same { (n : ℕ) → place ≤ n → since notes.new.items n ≡ since notes.old.items n }
    ensures front { StandsBehind place notes.new.items }
{
    'notes: while let Some(note) = notes.front() {
        if note.place >= place {
            return;
        }
        let _ = notes.pop_front();
    }
}
