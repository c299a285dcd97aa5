//! The pairs of each session that is present.
ghost use Rattle.std.specs.Prelude.{◌≡◌, ◌≢◌, ◌≤◌, ◌+◌, ℕ, IsSome, OnOk};
ghost use Rattle.smq_pair.specs.Paired.{no_pdus};
ghost use Rattle.smq_book.specs.index.Touches.{pairs_cost, pairs_touches};
ghost use Rattle.smq_book.specs.index.Pairs.{pairs_now, pairs_pending, pairs_settled, stored_of};

use smq_kit::SessionId;
use smq_pair::Pairing;
use std::alloc::{AllocError, Global};
use std::collections::BTreeMap;

/// The pairs among the PDUs of each session, by its number. A session that isn't there has no PDUs.
#[derive(Drop)]
pub(crate) struct Pairings {
    pub alloc: Global,
    pub by_session: BTreeMap<u64, Pairing>,
    /// The touches of pairs that went, up to the greatest u64.
    pub gone: u64,
}

impl Pairings {
    /// No pairs.
    pub(crate) fn new(alloc: Global) -> Pairings
        ensures now { (number : ℕ) → pairs_now result number ≡ no_pdus }
        ensures settled { (number : ℕ) → pairs_settled result number ≡ no_pdus }
        ensures touches { pairs_touches result ≡ 0 }
        ensures pending { (number : ℕ) → pairs_pending result number ≡ 0 }
    {
        Pairings {
            alloc,
            by_session: BTreeMap::new(alloc),
            gone: 0,
        }
    }

    /// How often the shelves of all pairs were touched, up to the greatest u64: of those that are here, and of those that went.
    pub(crate) fn touches(&self) -> u64
        ensures { result ≡ pairs_touches self.now }
    {
        let mut touches = self.gone;
        for pairing in self.by_session.values() {
            touches = touches.saturating_add(pairing.touches());
        }
        touches
    }

    /// Puts in the pairs of a session, of no PDUs, where it has none yet.
    pub(crate) fn open(&mut self, session: SessionId) -> Result<(), AllocError>
        ensures now { (number : ℕ) → pairs_now self.new number ≡ pairs_now self.old number }
        ensures settled { (number : ℕ) → pairs_settled self.new number ≡ pairs_settled self.old number }
        ensures pending { (number : ℕ) → pairs_pending self.new number ≡ pairs_pending self.old number }
        ensures touches { pairs_touches self.new ≡ pairs_touches self.old }
        ensures there { OnOk result (IsSome (stored_of self.new.by_session session.0)) }
    {
        if !self.by_session.contains_key(&session.0) {
            self.by_session.insert(session.0, Pairing::new(self.alloc))?;
        }
        Ok(())
    }

    /// Brings back the pairs of a session that were settled. It takes no memory.
    pub(crate) fn undo(&mut self, session: SessionId)
        ensures now { pairs_now self.new session.0 ≡ pairs_settled self.old session.0 }
        ensures others { (number : ℕ) → number ≢ session.0
            → pairs_now self.new number ≡ pairs_now self.old number }
        ensures settled { (number : ℕ) → pairs_settled self.new number ≡ pairs_settled self.old number }
        ensures pending { pairs_pending self.new session.0 ≡ 0 }
        ensures other_pending { (number : ℕ) → number ≢ session.0
            → pairs_pending self.new number ≡ pairs_pending self.old number }
        ensures touches { pairs_touches self.new ≤ pairs_touches self.old + pairs_pending self.old session.0 }
        ensures counted { pairs_touches self.old ≤ pairs_touches self.new }
    {
        match self.by_session.get_mut(&session.0) {
            Some(pairing) => pairing.undo(),
            None => {}
        }
    }

    /// Makes the pairs of a session those that `undo` brings back. It takes no memory.
    pub(crate) fn settle(&mut self, session: SessionId)
        ensures now { (number : ℕ) → pairs_now self.new number ≡ pairs_now self.old number }
        ensures settled { pairs_settled self.new session.0 ≡ pairs_now self.old session.0 }
        ensures others { (number : ℕ) → number ≢ session.0
            → pairs_settled self.new number ≡ pairs_settled self.old number }
        ensures pending { pairs_pending self.new session.0 ≡ 0 }
        ensures other_pending { (number : ℕ) → number ≢ session.0
            → pairs_pending self.new number ≡ pairs_pending self.old number }
        ensures touches { pairs_touches self.new ≤ pairs_cost self.old session.0 }
        ensures counted { pairs_touches self.old ≤ pairs_touches self.new }
    {
        match self.by_session.get_mut(&session.0) {
            Some(pairing) => pairing.settle(),
            None => {}
        }
    }

    /// Takes a session out, so that nothing brings its pairs back. It takes no memory.
    pub(crate) fn remove(&mut self, session: SessionId)
        ensures now { pairs_now self.new session.0 ≡ no_pdus }
        ensures settled { pairs_settled self.new session.0 ≡ no_pdus }
        ensures others { (number : ℕ) → number ≢ session.0
            → pairs_now self.new number ≡ pairs_now self.old number }
        ensures others_settled { (number : ℕ) → number ≢ session.0
            → pairs_settled self.new number ≡ pairs_settled self.old number }
        ensures pending { pairs_pending self.new session.0 ≡ 0 }
        ensures other_pending { (number : ℕ) → number ≢ session.0
            → pairs_pending self.new number ≡ pairs_pending self.old number }
        ensures touches { pairs_touches self.new ≡ pairs_touches self.old }
    {
        if let Some(pairing) = self.by_session.remove(&session.0) {
            self.gone = self.gone.saturating_add(pairing.touches());
        }
    }
}
