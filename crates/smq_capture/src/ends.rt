//! The two ends of a connection, and what is kept of so many of them.
ghost use Rattle.std.specs.Prelude.{◌≡◌, ◌⊎◌};

use smq_packets::{End, Segment};
use std::alloc::{AllocError, Global};
use std::collections::HashMap;

/// The two ends of a connection, the lesser first.
#[derive(Clone, Copy, Debug, PartialEq, Eq, PartialOrd, Ord, Hash)]
pub(crate) struct Ends {
    pub low: End,
    pub high: End,
}

impl Ends {
    /// The ends of a segment.
    pub(crate) fn of(segment: &Segment) -> Ends
        ensures { ((result.low ≡ segment.now.source) × (result.high ≡ segment.now.destination))
            ⊎ ((result.low ≡ segment.now.destination) × (result.high ≡ segment.now.source)) }
    {
        if segment.source <= segment.destination {
            Ends {
                low: segment.source,
                high: segment.destination,
            }
        } else {
            Ends {
                low: segment.destination,
                high: segment.source,
            }
        }
    }
}

/// What is kept of pairs of ends: of at least the last `room` that came, and at most of twice as many. The others are forgotten.
#[derive(Drop)]
pub(crate) struct Recent<V> {
    room: usize,
    newer: HashMap<Ends, V>,
    older: HashMap<Ends, V>,
}

impl<V: Drop> Recent<V> {
    /// Nothing is kept yet.
    pub(crate) fn new(alloc: Global, room: usize) -> Recent<V> {
        Recent {
            room,
            newer: HashMap::new(alloc),
            older: HashMap::new(alloc),
        }
    }

    /// What is kept of ends.
    pub(crate) fn get(&self, ends: &Ends) -> Option<&V> {
        match self.newer.get(ends) {
            Some(value) => Some(value),
            None => self.older.get(ends),
        }
    }

    /// Takes what is kept of ends.
    pub(crate) fn remove(&mut self, ends: &Ends) -> Option<V> {
        match self.newer.remove(ends) {
            Some(value) => Some(value),
            None => self.older.remove(ends),
        }
    }

    /// Keeps something of ends; how many others are forgotten by it.
    pub(crate) fn put(&mut self, alloc: Global, ends: Ends, value: V) -> Result<usize, AllocError> {
        let mut forgotten = 0;
        if self.newer.len() >= self.room {
            forgotten = self.older.len();
            let newer = std::mem::replace(&mut self.newer, HashMap::new(alloc));
            self.older = newer;
        }
        let _ = self.newer.insert(ends, value)?;
        Ok(forgotten)
    }

    /// How many are kept.
    pub(crate) fn len(&self) -> usize {
        self.newer.len().saturating_add(self.older.len())
    }
}
