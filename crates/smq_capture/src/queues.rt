//! In which connections something waits.
use crate::connection::Connection;
use crate::ends::Ends;
use std::alloc::{AllocError, Global};
use std::collections::BTreeSet;

/// A pair of ends in a queue, by a moment.
#[derive(Clone, Copy, Debug, PartialEq, Eq, PartialOrd, Ord)]
struct Due {
    moment: u64,
    ends: Ends,
}

/// The connections in which something waits: by when it is given up, and by since when it waits; and how much memory it takes.
#[derive(Drop)]
pub(crate) struct Queues {
    due: BTreeSet<Due>,
    oldest: BTreeSet<Due>,
    waiting: u64,
}

impl Queues {
    /// Nothing waits.
    pub(crate) fn new(alloc: Global) -> Queues {
        Queues {
            due: BTreeSet::new(alloc),
            oldest: BTreeSet::new(alloc),
            waiting: 0,
        }
    }

    /// How much memory what waits takes.
    pub(crate) fn waiting(&self) -> u64 {
        self.waiting
    }

    /// The connection in which something is given up at a moment or before, the first of all.
    pub(crate) fn due_by(&self, moment: u64) -> Option<Ends> {
        match self.due.first() {
            Some(due) if due.moment <= moment => Some(due.ends),
            _ => None,
        }
    }

    /// The connection in which something waits longest.
    pub(crate) fn oldest(&self) -> Option<Ends> {
        Some(self.oldest.first()?.ends)
    }

    /// Puts a connection where it stands now.
    pub(crate) fn take(
        &mut self,
        ends: Ends,
        connection: &mut Connection,
    ) -> Result<(), AllocError> {
        let weight = connection.weight();
        self.waiting = self
            .waiting
            .saturating_sub(connection.counted)
            .saturating_add(weight);
        connection.counted = weight;
        let due = connection.deadline();
        if due != connection.due {
            remove(&mut self.due, connection.due, ends);
            insert(&mut self.due, due, ends)?;
            connection.due = due;
        }
        let opened = connection.waits_since();
        if opened != connection.opened {
            remove(&mut self.oldest, connection.opened, ends);
            insert(&mut self.oldest, opened, ends)?;
            connection.opened = opened;
        }
        Ok(())
    }

    /// Forgets a connection.
    pub(crate) fn forget(&mut self, ends: Ends, connection: &Connection) {
        remove(&mut self.due, connection.due, ends);
        remove(&mut self.oldest, connection.opened, ends);
        self.waiting = self.waiting.saturating_sub(connection.counted);
    }
}

/// Puts ends into a queue.
fn insert(queue: &mut BTreeSet<Due>, moment: Option<u64>, ends: Ends) -> Result<(), AllocError> {
    if let Some(moment) = moment {
        let _ = queue.insert(Due { moment, ends })?;
    }
    Ok(())
}

/// Takes ends out of a queue.
fn remove(queue: &mut BTreeSet<Due>, moment: Option<u64>, ends: Ends) {
    if let Some(moment) = moment {
        let _ = queue.remove(&Due { moment, ends });
    }
}
