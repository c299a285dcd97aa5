//! Connections that end, and gaps that are given up.
use crate::ends::Ends;
use crate::fault::Fault;
use crate::sessions::{CLOSING_FOR, MOST_CLOSING, MOST_CONNECTIONS, MOST_WAITING, Sessions};
use crate::sink::Sink;
use smq_streams::Why;
use std::alloc::AllocError;

impl<S: Sink + Drop> Sessions<S> {
    /// Ends the connection of ends, if there is one.
    pub(crate) fn end_connection(
        &mut self,
        ends: Ends,
        moment: u64,
        why: Why,
    ) -> Result<(), Fault> {
        let Some(mut connection) = self.open.remove(&ends) else {
            return Ok(());
        };
        self.queues.forget(ends, &connection);
        self.strays = self.strays.saturating_sub(connection.strays_weight());
        connection.finish(&mut self.output, moment, why)?;
        let spans = connection.spans(&ends);
        self.ended.put(self.output.alloc, ends, spans)?;
        Ok(())
    }

    /// Forgets the connections that ended long ago, or before many others.
    pub(crate) fn forget_closing(&mut self, moment: u64) -> Result<(), Fault> {
        for _ in 0..self.closing.len() {
            let is_many = self.closing.len() > MOST_CLOSING;
            match self.closing.front() {
                Some(it) if is_many || it.moment.saturating_add(CLOSING_FOR) <= moment => {}
                _ => break,
            }
            let Some(it) = self.closing.pop_front() else {
                break;
            };
            let is_done = match self.open.get_mut(&it.ends) {
                Some(connection) if connection.first() == it.session => {
                    connection.is_closing = false;
                    connection.is_done()
                }
                _ => false,
            };
            if is_done {
                self.end_connection(it.ends, moment, Why::Ended)?;
            }
        }
        Ok(())
    }

    /// Forgets the half of the connections that was quiet longest.
    pub(crate) fn forget_quiet(&mut self, moment: u64) -> Result<(), Fault> {
        let mut all = Vec::new(self.output.alloc);
        for (ends, connection) in self.open.iter() {
            all.push((connection.seen(), *ends))
                .map_err(AllocError::from)?;
        }
        all.sort_unstable();
        for (_, ends) in all.as_slice().iter().take(MOST_CONNECTIONS / 2) {
            if let Some(connection) = self.open.get(ends) {
                connection.tell_quiet(&mut self.output)?;
            }
            self.end_connection(*ends, moment, Why::Ended)?;
        }
        Ok(())
    }

    /// Goes on behind gaps that won't fill any more by a moment.
    pub(crate) fn give_up(&mut self, moment: u64) -> Result<(), Fault> {
        for _ in 0..u64::MAX {
            let ends = match self.queues.due_by(moment) {
                Some(ends) if !self.output.is_strict => ends,
                _ => break,
            };
            let Some(connection) = self.open.get_mut(&ends) else {
                break;
            };
            connection.give_up(&mut self.output, moment, None)?;
            self.queues.take(ends, connection)?;
        }
        Ok(())
    }

    /// Goes on behind the gaps that have waited longest, while too much waits.
    pub(crate) fn give_up_oldest(&mut self, moment: u64) -> Result<(), Fault> {
        for _ in 0..u64::MAX {
            if self.queues.waiting() <= MOST_WAITING {
                break;
            }
            let Some(ends) = self.queues.oldest() else {
                break;
            };
            let Some(connection) = self.open.get_mut(&ends) else {
                break;
            };
            connection.give_up_oldest(&mut self.output, moment)?;
            self.queues.take(ends, connection)?;
        }
        Ok(())
    }

    /// Ends all connections at a moment, the first one first.
    pub(crate) fn end(&mut self, moment: u64) -> Result<(), Fault> {
        let mut all = Vec::new(self.output.alloc);
        for (ends, connection) in self.open.iter() {
            all.push((connection.first(), *ends))
                .map_err(AllocError::from)?;
        }
        all.sort_unstable();
        for (_, ends) in all.as_slice() {
            self.end_connection(*ends, moment, Why::End)?;
        }
        Ok(())
    }
}
