//! The connections of a capture.
use crate::connection::Connection;
use crate::ended::Ended;
use crate::ends::{Ends, Recent};
use crate::fault::Fault;
use crate::half_open::HalfOpen;
use crate::links::Link;
use crate::notice::{Busy, Notice};
use crate::output::Output;
use crate::queues::Queues;
use crate::sink::Sink;
use smq_packets::{ACK, SYN, Segment};
use smq_streams::Why;
use std::alloc::{AllocError, Global};
use std::collections::{HashMap, VecDeque};

mod beginning;
mod ending;

/// The most octets of memory that what waits takes, of all connections.
const MOST_WAITING: u64 = 67_108_864;

/// The most octets of memory that segments outside of connections take which may be of others.
const MOST_STRAYS: u64 = 4_194_304;

/// The most connections that are open.
const MOST_CONNECTIONS: usize = 65_536;

/// Of so many pairs of ends at least is known that a connection is about to begin, or that none of them has a link.
const HALF_OPEN: usize = 16_384;

const SKIPPED: usize = 16_384;

/// A connection that ended is forgotten so many ms later, or once so many others ended after it.
const CLOSING_FOR: u64 = 60_000;

const MOST_CLOSING: usize = 1_024;

/// A connection that ended: when, its ends, and its first session.
#[derive(Clone, Copy)]
struct Closing {
    moment: u64,
    ends: Ends,
    session: u64,
}

/// The connections of a capture: those that are open, are about to begin, and ended.
#[derive(Drop)]
pub(crate) struct Sessions<S> {
    pub output: Output<S>,
    links: Vec<Link>,
    open: HashMap<Ends, Box<Connection>>,
    queues: Queues,
    /// How much memory the segments outside of connections take.
    strays: u64,
    closing: VecDeque<Closing>,
    half_open: Recent<HalfOpen>,
    ended: Ended,
    skipped_ends: Recent<()>,
    skipped: u64,
    unanswered: u64,
    busy: HashMap<u16, u64>,
}

impl<S: Sink + Drop> Sessions<S> {
    /// No connection.
    pub(crate) fn new(alloc: Global, links: Vec<Link>, output: Output<S>) -> Sessions<S> {
        Sessions {
            output,
            links,
            open: HashMap::new(alloc),
            queues: Queues::new(alloc),
            strays: 0,
            closing: VecDeque::new(alloc),
            half_open: Recent::new(alloc, HALF_OPEN),
            ended: Ended::new(alloc),
            skipped_ends: Recent::new(alloc, SKIPPED),
            skipped: 0,
            unanswered: 0,
            busy: HashMap::new(alloc),
        }
    }

    /// Takes the segment of a packet.
    pub(crate) fn take(
        &mut self,
        number: u64,
        moment: u64,
        segment: &Segment,
    ) -> Result<(), Fault> {
        self.give_up(moment)?;
        let ends = Ends::of(segment);
        if segment.has(SYN) {
            self.take_syn(ends, number, moment, segment)?;
        } else if self.open.contains_key(&ends) {
            self.take_known(ends, number, moment, segment)?;
        } else {
            self.take_unknown(ends, number, moment, segment)?;
        }
        self.forget_closing(moment)
    }

    /// Takes a segment of a connection that is open.
    fn take_open(
        &mut self,
        ends: Ends,
        number: u64,
        moment: u64,
        segment: &Segment,
    ) -> Result<(), Fault> {
        if let Some(connection) = self.open.get_mut(&ends) {
            connection.take(&mut self.output, number, moment, segment)?;
            self.queues.take(ends, connection)?;
            if !connection.is_closing && connection.is_done() {
                connection.is_closing = true;
                let session = connection.first();
                self.closing
                    .push_back(Closing {
                        moment,
                        ends,
                        session,
                    })
                    .map_err(AllocError::from)?;
            }
        }
        self.give_up_oldest(moment)
    }

    /// Takes a segment without a SYN whose ends have a connection that is open.
    fn take_known(
        &mut self,
        ends: Ends,
        number: u64,
        moment: u64,
        segment: &Segment,
    ) -> Result<(), Fault> {
        let Some(connection) = self.open.get_mut(&ends) else {
            return Ok(());
        };
        let is_another = connection.is_another(segment);
        if !is_another && connection.fits(segment) {
            return self.take_open(ends, number, moment, segment);
        }
        if self.ended.has(&ends, segment) {
            return Ok(());
        }
        if is_another || self.is_answer_confirmed(&ends, segment) {
            return self.begin_another(ends, number, moment, segment);
        }
        self.note_stray(ends, number, moment, segment)
    }

    /// Takes note of a segment that is outside of the connection between its ends.
    fn note_stray(
        &mut self,
        ends: Ends,
        number: u64,
        moment: u64,
        segment: &Segment,
    ) -> Result<(), Fault> {
        let alloc = self.output.alloc;
        if let Some(connection) = self.open.get_mut(&ends) {
            let has_room = self.strays < MOST_STRAYS;
            let before = connection.strays_weight();
            connection.note_stray(alloc, number, moment, segment, has_room)?;
            self.strays = self
                .strays
                .saturating_sub(before)
                .saturating_add(connection.strays_weight());
        }
        Ok(())
    }

    /// Ends the connection between the ends of a segment, which is of another one, and begins that with the segments of it that came
    /// before.
    fn begin_another(
        &mut self,
        ends: Ends,
        number: u64,
        moment: u64,
        segment: &Segment,
    ) -> Result<(), Fault> {
        let Some(connection) = self.open.get_mut(&ends) else {
            return Ok(());
        };
        let before = connection.strays_weight();
        let mut strays = connection.take_strays(self.output.alloc, segment)?;
        self.strays = self.strays.saturating_sub(before);
        self.end_connection(ends, moment, Why::Ended)?;
        for _ in 0..strays.len() {
            if let Some(kept) = strays.pop_front() {
                let stray = kept.segment();
                self.take_anew(ends, kept.number, kept.moment, &stray)?;
            }
        }
        self.take_anew(ends, number, moment, segment)
    }

    /// Takes a segment of a connection that may have begun by those before.
    fn take_anew(
        &mut self,
        ends: Ends,
        number: u64,
        moment: u64,
        segment: &Segment,
    ) -> Result<(), Fault> {
        let fits = match self.open.get(&ends) {
            Some(connection) => connection.fits(segment),
            None => return self.take_unknown(ends, number, moment, segment),
        };
        if fits {
            return self.take_open(ends, number, moment, segment);
        }
        if let Some(connection) = self.open.get_mut(&ends) {
            connection.pass_over(number, segment);
        }
        Ok(())
    }

    /// Whether a segment is of the connection of an answered SYN, of which the answer alone was captured.
    fn is_answer_confirmed(&self, ends: &Ends, segment: &Segment) -> bool {
        match self.half_open.get(ends) {
            Some(half) => match half.answer {
                Some(answer) => {
                    half.caller == segment.source
                        && segment.has(ACK)
                        && answer.is_confirmed(segment.sequence, segment.acknowledged)
                }
                None => false,
            },
            None => false,
        }
    }

    /// Counts a segment of a connection without a link.
    fn skip(&mut self, ends: Ends, segment: &Segment) -> Result<(), Fault> {
        if self.skipped_ends.get(&ends).is_none() {
            self.skipped = self.skipped.saturating_add(1);
            let _ = self.skipped_ends.put(self.output.alloc, ends, ())?;
        }
        let port = if segment.source.port < segment.destination.port {
            segment.source.port
        } else {
            segment.destination.port
        };
        let count = match self.busy.get(&port) {
            Some(count) => count.saturating_add(1),
            None => 1,
        };
        let _ = self.busy.insert(port, count).map_err(AllocError::from)?;
        Ok(())
    }

    /// How many connections were about to begin and didn't.
    pub(crate) fn unanswered(&self) -> u64 {
        self.unanswered.saturating_add(self.half_open.len() as u64)
    }

    /// Tells how many connections didn't begin, and how many were skipped.
    pub(crate) fn tell_skipped(&mut self) -> Result<(), Fault> {
        let unanswered = self.unanswered();
        if unanswered > 0 {
            self.output.tell(Notice::Unanswered(unanswered))?;
        }
        if self.skipped > 0 {
            let skipped = self.skipped;
            self.output.tell(Notice::Skipped(skipped))?;
        }
        Ok(())
    }

    /// Tells why there is no session.
    pub(crate) fn tell_nothing(&mut self) -> Result<(), Fault> {
        self.output.tell(Notice::NoSession)?;
        let mut all = Vec::new(self.output.alloc);
        for (port, count) in self.busy.iter() {
            all.push((*count, *port)).map_err(AllocError::from)?;
        }
        all.sort_unstable();
        let mut ports = [Busy {
            port: 0,
            packets: 0,
        }; 5];
        for (index, (count, port)) in all.as_slice().iter().rev().take(5).enumerate() {
            if index < 5 {
                ports[index] = Busy {
                    port: *port,
                    packets: *count,
                };
            }
        }
        self.output.tell(if all.is_empty() {
            Notice::NoPorts
        } else {
            Notice::Ports(ports)
        })
    }
}
