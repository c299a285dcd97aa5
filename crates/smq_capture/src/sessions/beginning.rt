//! Connections that begin: by an answered SYN, or with octets.
use crate::connection::Connection;
use crate::ends::Ends;
use crate::fault::Fault;
use crate::half_open::{Answer, HalfOpen, Syn};
use crate::links::{Link, centre_of, link_of};
use crate::numbers::is_ahead;
use crate::sessions::{MOST_CONNECTIONS, Sessions};
use crate::side::Side;
use crate::sink::Sink;
use smq_packets::{ACK, End, Segment};
use smq_streams::Why;
use std::alloc::AllocError;

impl<S: Sink + Drop> Sessions<S> {
    /// Takes a SYN, or the answer to one.
    pub(crate) fn take_syn(
        &mut self,
        ends: Ends,
        number: u64,
        moment: u64,
        segment: &Segment,
    ) -> Result<(), Fault> {
        if let Some(connection) = self.open.get_mut(&ends) {
            if connection.has_syn(segment) {
                return self.take_open(ends, number, moment, segment);
            }
        }
        if self.ended.has(&ends, segment) {
            return Ok(());
        }
        let is_answer = segment.has(ACK);
        let caller = if is_answer {
            segment.destination
        } else {
            segment.source
        };
        let half = match self.half_open.remove(&ends) {
            Some(half) if half.caller == caller => half,
            _ => {
                if centre_of(self.links.as_slice(), segment).is_none() {
                    return self.skip(ends, segment);
                }
                HalfOpen::new(caller)
            }
        };
        if is_answer {
            self.take_answer(ends, half, number, moment, segment)
        } else {
            self.take_call(ends, half, number, moment, segment)
        }
    }

    /// Takes a SYN that calls.
    fn take_call(
        &mut self,
        ends: Ends,
        half: HalfOpen,
        number: u64,
        moment: u64,
        segment: &Segment,
    ) -> Result<(), Fault> {
        let alloc = self.output.alloc;
        let syn = Syn::new(alloc, number, moment, segment.sequence, segment.octets)?;
        if let Some(answer) = half.answer {
            if syn.is_answered(answer.acknowledged) {
                return self.begin_answered(ends, syn, answer, moment, segment.destination);
            }
        }
        let mut half = half;
        half.take_syn(syn);
        self.keep_half_open(ends, half)
    }

    /// Takes an answer: the connection begins where it answers a SYN that came.
    fn take_answer(
        &mut self,
        ends: Ends,
        half: HalfOpen,
        number: u64,
        moment: u64,
        segment: &Segment,
    ) -> Result<(), Fault> {
        let answer = Answer {
            number,
            sequence: segment.sequence,
            acknowledged: segment.acknowledged,
        };
        if half.is_answered(segment.acknowledged) {
            if let Some(syn) = half.answered(segment.acknowledged) {
                self.begin_answered(ends, syn, answer, moment, segment.source)?;
                return self.take_open(ends, number, moment, segment);
            }
            return Ok(());
        }
        let mut half = half;
        half.answer = Some(answer);
        self.keep_half_open(ends, half)
    }

    /// Keeps a connection that is about to begin.
    fn keep_half_open(&mut self, ends: Ends, half: HalfOpen) -> Result<(), Fault> {
        let forgotten = self.half_open.put(self.output.alloc, ends, half)?;
        self.unanswered = self.unanswered.saturating_add(forgotten as u64);
        Ok(())
    }

    /// Begins the connection of a SYN and its answer. One that was open ends.
    fn begin_answered(
        &mut self,
        ends: Ends,
        syn: Syn,
        answer: Answer,
        moment: u64,
        called: End,
    ) -> Result<(), Fault> {
        self.end_connection(ends, moment, Why::Ended)?;
        let Syn {
            number,
            moment: syn_moment,
            sequence,
            octets,
        } = syn;
        let caller = if called == ends.low {
            ends.high
        } else {
            ends.low
        };
        // (the centre is the end with a link; where both have one, the one that was called)
        let (centre, link) = match link_of(self.links.as_slice(), called) {
            Some(link) => (called, link),
            None => match link_of(self.links.as_slice(), caller) {
                Some(link) => (caller, link),
                None => return Ok(()),
            },
        };
        let first = if number < answer.number {
            number
        } else {
            answer.number
        };
        self.begin(ends, centre, link, first, moment)?;
        let (of_caller, of_called) = if centre == called {
            (Side::Client, Side::Centre)
        } else {
            (Side::Centre, Side::Client)
        };
        if let Some(connection) = self.open.get_mut(&ends) {
            connection.begin_by_syn(of_caller, sequence);
            connection.begin_by_syn(of_called, answer.sequence);
            connection.take_syn_octets(
                &mut self.output,
                of_caller,
                number,
                syn_moment,
                octets.as_slice(),
            )?;
        }
        Ok(())
    }

    /// Takes a segment whose ends have no connection: one begins with octets.
    pub(crate) fn take_unknown(
        &mut self,
        ends: Ends,
        number: u64,
        moment: u64,
        segment: &Segment,
    ) -> Result<(), Fault> {
        if segment.length == 0 || self.ended.has(&ends, segment) {
            return Ok(());
        }
        let half = self.half_open.remove(&ends);
        let found = match &half {
            Some(half) => centre_called(self.links.as_slice(), half.caller, ends),
            None => None,
        };
        let found = match found {
            Some(found) => Some(found),
            None => centre_of(self.links.as_slice(), segment),
        };
        let Some((centre, link)) = found else {
            return self.skip(ends, segment);
        };
        self.begin(ends, centre, link, number, moment)?;
        if let Some(half) = half {
            if let Some(connection) = self.open.get_mut(&ends) {
                begin_half_open(connection, half, centre, segment);
            }
        }
        self.take_open(ends, number, moment, segment)
    }

    /// Begins a connection with a packet.
    fn begin(
        &mut self,
        ends: Ends,
        centre: End,
        link: u32,
        number: u64,
        moment: u64,
    ) -> Result<(), Fault> {
        if self.open.len() >= MOST_CONNECTIONS {
            self.forget_quiet(moment)?;
        }
        let alloc = self.output.alloc;
        let session = self.output.next_session();
        let client = if centre == ends.low {
            ends.high
        } else {
            ends.low
        };
        let connection = Connection::new(alloc, link, client, centre, session, number)?;
        let connection = Box::new(alloc, connection).map_err(AllocError::from)?;
        let _ = self
            .open
            .insert(ends, connection)
            .map_err(AllocError::from)?;
        Ok(())
    }
}

/// The centre of a pair of ends, of which one calls, and its link.
fn centre_called(links: &[Link], caller: End, ends: Ends) -> Option<(End, u32)> {
    let called = if caller == ends.low {
        ends.high
    } else {
        ends.low
    };
    match link_of(links, called) {
        Some(link) => Some((called, link)),
        None => match link_of(links, caller) {
            Some(link) => Some((caller, link)),
            None => None,
        },
    }
}

/// Begins the directions of a connection by the SYN or the answer that came, where they fit the segment with which it begins.
fn begin_half_open(connection: &mut Connection, half: HalfOpen, centre: End, segment: &Segment) {
    let HalfOpen {
        caller,
        first,
        newest,
        answer,
    } = half;
    let is_caller = segment.source == caller;
    let (of_caller, of_called) = if caller == centre {
        (Side::Centre, Side::Client)
    } else {
        (Side::Client, Side::Centre)
    };
    let (from_caller, from_called) = if is_caller {
        (segment.sequence, segment.acknowledged)
    } else {
        (segment.acknowledged, segment.sequence)
    };
    let knows_both = segment.has(ACK);
    if let Some(answer) = answer {
        if (knows_both || !is_caller) && is_ahead(answer.sequence.wrapping_add(1), from_called) {
            connection.begin_by_syn(of_called, answer.sequence);
            connection.begin_by_syn(of_caller, answer.acknowledged.wrapping_sub(1));
            return;
        }
    }
    if !knows_both && !is_caller {
        return;
    }
    if !begin_by(connection, of_caller, &newest, from_caller) {
        let _ = begin_by(connection, of_caller, &first, from_caller);
    }
}

/// Begins a direction by a SYN, where that was before a number of it; whether it did.
fn begin_by(connection: &mut Connection, side: Side, syn: &Option<Syn>, sequence: u32) -> bool {
    match syn {
        Some(syn) if is_ahead(syn.sequence.wrapping_add(1), sequence) => {
            connection.begin_by_syn(side, syn.sequence);
            true
        }
        _ => false,
    }
}
