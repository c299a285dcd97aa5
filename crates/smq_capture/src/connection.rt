//! One connection of a link, and its sessions.
//!
//! A connection is a session up to its first gap that is given up. The next session begins with the first PDU that is seen to begin
//! behind that gap; and, in the other direction, with the first PDU that begins behind all octets that packets before the one of that
//! PDU have. Gaps are taken in the order of the packets behind them, and a session without an octet gives its number to the next.
ghost use Rattle.std.specs.Prelude.{◌≡◌};
ghost use Rattle.smq_capture.specs.Flow.{stream_of};

use crate::ended::{Span, Spans};
use crate::ends::Ends;
use crate::fault::Fault;
use crate::flow::{AtOnce, Came, Flow};
use crate::least::least;
use crate::notice::{Notice, Sender};
use crate::numbers::{Heard, behind};
use crate::output::Output;
use crate::side::Side;
use crate::signs::{Both, Signs, is_reset_by};
use crate::sink::{Piece, SessionLine, Sink};
use crate::strays::Strays;
use smq_packets::{ACK, End, FIN, RST, SYN, Segment};
use smq_reassembly::Packet;
use smq_streams::Stream;
use std::alloc::{AllocError, Global};
use std::collections::VecDeque;

mod another;
mod gaps;
mod rows;
mod told;

/// A segment that isn't within the window of its direction: who sent it, and what it told.
#[derive(Clone, Copy)]
struct Stray {
    sender: Side,
    heard: Heard,
}

/// One connection.
#[derive(Drop)]
pub(crate) struct Connection {
    link: u32,
    client: End,
    centre: End,
    flow: Flow,
    signs: Both,
    /// Its first session and its last, and whether that has rows.
    first: u64,
    last: u64,
    has_rows: bool,
    /// The sessions that weren't told.
    lines: VecDeque<SessionLine>,
    stray: Option<Stray>,
    strays: Strays,
    is_reset: bool,
    /// The last packet.
    seen: u64,
    /// By what it stands in queues, and how much memory was counted.
    pub due: Option<u64>,
    pub opened: Option<u64>,
    pub counted: u64,
    pub is_closing: bool,
}

impl Connection {
    /// A connection that begins with a packet.
    pub(crate) fn new(
        alloc: Global,
        link: u32,
        client: End,
        centre: End,
        session: u64,
        number: u64,
    ) -> Result<Connection, AllocError> {
        let mut lines = VecDeque::new(alloc);
        lines.push_back(SessionLine {
            session,
            link,
            client,
            centre,
            first: number,
            last: number,
            has_syn: false,
            missing: 0,
        })?;
        Ok(Connection {
            link,
            client,
            centre,
            flow: Flow::new(alloc, session),
            signs: Both {
                client: Signs::new(alloc),
                centre: Signs::new(alloc),
            },
            first: session,
            last: session,
            has_rows: false,
            lines,
            stray: None,
            strays: Strays::new(alloc),
            is_reset: false,
            seen: number,
            due: None,
            opened: None,
            counted: 0,
            is_closing: false,
        })
    }

    /// Its first session.
    pub(crate) fn first(&self) -> u64 {
        self.first
    }

    /// The last packet of it.
    pub(crate) fn seen(&self) -> u64 {
        self.seen
    }

    /// Which end sent a segment.
    fn sender(&self, segment: &Segment) -> Side {
        if segment.source == self.centre {
            Side::Centre
        } else {
            Side::Client
        }
    }

    /// An end of its first session.
    fn label(&self, side: Side) -> Sender {
        Sender {
            session: self.first,
            link: self.link,
            side,
        }
    }

    /// The octets of a direction.
    fn stream(&self, side: Side) -> &Stream
        ensures { result.now ≡ stream_of side self.now.flow }
    {
        &self.flow.of(side).stream
    }

    /// Whether it ended, and nothing waits.
    pub(crate) fn is_done(&self) -> bool {
        let is_finished = self.signs.client.is_finished(self.stream(Side::Client))
            && self.signs.centre.is_finished(self.stream(Side::Centre));
        (self.is_reset || is_finished) && !self.flow.is_open() && self.flow.is_written()
    }

    /// How much memory what waits takes, at most.
    pub(crate) fn weight(&self) -> u64 {
        self.flow
            .weight()
            .saturating_add(self.signs.client.weight())
            .saturating_add(self.signs.centre.weight())
    }

    /// When what waits is given up, if anything does.
    pub(crate) fn deadline(&mut self) -> Option<u64> {
        least(
            self.flow.deadline(Side::Client),
            self.flow.deadline(Side::Centre),
        )
    }

    /// Since when something waits.
    pub(crate) fn waits_since(&self) -> Option<u64> {
        least(
            self.stream(Side::Client).opened(),
            self.stream(Side::Centre).opened(),
        )
    }

    /// The octets of its directions.
    pub(crate) fn spans(&self, ends: &Ends) -> Spans {
        let client = span_of(self.stream(Side::Client));
        let centre = span_of(self.stream(Side::Centre));
        if self.client == ends.low {
            Spans {
                low: client,
                high: centre,
            }
        } else {
            Spans {
                low: centre,
                high: client,
            }
        }
    }

    /// Begins the direction of an end by a SYN of this number.
    pub(crate) fn begin_by_syn(&mut self, side: Side, sequence: u32) {
        self.flow.begin(side, sequence.wrapping_add(1), false);
        self.signs.of_mut(side).has_syn = true;
        let has_syn = self.signs.client.has_syn && self.signs.centre.has_syn;
        if let Some(line) = self.lines.front_mut() {
            if line.session == self.first {
                line.has_syn = has_syn;
            }
        }
    }

    /// Takes the octets that came with the SYN of an end.
    pub(crate) fn take_syn_octets<S: Sink>(
        &mut self,
        output: &mut Output<S>,
        side: Side,
        number: u64,
        moment: u64,
        octets: &[u8],
    ) -> Result<(), Fault> {
        match self.stream(side).first() {
            Some(first) => self.take_octets(output, side, first, number, moment, octets),
            None => Ok(()),
        }
    }

    /// Takes a segment: its octets become rows as far as nothing is missing before them.
    pub(crate) fn take<S: Sink>(
        &mut self,
        output: &mut Output<S>,
        number: u64,
        moment: u64,
        segment: &Segment,
    ) -> Result<(), Fault> {
        let sender = self.sender(segment);
        self.seen = number;
        if segment.has(SYN) {
            self.begin_by_syn(sender, segment.sequence);
        }
        let sequence = segment.sequence.wrapping_add(u32::from(segment.has(SYN)));
        if segment.length > 0 && self.stream(sender).first().is_none() {
            self.flow.begin(sender, sequence, !output.is_strict);
            output.tell(Notice::NoSyn(self.label(sender)))?;
        }
        self.note_numbers(sender, sequence, moment, segment)?;
        if segment.length == 0 {
            return Ok(());
        }
        if segment.octets.len() < segment.length {
            self.signs.of_mut(sender).cut.add(number);
        }
        self.is_reset = false;
        let stream = &self.flow.of(sender).stream;
        if self
            .signs
            .of_mut(sender)
            .sets_aside(stream, sequence, segment.octets)
        {
            return Ok(());
        }
        self.take_octets(output, sender, sequence, number, moment, segment.octets)?;
        let next = self.stream(sender).next();
        if let Some(aside) = self.signs.of_mut(sender).take_aside(next) {
            let octets = [aside.octet];
            self.take_octets(output, sender, aside.sequence, number, moment, &octets)?;
        }
        Ok(())
    }

    /// Takes note of what the numbers of a segment tell of both directions.
    fn note_numbers(
        &mut self,
        sender: Side,
        sequence: u32,
        moment: u64,
        segment: &Segment,
    ) -> Result<(), AllocError> {
        let is_reset = segment.has(RST);
        if segment.has(ACK) && !is_reset {
            let other = sender.other();
            let acknowledged = segment.acknowledged;
            if self.flow.of(other).fits_acknowledged(acknowledged) {
                let place = self.stream(other).place(acknowledged);
                self.signs.of_mut(other).note_acknowledged(place);
            }
            self.flow.note_acknowledged(other, acknowledged, moment)?;
        }
        if is_reset {
            self.is_reset = self.is_reset || is_reset_by(self.stream(sender), sequence);
            return Ok(());
        }
        let end = behind(sequence, segment.length);
        let is_exact = segment.length > 0 || segment.has(FIN);
        self.flow.note_sent(sender, end, is_exact);
        if segment.has(FIN) {
            let place = self.stream(sender).place(end);
            self.signs.of_mut(sender).note_fin(place);
        }
        Ok(())
    }

    /// Takes octets of a direction.
    fn take_octets<S: Sink>(
        &mut self,
        output: &mut Output<S>,
        sender: Side,
        sequence: u32,
        number: u64,
        moment: u64,
        octets: &[u8],
    ) -> Result<(), Fault> {
        let waits = self.stream(sender.other()).is_open();
        let before = self.stream(sender).top();
        let packet = Packet { number, moment };
        match self
            .flow
            .take(output.alloc, sender, sequence, octets, packet)?
        {
            Came::AtOnce(part) => {
                let AtOnce {
                    session,
                    moment,
                    octets,
                } = part;
                self.has_rows = self.has_rows || session == self.last;
                self.note_packet(session, number);
                return output.put(&Piece {
                    link: self.link,
                    session,
                    sender,
                    moment,
                    octets,
                });
            }
            Came::Taken => {}
            Came::Outside => self.signs.of_mut(sender).outside.add(number),
        }
        let top = self.stream(sender).top();
        self.signs
            .of_mut(sender)
            .note_top(number, before, top, waits)?;
        if let Some(place) = self.go_on(output, sender, false)? {
            self.tell_going_on(output, sender, place)?;
        }
        self.flow.watch(sender, moment);
        self.write(output)
    }
}

/// The octets of a direction, if its first is known.
fn span_of(stream: &Stream) -> Option<Span> {
    let length = if stream.end() < stream.next() {
        stream.next()
    } else {
        stream.end()
    };
    Some(Span {
        first: stream.first()?,
        length,
    })
}
