//! Captures, read one after the other as one.
use crate::clock::Clock;
use crate::fault::Fault;
use crate::links::Link;
use crate::notice::{Noted, Notice};
use crate::output::Output;
use crate::reading::{Format, LONGEST_HEAD, Reading, Step};
use crate::sessions::Sessions;
use crate::sink::Sink;
use crate::ticks::Ticks;
use smq_packets::{Block, Fragments, MOST_INTERFACES, NoBlock};
use std::alloc::{AllocError, Global};
use std::io::{ErrorKind, Read};

mod packets;

/// The most rows and octets of a script that a report takes.
const MOST_ROWS: u64 = 1_000_000;

const MOST_OCTETS: u64 = 268_435_456;

/// Which connections are read, and how.
#[derive(Drop)]
pub struct Options {
    /// Ports of centres.
    pub links: Vec<Link>,
    /// The number of the first session.
    pub first_session: u64,
    /// Whether nothing of a direction is given after a gap, and a stream without a SYN begins with its first octets.
    pub is_strict: bool,
    /// Each so many ms of the capture's clock the sink is told of it.
    pub every: Option<u64>,
    /// Whether it is told where the rows are more than a report takes.
    pub tells_long_scripts: bool,
}

/// Captures, read one after the other as one.
#[derive(Drop)]
pub struct Capture<S> {
    alloc: Global,
    sessions: Sessions<S>,
    clock: Clock,
    ticks: Ticks,
    tells_long_scripts: bool,
    fragments: Fragments,
    /// What the interfaces of this file lost so far, and those of files before.
    lost: Vec<u64>,
    lost_before: u64,
    packets: u64,
    headers: Noted,
    malformed: Noted,
    not_read: Noted,
}

/// What was taken of octets: how many of them, how many to skip behind them, and whether more may follow.
#[derive(Clone, Copy)]
struct Taken {
    octets: usize,
    skipped: u64,
    goes_on: bool,
}

impl<S: Sink + Drop> Capture<S> {
    /// Nothing was read yet.
    pub fn new(alloc: Global, options: Options, sink: S) -> Capture<S> {
        let Options {
            links,
            first_session,
            is_strict,
            every,
            tells_long_scripts,
        } = options;
        let output = Output::new(alloc, sink, first_session, is_strict);
        Capture {
            alloc,
            sessions: Sessions::new(alloc, links, output),
            clock: Clock::new(),
            ticks: Ticks::new(every),
            tells_long_scripts,
            fragments: Fragments::new(alloc),
            lost: Vec::new(alloc),
            lost_before: 0,
            packets: 0,
            headers: Noted::none(),
            malformed: Noted::none(),
            not_read: Noted::none(),
        }
    }

    /// Where what is read of the captures goes.
    pub fn sink(&mut self) -> &mut S {
        &mut self.sessions.output.sink
    }

    /// How many packets were read.
    pub fn packets(&self) -> u64 {
        self.packets
    }

    /// Reads a pcap or pcapng file to its end.
    pub fn read<R: Read>(&mut self, reader: &mut R) -> Result<(), Fault> {
        let mut reading = Reading::new(self.alloc);
        for _ in 0..u64::MAX {
            if self.read_on(&mut reading, reader)? == Step::Ended {
                break;
            }
        }
        Ok(())
    }

    /// Reads once from a file, takes the packets that are whole then, and gives what is known of the capture to the sink.
    pub fn read_on<R: Read>(
        &mut self,
        reading: &mut Reading,
        reader: &mut R,
    ) -> Result<Step, Fault> {
        let count = match reading.room.fill(self.alloc, reader) {
            Ok(count) => count,
            Err(Fault::Read(error)) if error.kind() == ErrorKind::TimedOut => {
                return Ok(Step::Waits);
            }
            Err(fault) => return Err(fault),
        };
        if reading.format.is_none() {
            if reading.room.unused().len() < LONGEST_HEAD && count > 0 {
                return Ok(Step::GoesOn);
            }
            reading.begin(self.alloc)?;
        }
        let goes_on = self.take_read(reading)?;
        if goes_on && count > 0 {
            self.sessions.output.sink.flush()?;
            return Ok(Step::GoesOn);
        }
        self.end_file(reading, goes_on)?;
        Ok(Step::Ended)
    }

    /// Takes the packets of a file that are whole; whether more may follow.
    fn take_read(&mut self, reading: &mut Reading) -> Result<bool, Fault> {
        let Reading {
            room,
            format,
            skipped,
        } = reading;
        let Some(format) = format else {
            return Ok(true);
        };
        *skipped = skipped.saturating_sub(room.skip(*skipped));
        if *skipped > 0 {
            return Ok(true);
        }
        let taken = self.take_all(format, room.unused(), room.used())?;
        room.use_up(taken.octets);
        *skipped = taken.skipped;
        Ok(taken.goes_on)
    }

    /// Ends a file, which may break off within a packet.
    fn end_file(&mut self, reading: &Reading, goes_on: bool) -> Result<(), Fault> {
        self.forget_interfaces();
        if goes_on && (reading.skipped > 0 || !reading.room.unused().is_empty()) {
            let number = self.packets.saturating_add(1);
            self.sessions.output.tell(Notice::FileEnds(number))?;
        }
        self.sessions.output.sink.flush()
    }

    /// Does what is due while no packet comes, at a moment of the host's clock, in ms from any beginning: the capture's clock goes on from
    /// the newest packet.
    pub fn pass_time(&mut self, now: u64) -> Result<(), Fault> {
        let passed = self.ticks.passed(self.packets, now);
        match self.clock.newest() {
            Some(newest) => {
                let moment = newest.saturating_add(passed);
                self.sessions.give_up(moment)?;
                self.tick(moment)?;
            }
            None => {
                if self.ticks.is_due_unknown(passed, now) {
                    self.sessions.output.sink.tick(None)?;
                }
            }
        }
        self.sessions.output.sink.flush()
    }

    /// Tells the sink of the clock where that is due before a moment.
    fn tick(&mut self, moment: u64) -> Result<(), Fault> {
        match self.ticks.pass_to(moment) {
            Some(tick) => self.sessions.output.sink.tick(tick.clock),
            None => Ok(()),
        }
    }

    /// Takes the whole records or blocks at the front of octets, of which the first has a place in the file.
    fn take_all(&mut self, format: &mut Format, octets: &[u8], place: u64) -> Result<Taken, Fault> {
        let mut rest = octets;
        let mut skipped = 0;
        let mut goes_on = true;
        for _ in 0..u64::MAX {
            let block = match format.read(rest) {
                Ok(block) => block,
                Err(NoBlock::More) => break,
                Err(NoBlock::NoCapture) => return Err(Fault::NoCapture),
                Err(NoBlock::Memory) => return Err(Fault::Memory),
                Err(NoBlock::Broken(field)) => {
                    let used = octets
                        .len()
                        .saturating_sub(rest.len())
                        .saturating_add(field);
                    let number = self.packets.saturating_add(1);
                    let place = place.saturating_add(used as u64);
                    let notice = match format {
                        Format::Records(_) => Notice::Record { number, place },
                        Format::Blocks(_) => Notice::Block { number, place },
                    };
                    self.sessions.output.tell(notice)?;
                    goes_on = false;
                    break;
                }
            };
            let size = self.take_block(block, format.is_whole(rest))?;
            match rest.split_at_checked(size) {
                Some((_, after)) => rest = after,
                None => {
                    skipped = size.saturating_sub(rest.len()) as u64;
                    rest = rest.get(..0).unwrap_or_default();
                    break;
                }
            }
        }
        let used = if skipped > 0 {
            octets.len()
        } else {
            octets.len().saturating_sub(rest.len())
        };
        Ok(Taken {
            octets: used,
            skipped,
            goes_on,
        })
    }

    /// Takes a record or block, whose packet may be captured as a whole, and gives how many octets it has.
    fn take_block(&mut self, block: Block<'_>, is_whole: bool) -> Result<usize, Fault> {
        match block {
            Block::Other { size } => Ok(size),
            Block::Statistics {
                size,
                interface,
                dropped_by_interface,
                dropped_by_system,
            } => {
                let by_interface = dropped_by_interface.unwrap_or(0);
                let by_system = dropped_by_system.unwrap_or(0);
                self.note_lost(interface, by_interface.saturating_add(by_system))?;
                Ok(size)
            }
            Block::Packet {
                size,
                link_type,
                moment,
                frame,
            } => {
                match (link_type, moment) {
                    (Ok(link_type), Some(moment)) => {
                        self.take_packet(link_type, moment, is_whole, frame)?
                    }
                    _ => {
                        self.packets = self.packets.saturating_add(1);
                        self.not_read.add(self.packets);
                    }
                }
                Ok(size)
            }
        }
    }

    /// Takes note of how many packets an interface lost since the capture began.
    fn note_lost(&mut self, interface: u32, count: u64) -> Result<(), AllocError> {
        let index = interface as usize;
        if index >= MOST_INTERFACES {
            return Ok(());
        }
        if self.lost.len() <= index {
            self.lost.resize(index.saturating_add(1), 0)?;
        }
        if let Some(lost) = self.lost.get_mut(index) {
            *lost = count;
        }
        Ok(())
    }

    /// Adds what the interfaces of a file lost, which ended.
    fn forget_interfaces(&mut self) {
        for lost in self.lost.as_slice() {
            self.lost_before = self.lost_before.saturating_add(*lost);
        }
        self.lost.clear();
    }

    /// Tells how much is missing, and whether the script is too long for a report where that is wanted.
    fn tell_sums(&mut self) -> Result<(), Fault> {
        self.sessions.output.tell_gaps()?;
        if self.tells_long_scripts {
            self.sessions.output.tell_length(MOST_ROWS, MOST_OCTETS)?;
        }
        Ok(())
    }

    /// Gives and tells all that waits, where a capture can't be read to its end.
    pub fn break_off(&mut self) -> Result<(), Fault> {
        self.sessions.end(self.clock.now())?;
        self.tell_sums()?;
        self.sessions.output.sink.flush()
    }

    /// Ends the captures: gives and tells all that waits. Whether something is missing.
    pub fn end(&mut self) -> Result<bool, Fault> {
        self.take_doubted(None)?;
        self.sessions.end(self.clock.now())?;
        if self.ticks.is_wanted() {
            self.sessions.output.sink.tick(None)?;
        }
        if self.headers.count > 0 {
            self.sessions.output.tell(Notice::Headers(self.headers))?;
        }
        if self.malformed.count > 0 {
            self.sessions
                .output
                .tell(Notice::Malformed(self.malformed))?;
        }
        let fragments = self.fragments.dropped();
        if fragments > 0 {
            self.sessions.output.tell(Notice::Fragments(fragments))?;
        }
        if self.lost_before > 0 {
            self.sessions
                .output
                .tell(Notice::Dropped(self.lost_before))?;
        }
        if self.not_read.count > 0 {
            self.sessions.output.tell(Notice::NotRead(self.not_read))?;
        }
        self.tell_sums()?;
        self.sessions.tell_skipped()?;
        if self.packets == 0 {
            self.sessions.output.tell(Notice::NoPackets)?;
        } else if self.sessions.output.sessions() == 0
            && self.sessions.unanswered() == 0
            && self.headers.count == 0
        {
            self.sessions.tell_nothing()?;
        }
        self.sessions.output.sink.flush()?;
        Ok(self.sessions.output.has_loss())
    }
}
