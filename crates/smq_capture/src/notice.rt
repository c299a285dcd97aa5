//! What is told of a capture, a line each.
ghost use Rattle.std.specs.Prelude.{◌≡◌, ◌==◌, ◌+◌, ◌<◌, ◌^◌, if◌then◌else◌, min};

use crate::side::Side;
use std::fmt;

/// Packets that something is told of: how many, and the least of their numbers.
#[derive(Clone, Copy, Debug, PartialEq, Eq)]
pub struct Noted {
    pub count: u64,
    pub first: u64,
}

impl Noted {
    /// No packets.
    pub fn none() -> Noted
        ensures { result ≡ (record { count = 0; first = 0 }) }
    {
        Noted { count: 0, first: 0 }
    }

    /// Adds a packet.
    pub fn add(&mut self, number: u64)
        ensures first { self.new.first ≡ if self.old.count == 0 then number else min self.old.first number }
        ensures count { self.old.count + 1 < 2 ^ 64 → self.new.count ≡ self.old.count + 1 }
    {
        if self.count == 0 || number < self.first {
            self.first = number;
        }
        self.count = self.count.saturating_add(1);
    }
}

/// A session, its link, and an end of it.
#[derive(Clone, Copy, Debug, PartialEq, Eq)]
pub struct Sender {
    pub session: u64,
    pub link: u32,
    pub side: Side,
}

/// Where a direction goes on behind a gap.
#[derive(Clone, Copy, Debug, PartialEq, Eq)]
pub enum Behind {
    /// At this octet, as this session.
    At(u64, u64),
    /// Nowhere yet: no PDU was seen to begin.
    Sought,
    /// Nowhere: nothing comes behind it.
    Nothing,
}

/// What is told of packets of a direction.
#[derive(Clone, Copy, Debug, PartialEq, Eq)]
pub enum About {
    /// They are outside the connection's window.
    Outside,
    /// They were cut off by the snap length.
    Cut,
    /// Their moments were raised.
    Raised,
}

/// A port, and how many packets it has; no port with none.
#[derive(Clone, Copy, Debug, PartialEq, Eq)]
pub struct Busy {
    pub port: u16,
    pub packets: u64,
}

/// What is told of a capture, a line each.
#[derive(Clone, Copy, Debug, PartialEq, Eq)]
pub enum Notice {
    /// Octets first to last of a direction are missing, which the session had begun before.
    Gap {
        sender: Sender,
        first: u64,
        last: u64,
        behind: Behind,
    },
    /// A PDU is seen to begin behind a gap that was told before.
    GoesOn {
        sender: Sender,
        session: u64,
        place: u64,
    },
    /// Octets before the first PDU that was seen to begin, which aren't written.
    Passed {
        sender: Sender,
        count: u64,
    },
    /// No SYN told the first octet of a direction.
    NoSyn(Sender),
    /// No packet of an end was seen.
    NoPacket(Sender),
    /// Packets of a direction.
    Packets {
        sender: Sender,
        about: About,
        noted: Noted,
    },
    /// Connections that were quiet for long are forgotten, as there are too many.
    Quiet {
        session: u64,
        link: u32,
    },
    /// The moment of a packet is far ahead of those before, in ms, and isn't believed.
    Moment {
        number: u64,
        ahead: u64,
    },
    /// The file ends within a packet, or the block before it.
    FileEnds(u64),
    /// The record of a packet is broken, at an octet of the file.
    Record {
        number: u64,
        place: u64,
    },
    /// The block of a packet, or another before it, is broken, at an octet of the file.
    Block {
        number: u64,
        place: u64,
    },
    /// The capture says that at least so many packets were dropped.
    Dropped(u64),
    /// Packets without a moment, or of a link type that isn't read, aren't read.
    NotRead(Noted),
    /// Packets were cut off by the snap length before their octets.
    Headers(Noted),
    /// Packets of which a head says what can't be.
    Malformed(Noted),
    /// So many fragments of datagrams weren't put together.
    Fragments(u64),
    /// So many connections didn't begin: a SYN came and no answer, or an answer alone.
    Unanswered(u64),
    /// So many gaps were given up: how many octets they have, and how many were captured and not written.
    Gaps {
        gaps: u64,
        missing: u64,
        passed: u64,
    },
    /// So many connections have no port that is named.
    Skipped(u64),
    /// There is no packet.
    NoPackets,
    /// There is no session.
    NoSession,
    /// The busiest ports of connections that were skipped.
    Ports([Busy; 5]),
    /// There is no connection at all.
    NoPorts,
    /// A script of so many rows and octets is too long for a report.
    Long {
        rows: u64,
        octets: u64,
    },
}

impl Notice {
    /// Whether something is missing by it.
    pub fn is_loss(&self) -> bool {
        match self {
            Notice::Packets { about, .. } => *about != About::Raised,
            Notice::GoesOn { .. }
            | Notice::Moment { .. }
            | Notice::Gaps { .. }
            | Notice::Skipped(_)
            | Notice::Ports(_)
            | Notice::NoPorts
            | Notice::Long { .. }
            | Notice::Unanswered(_) => false,
            _ => true,
        }
    }
}

impl fmt::Display for Sender {
    fn fmt<W: fmt::Write>(&self, f: &mut fmt::Formatter<W>) -> fmt::Result {
        let session = self.session;
        let link = self.link;
        write!(f, "session {session} (link {link})")
    }
}

impl fmt::Display for Noted {
    fn fmt<W: fmt::Write>(&self, f: &mut fmt::Formatter<W>) -> fmt::Result {
        let count = self.count;
        let first = self.first;
        write!(f, "{count}, the first is packet {first}")
    }
}

impl fmt::Display for About {
    fn fmt<W: fmt::Write>(&self, f: &mut fmt::Formatter<W>) -> fmt::Result {
        match *self {
            About::Outside => write!(f, "packets outside the connection's window, not written"),
            About::Cut => write!(f, "packets cut off by the snap length"),
            About::Raised => write!(
                f,
                "moments raised to the one before, as the clock was set back or packets stand out of order"
            ),
        }
    }
}

impl fmt::Display for Notice {
    fn fmt<W: fmt::Write>(&self, f: &mut fmt::Formatter<W>) -> fmt::Result {
        match self {
            Notice::Gap {
                sender,
                first,
                last,
                behind,
            } => write_gap(f, *sender, *first, *last, *behind),
            Notice::GoesOn {
                sender,
                session,
                place,
            } => {
                let side = sender.side;
                write!(
                    f,
                    "{sender}: session {session} goes on at octet {place} from the {side}"
                )
            }
            Notice::Passed { sender, count } => {
                let side = sender.side;
                write!(
                    f,
                    "{sender}: octets from the {side} before a PDU was seen to begin, not written: {count}"
                )
            }
            Notice::NoSyn(sender) => {
                let side = sender.side;
                write!(
                    f,
                    "{sender}: no SYN seen from the {side}: the first octets of its stream may be missing"
                )
            }
            Notice::NoPacket(sender) => {
                let side = sender.side;
                write!(
                    f,
                    "{sender}: no packet from the {side}, though the other end sent octets"
                )
            }
            Notice::Packets {
                sender,
                about,
                noted,
            } => {
                let side = sender.side;
                let count = noted.count;
                let first = noted.first;
                write!(
                    f,
                    "{sender}: {about}: {count} from the {side}, the first is packet {first}"
                )
            }
            Notice::Quiet { session, link } => write!(
                f,
                "session {session} (link {link}): forgotten, as too many connections are open and it was quiet"
            ),
            Notice::Moment { number, ahead } => write!(
                f,
                "packet {number}: its moment is {ahead} ms ahead of those before it, and wasn't believed"
            ),
            Notice::FileEnds(number) => write!(f, "the file ends within packet {number}"),
            Notice::Record { number, place } => write!(
                f,
                "the record of packet {number} is broken, at octet {place} of the file"
            ),
            Notice::Block { number, place } => write!(
                f,
                "the block of packet {number}, or one before it, is broken, at octet {place} of the file"
            ),
            Notice::Dropped(count) => write!(
                f,
                "the capture says that packets were dropped: {count}"
            ),
            Notice::NotRead(noted) => write!(
                f,
                "packets without a moment, or of a link type that isn't read, not read: {noted}"
            ),
            Notice::Headers(noted) => write!(
                f,
                "packets cut off by the snap length before their octets: {noted}"
            ),
            Notice::Malformed(noted) => write!(
                f,
                "packets with a head that can't be, not read: {noted}"
            ),
            Notice::Fragments(count) => write!(
                f,
                "fragments of datagrams that weren't put together, not read: {count}"
            ),
            Notice::Unanswered(count) => write!(
                f,
                "connections that didn't begin, as no answer to a SYN came: {count}"
            ),
            Notice::Gaps {
                gaps,
                missing,
                passed,
            } => write!(
                f,
                "gaps: {gaps}; octets missing: {missing}, captured and not written: {passed}"
            ),
            Notice::Skipped(count) => write!(
                f,
                "connections without a port that --link names, skipped: {count}"
            ),
            Notice::NoPackets => write!(
                f,
                "no packet is in the capture: is it the right file, and did tcpdump end with an interrupt (Ctrl-C)?"
            ),
            Notice::NoSession => write!(
                f,
                "no session: no connection has a port that --link names"
            ),
            Notice::Ports(ports) => write_ports(f, ports.as_slice()),
            Notice::NoPorts => write!(
                f,
                "nor any other: was another interface captured, or a filter too narrow?"
            ),
            Notice::Long { rows, octets } => write!(
                f,
                "the script has {rows} rows and {octets} octets, and smq report takes 1000000 and 268435456: smq total takes any number"
            ),
        }
    }
}

/// Writes which octets are missing, and where the direction goes on.
fn write_gap<W: fmt::Write>(
    f: &mut fmt::Formatter<W>,
    sender: Sender,
    first: u64,
    last: u64,
    behind: Behind,
) -> fmt::Result {
    let side = sender.side;
    write!(
        f,
        "{sender}: octets {first} to {last} from the {side} are missing: "
    )?;
    match behind {
        Behind::At(place, session) if session == sender.session => {
            write!(f, "it goes on at octet {place}")
        }
        Behind::At(place, session) => write!(f, "session {session} goes on at octet {place}"),
        Behind::Sought => write!(f, "no PDU is seen to begin behind them yet"),
        Behind::Nothing => write!(f, "nothing after them is written"),
    }
}

/// Writes the busiest ports.
fn write_ports<W: fmt::Write>(f: &mut fmt::Formatter<W>, ports: &[Busy]) -> fmt::Result {
    write!(f, "the busiest ports, with their packets: ")?;
    let mut mark = "";
    for it in ports {
        let port = it.port;
        let packets = it.packets;
        if packets > 0 {
            write!(f, "{mark}{port} ({packets})")?;
        }
        mark = ", ";
    }
    write!(f, "; is the centre's port one of them?")
}
