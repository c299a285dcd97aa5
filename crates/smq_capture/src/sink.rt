//! Where what is read of a capture goes.
ghost use Rattle.std.specs.Prelude.{◌≡◌, [], OnOk};
ghost use Rattle.std.specs.Io.KnownBytes.{Appends, Keeps, append_known};
ghost use Rattle.smq_capture.specs.Written.{piece_text};

use crate::fault::Fault;
use crate::notice::Notice;
use crate::row::put_row;
use crate::side::Side;
use smq_packets::{Address, End};
use smq_streams::Why;
use std::alloc::Global;
use std::fmt;
use std::io::Write;
use std::net::{Ipv4Addr, Ipv6Addr};

/// So many octets of rows are written at once.
const BUFFERED: usize = 65_536;

/// Octets that an end of a session sent, in their order, and when all before them had come, in ms since 1970 in UTC.
#[derive(Clone, Copy)]
pub struct Piece<'a> {
    pub link: u32,
    pub session: u64,
    pub sender: Side,
    pub moment: u64,
    pub octets: &'a [u8],
}

/// A session that ended: its ends, the first and the last packet of it, whether it began with a SYN of both ends, and how many octets
/// of it are missing.
#[derive(Clone, Copy, Debug, PartialEq, Eq)]
pub struct SessionLine {
    pub session: u64,
    pub link: u32,
    pub client: End,
    pub centre: End,
    pub first: u64,
    pub last: u64,
    pub has_syn: bool,
    pub missing: u64,
}

/// A gap that was given up: of a session, which end sent what is missing, the place of its first octet, how many they are, when that
/// was, and why.
#[derive(Clone, Copy, Debug, PartialEq, Eq)]
pub struct Loss {
    pub session: u64,
    pub sender: Side,
    pub place: u64,
    pub missing: u64,
    pub moment: u64,
    pub why: Why,
}

/// What takes the pieces of sessions and what is told of a capture, each as soon as it is known.
pub trait Sink {
    ghost use Rattle.std.specs.Prelude.{ℕ, List, Option, OnOk};
    ghost use Rattle.std.specs.Io.KnownBytes.{Appends};
    ghost use Rattle.smq_capture.specs.Written.{piece_text};

    /// The text of the rows that it took, where that is known.
    ghost contents: { Self → Option (List ℕ) };

    /// Takes a piece; how many octets a row of it has.
    fn put(&mut self, piece: &Piece<'_>) -> Result<usize, Fault>
        ensures { OnOk result (Appends (contents self.old) (contents self.new) (piece_text piece.now)) };

    /// Takes that the capture's clock has passed a multiple of what was asked for, which is told where it is later than the one before, and
    /// once more that the captures ended.
    fn tick(&mut self, clock: Option<u64>) -> Result<(), Fault>;

    /// Takes what is told.
    fn tell(&mut self, notice: &Notice) -> Result<(), Fault>;

    /// Takes a session that ended.
    fn note_session(&mut self, line: &SessionLine) -> Result<(), Fault>;

    /// Takes a gap that was given up.
    fn note_loss(&mut self, loss: &Loss) -> Result<(), Fault>;

    /// Writes out what it took, before more is waited for.
    fn flush(&mut self) -> Result<(), Fault>;
}

/// Writes pieces as rows of a script, and the rest as lines, where there are writers for them. At each tick come a row of the clock and
/// rows of questions; of what is missing come rows, too, where these are wanted.
#[derive(Drop)]
pub struct Texts<W, N, I, L> {
    alloc: Global,
    text: Vec<u8>,
    questions: Vec<String>,
    tells_losses: bool,
    rows: W,
    notices: N,
    index: Option<I>,
    losses: Option<L>,
}

impl<W: Write, N: Write, I: Write, L: Write> Texts<W, N, I, L> {
    /// Writes to these, and asks these questions; each is what a row `ask` has behind its first field.
    pub fn new(
        alloc: Global,
        questions: Vec<String>,
        tells_losses: bool,
        rows: W,
        notices: N,
        index: Option<I>,
        losses: Option<L>,
    ) -> Self {
        Texts {
            alloc,
            text: Vec::new(alloc),
            questions,
            tells_losses,
            rows,
            notices,
            index,
            losses,
        }
    }

    /// The writer of rows.
    pub fn rows(&mut self) -> &mut W {
        &mut self.rows
    }

    /// Writes the rows that it took.
    fn write_rows(&mut self) -> Result<(), Fault>
        ensures { OnOk result (Keeps (append_known (W.contents self.old.rows) self.old.text.items)
            (append_known (W.contents self.new.rows) self.new.text.items)) }
    {
        write_to(&mut self.rows, self.text.as_slice())?;
        self.text.clear();
        Ok(())
    }
}

impl<W: Write, N: Write, I: Write, L: Write> Sink for Texts<W, N, I, L> {
    ghost contents = { λ t. append_known (W.contents t.rows) t.text.items };

    fn put(&mut self, piece: &Piece<'_>) -> Result<usize, Fault> {
        let before = self.text.len();
        put_row(
            &mut self.text,
            piece.link,
            piece.session,
            piece.sender,
            piece.moment,
            piece.octets,
        )?;
        let after = self.text.len();
        if after > BUFFERED {
            self.write_rows()?;
        }
        Ok(after.saturating_sub(before))
    }

    fn tick(&mut self, clock: Option<u64>) -> Result<(), Fault> {
        if let Some(moment) = clock {
            let row = format!(in self.alloc; "clock,{moment}\n")?;
            self.text.extend_from_slice(row.as_bytes())?;
        }
        for name in self.questions.as_slice() {
            self.text.extend_from_slice(b"ask,")?;
            self.text.extend_from_slice(name.as_bytes())?;
            self.text.extend_from_slice(b"\n")?;
        }
        Ok(())
    }

    fn tell(&mut self, notice: &Notice) -> Result<(), Fault> {
        let line = format!(in self.alloc; "{notice}\n")?;
        write_to(&mut self.notices, line.as_bytes())
    }

    fn note_session(&mut self, line: &SessionLine) -> Result<(), Fault> {
        match &mut self.index {
            Some(index) => {
                let line = format!(in self.alloc; "{line}\n")?;
                write_to(index, line.as_bytes())
            }
            None => Ok(()),
        }
    }

    fn note_loss(&mut self, loss: &Loss) -> Result<(), Fault> {
        if self.tells_losses {
            let session = loss.session;
            let sender = loss.sender;
            let missing = loss.missing;
            let row = format!(in self.alloc; "lost,{session},{sender},{missing}\n")?;
            self.text.extend_from_slice(row.as_bytes())?;
        }
        match &mut self.losses {
            Some(losses) => {
                let line = format!(in self.alloc; "{loss}\n")?;
                write_to(losses, line.as_bytes())
            }
            None => Ok(()),
        }
    }

    fn flush(&mut self) -> Result<(), Fault> {
        if !self.text.is_empty() {
            self.write_rows()?;
            if let Err(error) = self.rows.flush() {
                return Err(Fault::Write(error));
            }
        }
        Ok(())
    }
}

/// Writes all of a text.
fn write_to<W: Write>(writer: &mut W, text: &[u8]) -> Result<(), Fault>
    ensures { OnOk result (Appends (W.contents writer.old) (W.contents writer.new) text.now) }
{
    match writer.write_all(text) {
        Ok(()) => Ok(()),
        Err(error) => Err(Fault::Write(error)),
    }
}

/// Writes an end as ADDRESS:PORT, an address of version 6 in brackets.
#[derive(Clone, Copy)]
struct Shown(End);

impl fmt::Display for Shown {
    fn fmt<W: fmt::Write>(&self, f: &mut fmt::Formatter<W>) -> fmt::Result {
        let port = self.0.port;
        match self.0.address {
            Address::V4(number) => {
                let [a, b, c, d] = number.to_be_bytes();
                let address = Ipv4Addr::new(a, b, c, d);
                write!(f, "{address}:{port}")
            }
            Address::V6(high, low) => {
                let [a, b, c, d, e, g, h, i] = high.to_be_bytes();
                let [k, l, m, n, o, p, q, r] = low.to_be_bytes();
                let address = Ipv6Addr::from([a, b, c, d, e, g, h, i, k, l, m, n, o, p, q, r]);
                write!(f, "[{address}]:{port}")
            }
        }
    }
}

impl fmt::Display for SessionLine {
    fn fmt<W: fmt::Write>(&self, f: &mut fmt::Formatter<W>) -> fmt::Result {
        let session = self.session;
        let link = self.link;
        let client = Shown(self.client);
        let centre = Shown(self.centre);
        let first = self.first;
        let last = self.last;
        let has_syn = u8::from(self.has_syn);
        let missing = self.missing;
        write!(
            f,
            "{session},{link},{client},{centre},{first},{last},{has_syn},{missing}"
        )
    }
}

impl fmt::Display for Loss {
    fn fmt<W: fmt::Write>(&self, f: &mut fmt::Formatter<W>) -> fmt::Result {
        let session = self.session;
        let sender = self.sender;
        let place = self.place;
        let missing = self.missing;
        let moment = self.moment;
        let why = why_text(self.why);
        write!(f, "{session},{sender},{place},{missing},{moment},{why}")
    }
}

/// Why a gap was given up, in a word.
fn why_text(why: Why) -> &'static str {
    match why {
        Why::Acknowledged => "acknowledged",
        Why::Old => "old",
        Why::Full => "full",
        Why::Ended => "ended",
        Why::End => "end",
    }
}
