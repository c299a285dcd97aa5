//! The rows of the PDUs of a direction that go to a part.
ghost use Rattle.std.specs.Prelude.{◌≡◌, IfOk, OnOk, drop, length, take};
ghost use Rattle.std.specs.Io.KnownBytes.{Appends};
ghost use Rattle.smq_frame.specs.Stream.{stream_frames, values};
ghost use Rattle.smq_deal.specs.Texts as spec;
ghost use Rattle.smq_deal.specs.Texts.{direction_rows, pdu_rows, row_if_any, row_of};

use smq_capture::{Side, put_row};
use smq_frame::{Frame, Tail, frames};
use smq_kit::{Dir, Moment};
use smq_present::{Direction, Session};
use smq_report::ReportFault;
use std::alloc::{AllocError, Global};
use std::io::Write;

/// Writes a row for each PDU of a direction that goes to a part, in order, and, where what ends a direction goes there, one for the octets
/// behind the last PDU.
pub(crate) fn write_direction<W: Write>(
    alloc: Global,
    origin: Origin,
    direction: &Direction,
    parts: &[u32],
    part: u32,
    ends: u32,
    row: &mut Vec<u8>,
    writer: &mut W,
) -> Result<(), ReportFault>
    ensures { OnOk result (Appends (W.contents writer.old) (W.contents writer.new)
        (direction_rows ends part ((origin, direction.now), parts.now))) }
{
    origin.write_pdus(alloc, direction, parts, part, row, writer)?;
    if part != ends {
        return Ok(());
    }
    let octets = ending(alloc, direction)?;
    origin.write_any(direction.last(), octets.as_slice(), row, writer)
}

/// The octets behind the last PDU of a direction: a bad length, or those of one that hasn't come whole.
fn ending(alloc: Global, direction: &Direction) -> Result<Vec<u8>, AllocError>
    ensures { IfOk result (λ octets. octets.items ≡ spec.ending direction.now) }
{
    let tail = direction.tail();
    match tail.broken() {
        Some(at) => bad_length(alloc, direction, at),
        None => Vec::from_slice(alloc, tail.rest(alloc)?.as_slice()),
    }
}

/// The four octets of a bad length at an offset.
fn bad_length(alloc: Global, direction: &Direction, at: u64) -> Result<Vec<u8>, AllocError>
    ensures { IfOk result (λ octets. octets.items ≡ take 4 (drop at (values direction.now))) }
{
    let mut octets = Vec::with_capacity(alloc, 4)?;
    let mut before = at as usize;
    for piece in direction.pieces() {
        let (_, here) = piece
            .octets
            .as_slice()
            .split_at(before.min(piece.octets.len()));
        before = before.saturating_sub(piece.octets.len());
        let more = 4usize.saturating_sub(octets.len());
        let (taken, _) = here.split_at(more.min(here.len()));
        octets.extend_from_slice(taken)?;
    }
    Ok(octets)
}

/// Where the rows of a direction come from.
#[derive(Clone, Copy)]
pub(crate) struct Origin {
    pub link: u32,
    pub session: u64,
    pub side: Side,
}

impl Origin {
    /// That of a direction of a session of a number.
    pub fn of(session: &Session, number: u64, dir: Dir) -> Origin
        ensures { result ≡ spec.origin_in (number, session.now) dir }
    {
        Origin {
            link: session.link.0,
            session: number,
            side: side_of(dir),
        }
    }

    /// Writes a row for each PDU of a direction that goes to a part, in order.
    fn write_pdus<W: Write>(
        self,
        alloc: Global,
        direction: &Direction,
        parts: &[u32],
        part: u32,
        row: &mut Vec<u8>,
        writer: &mut W,
    ) -> Result<(), ReportFault>
        ensures { OnOk result (Appends (W.contents writer.old) (W.contents writer.new)
            (pdu_rows self part (stream_frames direction.now) parts.now)) }
    {
        let mut tail = Tail::at(0);
        let mut left = parts;
        for piece in direction.pieces() {
            // (A direction has no more octets than a stream may.)
            if !tail.has_room(piece.octets.len()) {
                return Err(ReportFault::Memory);
            }
            let (found, next) = frames(alloc, &tail, piece.moment, &piece.octets)?;
            tail = next;
            left = self.write_frames(found.as_slice(), left, part, row, writer)?;
        }
        Ok(())
    }

    /// Writes a row for each frame that goes to a part, where these are their parts and those of the frames behind; the latter.
    fn write_frames<'a, W: Write>(
        self,
        frames: &[Frame],
        parts: &'a [u32],
        part: u32,
        row: &mut Vec<u8>,
        writer: &mut W,
    ) -> Result<&'a [u32], ReportFault>
        ensures left { IfOk result (λ left. left.now ≡ drop (length frames.now) parts.now) }
        ensures text { OnOk result (Appends (W.contents writer.old) (W.contents writer.new)
            (pdu_rows self part frames.now parts.now)) }
    {
        let mut left = parts;
        for frame in frames {
            if let Some((first, others)) = left.split_first() {
                if *first == part {
                    self.write(frame.moment, frame.octets.as_slice(), row, writer)?;
                }
                left = others;
            }
        }
        Ok(left)
    }

    /// Writes the row of octets of a moment, where there are any.
    fn write_any<W: Write>(
        self,
        moment: Moment,
        octets: &[u8],
        row: &mut Vec<u8>,
        writer: &mut W,
    ) -> Result<(), ReportFault>
        ensures { OnOk result (Appends (W.contents writer.old) (W.contents writer.new) (row_if_any self moment octets.now)) }
    {
        if octets.is_empty() {
            return Ok(());
        }
        self.write(moment, octets, row, writer)
    }

    /// Writes the row of octets of a moment.
    fn write<W: Write>(
        self,
        moment: Moment,
        octets: &[u8],
        row: &mut Vec<u8>,
        writer: &mut W,
    ) -> Result<(), ReportFault>
        ensures { OnOk result (Appends (W.contents writer.old) (W.contents writer.new) (row_of self moment octets.now)) }
    {
        row.clear();
        put_row(
            row,
            self.link,
            self.session,
            self.side,
            moment.milliseconds(),
            octets,
        )?;
        match writer.write_all(row.as_slice()) {
            Ok(()) => Ok(()),
            Err(_) => Err(ReportFault::Write),
        }
    }
}

/// An end as rows name it.
fn side_of(dir: Dir) -> Side
    ensures { result ≡ spec.side_of dir }
{
    match dir {
        Dir::FromClient => Side::Client,
        Dir::FromCentre => Side::Centre,
    }
}
