//! A connection: its link, both its directions, and the periods of its PDUs.
ghost use Rattle.std.specs.Prelude.{◌≡◌, ◌+◌, ◌++◌, ◌∷◌, ◌≤◌, ℕ, [], List, length, map, OnOk, IfOk, None};
ghost use Rattle.std.specs.List.{list_any};
ghost use Rattle.std.specs.Prelude.{nat_eq};
ghost use Rattle.smq_window.specs.Homes.{Homed};
ghost use Rattle.smq_window.specs.Connection.{ConnectionValue, connection_after, direction_of, new_connection, octets_of, rows_of_piece};
ghost use Rattle.smq_window.specs.Connection as defined;
ghost use Rattle.smq_kit.specs.Replies.{first_of};
ghost use Rattle.std.specs.Prelude.{◌<◌, ◌==◌, ◌&&◌, if◌then◌else◌, false, true, slice_index_or, vec_len};
ghost use Rattle.smq_window.specs.declared.periods.Period.{Period};
ghost use Rattle.smq_window.specs.Window.{is_first, piece_refusals, refusals_in, without_first};
ghost use Rattle.smq_window.specs.Window as windows;
ghost use Rattle.smq_window.specs.within.Kept.{IsKept, numbers};
ghost use Rattle.smq_window.specs.within.Shown.{Deals, Shows, Takes, Writes};

use crate::direction::Direction;
use crate::exchange::exchange_of;
use crate::periods::{Period, Span, open, put};
use crate::row::{Piece, Row};
use crate::session::Session;
use bytes::Bytes;
use smq_frame::{Frame, LONGEST_STREAM};
use smq_kit::{Dir, LinkId, Moment, Refusal};
use std::alloc::{AllocError, Global};

/// Where the octets of a piece come from, and when.
#[derive(Clone, Copy)]
pub struct Origin {
    pub link: LinkId,
    pub session: Session,
    pub sender: Dir,
    pub moment: Moment,
}

/// A connection: its link, both directions, and its periods, the oldest first.
#[derive(Drop)]
pub(crate) struct Connection {
    pub(crate) link: LinkId,
    pub(crate) client: Direction,
    pub(crate) centre: Direction,
    pub(crate) periods: Vec<Period>,
}

impl Connection {
    /// A connection of a link without octets.
    pub(crate) fn new(alloc: Global, link: LinkId) -> Connection
        ensures { (oldest present : ℕ) → oldest ≤ present → Shows (new_connection link) oldest present result }
    {
        Connection {
            link,
            client: Direction::new(),
            centre: Direction::new(),
            periods: Vec::new(alloc),
        }
    }

    /// One of its directions.
    pub(crate) fn direction(&self, sender: Dir) -> &Direction
        ensures shown { (c : ConnectionValue) (oldest present : ℕ) → Shows c oldest present self.now
            → result.now ≡ direction_of sender c }
        ensures client { sender ≡ Dir.FromClient → result.now ≡ self.now.client }
        ensures centre { sender ≡ Dir.FromCentre → result.now ≡ self.now.centre }
    {
        match sender {
            Dir::FromClient => &self.client,
            Dir::FromCentre => &self.centre,
        }
    }

    /// Forgets a period, where it is the oldest. Whether it was.
    pub(crate) fn forget(&mut self, period: u64) -> bool
        ensures test { (c : ConnectionValue) (oldest present : ℕ) → Shows c oldest present self.old
            → result ≡ is_first period c.periods }
        ensures shown { (c : ConnectionValue) (oldest present : ℕ) → period < oldest → Shows c oldest present self.old
            → Shows (if result then without_first c else c) oldest present self.new }
    {
        if !begins_with(self.periods.as_slice(), period) {
            return false;
        }
        let _ = self.periods.remove(0);
        true
    }

    /// Whether nothing is left: no period, and no octets that wait.
    pub(crate) fn is_over(&self) -> bool
        ensures { (c : ConnectionValue) (oldest present : ℕ) → Shows c oldest present self.now
            → result ≡ windows.is_over c }
    {
        self.has_nothing()
    }

    /// Whether no period is kept, and no octets wait.
    fn has_nothing(&self) -> bool
        ensures { result ≡ ((vec_len self.now.periods == 0) && windows.is_quiet self.now.client
            && windows.is_quiet self.now.centre) }
    {
        self.periods.is_empty() && self.client.is_quiet() && self.centre.is_quiet()
    }

    /// What refuses a piece, if anything: lack of memory aside.
    pub(crate) fn refusal(&self, at: &Origin, octets: &Bytes) -> Option<Refusal>
        ensures { (c : ConnectionValue) (oldest present : ℕ) → Shows c oldest present self.now
            → result ≡ first_of (piece_refusals at.now octets.now c) }
    {
        match at.sender {
            Dir::FromClient => refusal_in(self.link, &self.client, at, octets),
            Dir::FromCentre => refusal_in(self.link, &self.centre, at, octets),
        }
    }

    /// Takes a piece, and puts the rows that it makes behind others. The only error is that memory ran out.
    pub(crate) fn take(
        &mut self,
        alloc: Global,
        at: &Origin,
        span: Span,
        octets: &Bytes,
        rows: &mut Vec<Row>,
    ) -> Result<(), AllocError>
        requires client { at.now.sender ≡ Dir.FromClient
            → self.old.client.tail.offset + length octets.now ≤ LONGEST_STREAM }
        requires centre { at.now.sender ≡ Dir.FromCentre
            → self.old.centre.tail.offset + length octets.now ≤ LONGEST_STREAM }
        ensures { OnOk result ((c : ConnectionValue) → Shows c span.oldest span.present self.old
            → Shows (connection_after at.now span.oldest span.present octets.now c) span.oldest span.present self.new
            × (rows.new.items ≡ rows.old.items ++ rows_of_piece at.now span.oldest span.present octets.now c)) }
    {
        match at.sender {
            Dir::FromClient => take_in(
                alloc,
                &mut self.client,
                &mut self.periods,
                at,
                span,
                octets,
                rows,
            ),
            Dir::FromCentre => take_in(
                alloc,
                &mut self.centre,
                &mut self.periods,
                at,
                span,
                octets,
                rows,
            ),
        }
    }
}

/// What refuses a piece of a direction of a link.
fn refusal_in(link: LinkId, direction: &Direction, at: &Origin, octets: &Bytes) -> Option<Refusal>
    ensures { result ≡ first_of (refusals_in link direction.now at.now octets.now) }
{
    if octets.is_empty() {
        return Some(Refusal::EmptyPiece);
    }
    if !direction.tail.has_room(octets.len()) {
        return Some(Refusal::StreamFull);
    }
    if link.0 != at.link.0 {
        return Some(Refusal::OtherLink { link });
    }
    if at.moment.milliseconds() < direction.last.milliseconds() {
        return Some(Refusal::Backward {
            last: direction.last,
        });
    }
    None
}

/// Whether the oldest period has this number.
fn begins_with(periods: &[Period], period: u64) -> bool
    ensures first { result ≡ true → (0 < length periods.now)
        × ((d : Period) → (slice_index_or periods.now 0 d).number ≡ period) }
    ensures other { result ≡ false → 0 < length periods.now → (d : Period)
        → (slice_index_or periods.now 0 d).number ≡ period → ⊥ }
{
    if periods.is_empty() {
        return false;
    }
    periods[0].number == period
}

/// Takes a piece of a direction.
fn take_in(
    alloc: Global,
    direction: &mut Direction,
    periods: &mut Vec<Period>,
    at: &Origin,
    span: Span,
    octets: &Bytes,
    rows: &mut Vec<Row>,
) -> Result<(), AllocError>
    requires { direction.old.tail.offset + length octets.now ≤ LONGEST_STREAM }
    ensures { OnOk result ((pdus : List Homed) → IsKept pdus span.oldest span.present periods.old.items
        → Takes pdus span.oldest span.present at.now octets.now direction.old periods.old.items rows.old.items
        direction.new periods.new.items rows.new.items) }
{
    let frames = direction.take(alloc, at.moment, octets)?;
    deal(alloc, periods, at, span, frames.as_slice(), rows)?;
    write_broken(alloc, direction, periods, at, span, rows)
}

/// Puts each PDU into its home, and a row for it behind others.
fn deal(
    alloc: Global,
    periods: &mut Vec<Period>,
    at: &Origin,
    span: Span,
    frames: &[Frame],
    rows: &mut Vec<Row>,
) -> Result<(), AllocError>
    ensures { OnOk result ((pdus : List Homed) → IsKept pdus span.oldest span.present periods.old.items
        → Deals pdus span.oldest span.present at.now (octets_of frames.now)
        periods.old.items periods.new.items rows.old.items rows.new.items) }
{
    for frame in frames {
        deal_one(alloc, periods, at, span, frame, rows)?;
    }
    Ok(())
}

/// Puts a PDU into its home, and a row for it behind others.
fn deal_one(
    alloc: Global,
    periods: &mut Vec<Period>,
    at: &Origin,
    span: Span,
    frame: &Frame,
    rows: &mut Vec<Row>,
) -> Result<(), AllocError>
    ensures { OnOk result ((pdus : List Homed) → IsKept pdus span.oldest span.present periods.old.items
        → Deals pdus span.oldest span.present at.now (frame.now.octets ∷ [])
        periods.old.items periods.new.items rows.old.items rows.new.items) }
{
    let exchange = exchange_of(at.sender, frame.octets.as_slice());
    let home = put(alloc, periods, span, exchange)?;
    push_piece(rows, at, home, &frame.octets)
}

/// Puts a row for a PDU behind others.
fn push_piece(
    rows: &mut Vec<Row>,
    at: &Origin,
    period: u64,
    octets: &Bytes,
) -> Result<(), AllocError>
    ensures { OnOk result (rows.new.items ≡ rows.old.items ++ defined.piece_row at.now period octets.now ∷ []) }
{
    let octets = octets.clone()?;
    rows.push(Row::Piece(Piece {
        link: at.link,
        session: at.session.of_period(period),
        sender: at.sender,
        moment: at.moment,
        octets,
    }))?;
    Ok(())
}

/// Writes the four octets of a length that can't be into the present period, where no period that is kept has them.
fn write_broken(
    alloc: Global,
    direction: &mut Direction,
    periods: &mut Vec<Period>,
    at: &Origin,
    span: Span,
    rows: &mut Vec<Row>,
) -> Result<(), AllocError>
    ensures { OnOk result ((pdus : List Homed) → IsKept pdus span.oldest span.present periods.old.items
        → Writes pdus span.oldest span.present at.now direction.old periods.old.items rows.old.items
        direction.new periods.new.items rows.new.items) }
{
    if is_written(direction.written, periods.as_slice()) {
        return Ok(());
    }
    match &direction.broken {
        Some(octets) => {
            push_piece(rows, at, span.present, octets)?;
            open(alloc, periods, span.present)?;
            direction.written = Some(span.present);
            Ok(())
        }
        None => Ok(()),
    }
}

/// Whether a period that is kept has the octets.
fn is_written(written: Option<u64>, periods: &[Period]) -> bool
    ensures { result ≡ defined.is_written written (numbers periods.now) }
{
    match written {
        Some(period) => has_period(periods, period),
        None => false,
    }
}

/// Whether a period of this number is kept.
pub(crate) fn has_period(periods: &[Period], period: u64) -> bool
    ensures { result ≡ list_any (nat_eq period) (numbers periods.now) }
{
    for kept in periods {
        if kept.number == period {
            return true;
        }
    }
    false
}
