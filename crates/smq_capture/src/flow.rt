//! The octets of both directions of a connection, from segments to rows.
ghost use Rattle.std.specs.Prelude.{◌≡◌, ◌≢◌, ◌↔◌, ℕ, ◌<◌, ◌++◌, ◌∷◌, ◌||◌, ◌+◌, ◌-◌, ◌^◌, min, [], List, length, slice_get, IsTrue, IfOk, IfSome, MatchOption, OnOk, Ok, Some, None, true, false};
ghost use Rattle.std.specs.List.{AllZip};
ghost use Rattle.std.specs.Option.{is_some};
ghost use Rattle.smq_reassembly.specs.Moment.{Start};
ghost use Rattle.smq_reassembly.specs.Octet.{Octet, octets_of};
ghost use Rattle.smq_reassembly.specs.Piece.{Piece};
ghost use Rattle.smq_reassembly.specs.Segment.{IsTooFarAhead, piece_of};
ghost use Rattle.smq_reassembly.specs.Sequence.{IsPlace};
ghost use Rattle.smq_reassembly.specs.declared.sequence.Place.{Place};
ghost use Rattle.smq_streams.specs.Direction.{Gives, Searches, is_open, left_in};
ghost use Rattle.smq_capture.specs.Flow.{Comes, Flows, FlowsIn, History, IsFree, IsThrough, OnlyFrames, OnlyPuts, OtherStays, Puts, Stays, Tells, all_put, direction_of, last_raised, nothing, raised, stream_of, timed_of, weight_of, with_direction, with_gap, with_passed, with_piece, with_put, with_stream};
ghost use Rattle.smq_capture.specs.Rows.{AllDealt, AllSettle, AreInOrder, AreSettledTo, IsSettled, Row, SettlesBefore, SomeEndsIn, weight_in};
ghost use Rattle.smq_capture.specs.Sessions.{Goes};

use crate::direction::Direction;
use crate::rows::Rows;
use crate::side::Side;
use crate::waiting::Waiting;
use smq_reassembly::{Next, Packet};
use smq_streams::{Found, Missing};
use std::alloc::{AllocError, Global};

mod notes;

/// Octets that are to be written at once: those of a session, at a moment.
#[derive(Clone, Copy)]
pub(crate) struct AtOnce<'a> {
    pub session: u64,
    pub moment: u64,
    pub octets: &'a [u8],
}

/// What became of the octets of a segment.
#[derive(Clone, Copy)]
pub(crate) enum Came<'a> {
    AtOnce(AtOnce<'a>),
    /// They were taken: as far as they and those that waited are the next, they are rows.
    Taken,
    /// They end too far ahead.
    Outside,
}

/// The octets of both directions of a connection: those that wait for others before them, and the rows that weren't written. Whatever
/// is called, what a stream gives becomes rows of its side.
#[derive(Drop)]
pub(crate) struct Flow {
    client: Direction,
    centre: Direction,
    rows: Rows,
}

impl Flow {
    /// No octets, in a session.
    pub(crate) fn new(alloc: Global, session: u64) -> Flow
        ensures flows { (side : Side) → FlowsIn nothing [] side result }
    {
        Flow {
            client: Direction::new(alloc, session),
            centre: Direction::new(alloc, session),
            rows: Rows::new(alloc),
        }
    }

    /// The direction of an end.
    pub(crate) fn of(&self, side: Side) -> &Direction
        ensures { result.now ≡ direction_of side self.now }
    {
        match side {
            Side::Client => &self.client,
            Side::Centre => &self.centre,
        }
    }

    /// Whether something waits that may begin another session.
    pub(crate) fn is_open(&self) -> bool
        ensures { result ≡ (is_open self.now.client.stream || is_open self.now.centre.stream) }
    {
        self.client.stream.is_open() || self.centre.stream.is_open()
    }

    /// Whether no row waits.
    pub(crate) fn is_written(&self) -> bool
        ensures { IsTrue result ↔ (self.now.rows ≡ []) }
    {
        self.rows.is_empty()
    }

    /// How much memory what waits takes, at most.
    pub(crate) fn weight(&self) -> u64
        ensures { result ≡ min (weight_of self.now.client.stream + weight_of self.now.centre.stream + weight_in self.now.rows)
            (2 ^ 64 - 1) }
    {
        self.client
            .stream
            .weight()
            .saturating_add(self.centre.stream.weight())
            .saturating_add(self.rows.weight())
    }

    /// Takes the octets of a segment. Those that are the next are to be written at once where no row waits or may have to.
    pub(crate) fn take<'a>(
        &mut self,
        alloc: Global,
        side: Side,
        sequence: u32,
        octets: &'a [u8],
        packet: Packet,
    ) -> Result<Came<'a>, AllocError>
        ensures comes { (s : History) (written : List Row) (f : ℕ) (place : Place) → FlowsIn s written side self.old
            → (direction_of side self.old).stream.first ≡ Some f
            → IsPlace f (direction_of side self.old).stream.order.next sequence place → 0 < length octets.now
            → IfOk result (λ came. Comes
            (IsTooFarAhead (direction_of side self.old).stream.order.next
            (piece_of place (direction_of side self.old).stream.order.next packet octets.now)) s
            (with_piece (piece_of place (direction_of side self.old).stream.order.next packet octets.now) s) written side
            came (direction_of side self.new) self.new.rows) }
        ensures free { IfOk result (λ came. IsFree
            ((one : Side) → one ≢ side → is_open (stream_of one self.old) ≡ false) came (direction_of side self.old)
            self.old.rows) }
        ensures same { IfOk result (λ came. OnlyFrames came (direction_of side self.old) (direction_of side self.new)) }
        ensures other { OnOk result (OtherStays side self.old self.new) }
    {
        let is_free = !self.of(side.other()).stream.is_open();
        let came = match side {
            Side::Client => take_in(
                &mut self.client,
                &mut self.rows,
                alloc,
                side,
                is_free,
                sequence,
                octets,
                packet,
            )?,
            Side::Centre => take_in(
                &mut self.centre,
                &mut self.rows,
                alloc,
                side,
                is_free,
                sequence,
                octets,
                packet,
            )?,
        };
        Ok(came)
    }

    /// Looks for the first PDU of a direction in what follows, where one has to be looked for.
    pub(crate) fn search(&mut self, side: Side, is_end: bool) -> Result<Option<Found>, AllocError>
        ensures passes { (s : History) (written : List Row) → FlowsIn s written side self.old
            → OnOk result ((passed : List Octet) × FlowsIn (with_passed passed s) written side self.new) }
        ensures searches { (stream_of side self.old).is_searching ≡ true
            → (pieces : List Piece) (start : Start) (given : List Octet) → Gives pieces start given (stream_of side self.old)
            → IfOk result (λ found.
            Searches is_end pieces start given (stream_of side self.old) (stream_of side self.new) (is_some found)) }
        ensures found { IfOk result (λ r. MatchOption r
            ((stream_of side self.new).is_searching ≡ (stream_of side self.old).is_searching)
            (λ found. ((stream_of side self.new).is_searching ≡ false) × (found.place ≡ (stream_of side self.new).held.place)
            × MatchOption (slice_get (stream_of side self.new).held.octets 0) (found.number ≡ 0)
            (λ (o : Octet). found.number ≡ o.packet.number))) }
        ensures idle { (stream_of side self.old).is_searching ≡ false → (result ≡ Ok None) × (self.new ≡ self.old) }
        ensures rest { self.new ≡ with_stream side (record (stream_of side self.old) {
          order = (stream_of side self.new).order;
          held = (stream_of side self.new).held;
          is_searching = (stream_of side self.new).is_searching;
        }) self.old }
    {
        if !self.of(side).stream.is_searching() {
            return Ok(None);
        }
        let found = match side {
            Side::Client => self.client.stream.search(is_end)?,
            Side::Centre => self.centre.stream.search(is_end)?,
        };
        Ok(found)
    }

    /// Gives up the gap before what waits in a direction, behind which a PDU has to be looked for. What is missing.
    pub(crate) fn skip_gap(&mut self, side: Side) -> Option<Missing>
        ensures ends { (s : History) (written : List Row) → FlowsIn s written side self.old
            → IfSome result (λ missing. (moment : ℕ) × FlowsIn (with_gap missing.until moment s) written side self.new) }
        ensures from { IfSome result (λ missing. (missing.from ≡ (stream_of side self.old).order.next)
            × (missing.until ≡ (stream_of side self.new).order.next)) }
        ensures searches { IfSome result (λ missing. self.new ≡ with_stream side (record (stream_of side self.old) {
          order = record (stream_of side self.new).order { waiting = (stream_of side self.old).order.waiting };
          is_searching = true;
          is_behind_gap = true;
        }) self.old) }
        ensures waits { result ≡ None → (stream_of side self.old).held.octets ≡ []
            → (stream_of side self.old).order.waiting ≡ [] }
        ensures none { result ≡ None → self.new ≡ self.old }
    {
        let missing = match side {
            Side::Client => self.client.stream.skip_gap()?,
            Side::Centre => self.centre.stream.skip_gap()?,
        };
        Some(missing)
    }

    /// Makes rows of what follows in a direction.
    pub(crate) fn put_all(&mut self, alloc: Global, side: Side) -> Result<(), AllocError>
        ensures puts { (s : History) (written : List Row) → FlowsIn s written side self.old
            → OnOk result ((more : List Octet) × FlowsIn (with_put more s) written side self.new) }
        ensures all { OnOk result (IsThrough (direction_of side self.new).stream) }
        ensures same { OnlyPuts (direction_of side self.old) (direction_of side self.new) }
        ensures other { OtherStays side self.old self.new }
    {
        let _ = match side {
            Side::Client => put_all(&mut self.client, &mut self.rows, alloc, side)?,
            Side::Centre => put_all(&mut self.centre, &mut self.rows, alloc, side)?,
        };
        Ok(())
    }

    /// Tells the octets of a direction their sessions, in order, up to a place of it or all; whether some of them are of a session.
    pub(crate) fn settle(
        &mut self,
        side: Side,
        until: Option<u64>,
        session: u64,
    ) -> Result<bool, AllocError>
        ensures flows { Stays self.old self.new }
        ensures settles { AllSettle side (direction_of side self.old) self.old.rows self.new.rows }
        ensures goes { Goes (direction_of side self.old) (direction_of side self.new) }
        ensures dealt { OnOk result
            (AllDealt side (direction_of side self.old) (direction_of side self.new) self.old.rows self.new.rows) }
        ensures all { until ≡ None → OnOk result (AreSettledTo until side self.old.rows self.new.rows) }
        ensures below { AreInOrder side self.old.rows → OnOk result (AreSettledTo until side self.old.rows self.new.rows) }
        ensures before { (place : ℕ) → until ≡ Some place → AllZip (SettlesBefore place) self.old.rows self.new.rows }
        ensures answer { IfOk result (λ is_there. IsTrue is_there ↔ SomeEndsIn session self.old.rows self.new.rows) }
        ensures rest { self.new
            ≡ record (with_direction side (direction_of side self.new) self.old) { rows = self.new.rows } }
    {
        match side {
            Side::Client => self.rows.settle(side, until, &mut self.client, session),
            Side::Centre => self.rows.settle(side, until, &mut self.centre, session),
        }
    }

    /// Takes the first row, where the session of each of its octets is known.
    pub(crate) fn take_row(&mut self) -> Option<Waiting>
        ensures some { IfSome result (λ row. IsSettled row × (self.old.rows ≡ row ∷ self.new.rows)) }
        ensures same { self.new ≡ record self.old { rows = self.new.rows } }
        ensures none { result ≡ None → self.new ≡ self.old }
        ensures waits { result ≡ None → IfSome (slice_get self.old.rows 0) (λ row. IsSettled row → ⊥) }
    {
        self.rows.take()
    }
}

/// Takes the octets of a segment of a direction into its rows.
fn take_in<'a>(
    direction: &mut Direction,
    rows: &mut Rows,
    alloc: Global,
    side: Side,
    is_free: bool,
    sequence: u32,
    octets: &'a [u8],
    packet: Packet,
) -> Result<Came<'a>, AllocError>
    ensures comes { (s : History) (written : List Row) (f : ℕ) (place : Place) → Flows s written side direction.old rows.old
        → direction.old.stream.first ≡ Some f → IsPlace f direction.old.stream.order.next sequence place
        → 0 < length octets.now → IfOk result (λ came. Comes
        (IsTooFarAhead direction.old.stream.order.next (piece_of place direction.old.stream.order.next packet octets.now)) s
        (with_piece (piece_of place direction.old.stream.order.next packet octets.now) s) written side came
        direction.new rows.new) }
    ensures free { IfOk result (λ came. IsFree (is_free ≡ true) came direction.old rows.old) }
    ensures puts { IfOk result (λ came. Puts side rows.old rows.new) }
    ensures same { IfOk result (λ came. OnlyFrames came direction.old direction.new) }
{
    let is_early = packet.moment < direction.moment;
    let place = direction.stream.next();
    // (mostly a segment is the next, and nothing waits)
    if let Some(next) = direction
        .stream
        .takes_next(alloc, sequence, octets, packet)?
    {
        direction.note_early(packet.number, is_early);
        let came = put_lent(direction, rows, alloc, side, is_free, place, next)?;
        return Ok(came);
    }
    if !direction.stream.add(alloc, sequence, octets, packet)? {
        return Ok(Came::Outside);
    }
    let has_put = put_all(direction, rows, alloc, side)?;
    direction.note_early(packet.number, has_put && is_early);
    Ok(Came::Taken)
}

/// Makes a row of octets at a place that a direction's stream has lent, or hands them on where they may be written at once.
fn put_lent<'a>(
    direction: &mut Direction,
    rows: &mut Rows,
    alloc: Global,
    side: Side,
    is_free: bool,
    place: u64,
    next: Next<'a>,
) -> Result<Came<'a>, AllocError>
    ensures comes { (s : History) (written : List Row)
        → timed_of side (written ++ rows.old) ≡ raised 0 (all_put s) → direction.old.moment ≡ last_raised 0 (all_put s)
        → Tells (with_put (octets_of next.entry.packet next.entry.begins next.entry.octets.now) s) direction.old.stream
        → 0 < length next.entry.octets.now → IfOk result (λ came. Comes ⊥ s s written side came direction.new rows.new) }
    ensures free { IfOk result (λ came. IsFree (is_free ≡ true) came direction.old rows.old) }
    ensures same { IfOk result (λ came. OnlyFrames came direction.old direction.new) }
    ensures puts { Puts side rows.old rows.new }
{
    let moment = direction.raise_moment(next.packet.moment);
    if is_free && direction.following.is_none() && rows.is_empty() {
        direction.framer.feed(next.octets);
        return Ok(Came::AtOnce(AtOnce {
            session: direction.session,
            moment,
            octets: next.octets,
        }));
    }
    let octets = Vec::from_slice(alloc, next.octets)?;
    rows.put(side, place, next.packet.number, moment, octets)?;
    let _ = put_all(direction, rows, alloc, side)?;
    Ok(Came::Taken)
}

/// Makes rows of all that follows in a direction; whether there was any.
fn put_all(
    direction: &mut Direction,
    rows: &mut Rows,
    alloc: Global,
    side: Side,
) -> Result<bool, AllocError>
    ensures flows { (s : History) (written : List Row) → Flows s written side direction.old rows.old
        → OnOk result ((more : List Octet) × Flows (with_put more s) written side direction.new rows.new) }
    ensures all { OnOk result (IsThrough direction.new.stream) }
    ensures same { OnlyPuts direction.old direction.new }
    ensures puts { Puts side rows.old rows.new }
{
    let mut has_put = false;
    'parts: while put_next(direction, rows, alloc, side)? {
        has_put = true;
    }
    Ok(has_put)
}

/// Makes a row of the octets that follow in a direction, as one packet brought them; whether there were any.
fn put_next(
    direction: &mut Direction,
    rows: &mut Rows,
    alloc: Global,
    side: Side,
) -> Result<bool, AllocError>
    ensures flows { (s : History) (written : List Row) → Flows s written side direction.old rows.old
        → OnOk result ((more : List Octet) × Flows (with_put more s) written side direction.new rows.new) }
    ensures all { result ≡ Ok false → IsThrough direction.new.stream }
    ensures same { OnlyPuts direction.old direction.new }
    ensures fewer { result ≡ Ok true → left_in direction.new.stream < left_in direction.old.stream }
    ensures puts { Puts side rows.old rows.new }
{
    let Some(given) = direction.stream.next_part(alloc)? else {
        return Ok(false);
    };
    let moment = direction.raise_moment(given.moment);
    rows.put(side, given.place, given.number, moment, given.octets)?;
    Ok(true)
}
