//! A window of the last periods: its connections, whose PDUs are dealt to a session for each period, and the sessions that were made.
ghost use Rattle.std.specs.Prelude.{◌≡◌, ◌⊎◌, ◌++◌, ◌≤◌, ◌<◌, ◌∷◌, ◌&&◌, if◌then◌else◌, not, ℕ, [], List, IfOk, IfNone, IfSome, MatchResult, None, OnOk, Some, map};
ghost use Rattle.smq_window.specs.Belief as beliefs;
ghost use Rattle.smq_window.specs.Connection.{ConnectionValue, connection_after, rows_of_piece};
ghost use Rattle.smq_window.specs.Window.{WindowValue, connection_of, left_of, rows_of_left, known_passed, known_without, made_passed, made_with, new_window, piece_refusal, rows_after, rows_at, rows_of_session, rows_passed, rows_without, withdraw_row, window_after, window_at, window_without, with_known};
ghost use Rattle.smq_window.specs.within.Shown.{Shows};
ghost use Rattle.smq_window.specs.within.Standing.{AllShown, IsFrom, IsWindow, Known, MayShow};
ghost use Rattle.smq_window.specs.within.Kept.{numbers};

use crate::belief::{Belief, later};
use crate::connection::{Connection, Origin, has_period};
use crate::length::Length;
use crate::made::Made;
use crate::periods::{Period, Span};
use crate::row::Row;
use crate::session::Session;
use bytes::Bytes;
use smq_kit::{Moment, Refusal};
use std::alloc::{AllocError, Global};
use std::collections::{BTreeMap, VecDeque};

/// A window. After a lack of memory nothing is promised of it.
#[derive(Drop)]
pub struct Window {
    pub(crate) length: Length,
    pub(crate) belief: Belief,
    pub(crate) connections: BTreeMap<u64, Connection>,
    pub(crate) made: VecDeque<Made>,
}

/// The rows that come of one, and whether its moment was doubted.
#[derive(Drop)]
pub struct Taken {
    pub rows: Vec<Row>,
    pub is_doubted: bool,
}

impl Window {
    /// A window of a length before its first row.
    pub fn new(alloc: Global, length: Length) -> Window
        ensures { IsWindow length new_window result }
    {
        Window {
            length,
            belief: Belief::new(),
            connections: BTreeMap::new(alloc),
            made: VecDeque::new(alloc),
        }
    }

    /// Takes a piece. A refusal but lack of memory changes nothing.
    pub fn take_piece(
        &mut self,
        alloc: Global,
        at: &Origin,
        octets: &Bytes,
    ) -> Result<Taken, Refusal>
        ensures { (l : ℕ × ℕ) (w : WindowValue) → IsWindow l w self.old → MatchResult result
            (λ taken. (piece_refusal at.now octets.now w ≡ None)
            × (taken.rows.items ≡ rows_after l at.now octets.now w)
            × (taken.is_doubted ≡ beliefs.is_doubted w.belief at.now.moment)
            × IsWindow l (window_after l at.now octets.now w) self.new)
            (λ refusal. ((piece_refusal at.now octets.now w ≡ Some refusal) × IsWindow l w self.new)
            ⊎ ((piece_refusal at.now octets.now w ≡ None) × (refusal ≡ Refusal.Memory))) }
    {
        if let Some(refusal) = self.refusal(alloc, at, octets) {
            return Err(refusal);
        }
        match self.take_unrefused(alloc, at, octets) {
            Ok(taken) => Ok(taken),
            Err(_) => Err(Refusal::Memory),
        }
    }

    /// Takes a moment of the clock.
    pub fn pass_clock(&mut self, alloc: Global, moment: Moment) -> Result<Taken, AllocError>
        ensures { IfOk result (λ taken. (l : ℕ × ℕ) (w : WindowValue) → IsWindow l w self.old
            → (taken.rows.items ≡ rows_at l moment w)
            × (taken.is_doubted ≡ beliefs.is_doubted w.belief moment)
            × IsWindow l (window_at l moment w) self.new) }
    {
        let is_doubted = self.belief.take(moment);
        let span = self.length.span(&self.belief);
        let mut rows = Vec::new(alloc);
        pass(
            &mut self.connections,
            &mut self.made,
            span.oldest,
            &mut rows,
        )?;
        Ok(Taken { rows, is_doubted })
    }

    /// Takes back a session with all that was made of it. A refusal but lack of memory changes nothing.
    pub fn withdraw(&mut self, alloc: Global, session: &Session) -> Result<Vec<Row>, Refusal>
        ensures { (l : ℕ × ℕ) (w : WindowValue) → IsWindow l w self.old → MatchResult result
            (λ rows. (w.known session.now ≡ None → ⊥)
            × (rows.items ≡ rows_of_session session.now (w.known session.now))
            × IsWindow l (window_without session.now w) self.new)
            (λ refusal. ((w.known session.now ≡ None) × (refusal ≡ Refusal.NoSession) × IsWindow l w self.new)
            ⊎ (refusal ≡ Refusal.Memory)) }
    {
        match self.connections.remove(&session.number()) {
            Some(connection) => match rows_back(alloc, session, connection.periods.as_slice()) {
                Ok(rows) => Ok(rows),
                Err(_) => Err(Refusal::Memory),
            },
            None => Err(Refusal::NoSession),
        }
    }

    /// What refuses a piece, if anything: lack of memory aside.
    fn refusal(&self, alloc: Global, at: &Origin, octets: &Bytes) -> Option<Refusal>
        ensures { (l : ℕ × ℕ) (w : WindowValue) → IsWindow l w self.now
            → result ≡ piece_refusal at.now octets.now w }
    {
        match self.connections.get(&at.session.number()) {
            Some(connection) => connection.refusal(at, octets),
            None => Connection::new(alloc, at.link).refusal(at, octets),
        }
    }

    /// Takes a piece that nothing refuses.
    fn take_unrefused(
        &mut self,
        alloc: Global,
        at: &Origin,
        octets: &Bytes,
    ) -> Result<Taken, AllocError>
        ensures { IfOk result (λ taken. (l : ℕ × ℕ) (w : WindowValue) → IsWindow l w self.old
            → (taken.rows.items ≡ rows_after l at.now octets.now w)
            × (taken.is_doubted ≡ beliefs.is_doubted w.belief at.now.moment)
            × IsWindow l (window_after l at.now octets.now w) self.new) }
    {
        let taken = self.pass_clock(alloc, at.moment)?;
        let is_doubted = taken.is_doubted;
        let mut rows = taken.rows;
        let span = self.length.span(&self.belief);
        let connection = take_out(alloc, &mut self.connections, at);
        let moment = moment_of(
            &self.belief,
            is_doubted,
            at.moment,
            connection.direction(at.sender).last,
        );
        let at = Origin {
            link: at.link,
            session: at.session,
            sender: at.sender,
            moment,
        };
        put_piece(
            alloc,
            &mut self.connections,
            &mut self.made,
            connection,
            &at,
            span,
            octets,
            &mut rows,
        )?;
        Ok(Taken { rows, is_doubted })
    }
}

/// Takes back the sessions that are older than the oldest period, and puts a row for each behind others.
fn pass(
    connections: &mut BTreeMap<u64, Connection>,
    made: &mut VecDeque<Made>,
    oldest: u64,
    rows: &mut Vec<Row>,
) -> Result<(), AllocError>
    ensures { OnOk result ((known : Known) (present : ℕ) → AllShown known oldest present connections.old
        → AllShown (known_passed oldest made.old.items known) oldest present connections.new
        × (rows.new.items ≡ rows.old.items ++ rows_passed oldest made.old.items known)
        × (made.new.items ≡ made_passed oldest made.old.items)) }
{
    while let Some(first) = pop_older(made, oldest) {
        withdraw_one(connections, &first, oldest, rows)?;
    }
    Ok(())
}

/// Takes out the first session that was made, where it is older than a period.
fn pop_older(made: &mut VecDeque<Made>, oldest: u64) -> Option<Made>
    ensures some { IfSome result (λ m. (m.period < oldest) × (made.old.items ≡ m ∷ made.new.items)) }
    ensures none { IfNone result (IsFrom oldest made.old.items × (made.new.items ≡ made.old.items)) }
{
    let first = made.front()?;
    if first.period >= oldest {
        return None;
    }
    made.pop_front()
}

/// Takes back a session that was made, if it is there, and puts a row for it behind others.
fn withdraw_one(
    connections: &mut BTreeMap<u64, Connection>,
    made: &Made,
    oldest: u64,
    rows: &mut Vec<Row>,
) -> Result<(), AllocError>
    requires { made.now.period < oldest }
    ensures { OnOk result ((known : Known) (present : ℕ) → AllShown known oldest present connections.old
        → AllShown (known_without made.now known) oldest present connections.new
        × (rows.new.items ≡ rows.old.items ++ rows_without made.now known)) }
{
    let number = made.session.number();
    let Some(connection) = connections.remove(&number) else {
        return Ok(());
    };
    match left_behind(connection, made, rows)? {
        Some(connection) => {
            connections.insert(number, connection)?;
            Ok(())
        }
        None => Ok(()),
    }
}

/// What is left of a connection without a session that was made of it, if anything. A row for that is put behind others, if it was there.
fn left_behind(
    connection: Connection,
    made: &Made,
    rows: &mut Vec<Row>,
) -> Result<Option<Connection>, AllocError>
    ensures { IfOk result (λ left. (c : ConnectionValue) (oldest present : ℕ) → made.now.period < oldest
        → Shows c oldest present connection
        → MayShow (left_of made.now.period (Some c)) oldest present left
        × (rows.new.items ≡ rows.old.items ++ rows_of_left made.now (Some c))) }
{
    let mut connection = connection;
    if !connection.forget(made.period) {
        return Ok(Some(connection));
    }
    rows.push(Row::Withdraw(made.session.of_period(made.period)))?;
    if connection.is_over() {
        return Ok(None);
    }
    Ok(Some(connection))
}

/// Takes out the connection of a piece, which may be new.
fn take_out(alloc: Global, connections: &mut BTreeMap<u64, Connection>, at: &Origin) -> Connection
    ensures { (known : Known) (oldest present : ℕ) → oldest ≤ present → AllShown known oldest present connections.old
        → Shows (connection_of at.now known) oldest present result
        × AllShown (with_known known at.now.session None) oldest present connections.new }
{
    match connections.remove(&at.session.number()) {
        Some(connection) => connection,
        None => Connection::new(alloc, at.link),
    }
}

/// Takes a piece into a connection, and puts that in.
fn put_piece(
    alloc: Global,
    connections: &mut BTreeMap<u64, Connection>,
    made: &mut VecDeque<Made>,
    connection: Connection,
    at: &Origin,
    span: Span,
    octets: &Bytes,
    rows: &mut Vec<Row>,
) -> Result<(), AllocError>
    ensures { OnOk result ((known : Known) (c : ConnectionValue) → Shows c span.oldest span.present connection
        → AllShown (with_known known at.now.session None) span.oldest span.present connections.old
        → let d = connection_after at.now span.oldest span.present octets.now c in
        AllShown (with_known known at.now.session (Some d)) span.oldest span.present connections.new
        × (rows.new.items ≡ rows.old.items ++ rows_of_piece at.now span.oldest span.present octets.now c)
        × (made.new.items ≡ made_with made.old.items span.present at.now.session c.periods d.periods)) }
{
    let mut connection = connection;
    let had = has_period(connection.periods.as_slice(), span.present);
    // (Room was asked for before, and a connection that is new since has more.)
    if !connection.direction(at.sender).tail.has_room(octets.len()) {
        return Err(AllocError);
    }
    connection.take(alloc, at, span, octets, rows)?;
    let has = has_period(connection.periods.as_slice(), span.present);
    push_made(made, is_made(had, has), span.present, &at.session)?;
    connections.insert(at.session.number(), connection)?;
    Ok(())
}

/// Whether a session was made, where it was there before or not, and is there or not.
fn is_made(had: bool, has: bool) -> bool
    ensures { result ≡ (has && not had) }
{
    has && !had
}

/// Puts a session that was made behind others, if it is new.
fn push_made(
    made: &mut VecDeque<Made>,
    is_new: bool,
    period: u64,
    session: &Session,
) -> Result<(), AllocError>
    ensures { OnOk result (made.new.items ≡ (if is_new
        then made.old.items ++ record { period = period; session = session.now } ∷ []
        else made.old.items)) }
{
    if is_new {
        made.push_back(Made {
            period,
            session: *session,
        })?;
    }
    Ok(())
}

/// The moment with which a piece is taken.
fn moment_of(belief: &Belief, is_doubted: bool, moment: Moment, last: Moment) -> Moment
    ensures { result ≡ (if is_doubted then beliefs.later belief.now.newest last else moment) }
{
    if is_doubted {
        later(&belief.newest, last)
    } else {
        moment
    }
}

/// A row for each period, which takes its session back.
fn rows_back(alloc: Global, session: &Session, periods: &[Period]) -> Result<Vec<Row>, AllocError>
    ensures { IfOk result (λ rows. rows.items ≡ map (withdraw_row session.now) (numbers periods.now)) }
{
    let mut rows = Vec::with_capacity(alloc, periods.len())?;
    for period in periods {
        rows.push(Row::Withdraw(session.of_period(period.number)))?;
    }
    Ok(rows)
}
