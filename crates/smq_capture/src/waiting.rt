//! A row of a connection that waits until the session of each of its octets is known.
ghost use Rattle.std.specs.Prelude.{◌≡◌, ◌↔◌, ℕ, ◌+◌, ◌^◌, ◌<◌, ◌≤◌, ◌++◌, ◌∷◌, [], min, length, replicate, IsTrue, false, IfOk, OnOk, OnErr, MatchOption, Some, None};
ghost use Rattle.std.specs.List.{last_or};
ghost use Rattle.smq_capture.specs.Rows.{AreParts, EndsIn, IsSettled, IsSettledTo, MayDeal, Settles, SettlesBefore, weight_of};
ghost use Rattle.smq_capture.specs.Sessions.{Goes};
ghost use Rattle.smq_capture.specs.within.Runs.{AreRuns, sessions_of};

use crate::direction::Direction;
use crate::side::Side;
use std::alloc::AllocError;
use std::marker::Model;

/// What a row takes in memory besides its octets.
const ROW: u64 = 160;

/// So many octets that follow one another are of a session.
#[derive(Clone, Copy)]
pub(crate) struct Run {
    count: usize,
    session: u64,
}

/// Octets of a direction that were handed in at a moment, by a packet; how many of them are settled, and their sessions.
#[derive(Drop)]
pub(crate) struct Waiting {
    sender: Side,
    place: u64,
    number: u64,
    moment: u64,
    octets: Vec<u8>,
    settled: usize,
    runs: Vec<Run>,
}

impl Model for Waiting {
    ghost use Rattle.smq_capture.specs.Rows.{Row};
    ghost use Rattle.smq_capture.specs.within.Runs.{IsKept, sessions_of};

    ghost Value = { Row };

    ghost view = { λ w. record {
      sender = w.sender;
      place = w.place;
      number = w.number;
      moment = w.moment;
      octets = w.octets.items;
      sessions = sessions_of w.runs.items;
    } };

    ghost invariant = { λ w. IsKept w.octets.items w.settled w.runs.items };
}

impl Waiting {
    /// Octets of which none is settled.
    pub(crate) fn new(
        sender: Side,
        place: u64,
        number: u64,
        moment: u64,
        octets: Vec<u8>,
    ) -> Waiting
        ensures { result ≡ (record {
          sender = sender;
          place = place;
          number = number;
          moment = moment;
          octets = octets.items;
          sessions = [];
        }) }
    {
        let runs = Vec::new(*octets.allocator());
        Waiting {
            sender,
            place,
            number,
            moment,
            octets,
            settled: 0,
            runs,
        }
    }

    /// Who sent them.
    pub(crate) fn sender(&self) -> Side
        ensures { result ≡ self.now.sender }
    {
        self.sender
    }

    /// Whether an end sent them.
    pub(crate) fn is_of(&self, side: Side) -> bool
        ensures { IsTrue result ↔ (self.now.sender ≡ side) }
    {
        self.sender == side
    }

    /// The number of the packet that brought them.
    pub(crate) fn number(&self) -> u64
        ensures { result ≡ self.now.number }
    {
        self.number
    }

    /// Their moment.
    pub(crate) fn moment(&self) -> u64
        ensures { result ≡ self.now.moment }
    {
        self.moment
    }

    /// How much memory they take, at most.
    pub(crate) fn weight(&self) -> u64
        ensures { result ≡ weight_of self.now }
    {
        ROW + self.octets.len() as u64
    }

    /// Whether each of them is settled.
    pub(crate) fn is_settled(&self) -> bool
        ensures settled { IsTrue result → IsSettled self.now }
        ensures fewer { result ≡ false → length self.now.sessions < length self.now.octets }
    {
        self.settled >= self.octets.len()
    }

    /// Settles octets up to a place, or all; whether there were some, and the last of them is of a session.
    pub(crate) fn settle(
        &mut self,
        until: Option<u64>,
        direction: &mut Direction,
        session: u64,
    ) -> Result<bool, AllocError>
        ensures settles { Settles direction.old self.old self.new }
        ensures goes { Goes direction.old direction.new }
        ensures ok { OnOk result (IsSettledTo until self.old self.new) }
        ensures before { (place : ℕ) → until ≡ Some place → SettlesBefore place self.old self.new }
        ensures answer { IfOk result (λ is_there. IsTrue is_there ↔ EndsIn session self.old self.new) }
        ensures dealt { OnOk result (MayDeal direction.old direction.new self.old self.new) }
    {
        let limit = match until {
            None => self.octets.len(),
            Some(place) => shorter(place.saturating_sub(self.place), self.octets.len()),
        };
        let from = self.settled;
        if limit <= from {
            return Ok(false);
        }
        let place = self.place.saturating_add(from as u64);
        let settled = direction.settle(place, &self.octets[from..limit]);
        self.extend(settled.place, settled.before)?;
        self.extend(limit - from - settled.place, settled.after)?;
        Ok(self.ends_in(session))
    }

    /// Whether the last octet that is settled is of a session.
    fn ends_in(&self, session: u64) -> bool
        ensures { IsTrue result ↔ (last_or None self.now.sessions ≡ Some session) }
    {
        match self.runs.last() {
            Some(run) => run.session == session,
            None => false,
        }
    }

    /// Makes so many octets more be of a session.
    fn extend(&mut self, count: usize, session: u64) -> Result<(), AllocError>
        requires { length self.old.sessions + count ≤ length self.old.octets }
        ensures ok { OnOk result (self.new
            ≡ record self.old { sessions = self.old.sessions ++ replicate count session }) }
        ensures err { OnErr result (self.new ≡ self.old) }
    {
        if count > 0 {
            put_run(&mut self.runs, count, session)?;
            self.settled += count;
        }
        Ok(())
    }

    /// The octets that are settled, a part for each session.
    pub(crate) fn parts(&self) -> Parts<'_>
        ensures { AreParts self.now result }
    {
        Parts {
            octets: self.octets.as_slice(),
            runs: self.runs.as_slice(),
        }
    }
}

/// Puts so many octets of a session behind runs.
fn put_run(runs: &mut Vec<Run>, count: usize, session: u64) -> Result<(), AllocError>
    requires some { 0 < count }
    requires fits { length (sessions_of runs.old.items) + count < 2 ^ 64 }
    requires runs_are { AreRuns runs.old.items }
    ensures kept { AreRuns runs.new.items }
    ensures ok { OnOk result (sessions_of runs.new.items ≡ sessions_of runs.old.items ++ replicate count session) }
    ensures err { OnErr result (runs.new.items ≡ runs.old.items) }
{
    let length = runs.len();
    if length > 0 {
        let last = runs[length - 1];
        if last.session == session {
            runs[length - 1] = Run {
                count: last.count + count,
                session,
            };
            return Ok(());
        }
    }
    runs.push(Run { count, session })?;
    Ok(())
}

/// Octets of one session that follow one another.
#[derive(Clone, Copy)]
pub(crate) struct Part<'a> {
    pub session: u64,
    pub octets: &'a [u8],
}

/// The parts of a row.
#[derive(Drop)]
pub(crate) struct Parts<'a> {
    octets: &'a [u8],
    runs: &'a [Run],
}

impl<'a> Model for Parts<'a> {
    ghost use Rattle.std.specs.Prelude.{◌≤◌, List, length};
    ghost use Rattle.smq_capture.specs.Rows as rows;
    ghost use Rattle.smq_capture.specs.within.Runs.{parts_by, sessions_of};

    ghost Value = { List rows.Part };

    ghost view = { λ p. parts_by p.octets.now p.runs.now };

    ghost invariant = { λ p. length (sessions_of p.runs.now) ≤ length p.octets.now };
}

impl<'a> Parts<'a> {
    /// The next part.
    pub(crate) fn next(&mut self) -> Option<Part<'a>>
        ensures { MatchOption result (self.old ≡ []) (λ p. self.old
            ≡ (record { session = p.session; octets = p.octets.now }) ∷ self.new) }
    {
        let (run, runs) = self.runs.split_first()?;
        let (front, back) = self.octets.split_at_checked(run.count)?;
        self.runs = runs;
        self.octets = back;
        Some(Part {
            session: run.session,
            octets: front,
        })
    }
}

/// A length, or a number where that is less.
pub(crate) fn shorter(number: u64, length: usize) -> usize
    ensures { result ≡ min number length }
{
    if number < length as u64 {
        number as usize
    } else {
        length
    }
}
