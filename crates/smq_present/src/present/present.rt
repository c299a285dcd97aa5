//! The sessions by their numbers, as they come and go, and what is set; and the plain change that each edit is. A refusal changes
//! nothing.
ghost use Rattle.std.specs.Prelude.{◌≡◌, ℕ, option_copied, MatchResult};
ghost use Rattle.std.specs.FinMap as map;
ghost use Rattle.std.specs.Map.Iter.{ShowsInOrder, deref_pair};
ghost use Rattle.smq_present.specs.present.Present.{empty, session_of, tail_in, octets_in};
ghost use Rattle.smq_present.specs.present.Replies.{reply, append_refusals, no_session};
ghost use Rattle.smq_present.specs.present.Steps.{change, session_after};
ghost use Rattle.smq_kit.specs.Replies.{IsReply, IsReplyInPlace, first_of};
ghost use Rattle.smq_route.specs.Versions.{AreApart};
ghost use Rattle.smq_present.specs.within.InOrder.{sessions_in};
ghost use Rattle.smq_frame.specs.Stream.{values};
ghost use Rattle.smq_frame.specs.Tail.{tail_of};

use crate::present::settings::Settings;
use crate::{Batch, Edit, Forms, Session};
use smq_kit::{Digits, LinkId, Moment, Network, Refusal, RouteId, SessionId, Window};
use smq_route::{Version, VersionKey};
use smq_shelf::Entries;
use std::alloc::Global;
use std::collections::BTreeMap;
use std::collections::btree_map::Iter;
use std::marker::Model;

/// What is present: the sessions, by their numbers, and what is set.
#[derive(Drop)]
pub struct Present {
    sessions: BTreeMap<u64, Session>,
    /// What is set, which an edit of a part of it changes alone.
    pub settings: Settings,
}

impl Model for Present {
    ghost use Rattle.smq_present.specs.present.Present.{PresentValue, present_code};
    ghost use Rattle.smq_present.specs.within.InOrder.{sessions_in};

    ghost Value = { PresentValue };

    ghost coded = { present_code };

    ghost view = { λ p. record { sessions = sessions_in p.sessions; settings = p.settings } };
}

impl Present {
    /// Nothing is present, and nothing is set.
    pub fn new(alloc: Global) -> Present
        ensures { result ≡ empty }
    {
        Present {
            sessions: BTreeMap::new(alloc),
            settings: Settings::new(alloc),
        }
    }

    /// The session of a number, where it is present.
    pub fn session(&self, number: SessionId) -> Option<&Session>
        ensures { option_copied result ≡ session_of self.now number.0 }
    {
        self.sessions.get(&number.0)
    }

    /// The sessions with their numbers, in the order of these.
    pub fn sessions(&self) -> Iter<'_, u64, Session>
        ensures entries { result ≡ map.entries self.now.sessions }
        ensures runs { ShowsInOrder (deref_pair {K = ℕ} {X = Session}) }
    {
        self.sessions.iter()
    }

    /// What is set.
    pub fn settings(&self) -> &Settings
        ensures { result.now ≡ self.now.settings }
    {
        &self.settings
    }

    /// The links whose forms were set, with their forms, in the order of the links' numbers.
    pub fn forms(&self) -> Iter<'_, u32, Forms>
        ensures entries { result ≡ map.entries self.now.settings.forms }
        ensures runs { ShowsInOrder (deref_pair {K = ℕ} {X = Forms}) }
    {
        self.settings.forms()
    }

    /// The links whose windows were set, with their windows, in the order of the links' numbers.
    pub fn windows(&self) -> Iter<'_, u32, Window>
        ensures entries { result ≡ map.entries self.now.settings.windows }
        ensures runs { ShowsInOrder (deref_pair {K = ℕ} {X = ℕ}) }
    {
        self.settings.windows()
    }

    /// The versions of routes, by the octets of their prefixes, then by their beginnings. Those of one prefix never
    /// overlap.
    pub fn versions(&self) -> Entries<'_, VersionKey, Version>
        ensures entries { result ≡ map.entries self.now.settings.versions }
        ensures apart { AreApart self.now.settings.versions }
    {
        self.settings.versions()
    }

    /// The clock, up to which what is present is known, in ms since 1970 in UTC; 0 until it is advanced.
    pub fn clock(&self) -> Moment
        ensures { result ≡ self.now.settings.clock }
    {
        self.settings.clock()
    }

    /// Puts a batch after its direction, in its session or in a new one.
    pub(crate) fn put_batch(&mut self, alloc: Global, batch: Batch) -> Result<(), Refusal>
        ensures { IsReply (reply self.old (Edit.Append batch)) result
            (self.new ≡ change self.old (Edit.Append batch)) (self.new ≡ self.old) }
    {
        if let Some(refusal) = append_refusal(alloc, self.session(batch.session), &batch) {
            return Err(refusal);
        }
        self.put_batch_in_step(alloc, batch)
    }

    /// Puts a batch after the direction on whose tail it was prepared, in its session or in a new one.
    pub fn put_batch_in_step(&mut self, alloc: Global, batch: Batch) -> Result<(), Refusal>
        requires in_step { batch.tail ≡ tail_in self.old batch.session.0 batch.dir }
        ensures { IsReply (reply self.old (Edit.Append batch)) result
            (self.new ≡ change self.old (Edit.Append batch)) (self.new ≡ self.old) }
    {
        put_in_step(alloc, &mut self.sessions, batch)
    }

    /// Takes a session back, with both its directions. It takes no memory.
    pub fn take_session(&mut self, session: SessionId) -> Result<(), Refusal>
        ensures { IsReplyInPlace (reply self.old (Edit.Withdraw session)) result
            (self.new ≡ change self.old (Edit.Withdraw session)) (self.new ≡ self.old) }
    {
        remove_session(&mut self.sessions, session.0)
    }

    /// Sets the forms of a link's message ids.
    pub(crate) fn put_forms(&mut self, link: LinkId, forms: Forms) -> Result<(), Refusal>
        ensures { let edit = Edit.SetForm link forms.response forms.receipt in
            IsReply (reply self.old edit) result
            (self.new ≡ change self.old edit) (self.new ≡ self.old) }
    {
        self.settings.set_forms(link, forms)?;
        Ok(())
    }

    /// Sets how long a message of a link waits.
    pub(crate) fn put_window(&mut self, link: LinkId, window: Window) -> Result<(), Refusal>
        ensures { let edit = Edit.SetWindow link window in
            IsReply (reply self.old edit) result
            (self.new ≡ change self.old edit) (self.new ≡ self.old) }
    {
        self.settings.windows.set(link, window)?;
        Ok(())
    }

    /// Puts an open version of a route in.
    pub(crate) fn add_version(
        &mut self,
        prefix: Digits,
        from: Moment,
        route: RouteId,
        network: Network,
    ) -> Result<(), Refusal>
        ensures { let edit = Edit.AddRoute prefix from route network in
            IsReply (reply self.old edit) result
            (self.new ≡ change self.old edit) (self.new ≡ self.old) }
    {
        self.settings.routes.add(prefix, from, route, network)?;
        self.settings.routes.settle();
        Ok(())
    }

    /// Ends a version of a route.
    pub(crate) fn end_version(
        &mut self,
        prefix: &Digits,
        from: Moment,
        until: Moment,
    ) -> Result<(), Refusal>
        ensures { let edit = Edit.EndRoute prefix.now from until in
            IsReply (reply self.old edit) result
            (self.new ≡ change self.old edit) (self.new ≡ self.old) }
    {
        self.settings.routes.end(prefix, from, until)?;
        self.settings.routes.settle();
        Ok(())
    }

    /// Gives a version of a route another route and network.
    pub(crate) fn correct_version(
        &mut self,
        prefix: &Digits,
        from: Moment,
        route: RouteId,
        network: Network,
    ) -> Result<(), Refusal>
        ensures { let edit = Edit.CorrectRoute prefix.now from route network in
            IsReply (reply self.old edit) result
            (self.new ≡ change self.old edit) (self.new ≡ self.old) }
    {
        self.settings.routes.correct(prefix, from, route, network)?;
        self.settings.routes.settle();
        Ok(())
    }

    /// Sets the clock. It takes no memory.
    pub fn set_clock(&mut self, clock: Moment) -> Result<(), Refusal>
        ensures { IsReplyInPlace (reply self.old (Edit.Advance clock)) result
            (self.new ≡ change self.old (Edit.Advance clock)) (self.new ≡ self.old) }
    {
        let before = self.settings.clock;
        if clock < before {
            return Err(Refusal::ClockBack { clock: before });
        }
        self.settings.clock = clock;
        Ok(())
    }
}

/// What refuses a batch after its session, or after none, if anything: lack of memory aside.
pub fn append_refusal(alloc: Global, session: Option<&Session>, batch: &Batch) -> Option<Refusal>
    ensures { result ≡ first_of (append_refusals (option_copied session.entry) batch.now) }
{
    match session {
        Some(session) => session.refusal(batch),
        None => Session::new(alloc, batch.link).refusal(batch),
    }
}

/// Puts a batch after the direction on whose tail it was prepared, in its session or in a new one. A refusal changes nothing.
fn put_in_step(
    alloc: Global,
    sessions: &mut BTreeMap<u64, Session>,
    batch: Batch,
) -> Result<(), Refusal>
    requires in_step { batch.tail ≡ tail_of (values
        (octets_in batch.dir (map.get (sessions_in sessions.old) batch.session.0))) }
    ensures { let session = map.get (sessions_in sessions.old) batch.session.0 in
        IsReply (first_of (append_refusals session batch)) result
        (sessions_in sessions.new
        ≡ map.insert (sessions_in sessions.old) batch.session.0 (session_after session batch))
        (sessions_in sessions.new ≡ sessions_in sessions.old) }
{
    let number = batch.session.0;
    match sessions.get_mut(&number) {
        Some(session) => session.append_in_step(batch),
        None => {
            let mut session = Session::new(alloc, batch.link);
            match session.append_in_step(batch) {
                Ok(()) => insert_session(sessions, number, session),
                Err(refusal) => Err(refusal),
            }
        }
    }
}

/// Puts a new session in. An error changes nothing.
fn insert_session(
    sessions: &mut BTreeMap<u64, Session>,
    number: u64,
    session: Session,
) -> Result<(), Refusal>
    ensures { MatchResult result
        (λ _. sessions_in sessions.new ≡ map.insert (sessions_in sessions.old) number session)
        (λ e. (e ≡ Refusal.Memory) × (sessions_in sessions.new ≡ sessions_in sessions.old)) }
{
    match sessions.insert(number, session) {
        Ok(_) => Ok(()),
        Err(_) => Err(Refusal::Memory),
    }
}

/// Takes a session out, which takes no memory. A refusal changes nothing.
fn remove_session(sessions: &mut BTreeMap<u64, Session>, number: u64) -> Result<(), Refusal>
    ensures { IsReplyInPlace (no_session (map.get (sessions_in sessions.old) number)) result
        (sessions_in sessions.new ≡ map.remove (sessions_in sessions.old) number)
        (sessions_in sessions.new ≡ sessions_in sessions.old) }
{
    match sessions.remove(&number) {
        Some(_) => Ok(()),
        None => Err(Refusal::NoSession),
    }
}
