//! What isn't settled at a moment.
ghost use Rattle.std.specs.BTreeSet.{contains};
ghost use Rattle.std.specs.List.{flat_map};
ghost use Rattle.std.specs.Prelude.{◌≡◌, max, IfOk, OnOk, Some, option_to_list, slice_get, take};
ghost use Rattle.smq_kit.specs.LinkKeys.{kept_key_cmp};
ghost use Rattle.smq_present.specs.within.Sides.{IsPaired};
ghost use Rattle.smq_present.specs.within.Sourced.{sourced_of};
ghost use Rattle.smq_scratch.specs.Lines.{message_lines, receipt_lines as all_receipts};
ghost use Rattle.smq_deal.specs.Open as spec;
ghost use Rattle.smq_deal.specs.Open.{Gains, is_open, last_known, open_message, open_receipt, settled_by};
ghost use Rattle.smq_deal.specs.Open.{unanswered, unanswered_among, unanswered_in};

use crate::keys::{key_of, partner_at};
use crate::rule::Rule;
use smq_kit::{Dir, LinkId, LinkKey, Moment};
use smq_pdu::{is_request, is_response};
use smq_present::{
    MessageLine, Outcome, Present, ReceiptLine, ReceiptStanding, SessionForms, SessionView,
    Settings, Side, StoredPdu, sessions_with_forms, sides_of,
};
use smq_scratch::{MessageLines, receipt_lines};
use std::alloc::{AllocError, Global};
use std::collections::BTreeSet;

/// The keys of which a message, a delivery receipt or a response may come yet, at the last moment that is known.
#[derive(Drop)]
pub struct Open {
    moment: Moment,
    keys: BTreeSet<LinkKey>,
}

impl Open {
    /// Those of what is present. A key is open while one of these is within its link's window: a message that is open, unasked or
    /// ambiguous; a receipt that is stray; one that has no response.
    pub fn of(alloc: Global, present: &Present) -> Result<Open, AllocError>
        ensures moment { IfOk result (λ made. made.moment ≡ last_known present.now) }
        ensures keys { IfOk result (λ made. (key : LinkKey) → contains kept_key_cmp made.keys key ≡ is_open present.now key) }
    {
        let mut open = Open {
            moment: last_moment(present),
            keys: BTreeSet::new(alloc),
        };
        open.add_messages(alloc, present)?;
        open.add_receipts(alloc, present)?;
        open.add_unanswered(alloc, present)?;
        Ok(open)
    }

    /// The last moment that is known: the clock, or the last moment of a session.
    pub fn moment(&self) -> Moment
        ensures { result ≡ self.now.moment }
    {
        self.moment
    }

    /// Whether a moment of a link is within its window.
    fn awaits(&self, settings: &Settings, link: LinkId, moment: Moment) -> bool
        ensures { result ≡ spec.awaits settings.now self.now.moment link moment }
    {
        let window = settings.window_of(link).milliseconds();
        moment.milliseconds().saturating_add(window) > self.moment.milliseconds()
    }

    /// Adds a key, where there is one.
    fn add(&mut self, key: Option<LinkKey>) -> Result<(), AllocError>
        ensures moment { self.new.moment ≡ self.old.moment }
        ensures keys { OnOk result (Gains self.old.keys self.new.keys (option_to_list key)) }
    {
        if let Some(key) = key {
            self.keys.insert(key)?;
        }
        Ok(())
    }

    /// The key of a message, where its receipt may come.
    fn message_key(&self, settings: &Settings, line: &MessageLine<'_>) -> Option<LinkKey>
        ensures { option_to_list result ≡ spec.open_message settings.now self.now.moment line.now }
    {
        let link = line.fact.link;
        if may_get_receipt(line.fact.outcome) && self.awaits(settings, link, line.moment) {
            let key = line.key()?;
            return Some(LinkKey { link, key });
        }
        None
    }

    /// The key of a receipt, where its message may come.
    fn receipt_key(&self, settings: &Settings, line: &ReceiptLine<'_>) -> Option<LinkKey>
        ensures { option_to_list result ≡ spec.open_receipt settings.now self.now.moment line.now }
    {
        let link = line.link;
        if may_get_message(line.standing) && self.awaits(settings, link, line.moment) {
            let key = line.key();
            return Some(LinkKey { link, key });
        }
        None
    }

    /// The key of the PDU at an index of a centre, where it is a receipt whose response may come.
    fn unanswered_key(
        &self,
        settings: &Settings,
        source: SessionForms,
        side: &Side<'_>,
        index: usize,
        pdu: &StoredPdu,
    ) -> Option<LinkKey>
        requires side { IsPaired side.now }
        requires pdu { slice_get side.now.pdus.now index ≡ Some pdu.now }
        ensures { option_to_list result
            ≡ unanswered settings.now self.now.moment source side.now.other.now (take index side.now.pdus.now) pdu.now }
    {
        let partner = partner_at(side, index, pdu);
        if partner.is_none() && self.awaits(settings, source.link, pdu.moment) {
            return key_of(source, Dir::FromCentre, pdu, None);
        }
        None
    }

    /// Adds the keys of messages whose receipts may come.
    fn add_messages(&mut self, alloc: Global, present: &Present) -> Result<(), AllocError>
        ensures moment { self.new.moment ≡ self.old.moment }
        ensures keys { OnOk result (Gains self.old.keys self.new.keys
            (flat_map (open_message present.now.settings self.old.moment) (message_lines present.now))) }
    {
        let settings = present.settings();
        let lines = MessageLines::of(alloc, present)?;
        for line in lines {
            self.add(self.message_key(settings, &line))?;
        }
        Ok(())
    }

    /// Adds the keys of receipts whose messages may come.
    fn add_receipts(&mut self, alloc: Global, present: &Present) -> Result<(), AllocError>
        ensures moment { self.new.moment ≡ self.old.moment }
        ensures keys { OnOk result (Gains self.old.keys self.new.keys
            (flat_map (open_receipt present.now.settings self.old.moment) (all_receipts present.now))) }
    {
        let settings = present.settings();
        let lines = receipt_lines(alloc, present)?;
        for line in lines.as_slice() {
            self.add(self.receipt_key(settings, line))?;
        }
        Ok(())
    }

    /// Adds the keys of receipts without a response.
    fn add_unanswered(&mut self, alloc: Global, present: &Present) -> Result<(), AllocError>
        ensures moment { self.new.moment ≡ self.old.moment }
        ensures keys { OnOk result (Gains self.old.keys self.new.keys
            (flat_map (unanswered_in present.now.settings self.old.moment) (sourced_of present.now))) }
    {
        let settings = present.settings();
        let sessions = sessions_with_forms(alloc, present)?;
        for view in sessions.as_slice() {
            self.add_session(alloc, settings, view)?;
        }
        Ok(())
    }

    /// Adds those of a session.
    fn add_session(
        &mut self,
        alloc: Global,
        settings: &Settings,
        view: &SessionView<'_>,
    ) -> Result<(), AllocError>
        ensures moment { self.new.moment ≡ self.old.moment }
        ensures keys { OnOk result (Gains self.old.keys self.new.keys
            (unanswered_in settings.now self.old.moment view.now)) }
    {
        let (_, centre) = sides_of(alloc, view.source.session, view.session)?;
        self.add_side(settings, view.source, &centre)
    }

    /// Adds those of the side of a centre.
    fn add_side(
        &mut self,
        settings: &Settings,
        source: SessionForms,
        side: &Side<'_>,
    ) -> Result<(), AllocError>
        requires { IsPaired side.now }
        ensures moment { self.new.moment ≡ self.old.moment }
        ensures keys { OnOk result (Gains self.old.keys self.new.keys
            (unanswered_among settings.now self.old.moment source side.now.other.now side.now.pdus.now)) }
    {
        let pdus = side.pdus;
        for index in 0..pdus.len() {
            self.add(self.unanswered_key(settings, source, side, index, &pdus[index]))?;
        }
        Ok(())
    }
}

/// Whether a message may come for a delivery receipt that stands so.
fn may_get_message(standing: ReceiptStanding) -> bool
    ensures { result ≡ spec.may_get_message standing }
{
    matches!(standing, ReceiptStanding::Stray)
}

/// Whether a message of this outcome may get a receipt that counts.
fn may_get_receipt(outcome: Outcome) -> bool
    ensures { result ≡ spec.may_get_receipt outcome }
{
    matches!(
        outcome,
        Outcome::Open | Outcome::Unasked | Outcome::Ambiguous
    )
}

/// The last moment that is known: the clock, or the last moment of a session.
fn last_moment(present: &Present) -> Moment
    ensures { result ≡ last_known present.now }
{
    let mut last = present.clock();
    for (_, session) in present.sessions() {
        last = later(last, later(session.client.last(), session.centre.last()));
    }
    last
}

/// The later of two moments.
fn later(one: Moment, other: Moment) -> Moment
    ensures { result ≡ max one other }
{
    if one.milliseconds() < other.milliseconds() {
        other
    } else {
        one
    }
}

/// What is settled goes to the first part, and the rest to the second.
#[derive(Clone, Copy)]
pub(crate) struct BySettled<'a> {
    pub settings: &'a Settings,
    pub open: &'a Open,
}

impl Rule for BySettled<'_> {
    ghost rule = { λ r. settled_by r.settings.now r.open.now.moment (contains kept_key_cmp r.open.now.keys) };

    fn keyed(&self, key: &LinkKey) -> u32 {
        u32::from(self.open.keys.contains(key))
    }

    fn paired(&self, _seq: u32) -> u32 {
        0
    }

    fn lone(&self, source: SessionForms, pdu: &StoredPdu) -> u32 {
        let awaits_other = is_request(pdu.command) || is_response(pdu.command);
        u32::from(awaits_other && self.open.awaits(self.settings, source.link, pdu.moment))
    }
}
