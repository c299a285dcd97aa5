//! All that is stored of messages and delivery receipts: what they say, how they stand, and what is known of them.
//!
//! Each call that puts a message or a receipt in, or takes one out, sets the facts and the listings of the places alone
//! whose standings it changes. It stands in one file although it is long: its private functions are the parts of `recompute_at`.
ghost use Rattle.std.specs.Prelude.{◌≡◌, ◌<◌, ◌≤◌, ◌+◌, ◌-◌, ◌*◌, ◌^◌, [], ◌∷◌, true, false, Option, Some, None, length, option_map, IsTrue, OnOk};
ghost use Rattle.std.specs.Option.{option_copied};
ghost use Rattle.std.specs.FinMap as fin;
ghost use Rattle.smq_kit.specs.Maps.{set_at};
ghost use Rattle.smq_kit.specs.declared.place.Place.{Place as PlaceOf};
ghost use Rattle.smq_group.specs.Matching.{Grouping};
ghost use Rattle.smq_group.specs.Standings.{standing_at};
ghost use Rattle.smq_tally.specs.Lists.{listed};
ghost use Rattle.smq_tally.specs.declared.fact.Fact.{Fact as FactOf};
ghost use Rattle.smq_book.specs.index.Opening.{nothing_held};
ghost use Rattle.smq_book.specs.index.Recomputed.{Restates};
ghost use Rattle.smq_book.specs.index.Due.{is_due_fact};
ghost use Rattle.smq_book.specs.index.Stored.{is_told_shared};
ghost use Rattle.smq_book.specs.index.Anew.{CanFollow, IsAnew, IsDue, KeepsSaid, stored_in};
ghost use Rattle.smq_book.specs.index.Following.{AreTold, IsInNoOther, with_note};
ghost use Rattle.smq_book.specs.index.Held.{AreOf, decider_held, dues_in, ends_in, facts_anew, held_now, held_settled, list_by, list_held, noted, notes_anew, receipts_in, with_listing};
ghost use Rattle.smq_book.specs.index.Touches.{HasNothingPending, RisesWithFacts, index_cost, index_touches, kept_cost, pending_in, tally_cost, touches_in};
ghost use Rattle.smq_present.specs.join.Circumstances.{route_in};
ghost use Rattle.smq_present.specs.join.Facts.{facts_of};
ghost use Rattle.smq_present.specs.join.Keyed.{accepted_key};
ghost use Rattle.smq_present.specs.pairing.Traffic.{TrafficValue};
ghost use Rattle.smq_present.specs.present.Settings.{SettingsValue};

use crate::index::due_at::DueAt;
use crate::index::end_at::EndAt;
use crate::index::stored::{StoredMessage, StoredReceipt, received_in};
use crate::{Fact, List, Outcome};
use smq_group::{Change, Groups, Standing};
use smq_kit::{Dir, Moment, Network, Place, RouteId};
use smq_present::{Settings, Windows, fact_from_parts, restated};
use smq_route::{Numbers, Routes};
use smq_shelf::{Kept, KeptMap};
use smq_tally::Tally;
use std::alloc::{AllocError, Global};

/// All messages and delivery receipts that are present, with their standings, facts and notes. Where a call finds no memory,
/// all that wasn't settled is undone.
#[derive(Drop)]
pub(crate) struct Index {
    pub groups: Groups,
    pub messages: KeptMap<Place, StoredMessage>,
    pub receipts: KeptMap<Place, StoredReceipt>,
    pub tally: Tally,
    /// The messages whose receipts are due: the open and the lapsed ones, by link and moment.
    pub due: Kept<DueAt, ()>,
    /// The same messages, by the ends of their windows.
    pub ends: Kept<EndAt, ()>,
    /// The numbers of the messages.
    pub numbers: Numbers,
}

impl Index {
    /// An index of nothing.
    pub(crate) fn new(alloc: Global) -> Index
        ensures held { held_now result ≡ nothing_held }
        ensures settled { held_settled result ≡ nothing_held }
        ensures touches { index_touches result ≡ 0 }
        ensures pending { HasNothingPending result }
    {
        Index {
            groups: Groups::new(alloc),
            messages: KeptMap::new(alloc),
            receipts: KeptMap::new(alloc),
            tally: Tally::new(alloc),
            due: Kept::new(alloc),
            ends: Kept::new(alloc),
            numbers: Numbers::new(alloc),
        }
    }

    /// Brings back what it held when it was last settled, or made. It takes no memory.
    pub(crate) fn undo(&mut self)
        ensures held { held_now self.new ≡ held_settled self.old }
        ensures settled { held_settled self.new ≡ held_settled self.old }
        ensures pending { HasNothingPending self.new }
        ensures touches { index_cost self.new ≤ touches_in self.old + pending_in self.old }
    {
        self.groups.undo();
        self.messages.undo();
        self.receipts.undo();
        self.tally.undo();
        self.due.undo();
        self.ends.undo();
        self.numbers.undo();
    }

    /// Makes what it holds what `undo` brings back. It takes no memory.
    pub(crate) fn settle(&mut self)
        ensures held { held_now self.new ≡ held_now self.old }
        ensures settled { held_settled self.new ≡ held_now self.old }
        ensures pending { HasNothingPending self.new }
        ensures touches { index_cost self.new ≤ index_cost self.old }
        ensures rises { RisesWithFacts self.old self.new }
    {
        self.groups.settle();
        self.messages.settle();
        self.receipts.settle();
        self.tally.settle();
        self.due.settle();
        self.ends.settle();
        self.numbers.settle();
    }

    /// How often its shelves were touched, up to the greatest u64.
    pub(crate) fn touches(&self) -> u64
        ensures { result ≡ index_touches self.now }
    {
        let of_groups = self.groups.touches();
        let of_facts = self.tally.touches();
        of_groups
            .saturating_add(of_facts)
            .saturating_add(self.numbers.touches())
            .saturating_add(self.due.touches())
            .saturating_add(self.ends.touches())
    }

    /// Sets what is known of a place anew, by how it stands: of one of the client its fact, of one of the centre its listing.
    /// No list of receipts but its own notes the place that is new, where one is.
    pub(crate) fn recompute_at(
        &mut self,
        settings: &Settings,
        place: Place,
        standing: Option<Standing>,
        new: Option<Place>,
    ) -> Result<(), AllocError>
        ensures said { KeepsSaid self.old self.new }
        ensures anew { standing ≡ standing_at self.old.groups.members place
            → CanFollow settings.now new self.old
            → OnOk result (IsAnew settings.now new self.new
            (set_at self.old.tally.facts place
            (fin.get (facts_of settings.now (stored_in self.old)) place))
            (with_listing self.old.tally.notes place (list_held self.old.groups.members place))) }
        ensures due { IsDue settings.now.windows self.old
            → OnOk result (IsDue settings.now.windows self.new) }
        ensures touches { OnOk result (index_cost self.new ≤ index_cost self.old + 14) }
        ensures rises { OnOk result (RisesWithFacts self.old self.new) }
    {
        match place.dir {
            Dir::FromClient => {
                self.set_fact(settings, place, standing)?;
                Ok(())
            }
            Dir::FromCentre => {
                list_receipt(&mut self.tally, place, standing, new)?;
                Ok(())
            }
        }
    }

    /// Sets the fact of the message at a place anew by routes, windows and a clock, where all else that it rests on stays.
    pub(crate) fn restate_at(
        &mut self,
        routes: &Routes,
        windows: &Windows,
        clock: Moment,
        place: Place,
    ) -> Result<(), AllocError>
        ensures held { OnOk result
            (Restates routes.now.versions windows.now clock (place ∷ []) self.old self.new) }
        ensures settled { held_settled self.new ≡ held_settled self.old }
        ensures touches { OnOk result (index_cost self.new ≤ index_cost self.old + 14) }
        ensures rises { OnOk result (RisesWithFacts self.old self.new) }
    {
        let Some(message) = self.messages.get(&place) else {
            take_fact(&mut self.tally, place)?;
            return Ok(());
        };
        let said = message.message();
        let route = said.route(routes);
        let lapsed = said.has_lapsed(windows, clock);
        let there = self.tally.look_up(place);
        let Some(fact) = &there else {
            return Ok(());
        };
        let fact = restated(place, fact, route, lapsed);
        self.tally.replace(&there, fact)?;
        Ok(())
    }

    /// Sets the facts and the listings of the places that changes tell anew. No list of receipts but its own notes the place
    /// that is new, where one is.
    pub(crate) fn follow(
        &mut self,
        settings: &Settings,
        changes: &[Change],
        new: Option<Place>,
    ) -> Result<(), AllocError>
        ensures said { KeepsSaid self.old self.new }
        ensures anew { AreTold self.old.groups.members changes.now
            → CanFollow settings.now new self.old → OnOk result (IsAnew settings.now new self.new
            (facts_anew (fin.get (facts_of settings.now (stored_in self.old))) self.old.tally.facts
            changes.now)
            (notes_anew self.old.groups.members self.old.tally.notes changes.now)) }
        ensures due { IsDue settings.now.windows self.old
            → OnOk result (IsDue settings.now.windows self.new) }
        ensures touches { OnOk result (index_cost self.new ≤ index_cost self.old + 14 * length changes.now) }
        ensures rises { OnOk result (RisesWithFacts self.old self.new) }
    {
        for change in changes {
            self.recompute_at(settings, change.place, Some(change.standing), new)?;
        }
        Ok(())
    }

    /// Sets the fact of a place anew by how it stands, and whether its message is among those whose receipts are due.
    fn set_fact(
        &mut self,
        settings: &Settings,
        place: Place,
        standing: Option<Standing>,
    ) -> Result<(), AllocError>
        ensures said { KeepsSaid self.old self.new }
        ensures notes { OnOk result (self.new.tally.notes ≡ self.old.tally.notes) }
        ensures facts { (new : Option PlaceOf) → standing ≡ standing_at self.old.groups.members place
            → CanFollow settings.now new self.old → OnOk result (self.new.tally.facts
            ≡ set_at self.old.tally.facts place
            (fin.get (facts_of settings.now (stored_in self.old)) place)) }
        ensures due { IsDue settings.now.windows self.old
            → OnOk result (IsDue settings.now.windows self.new) }
        ensures touches { OnOk result (index_cost self.new ≤ index_cost self.old + 14) }
        ensures rises { OnOk result (RisesWithFacts self.old self.new) }
    {
        let Some(message) = self.messages.get(&place) else {
            take_fact(&mut self.tally, place)?;
            return Ok(());
        };
        let link = message.link;
        let moment = message.moment;
        let there = self.tally.look_up(place);
        let before = outcome_of(&there);
        let route = route_by(&there, message, settings.routes());
        let fact = fact_at(&self.receipts, settings, place, message, standing, route);
        let is_now = is_due(Some(fact.outcome));
        self.tally.replace(&there, fact)?;
        if is_now != is_due(before) {
            let due = DueAt {
                link,
                moment,
                place,
            };
            set_due(&mut self.due, due, is_now)?;
            let end = EndAt::of(moment, settings.link_windows().of(link), place);
            set_end(&mut self.ends, end, is_now)?;
        }
        Ok(())
    }
}

/// What became of the message of a fact, if there is one.
fn outcome_of(fact: &Option<Fact>) -> Option<Outcome>
    ensures { result ≡ option_map (λ f. f.outcome) fact.now }
{
    match fact {
        Some(fact) => Some(fact.outcome),
        None => None,
    }
}

/// The route and network of a message: those of the fact that is there, or else of its number.
fn route_by(
    there: &Option<Fact>,
    message: &StoredMessage,
    routes: &Routes,
) -> Option<(RouteId, Network)>
    ensures { ((f : FactOf) → there.now ≡ Some f → f.route ≡ route_in routes.now.versions message.now)
        → result ≡ route_in routes.now.versions message.now }
{
    match there {
        Some(fact) => copied_route(fact),
        None => message.route(routes),
    }
}

/// A copy of a fact's route and network.
fn copied_route(fact: &Fact) -> Option<(RouteId, Network)>
    ensures { result ≡ fact.now.route }
{
    match &fact.route {
        Some((route, network)) => Some((*route, network.copy())),
        None => None,
    }
}

/// What is known of a message at its place, by how it stands and its route.
fn fact_at(
    receipts: &KeptMap<Place, StoredReceipt>,
    settings: &Settings,
    place: Place,
    message: &StoredMessage,
    standing: Option<Standing>,
    route: Option<(RouteId, Network)>,
) -> Fact
    ensures value { (t : TrafficValue) (g : Grouping) → AreOf settings.now t g → standing ≡ standing_at g place
        → receipts_in receipts.now.content ≡ t.receipts
        → fin.get t.messages place ≡ Some message.now → route ≡ route_in settings.now.versions message.now
        → Some result ≡ fin.get (facts_of settings.now t) place }
    ensures place { result.place ≡ place }
{
    let said = message.message();
    let lapsed = said.has_lapsed(settings.link_windows(), settings.clock());
    let decider = received_in(decider_of(receipts, standing));
    fact_from_parts(
        place,
        &said,
        route,
        lapsed,
        is_shared(standing),
        decider.as_ref(),
    )
}

/// What is known of a message that isn't accepted, at its place: no receipt decides it, and it doesn't lapse.
pub(crate) fn fact_of_unaccepted(place: Place, message: &StoredMessage, routes: &Routes) -> Fact
    ensures value { (s : SettingsValue) (t : TrafficValue) → s.versions ≡ routes.now.versions
        → accepted_key s message.now ≡ None → fin.get t.messages place ≡ Some message.now
        → Some result ≡ fin.get (facts_of s t) place }
    ensures due { (s : SettingsValue) → accepted_key s message.now ≡ None
        → is_due_fact (Some result) ≡ false }
    ensures place { result.place ≡ place }
{
    let said = message.message();
    let route = said.route(routes);
    fact_from_parts(place, &said, route, false, false, None)
}

/// Whether there is an outcome and it is that of a message whose receipt is due.
fn is_due(outcome: Option<Outcome>) -> bool
    ensures { (fact : Option FactOf) → outcome ≡ option_map (λ f. f.outcome) fact → result ≡ is_due_fact fact }
{
    matches!(outcome, Some(Outcome::Open | Outcome::Lapsed))
}

/// Whether a message of this standing shares its key.
fn is_shared(standing: Option<Standing>) -> bool
    ensures { result ≡ is_told_shared standing }
{
    matches!(standing, Some(Standing::Shared))
}

/// The receipt that decides a message of this standing, if one does.
fn decider_of(
    receipts: &KeptMap<Place, StoredReceipt>,
    standing: Option<Standing>,
) -> Option<&StoredReceipt>
    ensures { option_copied result ≡ decider_held (receipts_in receipts.now.content) standing }
{
    match standing {
        Some(Standing::Single(Some(place))) => receipts.get(&place),
        _ => None,
    }
}

/// Takes the fact of a place out, if there is one.
pub(crate) fn take_fact(tally: &mut Tally, place: Place) -> Result<(), AllocError>
    ensures facts { OnOk result (tally.new.facts ≡ fin.remove tally.old.facts place) }
    ensures notes { tally.new.notes ≡ tally.old.notes }
    ensures settled { tally.new.settled ≡ tally.old.settled }
    ensures touches { OnOk result (tally_cost tally.new ≤ tally_cost tally.old + 6) }
    ensures counted { tally.old.touches ≤ tally.new.touches }
    ensures rises { OnOk result (tally.new.touches ≡ tally.old.touches → tally.old.touches < 2 ^ 64 - 1
        → tally.new.facts ≡ tally.old.facts) }
{
    if tally.has_fact(place) {
        tally.remove(place)?;
    }
    Ok(())
}

/// Puts a key of a message in, or takes it out.
pub(crate) fn set_due(due: &mut Kept<DueAt, ()>, key: DueAt, is_due: bool) -> Result<(), AllocError>
    ensures value { OnOk result
        (dues_in due.new.content ≡ set_at (dues_in due.old.content) key (noted is_due)) }
    ensures settled { due.new.settled ≡ due.old.settled }
    ensures touches { OnOk result (kept_cost due.new ≤ kept_cost due.old + 4) }
    ensures counted { due.old.touches ≤ due.new.touches }
{
    if is_due {
        due.set(key, ())?;
        return Ok(());
    }
    due.remove(&key)?;
    Ok(())
}

/// Puts the end of a message's window in, or takes it out.
pub(crate) fn set_end(
    ends: &mut Kept<EndAt, ()>,
    key: EndAt,
    is_due: bool,
) -> Result<(), AllocError>
    ensures value { OnOk result
        (ends_in ends.new.content ≡ set_at (ends_in ends.old.content) key (noted is_due)) }
    ensures settled { ends.new.settled ≡ ends.old.settled }
    ensures touches { OnOk result (kept_cost ends.new ≤ kept_cost ends.old + 4) }
    ensures counted { ends.old.touches ≤ ends.new.touches }
{
    if is_due {
        ends.set(key, ())?;
        return Ok(());
    }
    ends.remove(&key)?;
    Ok(())
}

/// Notes a place in a list, or forgets it there.
fn set_note(tally: &mut Tally, list: List, place: Place, is_noted: bool) -> Result<(), AllocError>
    ensures notes { OnOk result (tally.new.notes
        ≡ set_at tally.old.notes (listed list place) (noted is_noted)) }
    ensures facts { tally.new.facts ≡ tally.old.facts }
    ensures settled { tally.new.settled ≡ tally.old.settled }
    ensures touches { OnOk result (tally_cost tally.new ≤ tally_cost tally.old + 1) }
    ensures counted { tally.old.touches ≤ tally.new.touches }
{
    if is_noted {
        tally.note(list, place)
    } else {
        tally.forget(list, place)
    }
}

/// The list of a receipt of this standing, if it has one.
fn list_of(standing: Option<Standing>) -> Option<List>
    ensures { result ≡ list_by true standing }
{
    match standing {
        Some(Standing::Stray) => Some(List::StrayReceipts),
        Some(Standing::Shared) => Some(List::AmbiguousReceipts),
        Some(Standing::Extra) => Some(List::ExtraReceipts),
        _ => None,
    }
}

/// Puts a receipt's place into the list that its standing gives alone, or into none. One that is new is in no other.
fn list_receipt(
    tally: &mut Tally,
    place: Place,
    standing: Option<Standing>,
    new: Option<Place>,
) -> Result<(), AllocError>
    ensures notes { let list = list_by true standing in
        (new ≡ Some place → IsInNoOther tally.old.notes place list)
        → OnOk result (tally.new.notes ≡ with_listing tally.old.notes place list) }
    ensures facts { tally.new.facts ≡ tally.old.facts }
    ensures settled { tally.new.settled ≡ tally.old.settled }
    ensures touches { OnOk result (tally_cost tally.new ≤ tally_cost tally.old + 3) }
    ensures counted { tally.old.touches ≤ tally.new.touches }
{
    let list = list_of(standing);
    if is_new(new, place) {
        note_in(tally, place, list)?;
        return Ok(());
    }
    set_listing(tally, place, list)?;
    Ok(())
}

/// Whether a place is the one that is new.
fn is_new(new: Option<Place>, place: Place) -> bool
    ensures { IsTrue result → new ≡ Some place }
{
    match new {
        Some(new) => new == place,
        None => false,
    }
}

/// Notes a place in a list, if there is one.
fn note_in(tally: &mut Tally, place: Place, list: Option<List>) -> Result<(), AllocError>
    ensures notes { OnOk result (tally.new.notes ≡ with_note tally.old.notes place list) }
    ensures facts { tally.new.facts ≡ tally.old.facts }
    ensures settled { tally.new.settled ≡ tally.old.settled }
    ensures touches { tally_cost tally.new ≤ tally_cost tally.old }
    ensures counted { tally.old.touches ≤ tally.new.touches }
{
    match list {
        Some(list) => tally.note(list, place),
        None => Ok(()),
    }
}

/// Puts a receipt's place into this list of receipts alone, or into none.
fn set_listing(tally: &mut Tally, place: Place, list: Option<List>) -> Result<(), AllocError>
    ensures notes { OnOk result (tally.new.notes ≡ with_listing tally.old.notes place list) }
    ensures facts { tally.new.facts ≡ tally.old.facts }
    ensures settled { tally.new.settled ≡ tally.old.settled }
    ensures touches { OnOk result (tally_cost tally.new ≤ tally_cost tally.old + 3) }
    ensures counted { tally.old.touches ≤ tally.new.touches }
{
    let is_stray = matches!(list, Some(List::StrayReceipts));
    let is_ambiguous = matches!(list, Some(List::AmbiguousReceipts));
    let is_extra = matches!(list, Some(List::ExtraReceipts));
    set_note(tally, List::StrayReceipts, place, is_stray)?;
    set_note(tally, List::AmbiguousReceipts, place, is_ambiguous)?;
    set_note(tally, List::ExtraReceipts, place, is_extra)?;
    Ok(())
}
