//! What the forms of a link's message ids change: the keys of its accepted messages and its delivery receipts. They are taken
//! out before its forms are set, and put in again after it: the key groups tell where they stand, so that no session, no other
//! PDU and no message without a key is looked at. On an error the caller undoes what is held.
ghost use Rattle.std.specs.Prelude.{◌≡◌, ◌≤◌, ◌+◌, ◌++◌, [], ◌∷◌, length, map, IfOk, OnOk};
ghost use Rattle.std.specs.List.{AllByRecursion, sum_by};
ghost use Rattle.smq_book.specs.index.Coming.{AreNew};
ghost use Rattle.smq_book.specs.index.Held.{IsHeld, KeepsTraffic, held_now, held_settled, traffic_held};
ghost use Rattle.smq_book.specs.index.LinkOut as out;
ghost use Rattle.smq_book.specs.index.LinkOut.{found_at, found_in_turn, keyed_on, keyed_places, put_of, take_at};
ghost use Rattle.smq_book.specs.index.Pushed.{IsHeldAfter};
ghost use Rattle.smq_book.specs.index.Touches.{IsRead, MembersGo, RisesWithFacts, index_cost, put_load, taken_load};
ghost use Rattle.smq_present.specs.present.Settings.{SettingsValue};

use crate::index::index::Index;
use crate::index::stored::Item;
use smq_kit::{Dir, LinkId, Place};
use smq_present::Settings;
use std::alloc::{AllocError, Global};

/// Takes what has a key on a link out, and gives it: its accepted messages, then its delivery receipts.
pub(crate) fn take_link(
    alloc: Global,
    index: &mut Index,
    settings: &Settings,
    link: LinkId,
) -> Result<Vec<(Place, Item)>, AllocError>
    requires { IsHeld settings.now (held_now index.old) }
    ensures held { let places = keyed_places link (traffic_held (held_now index.old)) in
        OnOk result (IsHeldAfter settings.now (held_now index.old)
        (map take_at places) (held_now index.new)) }
    ensures taken { IfOk result (λ taken.
        taken.items ≡ keyed_on link (traffic_held (held_now index.old))) }
    ensures settled { held_settled index.new ≡ held_settled index.old }
    ensures rises { OnOk result (RisesWithFacts index.old index.new) }
    ensures went { OnOk result (MembersGo index.old.groups index.new.groups) }
    ensures touches { let places = keyed_places link (traffic_held (held_now index.old)) in
        index.old.groups.vacant ≡ [] → OnOk result (index_cost index.new ≤ index_cost index.old
        + (2 + length places + sum_by (taken_load index.old.groups) places)) }
{
    let places = places_on(index, link)?;
    let taken = take_all(alloc, index, settings, places.as_slice())?;
    Ok(taken)
}

/// Puts what was taken out in again, where nothing stands.
pub(crate) fn put_link(
    index: &mut Index,
    settings: &Settings,
    taken: Vec<(Place, Item)>,
) -> Result<(), AllocError>
    requires held { IsHeld settings.now (held_now index.old) }
    requires stand { AllByRecursion (λ e. KeepsTraffic (put_of e)) taken.items }
    requires new { AreNew (traffic_held (held_now index.old)) (map put_of taken.items) }
    ensures held { OnOk result (IsHeldAfter settings.now (held_now index.old)
        (map put_of taken.items) (held_now index.new)) }
    ensures settled { held_settled index.new ≡ held_settled index.old }
    ensures rises { OnOk result (RisesWithFacts index.old index.new) }
    ensures touches { let n = index.new.groups.members in
        OnOk result (index_cost index.new ≤ index_cost index.old
        + sum_by (put_load index.old.groups n settings.now) taken.items) }
{
    for (place, said) in taken {
        index.put(settings, place, said)?;
    }
    Ok(())
}

/// The places of what has a key on a link: its accepted messages, then its delivery receipts.
fn places_on(index: &mut Index, link: LinkId) -> Result<Vec<Place>, AllocError>
    ensures value { (s : SettingsValue) → IsHeld s (held_now index.old)
        → IfOk result (λ places.
        places.items ≡ keyed_places link (traffic_held (held_now index.old))) }
    ensures read { IsRead index.old index.new }
    ensures touches { index.old.groups.vacant ≡ [] → IfOk result (λ places.
        index_cost index.new ≤ index_cost index.old + 2 + length places.items) }
{
    let mut places = index.groups.submits_on(link)?;
    let mut receipts = index.groups.receipts_on(link)?;
    places.append(&mut receipts)?;
    Ok(places)
}

/// Takes what stands at places out in turn, and gives it.
fn take_all(
    alloc: Global,
    index: &mut Index,
    settings: &Settings,
    places: &[Place],
) -> Result<Vec<(Place, Item)>, AllocError>
    requires { IsHeld settings.now (held_now index.old) }
    ensures held { OnOk result (IsHeldAfter settings.now (held_now index.old)
        (map take_at places.now) (held_now index.new)) }
    ensures taken { IfOk result (λ taken. taken.items
        ≡ found_in_turn (traffic_held (held_now index.old)) places.now) }
    ensures settled { held_settled index.new ≡ held_settled index.old }
    ensures rises { OnOk result (RisesWithFacts index.old index.new) }
    ensures went { OnOk result (MembersGo index.old.groups index.new.groups) }
    ensures touches { OnOk result (index_cost index.new ≤ index_cost index.old
        + sum_by (taken_load index.old.groups) places.now) }
{
    let mut taken = Vec::new(alloc);
    for place in places {
        take_one(index, settings, &mut taken, *place)?;
    }
    Ok(taken)
}

/// Takes what stands at a place out, if anything does, and puts it after what was taken.
fn take_one(
    index: &mut Index,
    settings: &Settings,
    taken: &mut Vec<(Place, Item)>,
    place: Place,
) -> Result<(), AllocError>
    requires { IsHeld settings.now (held_now index.old) }
    ensures held { OnOk result (IsHeldAfter settings.now (held_now index.old)
        (take_at place ∷ []) (held_now index.new)) }
    ensures taken { OnOk result (taken.new.items ≡ taken.old.items
        ++ found_at (traffic_held (held_now index.old)) place) }
    ensures settled { held_settled index.new ≡ held_settled index.old }
    ensures rises { OnOk result (RisesWithFacts index.old index.new) }
    ensures went { OnOk result (MembersGo index.old.groups index.new.groups) }
    ensures touches { OnOk result (index_cost index.new ≤ index_cost index.old
        + taken_load index.old.groups place) }
{
    if let Some(said) = item_at(index, place)? {
        taken.push((place, said))?;
    }
    index.take(settings, place)?;
    Ok(())
}

/// A copy of what stands at a place, if anything does: a message in the client's direction, a delivery receipt in the centre's.
fn item_at(index: &Index, place: Place) -> Result<Option<Item>, AllocError>
    ensures { IfOk result (λ said. said ≡ out.item_at (traffic_held (held_now index.now)) place) }
{
    match place.dir {
        Dir::FromClient => match index.messages.get(&place) {
            None => Ok(None),
            Some(message) => Ok(Some(Item::Message(message.copy()?))),
        },
        Dir::FromCentre => match index.receipts.get(&place) {
            None => Ok(None),
            Some(receipt) => Ok(Some(Item::Receipt(receipt.copy()?))),
        },
    }
}
