//! What a clock changes: the facts of the open messages whose windows have ended by it.
ghost use Rattle.std.specs.Prelude.{◌≡◌, ◌≤◌, ◌+◌, ◌*◌, [], filter, length, map, Ok, IfOk, IsOk, OnOk};
ghost use Rattle.smq_shelf.specs.Places.{places_of};
ghost use Rattle.smq_shelf.specs.Walks.{IsWalked};
ghost use Rattle.std.specs.FinMap as fin;
ghost use Rattle.smq_book.specs.edits.Reached.{due_by};
ghost use Rattle.smq_book.specs.index.Ends.{is_between, places_ending};
ghost use Rattle.smq_book.specs.index.Held.{IsHeld, ends_in, held_now, held_settled, traffic_held};
ghost use Rattle.smq_book.specs.index.Pushed.{IsHeldAfter};
ghost use Rattle.smq_book.specs.index.Touches.{HasNothingPending, RisesWithFacts, index_cost};
ghost use Rattle.smq_present.specs.present.Settings.{SettingsValue, with_clock};

use crate::index::end_at::{EndAt, EndsBetween};
use crate::index::index::Index;
use crate::index::routes::refresh_at;
use smq_kit::{Moment, Place};
use smq_present::Windows;
use smq_route::Routes;
use smq_shelf::{Kept, keys_in};
use std::alloc::{AllocError, Global};

/// Sets the facts of the open messages whose windows have ended by a clock anew, where the clock was another before: they have
/// lapsed. Where there are none, it takes no memory. On an error the caller undoes what is held.
pub(crate) fn advance(
    alloc: Global,
    index: &mut Index,
    routes: &Routes,
    windows: &Windows,
    from: Moment,
    clock: Moment,
) -> Result<(), AllocError>
    ensures held { (s : SettingsValue) → s.versions ≡ routes.now.versions → s.windows ≡ windows.now
        → s.clock ≡ from → s.clock ≤ clock → IsHeld s (held_now index.old)
        → OnOk result (IsHeldAfter (with_clock s clock) (held_now index.old) [] (held_now index.new)) }
    ensures none { (s : SettingsValue) → s.windows ≡ windows.now → s.clock ≡ from → IsHeld s (held_now index.old)
        → fin.keys (due_by s (traffic_held (held_now index.old)) clock) ≡ [] → result ≡ Ok tt }
    ensures settled { held_settled index.new ≡ held_settled index.old }
    ensures touches { HasNothingPending index.old → OnOk result (index_cost index.new ≤ index_cost index.old + 1
        + 15 * length (places_ending from clock (ends_in index.old.ends.content))) }
    ensures rises { OnOk result (RisesWithFacts index.old index.new) }
{
    let places = ending_places(alloc, &mut index.ends, from, clock)?;
    refresh_at(index, routes, windows, clock, places.as_slice())?;
    Ok(())
}

/// The places of the messages whose windows end after a clock and by another, by end, then by place. It looks at these alone, and at
/// one more.
fn ending_places(
    alloc: Global,
    ends: &mut Kept<EndAt, ()>,
    from: Moment,
    clock: Moment,
) -> Result<Vec<Place>, AllocError>
    ensures value { IfOk result (λ places. places.items
        ≡ places_ending from clock (ends_in ends.old.content)) }
    ensures none { places_ending from clock (ends_in ends.old.content) ≡ [] → IsOk result }
    ensures walked { IsWalked (1 + length (filter (λ e. is_between from clock e.0) ends.old.places)) ends.old ends.new }
    ensures touches { ends.old.places ≡ places_of ends.old.content → IfOk result (λ places.
        ends.new.touches ≤ ends.old.touches + 1 + length places.items) }
{
    let first = EndAt::first_after(from);
    let keys = keys_in(alloc, ends, &first, &EndsBetween { from, clock })?;
    let places = places_of_ends(alloc, keys.as_slice())?;
    Ok(places)
}

/// The places of ends.
fn places_of_ends(alloc: Global, keys: &[EndAt]) -> Result<Vec<Place>, AllocError>
    ensures value { IfOk result (λ places. places.items ≡ map (λ k. k.place) keys.now) }
    ensures none { keys.now ≡ [] → IsOk result }
{
    let mut places = Vec::new(alloc);
    for key in keys {
        places.push(key.place)?;
    }
    Ok(places)
}
