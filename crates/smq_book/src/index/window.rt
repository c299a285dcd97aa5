//! What a window changes: the ends and the facts of the messages of its link whose receipts are due, the open and the lapsed ones.
ghost use Rattle.std.specs.Prelude.{◌≡◌, ◌≢◌, ◌==◌, ◌≤◌, ◌+◌, ◌*◌, [], filter, length, map, IfOk, OnOk};
ghost use Rattle.std.specs.FinMap as fin;
ghost use Rattle.smq_kit.specs.Maps.{SameOutside};
ghost use Rattle.smq_kit.specs.declared.names.LinkId.{LinkId as LinkIdOf};
ghost use Rattle.smq_shelf.specs.Places.{places_of};
ghost use Rattle.smq_shelf.specs.Walks.{IsWalked};
ghost use Rattle.smq_book.specs.edits.Reached.{messages_due_on};
ghost use Rattle.smq_book.specs.index.Due.{keys_on, places_due_on};
ghost use Rattle.smq_book.specs.index.Ends.{ends_put, ends_taken};
ghost use Rattle.smq_book.specs.index.Held.{IsHeld, dues_in, ends_in, held_now, held_settled, traffic_held};
ghost use Rattle.smq_book.specs.index.Pushed.{IsHeldAfter};
ghost use Rattle.smq_book.specs.index.Touches.{HasNothingPending, RisesWithFacts, index_cost, kept_cost};
ghost use Rattle.smq_present.specs.join.Facts.{facts_of};
ghost use Rattle.smq_present.specs.present.Settings.{SettingsValue, window_in, with_windows};

use crate::index::due_at::{DueAt, DueOn};
use crate::index::end_at::EndAt;
use crate::index::index::{Index, set_end};
use crate::index::routes::refresh_at;
use smq_kit::{LinkId, Moment, Place, Window};
use smq_present::Windows;
use smq_route::Routes;
use smq_shelf::{Kept, keys_in};
use std::alloc::{AllocError, Global};

/// Sets the ends and the facts of the messages of a link whose receipts are due anew, by windows that differ in that link alone, in
/// which its window was another before. On an error the caller undoes what is held.
pub(crate) fn set_window(
    alloc: Global,
    index: &mut Index,
    routes: &Routes,
    windows: &Windows,
    clock: Moment,
    link: LinkId,
    before: Window,
) -> Result<(), AllocError>
    ensures held { (s : SettingsValue) → s.versions ≡ routes.now.versions → s.clock ≡ clock
        → IsHeld s (held_now index.old) → window_in s.windows link ≡ before
        → ((l : LinkIdOf) → l ≢ link → window_in s.windows l ≡ window_in windows.now l)
        → (let traffic = traffic_held (held_now index.old) in
        SameOutside (fin.keys (messages_due_on link s traffic)) (facts_of s traffic)
        (facts_of (with_windows s windows.now) traffic))
        → OnOk result (IsHeldAfter (with_windows s windows.now) (held_now index.old) []
        (held_now index.new)) }
    ensures settled { held_settled index.new ≡ held_settled index.old }
    ensures touches { HasNothingPending index.old → OnOk result (index_cost index.new
        ≤ index_cost index.old + 1 + 23 * length (places_due_on link (dues_in index.old.due.content))) }
    ensures rises { OnOk result (RisesWithFacts index.old index.new) }
{
    let keys = due_on(alloc, &mut index.due, link)?;
    take_ends(&mut index.ends, keys.as_slice(), before)?;
    put_ends(&mut index.ends, keys.as_slice(), windows.of(link))?;
    let places = places_of_keys(alloc, keys.as_slice())?;
    refresh_at(index, routes, windows, clock, places.as_slice())?;
    Ok(())
}

/// The keys of the messages of a link whose receipts are due, by moment, then by place. It looks at these alone, and at one more.
fn due_on(alloc: Global, due: &mut Kept<DueAt, ()>, link: LinkId) -> Result<Vec<DueAt>, AllocError>
    ensures value { IfOk result (λ keys. keys.items ≡ keys_on link (dues_in due.old.content)) }
    ensures walked { IsWalked (1 + length (filter (λ e. e.0.link.0 == link.0) due.old.places)) due.old due.new }
    ensures touches { due.old.places ≡ places_of due.old.content → IfOk result (λ keys.
        due.new.touches ≤ due.old.touches + 1 + length keys.items) }
{
    let first = DueAt::first_from(link, Moment::epoch());
    let keys = keys_in(alloc, due, &first, &DueOn { link })?;
    Ok(keys)
}

/// Takes the ends of messages that waited so long out.
fn take_ends(ends: &mut Kept<EndAt, ()>, keys: &[DueAt], window: Window) -> Result<(), AllocError>
    ensures value { OnOk result (ends_in ends.new.content ≡ ends_taken window (ends_in ends.old.content) keys.now) }
    ensures settled { ends.new.settled ≡ ends.old.settled }
    ensures touches { OnOk result (kept_cost ends.new ≤ kept_cost ends.old + 4 * length keys.now) }
    ensures counted { ends.old.touches ≤ ends.new.touches }
{
    for key in keys {
        set_end(ends, EndAt::of(key.moment, window, key.place), false)?;
    }
    Ok(())
}

/// Puts the ends of messages that wait so long in.
fn put_ends(ends: &mut Kept<EndAt, ()>, keys: &[DueAt], window: Window) -> Result<(), AllocError>
    ensures value { OnOk result (ends_in ends.new.content ≡ ends_put window (ends_in ends.old.content) keys.now) }
    ensures settled { ends.new.settled ≡ ends.old.settled }
    ensures touches { OnOk result (kept_cost ends.new ≤ kept_cost ends.old + 4 * length keys.now) }
    ensures counted { ends.old.touches ≤ ends.new.touches }
{
    for key in keys {
        set_end(ends, EndAt::of(key.moment, window, key.place), true)?;
    }
    Ok(())
}

/// The places of keys.
fn places_of_keys(alloc: Global, keys: &[DueAt]) -> Result<Vec<Place>, AllocError>
    ensures { IfOk result (λ places. places.items ≡ map (λ k. k.place) keys.now) }
{
    let mut places = Vec::new(alloc);
    for key in keys {
        places.push(key.place)?;
    }
    Ok(places)
}
