//! What a route changes: the facts of the messages whose numbers its prefix begins.
ghost use Rattle.std.specs.Prelude.{◌≡◌, ◌≤◌, ◌+◌, ◌*◌, [], length, Ok, OnOk};
ghost use Rattle.smq_route.specs.Numbers.{places_under, vacancies};
ghost use Rattle.smq_book.specs.index.Held.{IsHeld, held_now, held_settled, traffic_held};
ghost use Rattle.smq_book.specs.index.Pushed.{IsHeldAfter};
ghost use Rattle.smq_book.specs.index.Recomputed.{LeaveOthers, Restates};
ghost use Rattle.smq_book.specs.index.Touches.{RisesWithFacts, index_cost};
ghost use Rattle.smq_present.specs.present.Settings.{SettingsValue, with_versions};

use crate::index::index::Index;
use smq_kit::{Digits, Moment, Place};
use smq_present::Windows;
use smq_route::Routes;
use std::alloc::AllocError;

/// Sets the facts of the messages whose numbers a prefix begins anew, by routes that differ in versions of that prefix alone.
/// On an error the caller undoes what is held.
pub(crate) fn set_routes(
    index: &mut Index,
    routes: &Routes,
    windows: &Windows,
    clock: Moment,
    prefix: &Digits,
) -> Result<(), AllocError>
    ensures held { (s : SettingsValue) → s.windows ≡ windows.now → s.clock ≡ clock → IsHeld s (held_now index.old)
        → LeaveOthers s (traffic_held (held_now index.old)) prefix.now routes.now.versions
        → OnOk result (IsHeldAfter (with_versions s routes.now.versions) (held_now index.old) []
        (held_now index.new)) }
    ensures settled { held_settled index.new ≡ held_settled index.old }
    ensures touches { OnOk result (index_cost index.new ≤ index_cost index.old + 1
        + vacancies index.old.numbers prefix.now
        + 15 * length (places_under index.old.numbers.numbers prefix.now)) }
    ensures rises { OnOk result (RisesWithFacts index.old index.new) }
{
    let places = index.numbers.under(prefix)?;
    refresh_at(index, routes, windows, clock, places.as_slice())?;
    Ok(())
}

/// Sets the facts of the messages at places anew by routes, windows and a clock, in turn. Where there is no place, it takes no memory.
pub(crate) fn refresh_at(
    index: &mut Index,
    routes: &Routes,
    windows: &Windows,
    clock: Moment,
    places: &[Place],
) -> Result<(), AllocError>
    ensures held { OnOk result
        (Restates routes.now.versions windows.now clock places.now index.old index.new) }
    ensures none { places.now ≡ [] → result ≡ Ok tt }
    ensures settled { held_settled index.new ≡ held_settled index.old }
    ensures touches { OnOk result
        (index_cost index.new ≤ index_cost index.old + 14 * length places.now) }
    ensures rises { OnOk result (RisesWithFacts index.old index.new) }
{
    for place in places {
        index.restate_at(routes, windows, clock, *place)?;
    }
    Ok(())
}
