//! Versions of routes are added, ended and corrected.
ghost use Rattle.std.specs.Prelude.{◌≡◌, ◌≤◌, ◌+◌, ◌*◌, MatchResult, OnOk};
ghost use Rattle.std.specs.FinMap as map;
ghost use Rattle.smq_book.specs.edits.Reach.{reach};
ghost use Rattle.smq_book.specs.edits.Reached.{messages_under};
ghost use Rattle.smq_book.specs.index.Kept.{IsIndexed};
ghost use Rattle.smq_book.specs.index.Recomputed.{LeaveOthers};
ghost use Rattle.smq_book.specs.index.Touches.{RisesWithFacts, index_cost};
ghost use Rattle.smq_present.specs.pairing.Traffic.{traffic_of};
ghost use Rattle.smq_present.specs.present.Present.{PresentValue};
ghost use Rattle.smq_present.specs.present.Replies.{reply};
ghost use Rattle.smq_present.specs.present.Settings.{with_versions};
ghost use Rattle.smq_present.specs.present.Steps.{change};
ghost use Rattle.smq_kit.specs.Replies.{IsReply};

use crate::index::index::Index;
use crate::index::routes::set_routes;
use crate::{Edit, Present};
use smq_kit::{Digits, Moment, Network, Refusal, RouteId};
use smq_present::Windows;
use smq_route::Routes;

/// Puts an open version of a route in. A refusal changes nothing.
pub(crate) fn add_route(
    present: &mut Present,
    index: &mut Index,
    prefix: Digits,
    from: Moment,
    route: RouteId,
    network: Network,
) -> Result<(), Refusal>
    requires indexed { IsIndexed present.old index.old }
    ensures reply { let edit = Edit.AddRoute prefix from route network in
        IsReply (reply present.old edit) result
        (present.new ≡ change present.old edit) (present.new ≡ present.old) }
    ensures indexed { IsIndexed present.new index.new }
    ensures touches { OnOk result (index_cost index.new ≤ index_cost index.old
        + 64 * (1 + reach present.old (Edit.AddRoute prefix from route network))) }
    ensures rises { OnOk result (RisesWithFacts index.old index.new) }
{
    let settings = &mut present.settings;
    let under = prefix.copy();
    settings.routes.add(prefix, from, route, network)?;
    follow(
        &mut settings.routes,
        index,
        &settings.windows,
        settings.clock,
        &under,
    )
}

/// Ends a version of a route. A refusal changes nothing.
pub(crate) fn end_route(
    present: &mut Present,
    index: &mut Index,
    prefix: &Digits,
    from: Moment,
    until: Moment,
) -> Result<(), Refusal>
    requires indexed { IsIndexed present.old index.old }
    ensures reply { let edit = Edit.EndRoute prefix.now from until in
        IsReply (reply present.old edit) result
        (present.new ≡ change present.old edit) (present.new ≡ present.old) }
    ensures indexed { IsIndexed present.new index.new }
    ensures touches { OnOk result (index_cost index.new ≤ index_cost index.old
        + 64 * (1 + reach present.old (Edit.EndRoute prefix.now from until))) }
    ensures rises { OnOk result (RisesWithFacts index.old index.new) }
{
    let settings = &mut present.settings;
    settings.routes.end(prefix, from, until)?;
    follow(
        &mut settings.routes,
        index,
        &settings.windows,
        settings.clock,
        prefix,
    )
}

/// Gives a version of a route another route and network. A refusal changes nothing.
pub(crate) fn correct_route(
    present: &mut Present,
    index: &mut Index,
    prefix: &Digits,
    from: Moment,
    route: RouteId,
    network: Network,
) -> Result<(), Refusal>
    requires indexed { IsIndexed present.old index.old }
    ensures reply { let edit = Edit.CorrectRoute prefix.now from route network in
        IsReply (reply present.old edit) result
        (present.new ≡ change present.old edit) (present.new ≡ present.old) }
    ensures indexed { IsIndexed present.new index.new }
    ensures touches { OnOk result (index_cost index.new ≤ index_cost index.old
        + 64 * (1 + reach present.old (Edit.CorrectRoute prefix.now from route network))) }
    ensures rises { OnOk result (RisesWithFacts index.old index.new) }
{
    let settings = &mut present.settings;
    settings.routes.correct(prefix, from, route, network)?;
    follow(
        &mut settings.routes,
        index,
        &settings.windows,
        settings.clock,
        prefix,
    )
}

/// Sets what is held of the messages to numbers of a prefix anew by routes that were changed there, and settles both. Where it
/// finds no memory, both are undone.
fn follow(
    routes: &mut Routes,
    index: &mut Index,
    windows: &Windows,
    clock: Moment,
    prefix: &Digits,
) -> Result<(), Refusal>
    ensures reply { MatchResult result (λ _. routes.new.versions ≡ routes.old.versions)
        (λ refusal. (refusal ≡ Refusal.Memory) × (routes.new.versions ≡ routes.old.settled)) }
    ensures indexed { (p : PresentValue) → p.settings.windows ≡ windows.now → p.settings.clock ≡ clock
        → p.settings.versions ≡ routes.old.settled → IsIndexed p index.old
        → LeaveOthers p.settings (traffic_of p.sessions) prefix.now routes.old.versions
        → IsIndexed (record p { settings = with_versions p.settings routes.new.versions }) index.new }
    ensures settled { routes.new.settled ≡ routes.new.versions }
    ensures touches { (p : PresentValue) → IsIndexed p index.old
        → OnOk result (index_cost index.new ≤ index_cost index.old
        + 64 * (1 + map.len (messages_under prefix.now (traffic_of p.sessions)))) }
    ensures rises { OnOk result (RisesWithFacts index.old index.new) }
{
    if set_routes(index, routes, windows, clock, prefix).is_err() {
        routes.undo();
        index.undo();
        return Err(Refusal::Memory);
    }
    routes.settle();
    index.settle();
    Ok(())
}
