//! The clock is advanced.
ghost use Rattle.std.specs.Prelude.{◌≡◌, ◌≢◌, ◌≤◌, ◌+◌, ◌*◌, [], Err, OnOk};
ghost use Rattle.std.specs.FinMap as map;
ghost use Rattle.smq_book.specs.edits.Reach.{reach};
ghost use Rattle.smq_book.specs.edits.Reached.{due_by};
ghost use Rattle.smq_book.specs.index.Held.{held_now, traffic_held};
ghost use Rattle.smq_book.specs.index.Kept.{IsIndexed};
ghost use Rattle.smq_book.specs.index.Touches.{RisesWithFacts, index_cost};
ghost use Rattle.smq_present.specs.present.Replies.{reply};
ghost use Rattle.smq_present.specs.present.Steps.{change};
ghost use Rattle.smq_kit.specs.Replies.{IsReply};

use crate::index::clock::advance as lapse;
use crate::index::index::Index;
use crate::{Edit, Present};
use smq_kit::{Moment, Refusal};
use std::alloc::Global;

/// Sets the clock. Where it lapses no message, it takes no memory. A refusal changes nothing.
pub(crate) fn advance(
    alloc: Global,
    present: &mut Present,
    index: &mut Index,
    clock: Moment,
) -> Result<(), Refusal>
    requires indexed { IsIndexed present.old index.old }
    ensures reply { IsReply (reply present.old (Edit.Advance clock)) result
        (present.new ≡ change present.old (Edit.Advance clock)) (present.new ≡ present.old) }
    ensures indexed { IsIndexed present.new index.new }
    ensures touches { OnOk result (index_cost index.new ≤ index_cost index.old
        + 64 * (1 + reach present.old (Edit.Advance clock))) }
    ensures rises { OnOk result (RisesWithFacts index.old index.new) }
    ensures none { map.keys (due_by present.old.settings (traffic_held (held_now index.old)) clock) ≡ []
        → result ≢ Err Refusal.Memory }
{
    let before = present.clock();
    present.set_clock(clock)?;
    let settings = &present.settings;
    let Ok(()) = lapse(
        alloc,
        index,
        &settings.routes,
        &settings.windows,
        before,
        clock,
    ) else {
        present.settings.clock = before;
        index.undo();
        return Err(Refusal::Memory);
    };
    index.settle();
    Ok(())
}
