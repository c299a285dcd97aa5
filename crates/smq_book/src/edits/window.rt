//! How long the messages of a link wait is set.
ghost use Rattle.std.specs.Prelude.{◌≡◌, ◌≤◌, ◌+◌, ◌*◌, OnOk};
ghost use Rattle.smq_book.specs.edits.Reach.{reach};
ghost use Rattle.smq_book.specs.index.Kept.{IsIndexed};
ghost use Rattle.smq_book.specs.index.Touches.{RisesWithFacts, index_cost};
ghost use Rattle.smq_present.specs.present.Replies.{reply};
ghost use Rattle.smq_present.specs.present.Steps.{change};
ghost use Rattle.smq_kit.specs.Replies.{IsReply};

use crate::index::index::Index;
use crate::index::window::set_window as set_ends;
use crate::{Edit, Present};
use smq_kit::{LinkId, Refusal, Window};
use std::alloc::Global;

/// Sets how long a message of a link waits for its receipt. A refusal changes nothing.
pub(crate) fn set_window(
    alloc: Global,
    present: &mut Present,
    index: &mut Index,
    link: LinkId,
    window: Window,
) -> Result<(), Refusal>
    requires indexed { IsIndexed present.old index.old }
    ensures reply { let edit = Edit.SetWindow link window in
        IsReply (reply present.old edit) result
        (present.new ≡ change present.old edit) (present.new ≡ present.old) }
    ensures indexed { IsIndexed present.new index.new }
    ensures touches { OnOk result (index_cost index.new ≤ index_cost index.old
        + 64 * (1 + reach present.old (Edit.SetWindow link window))) }
    ensures rises { OnOk result (RisesWithFacts index.old index.new) }
{
    let settings = &mut present.settings;
    let waited = settings.windows.of(link);
    let before = settings.windows.set(link, window)?;
    let Ok(()) = set_ends(
        alloc,
        index,
        &settings.routes,
        &settings.windows,
        settings.clock,
        link,
        waited,
    ) else {
        settings.windows.restore(link, before);
        index.undo();
        return Err(Refusal::Memory);
    };
    index.settle();
    Ok(())
}
