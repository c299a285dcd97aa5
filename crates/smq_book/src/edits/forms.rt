//! The forms of a link's message ids are set.
ghost use Rattle.std.specs.Prelude.{◌≡◌, ◌≤◌, ◌+◌, ◌*◌, OnOk};
ghost use Rattle.smq_book.specs.edits.Reach.{reach};
ghost use Rattle.smq_book.specs.index.Kept.{IsIndexed};
ghost use Rattle.smq_book.specs.index.Touches.{RisesWithFacts, index_cost};
ghost use Rattle.smq_present.specs.present.Replies.{reply};
ghost use Rattle.smq_present.specs.present.Steps.{change};
ghost use Rattle.smq_kit.specs.Replies.{IsReply};

use crate::index::forms::{put_link, take_link};
use crate::index::index::Index;
use crate::{Edit, Forms, Present};
use smq_kit::{LinkId, Refusal};
use std::alloc::Global;

/// Sets the forms of a link's message ids, unless these forms are set: takes all of the link out that has a key by them, and puts it
/// in again after it. A refusal changes nothing.
pub(crate) fn set_forms(
    alloc: Global,
    present: &mut Present,
    index: &mut Index,
    link: LinkId,
    forms: Forms,
) -> Result<(), Refusal>
    requires indexed { IsIndexed present.old index.old }
    ensures reply { let edit = Edit.SetForm link forms.response forms.receipt in
        IsReply (reply present.old edit) result
        (present.new ≡ change present.old edit) (present.new ≡ present.old) }
    ensures indexed { IsIndexed present.new index.new }
    ensures touches { OnOk result (index_cost index.new ≤ index_cost index.old
        + 64 * (1 + reach present.old (Edit.SetForm link forms.response forms.receipt))) }
    ensures rises { OnOk result (RisesWithFacts index.old index.new) }
{
    if present.settings.has_forms(link, forms) {
        return Ok(());
    }
    let Ok(taken) = take_link(alloc, index, &present.settings, link) else {
        index.undo();
        return Err(Refusal::Memory);
    };
    let Ok(before) = present.settings.set_forms(link, forms) else {
        index.undo();
        return Err(Refusal::Memory);
    };
    let Ok(()) = put_link(index, &present.settings, taken) else {
        present.settings.restore_forms(link, before);
        index.undo();
        return Err(Refusal::Memory);
    };
    index.settle();
    Ok(())
}
