//! A session is taken back.
ghost use Rattle.std.specs.Prelude.{◌≡◌, ◌≤◌, ◌+◌, ◌*◌, OnOk};
ghost use Rattle.smq_book.specs.edits.Reach.{reach};
ghost use Rattle.smq_book.specs.index.Kept.{IsKept};
ghost use Rattle.smq_book.specs.index.Touches.{RisesWithFacts, index_cost, pairs_touches};
ghost use Rattle.smq_present.specs.present.Replies.{reply};
ghost use Rattle.smq_present.specs.present.Steps.{change};
ghost use Rattle.smq_kit.specs.Replies.{IsReply};

use crate::index::index::Index;
use crate::index::pairings::Pairings;
use crate::index::withdraw::withdraw as take;
use crate::{Edit, Present};
use smq_kit::{Refusal, SessionId};

/// Takes a session back, with both its directions and all that it says. A refusal changes nothing.
pub(crate) fn withdraw(
    present: &mut Present,
    index: &mut Index,
    pairings: &mut Pairings,
    session: SessionId,
) -> Result<(), Refusal>
    requires kept { IsKept present.old index.old pairings.old }
    ensures reply { IsReply (reply present.old (Edit.Withdraw session)) result
        (present.new ≡ change present.old (Edit.Withdraw session)) (present.new ≡ present.old) }
    ensures kept { IsKept present.new index.new pairings.new }
    ensures touches { OnOk result (index_cost index.new + pairs_touches pairings.new
        ≤ index_cost index.old + pairs_touches pairings.old
        + 64 * (1 + reach present.old (Edit.Withdraw session))) }
    ensures rises { OnOk result (RisesWithFacts index.old index.new) }
    ensures pairs_counted { pairs_touches pairings.old ≤ pairs_touches pairings.new }
{
    let found = match present.session(session) {
        Some(found) => found,
        None => return Err(Refusal::NoSession),
    };
    let Ok(()) = take(pairings.alloc, index, present, session, found) else {
        index.undo();
        return Err(Refusal::Memory);
    };
    present.take_session(session)?;
    pairings.remove(session);
    index.settle();
    Ok(())
}
