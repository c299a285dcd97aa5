//! A batch is put after its direction.
ghost use Rattle.std.specs.Prelude.{◌≡◌, ◌≢◌, ◌≤◌, ◌+◌, ◌*◌, ◌++◌, ℕ, None, OnOk};
ghost use Rattle.std.specs.List.{sum_by};
ghost use Rattle.std.specs.Option.{option_copied};
ghost use Rattle.smq_frame.specs.Stream.{handed_in, values};
ghost use Rattle.smq_frame.specs.Tail.{tail_of};
ghost use Rattle.smq_present.specs.present.Present.{direction, session_of};
ghost use Rattle.smq_book.specs.edits.AppendedNotes.{broken_moves};
ghost use Rattle.smq_book.specs.edits.Reach.{reach};
ghost use Rattle.smq_book.specs.index.Held.{IsHeld, held_now, held_settled, traffic_held};
ghost use Rattle.smq_book.specs.index.Kept.{IsKept};
ghost use Rattle.smq_book.specs.index.Pairs.{pairing_in, pairs_now, pairs_pending, pairs_settled};
ghost use Rattle.smq_book.specs.index.Pushed.{IsHeldAfter, IsSaidBy, origin_at, pushed_moves};
ghost use Rattle.smq_book.specs.index.Touches.{HasNoneVacant, HasNothingPending, RisesWithFacts, index_cost, pairs_cost, pairs_touches, pdu_load};
ghost use Rattle.smq_present.specs.pairing.Traffic.{session_pairing, traffic_of};
ghost use Rattle.smq_present.specs.present.Batch.{batch_pdus, next_tail};
ghost use Rattle.smq_present.specs.present.Kept.{kept_pdus};
ghost use Rattle.smq_present.specs.present.Replies.{reply};
ghost use Rattle.smq_present.specs.present.Steps.{change, session_with};
ghost use Rattle.smq_present.specs.within.Pairs.{from_session};
ghost use Rattle.smq_kit.specs.Replies.{IsReply};

use crate::index::append::append_to;
use crate::index::index::Index;
use crate::index::pairings::Pairings;
use crate::{Batch, Edit, Present, Session};
use smq_kit::{Refusal, SessionId};
use smq_present::{Settings, append_refusal};
use std::alloc::{AllocError, Global};

/// Puts a batch after its direction, in its session or in a new one, and what it says in what is kept. A refusal changes
/// nothing.
pub(crate) fn append(
    alloc: Global,
    present: &mut Present,
    index: &mut Index,
    pairings: &mut Pairings,
    batch: Batch,
) -> Result<(), Refusal>
    requires kept { IsKept present.old index.old pairings.old }
    ensures reply { IsReply (reply present.old (Edit.Append batch)) result
        (present.new ≡ change present.old (Edit.Append batch)) (present.new ≡ present.old) }
    ensures kept { IsKept present.new index.new pairings.new }
    ensures touches { OnOk result (index_cost index.new + pairs_touches pairings.new
        ≤ index_cost index.old + pairs_touches pairings.old
        + 64 * (1 + reach present.old (Edit.Append batch))) }
    ensures rises { OnOk result (RisesWithFacts index.old index.new) }
    ensures pairs_counted { pairs_touches pairings.old ≤ pairs_touches pairings.new }
{
    let number = batch.session();
    let found = present.session(number);
    if let Some(refusal) = append_refusal(alloc, found, &batch) {
        return Err(refusal);
    }
    let Ok(()) = append_said(alloc, present, found, index, pairings, &batch) else {
        undo(present, index, pairings, number);
        return Err(Refusal::Memory);
    };
    let Ok(()) = present.put_batch_in_step(alloc, batch) else {
        undo(present, index, pairings, number);
        return Err(Refusal::Memory);
    };
    index.settle();
    pairings.settle(number);
    Ok(())
}

/// Puts what a batch says that nothing refuses in what is kept, where this is its session, if it is there. On an error the caller
/// undoes what is kept of it.
fn append_said(
    alloc: Global,
    present: &Present,
    found: Option<&Session>,
    index: &mut Index,
    pairings: &mut Pairings,
    batch: &Batch,
) -> Result<(), AllocError>
    requires held { IsHeld present.now.settings (held_now index.old) }
    requires traffic { traffic_held (held_now index.old) ≡ traffic_of present.now.sessions }
    requires pairs { pairs_now pairings.old batch.now.session.0
        ≡ pairing_in present.now.sessions batch.now.session.0 }
    requires found { option_copied found ≡ session_of present.now batch.now.session.0 }
    requires unrefused { reply present.now (Edit.Append batch.now) ≡ None }
    ensures held { OnOk result (IsHeld present.now.settings (held_now index.new)) }
    ensures traffic { OnOk result (traffic_held (held_now index.new)
        ≡ traffic_of (change present.now (Edit.Append batch.now)).sessions) }
    ensures pairs { let number = batch.now.session.0 in OnOk result (pairs_now pairings.new number
        ≡ pairing_in (change present.now (Edit.Append batch.now)).sessions number) }
    ensures settled { held_settled index.new ≡ held_settled index.old }
    ensures rises { OnOk result (RisesWithFacts index.old index.new) }
    ensures pairs_counted { pairs_touches pairings.old ≤ pairs_touches pairings.new }
    ensures touches { let number = batch.now.session.0 in HasNoneVacant index.old.groups
        → OnOk result (index_cost index.new + pairs_cost pairings.new number
        ≤ index_cost index.old + pairs_cost pairings.old number
        + sum_by (pdu_load index.new.groups.members (pairs_now pairings.new number)
        (from_session batch.now.session) batch.now.dir) (batch_pdus batch.now)) }
    ensures other_pairs { (number : ℕ) → number ≢ batch.now.session.0
        → pairs_now pairings.new number ≡ pairs_now pairings.old number }
    ensures other_pending { (number : ℕ) → number ≢ batch.now.session.0
        → pairs_pending pairings.new number ≡ pairs_pending pairings.old number }
    ensures settled_pairs { (number : ℕ)
        → pairs_settled pairings.new number ≡ pairs_settled pairings.old number }
{
    let settings = present.settings();
    match found {
        Some(session) => append_next(session, settings, index, pairings, batch),
        None => {
            let session = Session::new(alloc, batch.link());
            append_next(&session, settings, index, pairings, batch)
        }
    }
}

/// Puts what a batch says that is the next of its direction in this session in what is kept.
fn append_next(
    session: &Session,
    settings: &Settings,
    index: &mut Index,
    pairings: &mut Pairings,
    batch: &Batch,
) -> Result<(), AllocError>
    requires held { IsHeld settings.now (held_now index.old) }
    requires said { IsSaidBy (origin_at batch.now.session session.now.link)
        (kept_pdus session.now.client) (kept_pdus session.now.centre)
        (traffic_held (held_now index.old)) }
    requires pairs { pairs_now pairings.old batch.now.session.0
        ≡ session_pairing (batch.now.session.0, session.now) }
    requires in_step { batch.now.tail ≡ tail_of (values (direction batch.now.dir session.now)) }
    ensures held { let origin = origin_at batch.now.session session.now.link in
        OnOk result (IsHeldAfter settings.now (held_now index.old)
        (pushed_moves origin batch.now.dir
        (kept_pdus session.now.client) (kept_pdus session.now.centre) (batch_pdus batch.now)
        ++ broken_moves origin batch.now.dir (next_tail batch.now))
        (held_now index.new)) }
    ensures pairs { let octets = handed_in batch.now.moment batch.now.octets in
        OnOk result (pairs_now pairings.new batch.now.session.0 ≡ session_pairing
        (batch.now.session.0, session_with batch.now.dir octets session.now)) }
    ensures settled { held_settled index.new ≡ held_settled index.old }
    ensures rises { OnOk result (RisesWithFacts index.old index.new) }
    ensures pairs_counted { pairs_touches pairings.old ≤ pairs_touches pairings.new }
    ensures touches { let number = batch.now.session.0 in HasNoneVacant index.old.groups
        → OnOk result (index_cost index.new + pairs_cost pairings.new number
        ≤ index_cost index.old + pairs_cost pairings.old number
        + sum_by (pdu_load index.new.groups.members (pairs_now pairings.new number)
        (from_session batch.now.session) batch.now.dir) (batch_pdus batch.now)) }
    ensures other_pairs { (number : ℕ) → number ≢ batch.now.session.0
        → pairs_now pairings.new number ≡ pairs_now pairings.old number }
    ensures other_pending { (number : ℕ) → number ≢ batch.now.session.0
        → pairs_pending pairings.new number ≡ pairs_pending pairings.old number }
    ensures settled_pairs { (number : ℕ)
        → pairs_settled pairings.new number ≡ pairs_settled pairings.old number }
{
    pairings.open(batch.session())?;
    let Some(pairing) = pairings.by_session.get_mut(&batch.session().0) else {
        // (it has just been opened)
        return Err(AllocError);
    };
    append_to(index, pairing, settings, session, batch)
}

/// Brings back what was kept of a session, and all that was held. No pairs stay of a session that isn't present.
fn undo(present: &Present, index: &mut Index, pairings: &mut Pairings, session: SessionId)
    requires settled { pairs_settled pairings.old session.0 ≡ pairing_in present.now.sessions session.0 }
    ensures held { held_now index.new ≡ held_settled index.old }
    ensures settled { held_settled index.new ≡ held_settled index.old }
    ensures pairs { pairs_now pairings.new session.0 ≡ pairs_settled pairings.old session.0 }
    ensures other_pairs { (number : ℕ) → number ≢ session.0
        → pairs_now pairings.new number ≡ pairs_now pairings.old number }
    ensures settled_pairs { (number : ℕ)
        → pairs_settled pairings.new number ≡ pairs_settled pairings.old number }
    ensures pending { HasNothingPending index.new }
    ensures pending_pairs { pairs_pending pairings.new session.0 ≡ 0 }
    ensures other_pending { (number : ℕ) → number ≢ session.0
        → pairs_pending pairings.new number ≡ pairs_pending pairings.old number }
    ensures pairs_counted { pairs_touches pairings.old ≤ pairs_touches pairings.new }
{
    index.undo();
    pairings.undo(session);
    if present.session(session).is_none() {
        pairings.remove(session);
    }
}
