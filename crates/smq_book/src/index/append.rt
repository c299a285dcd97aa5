//! What an append changes: what each PDU says that its batch completes, in turn, and the bad length at which the batch leaves its
//! direction broken.
ghost use Rattle.std.specs.Prelude.{◌≡◌, ◌≤◌, ◌+◌, ◌++◌, OnOk};
ghost use Rattle.std.specs.List.{sum_by};
ghost use Rattle.smq_frame.specs.Stream.{handed_in, values};
ghost use Rattle.smq_frame.specs.Tail.{tail_of};
ghost use Rattle.smq_book.specs.edits.AppendedNotes.{broken_moves};
ghost use Rattle.smq_book.specs.index.Held.{IsHeld, held_now, held_settled, traffic_held};
ghost use Rattle.smq_book.specs.index.Touches.{HasNoneVacant, MembersCome, RisesWithFacts, index_cost, pairing_cost, pdu_load};
ghost use Rattle.smq_book.specs.index.Pushed.{IsHeldAfter, IsSaidBy, origin_at, pairing_with, pushed_moves};
ghost use Rattle.smq_present.specs.pairing.Traffic.{session_pairing};
ghost use Rattle.smq_present.specs.present.Batch.{batch_pdus, next_tail};
ghost use Rattle.smq_present.specs.present.Kept.{kept_pdus};
ghost use Rattle.smq_present.specs.present.Present.{direction};
ghost use Rattle.smq_present.specs.present.Steps.{session_with};
ghost use Rattle.smq_present.specs.within.Pairs.{Rises, SubmitsAreRequests, from_session};

use crate::index::appended_pdu::push_pdu;
use crate::index::index::Index;
use crate::index::notes::note_broken;
use crate::{Batch, Session, StoredPdu};
use smq_kit::{Dir, SessionId};
use smq_pair::Pairing;
use smq_present::Settings;
use std::alloc::AllocError;

/// Takes what a batch says, which is the next of its direction in this session. On an error what is held of its session is
/// of no use: the caller undoes it.
pub(crate) fn append_to(
    index: &mut Index,
    pairing: &mut Pairing,
    settings: &Settings,
    session: &Session,
    batch: &Batch,
) -> Result<(), AllocError>
    requires held { IsHeld settings.now (held_now index.old) }
    requires said { IsSaidBy (origin_at batch.now.session session.now.link)
        (kept_pdus session.now.client) (kept_pdus session.now.centre)
        (traffic_held (held_now index.old)) }
    requires pairs { pairing.old.pdus ≡ session_pairing (batch.now.session.0, session.now) }
    requires in_step { batch.now.tail ≡ tail_of (values (direction batch.now.dir session.now)) }
    ensures held { let origin = origin_at batch.now.session session.now.link in
        OnOk result (IsHeldAfter settings.now (held_now index.old)
        (pushed_moves origin batch.now.dir
        (kept_pdus session.now.client) (kept_pdus session.now.centre) (batch_pdus batch.now)
        ++ broken_moves origin batch.now.dir (next_tail batch.now))
        (held_now index.new)) }
    ensures settled { held_settled index.new ≡ held_settled index.old }
    ensures rises { OnOk result (RisesWithFacts index.old index.new) }
    ensures pairs_counted { pairing.old.touches ≤ pairing.new.touches }
    ensures touches { HasNoneVacant index.old.groups
        → OnOk result (index_cost index.new + pairing_cost pairing.new
        ≤ index_cost index.old + pairing_cost pairing.old
        + sum_by (pdu_load index.new.groups.members pairing.new.pdus
        (from_session batch.now.session) batch.now.dir) (batch_pdus batch.now)) }
    ensures pairs { let octets = handed_in batch.now.moment batch.now.octets in
        OnOk result (pairing.new.pdus ≡ session_pairing
        (batch.now.session.0, session_with batch.now.dir octets session.now)) }
    ensures settled_pairs { pairing.new.settled ≡ pairing.old.settled }
{
    let number = batch.session();
    let dir = batch.dir();
    push_all(index, pairing, settings, number, session, dir, batch.pdus())?;
    note_broken(index, number, dir, batch.next())?;
    Ok(())
}

/// Takes the next PDUs of a direction of this session.
fn push_all(
    index: &mut Index,
    pairing: &mut Pairing,
    settings: &Settings,
    number: SessionId,
    session: &Session,
    dir: Dir,
    pdus: &[StoredPdu],
) -> Result<(), AllocError>
    requires held { IsHeld settings.now (held_now index.old) }
    requires said { IsSaidBy (origin_at number session.now.link)
        (kept_pdus session.now.client) (kept_pdus session.now.centre)
        (traffic_held (held_now index.old)) }
    requires pairs { pairing.old.pdus ≡ session_pairing (number.0, session.now) }
    requires rises { Rises 0 (kept_pdus (direction dir session.now) ++ pdus.now) }
    requires asks { SubmitsAreRequests (kept_pdus (direction dir session.now) ++ pdus.now) }
    ensures held { OnOk result (IsHeldAfter settings.now (held_now index.old)
        (pushed_moves (origin_at number session.now.link) dir
        (kept_pdus session.now.client) (kept_pdus session.now.centre) pdus.now)
        (held_now index.new)) }
    ensures settled { held_settled index.new ≡ held_settled index.old }
    ensures rises { OnOk result (RisesWithFacts index.old index.new) }
    ensures pairs_counted { pairing.old.touches ≤ pairing.new.touches }
    ensures came { OnOk result (MembersCome index.old.groups index.new.groups) }
    ensures touches { HasNoneVacant index.old.groups
        → OnOk result (index_cost index.new + pairing_cost pairing.new
        ≤ index_cost index.old + pairing_cost pairing.old
        + sum_by (pdu_load index.new.groups.members pairing.new.pdus
        (from_session number) dir) pdus.now) }
    ensures pairs { OnOk result (pairing.new.pdus
        ≡ pairing_with (origin_at number session.now.link) dir
        (kept_pdus session.now.client) (kept_pdus session.now.centre) pdus.now) }
    ensures settled_pairs { pairing.new.settled ≡ pairing.old.settled }
{
    for pdu in pdus {
        let centre = session.centre.pdus();
        push_pdu(
            index,
            pairing,
            settings,
            number,
            session.link,
            dir,
            centre,
            pdu,
        )?;
    }
    Ok(())
}
