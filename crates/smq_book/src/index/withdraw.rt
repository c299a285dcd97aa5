//! What a withdrawal takes out: the messages, the delivery receipts and the notes of its session.
ghost use Rattle.std.specs.Prelude.{◌≡◌, ◌≤◌, ◌+◌, length, OnOk, Some};
ghost use Rattle.std.specs.List.{sum_by};
ghost use Rattle.std.specs.FinMap as fin;
ghost use Rattle.smq_present.specs.join.Listings.{AllTraffic};
ghost use Rattle.smq_book.specs.index.Held.{IsHeld, held_now, held_settled, traffic_held};
ghost use Rattle.smq_book.specs.index.Pushed.{IsHeldAfter};
ghost use Rattle.smq_book.specs.index.Taken.{note_takes, receipt_take, receipt_takes, submit_take, submit_takes};
ghost use Rattle.smq_book.specs.index.Touches.{MembersGo, RisesWithFacts, index_cost, message_load, receipt_load};
ghost use Rattle.smq_present.specs.pairing.Traffic.{session_notes, traffic_of};
ghost use Rattle.smq_present.specs.present.Kept.{kept_pdus};
ghost use Rattle.smq_present.specs.present.Settings.{SettingsValue};
ghost use Rattle.smq_present.specs.within.Pairs.{from_session};

use crate::index::index::Index;
use crate::{Listed, Present, Session, StoredPdu};
use smq_kit::{Dir, SessionId};
use smq_present::{Settings, place_of, read_notes};
use std::alloc::{AllocError, Global};

/// Takes what a session says out. On an error the caller undoes what is held.
pub(crate) fn withdraw(
    alloc: Global,
    index: &mut Index,
    present: &Present,
    number: SessionId,
    session: &Session,
) -> Result<(), AllocError>
    requires held { IsHeld present.now.settings (held_now index.old) }
    requires traffic { traffic_held (held_now index.old) ≡ traffic_of present.now.sessions }
    requires there { fin.get present.now.sessions number.0 ≡ Some session.now }
    ensures held { OnOk result (IsHeld present.now.settings (held_now index.new)) }
    ensures traffic { OnOk result (traffic_held (held_now index.new)
        ≡ traffic_of (fin.remove present.now.sessions number.0)) }
    ensures settled { held_settled index.new ≡ held_settled index.old }
    ensures rises { OnOk result (RisesWithFacts index.old index.new) }
    ensures touches { let g = index.old.groups in let origin = from_session number in
        OnOk result (index_cost index.new ≤ index_cost index.old
        + sum_by (message_load g origin) (kept_pdus session.now.client)
        + sum_by (receipt_load g origin) (kept_pdus session.now.centre)
        + length (session_notes (number.0, session.now))) }
{
    let settings = present.settings();
    take_messages(index, settings, number, session.client.pdus())?;
    take_receipts(index, settings, number, session.centre.pdus())?;
    let notes = read_notes(alloc, number, session)?;
    take_notes(index, notes.as_slice())?;
    Ok(())
}

/// Takes the messages that PDUs of the client are out.
fn take_messages(
    index: &mut Index,
    settings: &Settings,
    number: SessionId,
    client: &[StoredPdu],
) -> Result<(), AllocError>
    requires { IsHeld settings.now (held_now index.old) }
    ensures held { OnOk result (IsHeldAfter settings.now (held_now index.old)
        (submit_takes (from_session number) client.now) (held_now index.new)) }
    ensures settled { held_settled index.new ≡ held_settled index.old }
    ensures rises { OnOk result (RisesWithFacts index.old index.new) }
    ensures went { OnOk result (MembersGo index.old.groups index.new.groups) }
    ensures touches { OnOk result (index_cost index.new ≤ index_cost index.old
        + sum_by (message_load index.old.groups (from_session number)) client.now) }
{
    for pdu in client {
        take_submit(index, settings, number, pdu)?;
    }
    Ok(())
}

/// Takes the message that a PDU of the client is out, if it is one.
fn take_submit(
    index: &mut Index,
    settings: &Settings,
    number: SessionId,
    pdu: &StoredPdu,
) -> Result<(), AllocError>
    requires { IsHeld settings.now (held_now index.old) }
    ensures held { OnOk result (IsHeldAfter settings.now (held_now index.old)
        (submit_take (from_session number) pdu.now) (held_now index.new)) }
    ensures settled { held_settled index.new ≡ held_settled index.old }
    ensures rises { OnOk result (RisesWithFacts index.old index.new) }
    ensures went { OnOk result (MembersGo index.old.groups index.new.groups) }
    ensures touches { OnOk result (index_cost index.new ≤ index_cost index.old
        + message_load index.old.groups (from_session number) pdu.now) }
{
    let Some(_) = pdu.content.submit() else {
        return Ok(());
    };
    index.take_message(settings, place_of(number, Dir::FromClient, pdu))?;
    Ok(())
}

/// Takes the delivery receipts that PDUs of the centre are out.
fn take_receipts(
    index: &mut Index,
    settings: &Settings,
    number: SessionId,
    centre: &[StoredPdu],
) -> Result<(), AllocError>
    requires { IsHeld settings.now (held_now index.old) }
    ensures held { OnOk result (IsHeldAfter settings.now (held_now index.old)
        (receipt_takes (from_session number) centre.now) (held_now index.new)) }
    ensures settled { held_settled index.new ≡ held_settled index.old }
    ensures rises { OnOk result (RisesWithFacts index.old index.new) }
    ensures went { OnOk result (MembersGo index.old.groups index.new.groups) }
    ensures touches { OnOk result (index_cost index.new ≤ index_cost index.old
        + sum_by (receipt_load index.old.groups (from_session number)) centre.now) }
{
    for pdu in centre {
        take_received(index, settings, number, pdu)?;
    }
    Ok(())
}

/// Takes the delivery receipt that a PDU of the centre is out, if it is one.
fn take_received(
    index: &mut Index,
    settings: &Settings,
    number: SessionId,
    pdu: &StoredPdu,
) -> Result<(), AllocError>
    requires { IsHeld settings.now (held_now index.old) }
    ensures held { OnOk result (IsHeldAfter settings.now (held_now index.old)
        (receipt_take (from_session number) pdu.now) (held_now index.new)) }
    ensures settled { held_settled index.new ≡ held_settled index.old }
    ensures rises { OnOk result (RisesWithFacts index.old index.new) }
    ensures went { OnOk result (MembersGo index.old.groups index.new.groups) }
    ensures touches { OnOk result (index_cost index.new ≤ index_cost index.old
        + receipt_load index.old.groups (from_session number) pdu.now) }
{
    let Some(_) = pdu.content.receipt() else {
        return Ok(());
    };
    index.take_receipt(settings, place_of(number, Dir::FromCentre, pdu))?;
    Ok(())
}

/// Takes notes out, of which none is in a list of receipts.
fn take_notes(index: &mut Index, notes: &[Listed]) -> Result<(), AllocError>
    requires { AllTraffic notes.now }
    ensures held { (s : SettingsValue) → IsHeld s (held_now index.old)
        → OnOk result (IsHeldAfter s (held_now index.old)
        (note_takes notes.now) (held_now index.new)) }
    ensures settled { held_settled index.new ≡ held_settled index.old }
    ensures rises { OnOk result (RisesWithFacts index.old index.new) }
    ensures touches { OnOk result (index_cost index.new ≤ index_cost index.old + length notes.now) }
{
    for note in notes {
        index.take_note(note.list, note.place)?;
    }
    Ok(())
}
