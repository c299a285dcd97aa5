//! One PDU more of a session: it makes a pair or waits for one, puts in the message or the delivery receipt that it is, and gives
//! a message its response.
ghost use Rattle.std.specs.Prelude.{◌≡◌, ◌≤◌, ◌+◌, ◌*◌, Some, None, IfOk, OnOk};
ghost use Rattle.std.specs.Arc.{arc_value};
ghost use Rattle.std.specs.FinMap as fin;
ghost use Rattle.smq_kit.specs.declared.place.Dir.TheVariants.{FromClient, FromCentre};
ghost use Rattle.smq_kit.specs.declared.names.SessionId.{SessionId as SessionIdOf};
ghost use Rattle.smq_pair.specs.declared.pairing.Pair.{Pair as PairOf};
ghost use Rattle.smq_pair.specs.Growth.{IsNext, made_by, pushed as pushed_pairs};
ghost use Rattle.smq_book.specs.index.Held.{IsHeld, held_now, held_settled, traffic_held};
ghost use Rattle.smq_book.specs.index.Touches.{HasNoneVacant, MembersCome, RisesWithFacts, answered_key, index_cost, members_at, pairing_cost, pdu_load, receipt_key_at};
ghost use Rattle.smq_book.specs.index.Pushed as pushed;
ghost use Rattle.smq_book.specs.index.Pushed.{IsHeldAfter, IsUnsaid, answer_moves, moves_by, origin_at, receipt_moves, said_by, submit_moves};
ghost use Rattle.smq_present.specs.pairing.Traffic as traffic;
ghost use Rattle.smq_present.specs.pairing.Traffic.{Message as MessageOf, placed};
ghost use Rattle.smq_present.specs.within.Pairs.{Rises, from_session};

use crate::StoredPdu;
use crate::index::index::Index;
use crate::index::notes::{note_of_centre, note_of_client};
use crate::index::stored::{StoredMessage, StoredReceipt, StoredResponse};
use smq_kit::{Dir, LinkId, SessionId};
use smq_pair::{Pair, Pairing};
use smq_pdu::Submit;
use smq_present::{Settings, pdu_at, place_of};
use std::alloc::{AllocError, Global};
use std::sync::Arc;

/// Takes the next PDU of a direction of a session, which has these PDUs of the centre. On an error what is held and paired of it
/// is of no use: the caller undoes it.
pub(crate) fn push_pdu(
    index: &mut Index,
    pairing: &mut Pairing,
    settings: &Settings,
    session: SessionId,
    link: LinkId,
    dir: Dir,
    centre: &[StoredPdu],
    pdu: &StoredPdu,
) -> Result<(), AllocError>
    requires held { IsHeld settings.now (held_now index.old) }
    requires unsaid { IsUnsaid (traffic_held (held_now index.old)) (from_session session) dir pdu.now
        (made_by pairing.old.pdus (placed (from_session session) dir pdu.now)) }
    requires next { IsNext pairing.old.pdus (traffic.place_of (from_session session) dir pdu.now) }
    requires centre { Rises 0 centre.now }
    ensures held { OnOk result (IsHeldAfter settings.now (held_now index.old)
        (moves_by (origin_at session link) dir (held_now index.old).messages centre.now pdu.now
        (made_by pairing.old.pdus (placed (from_session session) dir pdu.now)))
        (held_now index.new)) }
    ensures settled { held_settled index.new ≡ held_settled index.old }
    ensures rises { OnOk result (RisesWithFacts index.old index.new) }
    ensures came { OnOk result (MembersCome index.old.groups index.new.groups) }
    ensures touches { HasNoneVacant index.old.groups
        → OnOk result (index_cost index.new + pairing_cost pairing.new
        ≤ index_cost index.old + pairing_cost pairing.old
        + pdu_load index.new.groups.members pairing.new.pdus (from_session session) dir pdu.now) }
    ensures pairs { OnOk result
        (pairing.new.pdus ≡ pushed_pairs pairing.old.pdus (placed (from_session session) dir pdu.now)) }
    ensures settled_pairs { pairing.new.settled ≡ pairing.old.settled }
    ensures pairs_counted { pairing.old.touches ≤ pairing.new.touches }
{
    let place = place_of(session, dir, pdu);
    let made = pairing.add(place, pdu.seq, pdu.command, pdu.status)?;
    match dir {
        Dir::FromClient => {
            note_of_client(index, session, pdu, made)?;
            let response = paired_response(centre, made)?;
            put_submit(index, settings, session, link, pdu, response)?;
            Ok(())
        }
        Dir::FromCentre => {
            note_of_centre(index, session, pdu, made)?;
            answer_made(index, settings, made, pdu)?;
            put_received(index, settings, session, link, pdu)?;
            Ok(())
        }
    }
}

/// What the response of a pair says to its request.
fn said(pair: Pair, response: &StoredPdu) -> Result<StoredResponse, AllocError>
    ensures { IfOk result (λ said. said ≡ said_by pair response.now) }
{
    Ok(StoredResponse {
        agrees: pair.agrees,
        status: pair.status,
        id: response.content.shared_id()?,
    })
}

/// The same where a pair is made whose response is one of these PDUs of the centre.
fn paired_response(
    centre: &[StoredPdu],
    made: Option<Pair>,
) -> Result<Option<StoredResponse>, AllocError>
    requires { Rises 0 centre.now }
    ensures { IfOk result (λ response. response ≡ pushed.paired_response centre.now made) }
{
    let Some(pair) = made else {
        return Ok(None);
    };
    let Some(response) = pdu_at(centre, pair.response.offset) else {
        return Ok(None);
    };
    Ok(Some(said(pair, response)?))
}

/// The message that a submit_sm or data_sm is, with what its response says, where it has one.
fn message_with(
    link: LinkId,
    pdu: &StoredPdu,
    submit: Arc<Submit, Global>,
    response: Option<StoredResponse>,
) -> StoredMessage
    ensures { (session : SessionIdOf)
        → result ≡ pushed.message_with (origin_at session link) pdu.now (arc_value submit) response }
{
    StoredMessage {
        link,
        moment: pdu.moment,
        submit,
        response,
    }
}

/// Puts in the message that a PDU of the client is, if any, with what its response says, where it has one.
fn put_submit(
    index: &mut Index,
    settings: &Settings,
    session: SessionId,
    link: LinkId,
    pdu: &StoredPdu,
    response: Option<StoredResponse>,
) -> Result<(), AllocError>
    requires held { IsHeld settings.now (held_now index.old) }
    requires absent { fin.get (held_now index.old).messages
        (traffic.place_of (from_session session) FromClient pdu.now) ≡ None }
    ensures held { OnOk result (IsHeldAfter settings.now (held_now index.old)
        (submit_moves (origin_at session link) pdu.now response) (held_now index.new)) }
    ensures settled { held_settled index.new ≡ held_settled index.old }
    ensures rises { OnOk result (RisesWithFacts index.old index.new) }
    ensures came { OnOk result (MembersCome index.old.groups index.new.groups) }
    ensures touches { let place = traffic.place_of (from_session session) FromClient pdu.now in
        HasNoneVacant index.old.groups → OnOk result (index_cost index.new ≤ index_cost index.old + 43
        + 15 * members_at index.new.groups.members
        (fin.get index.new.groups.members.submits place)) }
{
    let Some(submit) = pdu.content.shared_submit()? else {
        return Ok(());
    };
    let message = message_with(link, pdu, submit, response);
    index.put_message(settings, place_of(session, Dir::FromClient, pdu), message)?;
    Ok(())
}

/// A message with what its response says.
fn with_response(
    message: &StoredMessage,
    response: StoredResponse,
) -> Result<StoredMessage, AllocError>
    ensures { IfOk result (λ answered. answered ≡ pushed.with_response message.now response) }
{
    Ok(StoredMessage {
        link: message.link,
        moment: message.moment,
        submit: Arc::try_clone(&message.submit)?,
        response: Some(response),
    })
}

/// Puts the message at the request of a pair, if one is stored there, in anew with what its response says. It had none.
fn answer(
    index: &mut Index,
    settings: &Settings,
    pair: Pair,
    response: &StoredPdu,
) -> Result<(), AllocError>
    requires held { IsHeld settings.now (held_now index.old) }
    requires waits { (m : MessageOf) → fin.get (held_now index.old).messages pair.request ≡ Some m
        → m.response ≡ None }
    ensures held { OnOk result (IsHeldAfter settings.now (held_now index.old)
        (answer_moves (held_now index.old).messages (Some pair) response.now)
        (held_now index.new)) }
    ensures settled { held_settled index.new ≡ held_settled index.old }
    ensures rises { OnOk result (RisesWithFacts index.old index.new) }
    ensures came { OnOk result (MembersCome index.old.groups index.new.groups) }
    ensures touches { HasNoneVacant index.old.groups
        → OnOk result (index_cost index.new ≤ index_cost index.old + 40
        + 15 * members_at index.new.groups.members
        (answered_key index.new.groups.members (Some pair))) }
{
    let Some(message) = index.messages.get(&pair.request) else {
        return Ok(());
    };
    let answered = with_response(message, said(pair, response)?)?;
    index.answer_message(settings, pair.request, answered)?;
    Ok(())
}

/// The same where a pair is made.
fn answer_made(
    index: &mut Index,
    settings: &Settings,
    made: Option<Pair>,
    response: &StoredPdu,
) -> Result<(), AllocError>
    requires held { IsHeld settings.now (held_now index.old) }
    requires waits { (pair : PairOf) (m : MessageOf) → made ≡ Some pair
        → fin.get (held_now index.old).messages pair.request ≡ Some m → m.response ≡ None }
    ensures held { OnOk result (IsHeldAfter settings.now (held_now index.old)
        (answer_moves (held_now index.old).messages made response.now) (held_now index.new)) }
    ensures settled { held_settled index.new ≡ held_settled index.old }
    ensures rises { OnOk result (RisesWithFacts index.old index.new) }
    ensures came { OnOk result (MembersCome index.old.groups index.new.groups) }
    ensures touches { HasNoneVacant index.old.groups
        → OnOk result (index_cost index.new ≤ index_cost index.old + 40
        + 15 * members_at index.new.groups.members
        (answered_key index.new.groups.members made)) }
{
    match made {
        Some(pair) => answer(index, settings, pair, response),
        None => Ok(()),
    }
}

/// Puts in the delivery receipt that a PDU of the centre is, if any.
fn put_received(
    index: &mut Index,
    settings: &Settings,
    session: SessionId,
    link: LinkId,
    pdu: &StoredPdu,
) -> Result<(), AllocError>
    requires held { IsHeld settings.now (held_now index.old) }
    requires absent { fin.get (held_now index.old).receipts
        (traffic.place_of (from_session session) FromCentre pdu.now) ≡ None }
    ensures held { OnOk result (IsHeldAfter settings.now (held_now index.old)
        (receipt_moves (origin_at session link) pdu.now) (held_now index.new)) }
    ensures settled { held_settled index.new ≡ held_settled index.old }
    ensures rises { OnOk result (RisesWithFacts index.old index.new) }
    ensures came { OnOk result (MembersCome index.old.groups index.new.groups) }
    ensures touches { let place = traffic.place_of (from_session session) FromCentre pdu.now in
        HasNoneVacant index.old.groups → OnOk result (index_cost index.new ≤ index_cost index.old
        + 43 * members_at index.new.groups.members
        (receipt_key_at index.new.groups.members place)) }
{
    let Some(receipt) = pdu.content.shared_receipt()? else {
        return Ok(());
    };
    let received = StoredReceipt {
        link,
        moment: pdu.moment,
        receipt,
    };
    index.put_receipt(settings, place_of(session, Dir::FromCentre, pdu), received)?;
    Ok(())
}
