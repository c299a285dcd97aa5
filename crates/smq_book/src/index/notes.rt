//! The notes that an append changes: of each PDU those of the pair that it makes, if any, and of its content; and at last that
//! of a bad length.
ghost use Rattle.std.specs.Prelude.{◌≡◌, true, [], ◌∷◌, OnOk};
ghost use Rattle.smq_kit.specs.declared.place.Dir.TheVariants.{FromClient, FromCentre};
ghost use Rattle.smq_pair.specs.Pairing.{placed_header};
ghost use Rattle.smq_pdu.specs.Header.{header_with};
ghost use Rattle.smq_tally.specs.Lists.{listed};
ghost use Rattle.smq_present.specs.join.Listings.{is_traffic_list};
ghost use Rattle.smq_book.specs.edits.AppendedNotes.{alone_moves, broken_moves, met_moves, pair_moves, undecodable_moves, unreadable_moves};
ghost use Rattle.smq_book.specs.index.Goes.{Goes, Keeps};
ghost use Rattle.smq_book.specs.index.Pushed.{mismatch_moves, noted_moves, other_move};
ghost use Rattle.smq_present.specs.join.Moves.{PutNote, TakeNote};
ghost use Rattle.smq_present.specs.within.Pairs.{from_session};

use crate::index::index::Index;
use crate::{List, StoredPdu};
use smq_frame::Tail;
use smq_kit::{Dir, Place, SessionId};
use smq_pair::Pair;
use smq_pdu::{is_request, is_response};
use smq_present::place_of;
use std::alloc::AllocError;

/// Notes a place in a list that isn't one of those of receipts.
fn note_place(index: &mut Index, list: List, place: Place) -> Result<(), AllocError>
    requires { is_traffic_list list ≡ true }
    ensures ok { OnOk result (Goes (PutNote (listed list place) ∷ []) index.old index.new) }
    ensures keeps { Keeps 0 index.old index.new }
{
    index.put_note(list, place)?;
    Ok(())
}

/// Forgets a place in a list that isn't one of those of receipts, if it is noted there.
fn forget_place(index: &mut Index, list: List, place: Place) -> Result<(), AllocError>
    requires { is_traffic_list list ≡ true }
    ensures ok { OnOk result (Goes (TakeNote (listed list place) ∷ []) index.old index.new) }
    ensures keeps { Keeps 1 index.old index.new }
{
    index.take_note(list, place)?;
    Ok(())
}

/// Notes a PDU that makes no pair: a request waits, and a response is a stray.
fn note_alone(index: &mut Index, place: Place, command: u32) -> Result<(), AllocError>
    ensures ok { OnOk result (Goes (alone_moves (placed_header place command 0 0))
        index.old index.new) }
    ensures keeps { Keeps 0 index.old index.new }
{
    if is_request(command) {
        note_place(index, List::Waiting, place)?;
        return Ok(());
    }
    if is_response(command) {
        note_place(index, List::StrayAnswers, place)?;
        return Ok(());
    }
    Ok(())
}

/// Forgets the other PDU of a pair that this one makes: it waits no more, or is a stray no more.
fn forget_other(index: &mut Index, command: u32, pair: Pair) -> Result<(), AllocError>
    ensures ok { OnOk result (Goes (other_move (header_with command) pair ∷ [])
        index.old index.new) }
    ensures keeps { Keeps 1 index.old index.new }
{
    if is_request(command) {
        forget_place(index, List::StrayAnswers, pair.response)?;
        return Ok(());
    }
    forget_place(index, List::Waiting, pair.request)?;
    Ok(())
}

/// Notes the request of a pair as mismatched, where the response doesn't agree.
fn note_mismatched(index: &mut Index, pair: Pair) -> Result<(), AllocError>
    ensures ok { OnOk result (Goes (mismatch_moves pair) index.old index.new) }
    ensures keeps { Keeps 0 index.old index.new }
{
    if pair.agrees {
        return Ok(());
    }
    note_place(index, List::Mismatched, pair.request)?;
    Ok(())
}

/// Notes what the pair that a PDU makes changes.
#[tactic(auto, using(crate::proofs::lemmas::index::Goes::goes_both))]
fn note_pair(index: &mut Index, place: Place, command: u32, pair: Pair) -> Result<(), AllocError>
    ensures ok { OnOk result (Goes (pair_moves (placed_header place command 0 0) pair)
        index.old index.new) }
    ensures keeps { Keeps 1 index.old index.new }
{
    forget_other(index, command, pair)?;
    note_mismatched(index, pair)?;
    Ok(())
}

/// Notes a PDU by the pair that it makes, if any.
fn note_met(
    index: &mut Index,
    place: Place,
    command: u32,
    made: Option<Pair>,
) -> Result<(), AllocError>
    ensures ok { OnOk result (Goes (met_moves (placed_header place command 0 0) made)
        index.old index.new) }
    ensures keeps { Keeps 1 index.old index.new }
{
    match made {
        Some(pair) => note_pair(index, place, command, pair),
        None => note_alone(index, place, command),
    }
}

/// Notes a PDU that can't be decoded.
fn note_undecodable(
    index: &mut Index,
    session: SessionId,
    dir: Dir,
    pdu: &StoredPdu,
) -> Result<(), AllocError>
    ensures ok { OnOk result (Goes (undecodable_moves (from_session session) dir pdu.now)
        index.old index.new) }
    ensures keeps { Keeps 0 index.old index.new }
{
    if pdu.content.is_undecodable() {
        note_place(index, List::Undecodable, place_of(session, dir, pdu))?;
        return Ok(());
    }
    Ok(())
}

/// Notes a delivery receipt of the centre without a usable id or state.
fn note_unreadable(index: &mut Index, session: SessionId, pdu: &StoredPdu) -> Result<(), AllocError>
    ensures ok { OnOk result (Goes (unreadable_moves (from_session session) FromCentre pdu.now)
        index.old index.new) }
    ensures keeps { Keeps 0 index.old index.new }
{
    if pdu.content.is_unreadable() {
        note_place(
            index,
            List::Unreadable,
            place_of(session, Dir::FromCentre, pdu),
        )?;
        return Ok(());
    }
    Ok(())
}

/// Notes what the next PDU of the client changes, which makes this pair, if any.
#[tactic(auto, using(crate::proofs::lemmas::index::Goes::client_notes))]
pub(crate) fn note_of_client(
    index: &mut Index,
    session: SessionId,
    pdu: &StoredPdu,
    made: Option<Pair>,
) -> Result<(), AllocError>
    ensures ok { OnOk result (Goes (noted_moves (from_session session) FromClient pdu.now made)
        index.old index.new) }
    ensures keeps { Keeps 1 index.old index.new }
{
    let place = place_of(session, Dir::FromClient, pdu);
    note_met(index, place, pdu.command, made)?;
    note_undecodable(index, session, Dir::FromClient, pdu)?;
    Ok(())
}

/// Notes what the next PDU of the centre changes, which makes this pair, if any.
#[tactic(auto, using(crate::proofs::lemmas::index::Goes::centre_notes))]
pub(crate) fn note_of_centre(
    index: &mut Index,
    session: SessionId,
    pdu: &StoredPdu,
    made: Option<Pair>,
) -> Result<(), AllocError>
    ensures ok { OnOk result (Goes (noted_moves (from_session session) FromCentre pdu.now made)
        index.old index.new) }
    ensures keeps { Keeps 1 index.old index.new }
{
    let place = place_of(session, Dir::FromCentre, pdu);
    note_met(index, place, pdu.command, made)?;
    note_undecodable(index, session, Dir::FromCentre, pdu)?;
    note_unreadable(index, session, pdu)?;
    Ok(())
}

/// Notes where a direction with this tail is broken, if it is.
pub(crate) fn note_broken(
    index: &mut Index,
    session: SessionId,
    dir: Dir,
    tail: &Tail,
) -> Result<(), AllocError>
    ensures ok { OnOk result (Goes (broken_moves (from_session session) dir tail.now)
        index.old index.new) }
    ensures keeps { Keeps 0 index.old index.new }
{
    let Some(offset) = tail.broken() else {
        return Ok(());
    };
    let place = Place {
        session,
        dir,
        offset,
    };
    note_place(index, List::Broken, place)?;
    Ok(())
}
