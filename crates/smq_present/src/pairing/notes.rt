//! The places of a session that need a look.
ghost use Rattle.std.specs.Prelude.{◌≡◌, ◌++◌, slice_get, option_to_list, map, IfOk, OnOk};
ghost use Rattle.std.specs.Option.{option_copied};
ghost use Rattle.smq_kit.specs.declared.place.Dir.TheVariants.{FromClient, FromCentre};
ghost use Rattle.smq_tally.specs.Lists.{listed};
ghost use Rattle.smq_present.specs.present.Kept.{kept_pdus};
ghost use Rattle.smq_present.specs.pairing.Traffic.{broken_at, session_notes};
ghost use Rattle.smq_present.specs.within.Pairs.{from_session};
ghost use Rattle.smq_present.specs.within.Sides as sides;
ghost use Rattle.smq_present.specs.within.Sides.{IsPaired, IsSide, is_noted_by, note_of, noted, pairing_in};

use crate::pairing::pairs::place_of;
use crate::pairing::sides::{Side, sides_of};
use crate::{List, Listed, Session, StoredPdu};
use smq_frame::Tail;
use smq_kit::{Dir, Place, SessionId};
use smq_pdu::{agrees, is_request, is_response};
use std::alloc::{AllocError, Global};

/// The notes of a session.
pub fn read_notes(
    alloc: Global,
    number: SessionId,
    session: &Session,
) -> Result<Vec<Listed>, AllocError>
    ensures { IfOk result (λ notes. notes.items ≡ session_notes (number.0, session.now)) }
{
    let (client, centre) = sides_of(alloc, number, session)?;
    let mut notes = Vec::new(alloc);
    push_notes(&mut notes, number, session, &client, &centre)?;
    Ok(notes)
}

/// Puts the notes of a session, whose sides these are, after what is there.
pub(crate) fn push_notes(
    notes: &mut Vec<Listed>,
    number: SessionId,
    session: &Session,
    client: &Side<'_>,
    centre: &Side<'_>,
) -> Result<(), AllocError>
    requires client { IsSide number FromClient (kept_pdus session.now.client) (kept_pdus session.now.centre) client.now }
    requires centre { IsSide number FromCentre (kept_pdus session.now.centre) (kept_pdus session.now.client) centre.now }
    ensures { OnOk result
        (notes.new.items ≡ notes.old.items ++ session_notes (number.0, session.now)) }
{
    push_both(notes, List::Waiting, client, centre)?;
    push_both(notes, List::StrayAnswers, client, centre)?;
    push_both(notes, List::Mismatched, client, centre)?;
    push_side(notes, List::Unreadable, centre)?;
    push_both(notes, List::Undecodable, client, centre)?;
    push_broken(notes, number, Dir::FromClient, session.client.tail())?;
    push_broken(notes, number, Dir::FromCentre, session.centre.tail())?;
    Ok(())
}

/// Puts the PDUs of both sides that are in a list after what is there: the client's first.
fn push_both(
    notes: &mut Vec<Listed>,
    list: List,
    client: &Side<'_>,
    centre: &Side<'_>,
) -> Result<(), AllocError>
    requires client { IsPaired client.now }
    requires centre { IsPaired centre.now }
    ensures { OnOk result
        (notes.new.items ≡ notes.old.items ++ (noted list client.now ++ noted list centre.now)) }
{
    push_side(notes, list, client)?;
    push_side(notes, list, centre)?;
    Ok(())
}

/// Puts the PDUs of a side that are in a list after what is there.
fn push_side(notes: &mut Vec<Listed>, list: List, side: &Side<'_>) -> Result<(), AllocError>
    requires { IsPaired side.now }
    ensures { OnOk result (notes.new.items ≡ notes.old.items ++ noted list side.now) }
{
    let pdus = side.pdus;
    for index in 0..pdus.len() {
        if let Some(note) = note_at(list, side, index, &pdus[index]) {
            notes.push(note)?;
        }
    }
    Ok(())
}

/// The PDU at an index in a list, if it is in it.
fn note_at(list: List, side: &Side<'_>, index: usize, pdu: &StoredPdu) -> Option<Listed>
    requires paired { IsPaired side.now }
    requires pdu { slice_get side.now.pdus.now index ≡ Some pdu.now }
    ensures { let o = from_session side.now.session in
        let v = pairing_in side.now.dir o side.now.pdus.now side.now.other.now in
        option_to_list result ≡ note_of list v o side.now.dir pdu.now }
{
    if !is_noted(list, pdu, side.response(index), side.request(index)) {
        return None;
    }
    Some(Listed {
        list,
        place: place_of(side.session, side.dir, pdu),
    })
}

/// Whether a PDU is in a list, by the PDU that responds to it and the one that it responds to.
fn is_noted(
    list: List,
    pdu: &StoredPdu,
    response: Option<&StoredPdu>,
    request: Option<&StoredPdu>,
) -> bool
    ensures { result ≡ is_noted_by list (option_copied response.entry) (option_copied request.entry) pdu.now }
{
    match list {
        List::Waiting => is_request(pdu.command) && response.is_none(),
        List::StrayAnswers => is_response(pdu.command) && request.is_none(),
        List::Mismatched => is_request(pdu.command) && disagrees(pdu, response),
        List::Unreadable => pdu.content.is_unreadable(),
        List::Undecodable => pdu.content.is_undecodable(),
        _ => false,
    }
}

/// Whether a response doesn't agree with a request.
fn disagrees(request: &StoredPdu, response: Option<&StoredPdu>) -> bool
    ensures { result ≡ sides.disagrees_with request.now (option_copied response.entry) }
{
    match response {
        Some(response) => !agrees(request.command, response.command),
        None => false,
    }
}

/// Puts the place at which a direction with this tail is broken, where it is, after what is there.
fn push_broken(
    notes: &mut Vec<Listed>,
    session: SessionId,
    dir: Dir,
    tail: &Tail,
) -> Result<(), AllocError>
    ensures { OnOk result (notes.new.items ≡ notes.old.items ++ map (listed List.Broken)
        (option_to_list (broken_at (from_session session) dir tail.now))) }
{
    if let Some(offset) = tail.broken() {
        let place = Place {
            session,
            dir,
            offset,
        };
        let note = Listed {
            list: List::Broken,
            place,
        };
        notes.push(note)?;
    }
    Ok(())
}
