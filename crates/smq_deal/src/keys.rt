//! The keys of PDUs: that of the message or the delivery receipt which a request and its response are; and their parts.
ghost use Rattle.std.specs.Prelude.{◌≡◌, IfOk, Some, slice_get, take};
ghost use Rattle.std.specs.Option.{option_copied};
ghost use Rattle.smq_deal.specs.Keys as k;
ghost use Rattle.smq_deal.specs.Keys.{key_with, partner_of};
ghost use Rattle.smq_deal.specs.Parts as p;
ghost use Rattle.smq_deal.specs.Parts.{part_of};
ghost use Rattle.smq_present.specs.within.Sides.{IsPaired};

use crate::rule::Rule;
use smq_kit::{Dir, LinkKey};
use smq_pdu::{is_request, is_response};
use smq_present::{SessionForms, Side, StoredPdu, SubmittedMessage};
use std::alloc::{AllocError, Global};

/// The parts of the PDUs of a direction, in order.
pub(crate) fn parts_of<R: Rule>(
    alloc: Global,
    rule: &R,
    source: SessionForms,
    side: &Side<'_>,
) -> Result<Vec<u32>, AllocError>
    requires { IsPaired side.now }
    ensures { IfOk result (λ parts. parts.items
        ≡ p.parts_of (R.rule rule.now) source side.now.dir side.now.pdus.now side.now.other.now) }
{
    let pdus = side.pdus;
    let mut parts = Vec::with_capacity(alloc, pdus.len())?;
    for index in 0..pdus.len() {
        parts.push(part_at(rule, source, side, index, &pdus[index]))?;
    }
    Ok(parts)
}

/// The part of the PDU at an index.
fn part_at<R: Rule>(
    rule: &R,
    source: SessionForms,
    side: &Side<'_>,
    index: usize,
    pdu: &StoredPdu,
) -> u32
    requires side { IsPaired side.now }
    requires pdu { slice_get side.now.pdus.now index ≡ Some pdu.now }
    ensures { result ≡ part_of (R.rule rule.now) source side.now.dir side.now.other.now (take index side.now.pdus.now) pdu.now }
{
    let partner = partner_at(side, index, pdu);
    match key_of(source, side.dir, pdu, partner) {
        Some(key) => rule.keyed(&key),
        None => match partner {
            Some(_) => rule.paired(pdu.seq),
            None => rule.lone(source, pdu),
        },
    }
}

/// The response to the PDU at an index, or its request.
pub(crate) fn partner_at<'a>(
    side: &Side<'a>,
    index: usize,
    pdu: &StoredPdu,
) -> Option<&'a StoredPdu>
    requires side { IsPaired side.now }
    requires pdu { slice_get side.now.pdus.now index ≡ Some pdu.now }
    ensures { option_copied result ≡ partner_of side.now.other.now (take index side.now.pdus.now) pdu.now }
{
    if is_request(pdu.command) {
        return side.response(index);
    }
    if is_response(pdu.command) {
        return side.request(index);
    }
    None
}

/// The key of a PDU of a direction, where it has this partner.
pub(crate) fn key_of(
    source: SessionForms,
    dir: Dir,
    pdu: &StoredPdu,
    partner: Option<&StoredPdu>,
) -> Option<LinkKey>
    ensures { result ≡ key_with source dir pdu.now (option_copied partner.entry) }
{
    if is_request(pdu.command) {
        return pair_key(source, dir, pdu, partner);
    }
    pair_key(source, opposite(dir), partner?, Some(pdu))
}

/// The key of a request of a direction with its response, where they are an accepted message or a delivery receipt.
fn pair_key(
    source: SessionForms,
    dir: Dir,
    request: &StoredPdu,
    response: Option<&StoredPdu>,
) -> Option<LinkKey>
    ensures { result ≡ k.pair_key source dir request.now (option_copied response.entry) }
{
    match dir {
        Dir::FromClient => message_key(source, request, response),
        Dir::FromCentre => receipt_key(source, request),
    }
}

/// The key of the id with which a message is accepted, where a request and its response are one.
fn message_key(
    source: SessionForms,
    request: &StoredPdu,
    response: Option<&StoredPdu>,
) -> Option<LinkKey>
    ensures { result ≡ k.message_key source request.now (option_copied response.entry) }
{
    let submit = request.content.submit()?;
    let message = SubmittedMessage {
        source,
        request,
        submit,
        response,
    };
    Some(LinkKey::of(source.link, source.forms.response, message.id()?))
}

/// The key of the id of a delivery receipt, where a PDU of the centre is one.
fn receipt_key(source: SessionForms, pdu: &StoredPdu) -> Option<LinkKey>
    ensures { result ≡ k.receipt_key source pdu.now }
{
    let receipt = pdu.content.receipt()?;
    Some(LinkKey::of(source.link, source.forms.receipt, &receipt.id))
}

/// The other direction.
fn opposite(dir: Dir) -> Dir
    ensures { result ≡ k.opposite dir }
{
    match dir {
        Dir::FromClient => Dir::FromCentre,
        Dir::FromCentre => Dir::FromClient,
    }
}
