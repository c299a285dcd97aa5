//! The submitted messages, each with its response.
ghost use Rattle.std.specs.Prelude.{◌≡◌, ◌++◌, OnOk, Some, option_map, slice_get};
ghost use Rattle.std.specs.Option.{option_copied, option_to_list};
ghost use Rattle.smq_present.specs.present.Kept.{submit_in};
ghost use Rattle.smq_present.specs.pairing.Traffic.{response_in};
ghost use Rattle.smq_present.specs.within.Messages.{accepted_id, submit_by, submits_among};
ghost use Rattle.smq_present.specs.within.Outcomes.{message_from};
ghost use Rattle.smq_present.specs.within.Pairs.{SubmitsAreRequests};
ghost use Rattle.smq_present.specs.within.Sides.{IsPaired};

use crate::pairing::pairs::{SessionForms, place_of};
use crate::pairing::sides::Side;
use crate::{Message, Response, StoredPdu};
use smq_kit::{Dir, HashedKey, MessageId, Place};
use smq_pdu::{Submit, agrees};
use std::alloc::AllocError;
use std::marker::Model;

/// A submitted message: a decodable submit_sm or data_sm of the client, as it is kept, with its response where it has one.
#[derive(Drop)]
pub struct SubmittedMessage<'a> {
    pub source: SessionForms,
    pub request: &'a StoredPdu,
    pub submit: &'a Submit,
    pub response: Option<&'a StoredPdu>,
}

impl<'a> Model for SubmittedMessage<'a> {
    ghost use Rattle.std.specs.Option.{option_copied};
    ghost use Rattle.smq_present.specs.within.Messages.{SubmittedMessage, message_of};

    ghost Value = { SubmittedMessage };

    ghost view = { λ s. message_of s.source s.request.now
        s.submit.now (option_copied s.response) };
}

impl<'a> SubmittedMessage<'a> {
    /// The place of its submit_sm or data_sm.
    pub fn place(&self) -> Place
        ensures { result ≡ self.now.place }
    {
        place_of(self.source.session, Dir::FromClient, self.request)
    }

    /// What it and its response say.
    pub fn message(&self) -> Message<'a>
        ensures { result ≡ message_from self.now }
    {
        Message {
            link: self.source.link,
            moment: self.request.moment,
            submit: self.submit,
            response: self.answer(),
        }
    }

    /// What its response says.
    fn answer(&self) -> Option<Response<'a>>
        ensures { result ≡ option_map (response_in self.now.header) self.now.response }
    {
        let response = self.response?;
        Some(Response {
            agrees: agrees(self.request.command, response.command),
            status: response.status,
            id: response.content.message_id(),
        })
    }

    /// The id with which it is accepted, as its response gives it.
    pub fn id(&self) -> Option<&'a MessageId>
        ensures { option_copied result ≡ accepted_id self.now.header self.now.response }
    {
        self.message().accepted_id()
    }

    /// The key of its id, where it is accepted.
    pub fn key(&self) -> Option<HashedKey>
        ensures { result ≡ self.now.key }
    {
        match self.id() {
            Some(id) => Some(HashedKey::of(self.source.link, self.source.forms.response, id)),
            None => None,
        }
    }

    /// Where its response stands, in octets from the centre's first.
    pub fn response_offset(&self) -> Option<u64>
        ensures { result ≡ option_map (λ p. p.offset) self.now.response }
    {
        Some(self.response?.offset)
    }
}

/// Puts the submitted messages of a session, whose client's side this is, in their order, after what is there.
pub(crate) fn push_submits<'a>(
    submits: &mut Vec<SubmittedMessage<'a>>,
    source: SessionForms,
    side: &Side<'a>,
) -> Result<(), AllocError>
    requires side { IsPaired side.now }
    requires requests { SubmitsAreRequests side.now.pdus.now }
    ensures { OnOk result (submits.new.items
        ≡ submits.old.items ++ submits_among source side.now.pdus.now side.now.other.now) }
{
    let pdus = side.pdus;
    for index in 0..pdus.len() {
        if let Some(submit) = submit_at(source, side, index, &pdus[index]) {
            submits.push(submit)?;
        }
    }
    Ok(())
}

/// The message that the PDU at an index is, where it is a decodable submit_sm or data_sm.
fn submit_at<'a>(
    source: SessionForms,
    side: &Side<'a>,
    index: usize,
    pdu: &'a StoredPdu,
) -> Option<SubmittedMessage<'a>>
    requires side { IsPaired side.now }
    requires requests { SubmitsAreRequests side.now.pdus.now }
    requires pdu { slice_get side.now.pdus.now index ≡ Some pdu.now }
    ensures { option_to_list result ≡ submit_by (submit_in pdu.now.content) source
        side.now.pdus.now side.now.other.now index pdu.now }
{
    let submit = pdu.content.submit()?;
    Some(SubmittedMessage {
        source,
        request: pdu,
        submit,
        response: side.response(index),
    })
}
