//! Octets whose meaning is known, and bodies at the edges of the standard.
mod bodies;
mod commands;
mod data_sms;
mod destinations;
mod whole;

use crate::tests::frame::frames_of;
use bytes::Bytes;
use smq_frame::{Frame, Tail};
use smq_kit::{Digits, MessageId, Moment};
use smq_pdu::{Body, DataSm, Deliver, Pdu, SourceAddress, Submit, SubmitAnswer, decode};
use std::alloc::{AllocError, Global};
use std::process::Abort;

pub const SUBMIT_SM: u32 = 0x0000_0004;

pub const DELIVER_SM: u32 = 0x0000_0005;

pub const SUBMIT_SM_RESP: u32 = 0x8000_0004;

/// What a body is to say.
#[derive(Clone, Copy)]
pub enum Says {
    /// A submit_sm with this registered_delivery, from this source, with this number, or no number where it is empty.
    Submit(u8, Source, &'static [u8]),
    /// A submit_sm_resp or data_sm_resp with this id, or none where it is empty.
    Response(&'static [u8]),
    Deliver(Deliver<'static>),
    /// A deliver_sm with esm_class 4, an empty message, and of the parameters receipted_message_id, message_payload and
    /// message_state these.
    Parameters(Option<&'static [u8]>, Option<&'static [u8]>, Option<&'static [u8]>),
    /// A data_sm with this registered_delivery, from this source, with this number, or no number where it is empty, this
    /// esm_class and these parameters.
    DataSm(u8, Source, &'static [u8], u8, Parameters),
    Other,
    Undecodable,
}

/// source_addr_ton, and the source that is read, or none where it is empty.
pub type Source = (u8, &'static [u8]);

pub const NO_SOURCE: Source = (0, b"");

/// The values of receipted_message_id, network_error_code, message_payload and message_state.
pub type Parameters = (
    Option<&'static [u8]>,
    Option<&'static [u8]>,
    Option<&'static [u8]>,
    Option<&'static [u8]>,
);

/// sequence_number, command_id and command_status.
type Header = (u32, u32, u32);

pub struct Row {
    message: &'static str,
    octets: &'static [u8],
    header: Header,
    says: Says,
}

fn submit_of(registered_delivery: u8, (ton, source): Source, number: &[u8]) -> Submit {
    Submit {
        registered_delivery,
        number: Digits::parse(number).ok(),
        source_ton: ton,
        source: SourceAddress::new(source),
    }
}

fn data_sm_of(
    registered_delivery: u8,
    (ton, source): Source,
    number: &[u8],
    esm_class: u8,
    (id, code, payload, state): Parameters,
) -> DataSm<'static> {
    DataSm {
        esm_class,
        registered_delivery,
        number: Digits::parse(number).ok(),
        source_ton: ton,
        source: SourceAddress::new(source),
        receipted_message_id: id,
        network_error_code: code,
        message_payload: payload,
        message_state: state,
    }
}

/// What a data_sm with these says as what a centre hands to a client.
fn handed_of(esm_class: u8, (id, code, payload, state): Parameters) -> Deliver<'static> {
    Deliver {
        esm_class,
        short_message: b"",
        receipted_message_id: id,
        network_error_code: code,
        message_payload: payload,
        message_state: state,
    }
}

fn body_of(says: &Says) -> Body<'static> {
    match says {
        Says::Submit(registered_delivery, source, number) => {
            Body::Submit(submit_of(*registered_delivery, *source, number))
        }
        Says::Response(id) => Body::SubmitAnswer(SubmitAnswer {
            message_id: MessageId::new(id).ok(),
        }),
        Says::Deliver(deliver) => Body::Deliver(*deliver),
        Says::Parameters(id, payload, state) => Body::Deliver(Deliver {
            esm_class: 4,
            short_message: b"",
            receipted_message_id: *id,
            network_error_code: None,
            message_payload: *payload,
            message_state: *state,
        }),
        Says::DataSm(registered_delivery, source, number, esm_class, parameters) => Body::DataSm(
            data_sm_of(
                *registered_delivery,
                *source,
                number,
                *esm_class,
                *parameters,
            ),
        ),
        Says::Other => Body::Other,
        Says::Undecodable => Body::Undecodable,
    }
}

/// Whether a body's copy, where it is a submit_sm, is the same.
fn is_copied(body: &Body<'_>) -> bool {
    match body {
        Body::Submit(submit) => submit.copy() == *submit,
        _ => true,
    }
}

/// Whether a body, where it is a data_sm, says as a message and as what a centre hands to a client what it is to say.
fn says_both(body: &Body<'_>, says: &Says) -> bool {
    match body {
        Body::DataSm(message) => match says {
            Says::DataSm(registered_delivery, source, number, esm_class, parameters) => {
                message.submit() == submit_of(*registered_delivery, *source, number)
                    && message.deliver() == handed_of(*esm_class, *parameters)
            }
            _ => false,
        },
        _ => true,
    }
}

fn is_pdu(pdu: &Pdu<'_>, (seq, command, status): Header, says: &Says) -> bool {
    let wanted = Pdu {
        seq,
        command,
        status,
        body: body_of(says),
    };
    *pdu == wanted && is_copied(&pdu.body) && says_both(&pdu.body, says)
}

/// Asserts what a frame says.
fn assert_frame(rt: &impl Abort, frame: &Frame, header: Header, says: &Says, message: &str) {
    assert!(rt; is_pdu(&decode(frame), header, says), "{message}");
}

/// Asserts what the only frame says.
fn assert_frames(rt: &impl Abort, frames: &[Frame], header: Header, says: &Says, message: &str) {
    assert!(rt; frames.len() == 1, "one frame");
    assert_frame(rt, &frames[0], header, says, message);
}

/// The frames of a piece.
fn frames_of_piece(rt: &impl Abort, alloc: Global, piece: &Bytes) -> Vec<Frame> {
    let mut tail = Tail::at(0);
    frames_of(rt, alloc, &mut tail, Moment::epoch(), piece)
}

/// Asserts what the octets of a PDU say.
pub fn assert_pdu(
    rt: &impl Abort,
    alloc: Global,
    octets: &[u8],
    header: Header,
    says: &Says,
    message: &str,
) {
    assert!(rt; octets.len() <= 1000, "few octets");
    let piece = Bytes::copy_from_slice(alloc, octets).expect(rt, "a piece");
    let frames = frames_of_piece(rt, alloc, &piece);
    assert_frames(rt, frames.as_slice(), header, says, message);
}

/// The octets of a PDU of this length with this body (SMPP 3.4, 3.2).
fn pdu_of(
    alloc: Global,
    length: u32,
    (seq, command, status): Header,
    body: &[u8],
) -> Result<Vec<u8>, AllocError> {
    let mut octets = length.to_be_bytes().to_vec(alloc)?;
    octets.extend_from_slice(&command.to_be_bytes())?;
    octets.extend_from_slice(&status.to_be_bytes())?;
    octets.extend_from_slice(&seq.to_be_bytes())?;
    octets.extend_from_slice(body)?;
    Ok(octets)
}

/// Asserts what a PDU with this body says.
pub fn assert_body(
    rt: &impl Abort,
    alloc: Global,
    header: Header,
    body: &[u8],
    says: &Says,
    message: &str,
) {
    assert!(rt; body.len() <= 200, "a short body");
    let length = 16 + body.len() as u32;
    let octets = pdu_of(alloc, length, header, body).expect(rt, "a PDU");
    assert_pdu(rt, alloc, octets.as_slice(), header, says, message);
}
