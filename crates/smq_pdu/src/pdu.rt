//! A whole PDU: its header and its body; and the command_ids that are told from others (SMPP 3.4, 5.1.2.1), with what they make of a
//! PDU.
ghost use Rattle.std.specs.Prelude.{◌≡◌, ◌+◌, ◌≤◌, length};
ghost use Rattle.smq_pdu.specs.Header.{word_at, header_with};
ghost use Rattle.smq_pdu.specs.Pdu.{pdu_of};
ghost use Rattle.smq_pdu.specs.Decoded.{pdu_view};
ghost use Rattle.smq_pdu.specs.Pairing as defined;

use crate::body::{Body, read_body};
use smq_frame::Frame;

const GENERIC_NACK: u32 = 0x8000_0000;

pub(crate) const SUBMIT_SM: u32 = 0x0000_0004;

pub(crate) const SUBMIT_SM_RESP: u32 = 0x8000_0004;

pub(crate) const DELIVER_SM: u32 = 0x0000_0005;

pub(crate) const DATA_SM: u32 = 0x0000_0103;

pub(crate) const DATA_SM_RESP: u32 = 0x8000_0103;

const OUTBIND: u32 = 0x0000_000b;

const ALERT_NOTIFICATION: u32 = 0x0000_0102;

/// The bit that a response's command_id has set.
const RESPONSE_BIT: u32 = 0x8000_0000;

/// A PDU. Its body borrows from the frame that it was decoded from.
#[derive(Debug, PartialEq, Eq, Drop)]
pub struct Pdu<'a> {
    /// sequence_number
    pub seq: u32,
    /// command_id
    pub command: u32,
    /// command_status, 0 for success
    pub status: u32,
    /// What its body says.
    pub body: Body<'a>,
}

/// What a frame says. Every frame says something, and nothing but a message id is copied.
pub fn decode(frame: &Frame) -> Pdu<'_>
    ensures { pdu_view result ≡ pdu_of frame.now.octets }
{
    let octets = frame.octets.as_slice();
    let command = word(octets, 4);
    Pdu {
        seq: word(octets, 12),
        command,
        status: word(octets, 8),
        body: read_body(command, &octets[16..]),
    }
}

/// The 32-bit word at a place.
#[tactic(auto, unfolding(crate::specs::Header::word_at))]
fn word(octets: &[u8], place: usize) -> u32
    requires { place + 4 ≤ length octets.now }
    ensures { result ≡ word_at place octets.now }
{
    u32::from_be_bytes([
        octets[place],
        octets[place + 1],
        octets[place + 2],
        octets[place + 3],
    ])
}

/// Whether a PDU with this command_id is a response: bit 31 is set.
pub fn is_response(command: u32) -> bool
    ensures { result ≡ defined.is_response (header_with command) }
{
    command >= RESPONSE_BIT
}

/// Whether a PDU with this command_id is a request, which may have a response. outbind and
/// alert_notification have none, so they are neither requests nor responses.
pub fn is_request(command: u32) -> bool
    ensures { result ≡ defined.is_request (header_with command) }
{
    !is_response(command) && command != OUTBIND && command != ALERT_NOTIFICATION
}

/// Whether a response's command_id fits that of its request: it is the same with bit 31 set, or
/// generic_nack.
pub fn agrees(request: u32, response: u32) -> bool
    ensures { result ≡ defined.agrees (header_with request) (header_with response) }
{
    response == GENERIC_NACK || (!is_response(request) && response == request + RESPONSE_BIT)
}
