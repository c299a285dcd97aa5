//! Which half of an exchange a PDU is (SMPP 3.4, 3.2 and 5.1.2.1).
ghost use Rattle.std.specs.Prelude.{◌≡◌, ◌+◌, ◌≤◌, length};
ghost use Rattle.smq_pdu.specs.Header.{word_at};
ghost use Rattle.smq_window.specs.Exchange as defined;

use smq_kit::Dir;
use smq_pdu::{is_request, is_response};

/// One of the two PDUs of an exchange.
#[derive(Clone, Copy, Debug, PartialEq, Eq)]
pub enum Half {
    Request,
    Response,
}

/// A PDU as a half of an exchange: whose request it is or answers, its sequence_number, and which half it is.
#[derive(Clone, Copy, Debug, PartialEq, Eq)]
pub struct Exchange {
    pub asker: Dir,
    pub sequence_number: u32,
    pub half: Half,
}

/// What a PDU is; none where it has no other half, as an outbind or an alert_notification.
#[tactic(auto, unfolding(crate::specs::Exchange::exchange_of))]
pub fn exchange_of(sender: Dir, octets: &[u8]) -> Option<Exchange>
    requires { 16 ≤ length octets.now }
    ensures { result ≡ defined.exchange_of sender octets.now }
{
    let command = word(octets, 4);
    let sequence_number = word(octets, 12);
    if is_response(command) {
        return Some(Exchange {
            asker: receiver(sender),
            sequence_number,
            half: Half::Response,
        });
    }
    if is_request(command) {
        return Some(Exchange {
            asker: sender,
            sequence_number,
            half: Half::Request,
        });
    }
    None
}

/// Who receives what a side sends.
fn receiver(sender: Dir) -> Dir
    ensures { result ≡ defined.receiver sender }
{
    match sender {
        Dir::FromClient => Dir::FromCentre,
        Dir::FromCentre => Dir::FromClient,
    }
}

/// The 32-bit word at a place.
#[tactic(auto, unfolding(smq_pdu::specs::Header::word_at))]
fn word(octets: &[u8], place: usize) -> u32
    requires { place + 4 ≤ length octets.now }
    ensures { result ≡ word_at place octets.now }
{
    u32::from_be_bytes([
        octets[place],
        octets[place + 1],
        octets[place + 2],
        octets[place + 3],
    ])
}
