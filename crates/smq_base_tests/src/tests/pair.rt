//! Sessions as real traffic has them, whose pairs are known by hand, and refused memory.
mod many;
mod sessions;

use smq_kit::{Dir, Place, SessionId};
use smq_pair::{Pair, Pairing};
use std::process::Abort;

pub const CLIENT: Dir = Dir::FromClient;

pub const CENTRE: Dir = Dir::FromCentre;

pub const SUBMIT_SM: u32 = 0x0000_0004;

pub const DELIVER_SM: u32 = 0x0000_0005;

pub const UNBIND: u32 = 0x0000_0006;

pub const BIND_TRANSCEIVER: u32 = 0x0000_0009;

pub const OUTBIND: u32 = 0x0000_000b;

pub const ENQUIRE_LINK: u32 = 0x0000_0015;

pub const ALERT_NOTIFICATION: u32 = 0x0000_0102;

pub const GENERIC_NACK: u32 = 0x8000_0000;

pub const SUBMIT_SM_RESP: u32 = 0x8000_0004;

pub const DELIVER_SM_RESP: u32 = 0x8000_0005;

pub const UNBIND_RESP: u32 = 0x8000_0006;

pub const BIND_TRANSCEIVER_RESP: u32 = 0x8000_0009;

pub const ENQUIRE_LINK_RESP: u32 = 0x8000_0015;

/// A PDU: its direction, command_id, sequence_number and command_status.
pub type Pdu = (Dir, u32, u32, u32);

/// The place of the PDU of a number, of session 1.
pub fn place(dir: Dir, number: usize) -> Place {
    Place {
        session: SessionId(1),
        dir,
        offset: (number as u64).saturating_mul(16),
    }
}

/// The first PDUs without a pair: of those that wait, and of the strays.
pub fn first_alone(pairing: &Pairing) -> (Option<Place>, Option<Place>) {
    (pairing.waiting().next(), pairing.strays().next())
}

/// Adds a PDU for which memory was refused, which left it the next.
fn add_again(rt: &impl Abort, pairing: &mut Pairing, at: Place, pdu: Pdu) -> Option<Pair> {
    let (_, command, seq, status) = pdu;
    assert!(rt; pairing.is_next(at), "as before");
    pairing.add(at, seq, command, status).expect(rt, "a PDU")
}

/// Adds a PDU, again where memory was refused, which left all as it was.
pub fn add(rt: &impl Abort, pairing: &mut Pairing, at: Place, pdu: Pdu) -> Option<Pair> {
    let (_, command, seq, status) = pdu;
    let alone = first_alone(pairing);
    assert!(rt; pairing.is_next(at), "a next PDU");
    if let Ok(made) = pairing.add(at, seq, command, status) {
        return made;
    }
    assert!(rt;
        pairing.pair_of(at).is_none() && first_alone(pairing) == alone,
        "as before"
    );
    add_again(rt, pairing, at, pdu)
}

/// Adds the submit_sm of a pair, which makes none.
fn add_request(rt: &impl Abort, pairing: &mut Pairing, pair: Pair) {
    let made = add(rt, pairing, pair.request, (CLIENT, SUBMIT_SM, 7, 0));
    assert!(rt; made.is_none(), "no pair");
}

/// Adds the submit_sm_resp of a pair, which makes it.
fn add_response(rt: &impl Abort, pairing: &mut Pairing, pair: Pair) {
    let made = add(
        rt,
        pairing,
        pair.response,
        (CENTRE, SUBMIT_SM_RESP, 7, 0x45),
    );
    assert!(rt; made == Some(pair), "a pair");
}

/// The response comes, and nothing is alone; then that is undone, and the request waits.
fn assert_undone(rt: &impl Abort, pairing: &mut Pairing, pair: Pair) {
    add_response(rt, pairing, pair);
    assert!(rt; first_alone(pairing) == (None, None), "a pair");
    pairing.undo();
    assert!(rt;
        first_alone(pairing) == (Some(pair.request), None),
        "the request waits"
    );
    assert!(rt; pairing.pair_of(pair.request).is_none(), "no pair");
}

/// A response whose coming is undone leaves its request waiting, and makes the pair when it comes again.
#[test]
fn a_response_is_undone_and_comes_again(rt: HostRuntime) {
    let mut pairing = Pairing::new(rt.alloc());
    let pair = Pair {
        request: place(CLIENT, 0),
        response: place(CENTRE, 0),
        agrees: true,
        status: 0x45,
    };
    add_request(&rt, &mut pairing, pair);
    pairing.settle();
    assert_undone(&rt, &mut pairing, pair);
    add_response(&rt, &mut pairing, pair);
    assert!(rt; pairing.pair_of(pair.request) == Some(pair), "a pair again");
}
