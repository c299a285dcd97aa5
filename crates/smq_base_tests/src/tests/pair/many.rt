//! Many PDUs of one number.
use crate::tests::pair::{CENTRE, CLIENT, SUBMIT_SM, SUBMIT_SM_RESP, add, first_alone, place};
use smq_pair::{Pair, Pairing};
use std::process::Abort;

/// The pair of a submit_sm and a submit_sm_resp of a number.
fn pair(number: usize) -> Pair {
    Pair {
        request: place(CLIENT, number),
        response: place(CENTRE, number),
        agrees: true,
        status: 0,
    }
}

fn is_pair_added(rt: &impl Abort, pairing: &mut Pairing, number: usize) -> bool {
    let pair = pair(number);
    add(rt, pairing, pair.response, (CENTRE, SUBMIT_SM_RESP, 7, 0)) == Some(pair)
        && pairing.pair_of(pair.request) == Some(pair)
}

/// Whether nothing waits, nothing is a stray, and a submit_sm of this number isn't the next.
fn is_settled(pairing: &Pairing, number: usize) -> bool {
    !pairing.is_next(place(CLIENT, number)) && first_alone(pairing) == (None, None)
}

/// Adds so many requests.
fn add_requests(rt: &impl Abort, pairing: &mut Pairing, count: usize) {
    for number in 0..count {
        let made = add(
            rt,
            pairing,
            place(CLIENT, number),
            (CLIENT, SUBMIT_SM, 7, 0),
        );
        assert!(rt; made.is_none(), "no pair");
    }
}

/// Adds so many responses, each of which makes its pair.
fn add_responses(rt: &impl Abort, pairing: &mut Pairing, count: usize) {
    for number in 0..count {
        assert!(rt; is_pair_added(rt, pairing, number), "a pair");
    }
}

/// The n-th response is that of the n-th request, however many there are of one number. Whichever allocation is
/// refused (gate/check-out-of-memory-in-calls) the same pairs are made.
#[test]
fn many_of_one_number_are_paired_in_turn(rt: HostRuntime) {
    let mut pairing = Pairing::new(rt.alloc());
    add_requests(&rt, &mut pairing, 2000);
    add_responses(&rt, &mut pairing, 2000);
    assert!(rt; is_settled(&pairing, 1999), "nothing alone");
}
