//! Sessions with their pairs, what waits and what is a stray.
use crate::tests::pair::{
    ALERT_NOTIFICATION, BIND_TRANSCEIVER, BIND_TRANSCEIVER_RESP, CENTRE, CLIENT, DELIVER_SM,
    DELIVER_SM_RESP, ENQUIRE_LINK, ENQUIRE_LINK_RESP, GENERIC_NACK, OUTBIND, Pdu, SUBMIT_SM,
    SUBMIT_SM_RESP, UNBIND, UNBIND_RESP, add, place,
};
use smq_kit::{Dir, Place};
use smq_pair::{Pair, Pairing, Places};
use std::alloc::Global;
use std::process::Abort;

struct Session {
    fact: &'static str,
    /// The n-th stands at the offset 16 n of its direction.
    pdus: &'static [Pdu],
    /// A request's number, its response's, and whether that agrees.
    pairs: &'static [(usize, usize, bool)],
    waiting: &'static [usize],
    strays: &'static [usize],
}

static SESSIONS: [Session; 9] = [
    Session {
        fact: "a window of ten requests is answered out of order",
        pdus: &[
            (CLIENT, SUBMIT_SM, 1, 0),
            (CLIENT, SUBMIT_SM, 2, 0),
            (CLIENT, SUBMIT_SM, 3, 0),
            (CLIENT, SUBMIT_SM, 4, 0),
            (CLIENT, SUBMIT_SM, 5, 0),
            (CLIENT, SUBMIT_SM, 6, 0),
            (CLIENT, SUBMIT_SM, 7, 0),
            (CLIENT, SUBMIT_SM, 8, 0),
            (CLIENT, SUBMIT_SM, 9, 0),
            (CLIENT, SUBMIT_SM, 10, 0),
            (CENTRE, SUBMIT_SM_RESP, 3, 0),
            (CENTRE, SUBMIT_SM_RESP, 1, 0),
            (CENTRE, SUBMIT_SM_RESP, 2, 0x58),
            (CENTRE, SUBMIT_SM_RESP, 10, 0),
            (CENTRE, SUBMIT_SM_RESP, 9, 0),
            (CENTRE, SUBMIT_SM_RESP, 4, 0),
            (CENTRE, SUBMIT_SM_RESP, 5, 0),
            (CENTRE, SUBMIT_SM_RESP, 8, 0x14),
            (CENTRE, SUBMIT_SM_RESP, 6, 0),
            (CENTRE, SUBMIT_SM_RESP, 7, 0),
        ],
        pairs: &[
            (0, 11, true),
            (1, 12, true),
            (2, 10, true),
            (3, 15, true),
            (4, 16, true),
            (5, 18, true),
            (6, 19, true),
            (7, 17, true),
            (8, 14, true),
            (9, 13, true),
        ],
        waiting: &[],
        strays: &[],
    },
    Session {
        fact: "generic_nack answers the request of its number",
        pdus: &[
            (CLIENT, SUBMIT_SM, 1, 0),
            (CLIENT, 0x0000_00ff, 2, 0),
            (CENTRE, SUBMIT_SM_RESP, 1, 0),
            (CENTRE, GENERIC_NACK, 2, 3),
        ],
        pairs: &[(0, 2, true), (1, 3, true)],
        waiting: &[],
        strays: &[],
    },
    Session {
        fact: "a session that is unbound leaves a submit_sm unanswered",
        pdus: &[
            (CLIENT, BIND_TRANSCEIVER, 1, 0),
            (CENTRE, BIND_TRANSCEIVER_RESP, 1, 0),
            (CLIENT, SUBMIT_SM, 2, 0),
            (CLIENT, UNBIND, 3, 0),
            (CENTRE, UNBIND_RESP, 3, 0),
        ],
        pairs: &[(0, 1, true), (3, 4, true)],
        waiting: &[2],
        strays: &[],
    },
    Session {
        fact: "both sides ask enquire_link with the same numbers",
        pdus: &[
            (CLIENT, ENQUIRE_LINK, 1, 0),
            (CENTRE, ENQUIRE_LINK, 1, 0),
            (CLIENT, ENQUIRE_LINK_RESP, 1, 0),
            (CENTRE, ENQUIRE_LINK_RESP, 1, 0),
            (CENTRE, ENQUIRE_LINK, 2, 0),
            (CLIENT, ENQUIRE_LINK_RESP, 2, 0),
            (CENTRE, ENQUIRE_LINK, 3, 0),
            (CLIENT, ENQUIRE_LINK, 3, 0),
        ],
        pairs: &[(0, 3, true), (1, 2, true), (4, 5, true)],
        waiting: &[7, 6],
        strays: &[],
    },
    Session {
        fact: "numbers begin anew after 2^31 - 1",
        pdus: &[
            (CLIENT, SUBMIT_SM, 0x7fff_ffff, 0),
            (CENTRE, SUBMIT_SM_RESP, 0x7fff_ffff, 0),
            (CLIENT, SUBMIT_SM, 1, 0),
            (CENTRE, SUBMIT_SM_RESP, 1, 8),
            (CLIENT, SUBMIT_SM, 0x7fff_ffff, 0),
            (CENTRE, SUBMIT_SM_RESP, 0x7fff_ffff, 0x45),
            (CLIENT, SUBMIT_SM, 1, 0),
        ],
        pairs: &[(0, 1, true), (2, 3, true), (4, 5, true)],
        waiting: &[6],
        strays: &[],
    },
    Session {
        fact: "outbind and alert_notification want no response",
        pdus: &[
            (CENTRE, OUTBIND, 1, 0),
            (CLIENT, BIND_TRANSCEIVER, 1, 0),
            (CENTRE, BIND_TRANSCEIVER_RESP, 1, 0),
            (CENTRE, ALERT_NOTIFICATION, 2, 0),
        ],
        pairs: &[(1, 2, true)],
        waiting: &[],
        strays: &[],
    },
    Session {
        fact: "a response to another command disagrees, and one of another number is a stray",
        pdus: &[
            (CLIENT, SUBMIT_SM, 1, 0),
            (CENTRE, ENQUIRE_LINK_RESP, 1, 0),
            (CENTRE, SUBMIT_SM_RESP, 5, 0),
        ],
        pairs: &[(0, 1, false)],
        waiting: &[],
        strays: &[2],
    },
    Session {
        fact: "the second response to a request is that of the next request of its number",
        pdus: &[
            (CLIENT, SUBMIT_SM, 7, 0),
            (CENTRE, SUBMIT_SM_RESP, 7, 0),
            (CENTRE, SUBMIT_SM_RESP, 7, 0x58),
            (CENTRE, SUBMIT_SM_RESP, 7, 0),
            (CLIENT, SUBMIT_SM, 7, 0),
        ],
        pairs: &[(0, 1, true), (4, 2, true)],
        waiting: &[],
        strays: &[3],
    },
    Session {
        fact: "a session of Kannel 1.4.5, as it was captured: both sides ask by the same numbers, and the client unbinds",
        pdus: &[
            (CLIENT, BIND_TRANSCEIVER, 1, 0),
            (CENTRE, BIND_TRANSCEIVER_RESP, 1, 0),
            (CLIENT, ENQUIRE_LINK, 2, 0),
            (CENTRE, ENQUIRE_LINK_RESP, 2, 0),
            (CENTRE, ENQUIRE_LINK, 1, 0),
            (CLIENT, ENQUIRE_LINK_RESP, 1, 0),
            (CLIENT, SUBMIT_SM, 3, 0),
            (CENTRE, SUBMIT_SM_RESP, 3, 0),
            (CLIENT, SUBMIT_SM, 4, 0),
            (CENTRE, SUBMIT_SM_RESP, 4, 0),
            (CLIENT, ENQUIRE_LINK, 5, 0),
            (CLIENT, SUBMIT_SM, 6, 0),
            (CENTRE, ENQUIRE_LINK_RESP, 5, 0),
            (CENTRE, SUBMIT_SM_RESP, 6, 0),
            (CENTRE, DELIVER_SM, 2, 0),
            (CLIENT, DELIVER_SM_RESP, 2, 0),
            (CENTRE, DELIVER_SM, 3, 0),
            (CLIENT, DELIVER_SM_RESP, 3, 0),
            (CLIENT, SUBMIT_SM, 7, 0),
            (CENTRE, SUBMIT_SM_RESP, 7, 0),
            (CENTRE, DELIVER_SM, 4, 0),
            (CLIENT, DELIVER_SM_RESP, 4, 0),
            (CENTRE, ENQUIRE_LINK, 5, 0),
            (CLIENT, ENQUIRE_LINK_RESP, 5, 0),
            (CLIENT, ENQUIRE_LINK, 8, 0),
            (CENTRE, ENQUIRE_LINK_RESP, 8, 0),
            (CENTRE, DELIVER_SM, 6, 0),
            (CLIENT, DELIVER_SM_RESP, 6, 0),
            (CENTRE, ENQUIRE_LINK, 7, 0),
            (CLIENT, ENQUIRE_LINK_RESP, 7, 0),
            (CENTRE, DELIVER_SM, 8, 0),
            (CLIENT, DELIVER_SM_RESP, 8, 0),
            (CENTRE, DELIVER_SM, 9, 0),
            (CLIENT, DELIVER_SM_RESP, 9, 0),
            (CLIENT, ENQUIRE_LINK, 9, 0),
            (CENTRE, ENQUIRE_LINK_RESP, 9, 0),
            (CENTRE, ENQUIRE_LINK, 10, 0),
            (CLIENT, ENQUIRE_LINK_RESP, 10, 0),
            (CLIENT, ENQUIRE_LINK, 10, 0),
            (CENTRE, ENQUIRE_LINK_RESP, 10, 0),
            (CENTRE, ENQUIRE_LINK, 11, 0),
            (CLIENT, ENQUIRE_LINK_RESP, 11, 0),
            (CLIENT, ENQUIRE_LINK, 11, 0),
            (CENTRE, ENQUIRE_LINK_RESP, 11, 0),
            (CENTRE, ENQUIRE_LINK, 12, 0),
            (CLIENT, ENQUIRE_LINK_RESP, 12, 0),
            (CLIENT, ENQUIRE_LINK, 12, 0),
            (CENTRE, ENQUIRE_LINK_RESP, 12, 0),
            (CENTRE, ENQUIRE_LINK, 13, 0),
            (CLIENT, ENQUIRE_LINK_RESP, 13, 0),
            (CLIENT, ENQUIRE_LINK, 13, 0),
            (CENTRE, ENQUIRE_LINK_RESP, 13, 0),
            (CENTRE, ENQUIRE_LINK, 14, 0),
            (CLIENT, ENQUIRE_LINK_RESP, 14, 0),
            (CLIENT, ENQUIRE_LINK, 14, 0),
            (CENTRE, ENQUIRE_LINK_RESP, 14, 0),
            (CLIENT, ENQUIRE_LINK, 15, 0),
            (CENTRE, ENQUIRE_LINK_RESP, 15, 0),
            (CENTRE, ENQUIRE_LINK, 15, 0),
            (CLIENT, ENQUIRE_LINK_RESP, 15, 0),
            (CLIENT, ENQUIRE_LINK, 16, 0),
            (CENTRE, ENQUIRE_LINK_RESP, 16, 0),
            (CENTRE, ENQUIRE_LINK, 16, 0),
            (CLIENT, ENQUIRE_LINK_RESP, 16, 0),
            (CLIENT, ENQUIRE_LINK, 17, 0),
            (CLIENT, UNBIND, 18, 0),
            (CENTRE, ENQUIRE_LINK_RESP, 17, 0),
            (CENTRE, UNBIND_RESP, 18, 0),
        ],
        pairs: &[
            (0, 1, true),
            (2, 3, true),
            (4, 5, true),
            (6, 7, true),
            (8, 9, true),
            (10, 12, true),
            (11, 13, true),
            (14, 15, true),
            (16, 17, true),
            (18, 19, true),
            (20, 21, true),
            (22, 23, true),
            (24, 25, true),
            (26, 27, true),
            (28, 29, true),
            (30, 31, true),
            (32, 33, true),
            (34, 35, true),
            (36, 37, true),
            (38, 39, true),
            (40, 41, true),
            (42, 43, true),
            (44, 45, true),
            (46, 47, true),
            (48, 49, true),
            (50, 51, true),
            (52, 53, true),
            (54, 55, true),
            (56, 57, true),
            (58, 59, true),
            (60, 61, true),
            (62, 63, true),
            (64, 66, true),
            (65, 67, true),
        ],
        waiting: &[],
        strays: &[],
    },
];

/// Adds a PDU, whose pair is then found at its place.
fn put(rt: &impl Abort, pairing: &mut Pairing, at: Place, pdu: Pdu, fact: &str) {
    let made = add(rt, pairing, at, pdu);
    assert!(rt; pairing.pair_of(at) == made, "{fact}");
}

impl Session {
    fn place(&self, number: usize) -> Option<Place> {
        Some(place(self.pdus.get(number)?.0, number))
    }

    /// The pair in which the PDU of a number stands.
    fn pair(&self, number: usize) -> Option<Pair> {
        for (request, response, agrees) in self.pairs {
            if *request == number || *response == number {
                return Some(Pair {
                    request: self.place(*request)?,
                    response: self.place(*response)?,
                    agrees: *agrees,
                    status: self.pdus.get(*response)?.3,
                });
            }
        }
        None
    }

    /// Puts the PDUs of a direction, or at `None` those of both as they come.
    fn put_turn(&self, rt: &impl Abort, pairing: &mut Pairing, turn: Option<Dir>) {
        for (number, pdu) in self.pdus.iter().enumerate() {
            if turn.is_none() || turn == Some(pdu.0) {
                put(rt, pairing, place(pdu.0, number), *pdu, self.fact);
            }
        }
    }

    /// Puts the PDUs of one direction after those of another.
    fn put(&self, rt: &impl Abort, pairing: &mut Pairing, turns: &[Option<Dir>]) {
        for turn in turns {
            self.put_turn(rt, pairing, *turn);
        }
    }

    fn has_pairs(&self, pairing: &mut Pairing) -> bool {
        for (number, pdu) in self.pdus.iter().enumerate() {
            if pairing.pair_of(place(pdu.0, number)) != self.pair(number) {
                return false;
            }
        }
        true
    }

    /// Whether the places are those of these PDUs, in order.
    fn has_places(&self, mut found: Places<'_>, wanted: &[usize]) -> bool {
        for number in wanted {
            if found.next() != self.place(*number) {
                return false;
            }
        }
        found.next().is_none()
    }

    fn is_paired(&self, pairing: &mut Pairing) -> bool {
        self.has_pairs(pairing)
            && self.has_places(pairing.waiting(), self.waiting)
            && self.has_places(pairing.strays(), self.strays)
    }
}

fn assert_session(rt: &impl Abort, alloc: Global, session: &Session, turns: &[Option<Dir>]) {
    let mut pairing = Pairing::new(alloc);
    session.put(rt, &mut pairing, turns);
    assert!(rt; session.is_paired(&mut pairing), "{}", session.fact);
}

#[test]
fn sessions_are_paired_in_any_order_of_directions(rt: HostRuntime) {
    for session in &SESSIONS {
        assert_session(&rt, rt.alloc(), session, &[None]);
        assert_session(&rt, rt.alloc(), session, &[Some(CLIENT), Some(CENTRE)]);
        assert_session(&rt, rt.alloc(), session, &[Some(CENTRE), Some(CLIENT)]);
    }
}
