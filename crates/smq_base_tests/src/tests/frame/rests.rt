//! Rests of octets that come in many ways.
use crate::tests::frame::{Found, found_as, frames_of, is_copied, is_plain, moment_of, take};
use bytes::Bytes;
use smq_frame::{Frame, Tail};
use std::alloc::Global;
use std::process::Abort;

/// Pieces of octets, one after the other: so many of so many octets.
type Pieces = &'static [(usize, usize)];

/// How all but the last of 1,200 octets come.
const CUTS: &[(&str, Pieces)] = &[
    ("one piece", &[(1, 1199)]),
    ("single octets", &[(1199, 1)]),
    ("pieces of 511", &[(2, 511), (1, 177)]),
    ("pieces of 512", &[(2, 512), (1, 175)]),
    ("pieces of 513", &[(2, 513), (1, 173)]),
    ("600 octets, then single ones", &[(1, 600), (599, 1)]),
    ("687 octets, then single ones", &[(1, 687), (512, 1)]),
    ("686 octets, then single ones", &[(1, 686), (513, 1)]),
    ("three single octets, then all others", &[(3, 1), (1, 1196)]),
];

/// Places of octets: after the length, at ends of the parts that these pieces make, and the last.
const PLACES: &[usize] = &[
    4, 512, 513, 686, 687, 1021, 1022, 1023, 1024, 1025, 1026, 1112, 1113, 1198,
];

/// All but the last octet of a PDU of 1,200, of which each after its length tells its place.
fn octets_of_pdu(rt: &impl Abort, alloc: Global) -> Vec<u8> {
    let mut octets = Vec::from_slice(alloc, &[0, 0, 4, 176]).expect(rt, "octets");
    for place in 4..1199_u64 {
        octets.push((place % 251) as u8).expect(rt, "octets");
    }
    octets
}

/// Octets that come in pieces.
fn take_pieces(
    rt: &impl Abort,
    alloc: Global,
    tail: &mut Tail,
    found: &mut Vec<Found>,
    octets: &[u8],
    pieces: Pieces,
) {
    let mut others = octets;
    for (count, size) in pieces {
        for _ in 0..*count {
            assert!(rt; *size <= others.len(), "octets");
            let (piece, after) = others.split_at(*size);
            take(rt, alloc, tail, found, moment_of(rt, 1), piece);
            others = after;
        }
    }
    assert!(rt; others.is_empty(), "octets that wait");
}

/// Octets come in pieces, none of which completes a PDU.
fn take_rest(rt: &impl Abort, alloc: Global, tail: &mut Tail, octets: &[u8], pieces: Pieces) {
    let mut found = Vec::new(alloc);
    take_pieces(rt, alloc, tail, &mut found, octets, pieces);
    assert!(rt; found.is_empty(), "octets that wait");
}

/// The tail of octets that come in pieces, none of which completes a PDU.
fn fed(rt: &impl Abort, alloc: Global, octets: &[u8], pieces: Pieces) -> Tail {
    let mut tail = Tail::at(0);
    take_rest(rt, alloc, &mut tail, octets, pieces);
    tail
}

/// Whether these octets are the rest, and a copy of the tail is the same.
fn is_rest(rt: &impl Abort, alloc: Global, tail: &Tail, octets: &[u8]) -> bool {
    let rest = tail.rest(alloc).expect(rt, "the rest");
    rest.as_slice() == octets && is_copied(tail)
}

/// Whether a frame is the PDU of these octets and one octet more.
fn is_pdu_of(frame: &Frame, octets: &[u8]) -> bool {
    found_as(frame) == (0, 9000, 1200)
        && frame.octets.as_slice().split_last() == Some((&77, octets))
}

/// Whether the only frame is the PDU of these octets and one octet more.
fn are_pdu_of(found: &[Frame], octets: &[u8]) -> bool {
    match found {
        [frame] => is_pdu_of(frame, octets),
        _ => false,
    }
}

/// Whether one octet more completes the PDU of these octets.
fn is_completed(rt: &impl Abort, alloc: Global, tail: &mut Tail, octets: &[u8]) -> bool {
    let last = Bytes::from_static(&[77]);
    let found = frames_of(rt, alloc, tail, moment_of(rt, 9), &last);
    are_pdu_of(found.as_slice(), octets) && is_plain(tail, 1200)
}

/// Whether the tail is that of these octets in these pieces, too.
fn is_same_in_pieces(
    rt: &impl Abort,
    alloc: Global,
    tail: &Tail,
    octets: &[u8],
    pieces: Pieces,
) -> bool {
    let other = fed(rt, alloc, octets, pieces);
    tail.is_same(&other) && other.is_same(tail)
}

/// Whether the tail is that of these octets in whatever pieces they come.
fn is_same_in_any_pieces(rt: &impl Abort, alloc: Global, tail: &Tail, octets: &[u8]) -> bool {
    let mut is_same = true;
    for (_, pieces) in CUTS {
        is_same = is_same && is_same_in_pieces(rt, alloc, tail, octets, pieces);
    }
    is_same
}

/// Whether neither the tail nor that of these octets in these pieces is the other.
fn is_other_in_pieces(
    rt: &impl Abort,
    alloc: Global,
    tail: &Tail,
    octets: &[u8],
    pieces: Pieces,
) -> bool {
    let other = fed(rt, alloc, octets, pieces);
    !tail.is_same(&other) && !other.is_same(tail)
}

/// Whether the tail isn't that of octets that come in these pieces, and of which one is another octet.
fn is_told_apart(
    rt: &impl Abort,
    alloc: Global,
    tail: &Tail,
    octets: &mut [u8],
    pieces: Pieces,
) -> bool {
    let mut is_told = true;
    for place in PLACES {
        assert!(rt; *place < octets.len(), "a place");
        let octet = octets[*place];
        octets[*place] = octet ^ 1;
        is_told = is_told && is_other_in_pieces(rt, alloc, tail, octets, pieces);
        octets[*place] = octet;
    }
    is_told
}

/// Whether a tail of these octets is like that of the same octets in any pieces, and like none of other octets.
fn is_known(
    rt: &impl Abort,
    alloc: Global,
    tail: &Tail,
    octets: &mut [u8],
    pieces: Pieces,
) -> bool {
    is_rest(rt, alloc, tail, octets)
        && is_same_in_any_pieces(rt, alloc, tail, octets)
        && is_told_apart(rt, alloc, tail, octets, pieces)
        && is_told_apart(rt, alloc, tail, octets, &[(1, 1199)])
}

/// Whether the tail of these octets in pieces is a known one, and is completed.
fn is_known_rest(rt: &impl Abort, alloc: Global, octets: &mut [u8], pieces: Pieces) -> bool {
    let mut tail = fed(rt, alloc, octets, pieces);
    is_known(rt, alloc, &tail, octets, pieces) && is_completed(rt, alloc, &mut tail, octets)
}

fn assert_cuts(rt: &impl Abort, alloc: Global, octets: &mut [u8]) {
    for (message, pieces) in CUTS {
        let is_known = is_known_rest(rt, alloc, octets, pieces);
        assert!(rt; is_known, "{message}");
    }
}

#[test]
fn a_rest_is_its_octets_whatever_pieces_they_came_in(rt: HostRuntime) {
    let mut octets = octets_of_pdu(&rt, rt.alloc());
    assert_cuts(&rt, rt.alloc(), &mut octets);
}
