//! What no clause says: that calls succeed, and frames of octets from outside.
mod rests;

use bytes::Bytes;
use smq_frame::{Frame, Tail, frames};
use smq_kit::Moment;
use std::alloc::{AllocError, Global};
use std::process::Abort;

/// A submit_sm of 49 octets with sequence_number 1, from 1000 to 447700900123.
const SUBMIT: &[u8] = b"\0\0\0\x31\0\0\0\x04\0\0\0\0\0\0\0\x01\0\0\01000\0\x01\x01447700900123\0\
    \0\0\0\0\0\x01\0\0\0\0";

/// Two PDUs, a length of 15 at 98, and one more PDU.
const BROKEN: &[u8] = b"\0\0\0\x31\0\0\0\x04\0\0\0\0\0\0\0\x01\0\0\01000\0\x01\x01447700900123\0\
    \0\0\0\0\0\x01\0\0\0\0\
    \0\0\0\x31\0\0\0\x04\0\0\0\0\0\0\0\x02\0\0\01000\0\x01\x01447700900123\0\
    \0\0\0\0\0\x01\0\0\0\0\
    \0\0\0\x0f\0\0\0\x04\0\0\0\0\0\0\0\x03\
    \0\0\0\x31\0\0\0\x04\0\0\0\0\0\0\0\x04\0\0\01000\0\x01\x01447700900123\0\
    \0\0\0\0\0\x01\0\0\0\0";

/// The offset of a frame, its moment in ms since 1970 in UTC, and its number of octets.
pub type Found = (u64, u64, usize);

/// The number of octets taken, the number of those that wait, and the offset of a bad length.
type State = (u64, u64, Option<u64>);

/// Octets that come in pieces, and what is known of their frames and their tail.
struct Row {
    message: &'static str,
    /// The number of octets before these.
    offset: u64,
    /// The first of the octets. The others are 0.
    front: &'static [u8],
    octets: usize,
    /// The octets of each piece but the last. The n-th piece comes at n seconds.
    piece: usize,
    found: &'static [Found],
    tail: State,
}

const ROWS: &[Row] = &[
    Row {
        message: "a length of 15",
        offset: 0,
        front: &[0, 0, 0, 15],
        octets: 15,
        piece: 15,
        found: &[],
        tail: (15, 0, Some(0)),
    },
    Row {
        message: "a length of 16",
        offset: 0,
        front: &[0, 0, 0, 16],
        octets: 16,
        piece: 16,
        found: &[(0, 1000, 16)],
        tail: (16, 0, None),
    },
    Row {
        message: "the first octet alone",
        offset: 7,
        front: &[255],
        octets: 1,
        piece: 1,
        found: &[],
        tail: (8, 1, None),
    },
    Row {
        message: "a length of 131,072 in one piece",
        offset: 0,
        front: &[0, 2, 0, 0],
        octets: 131_072,
        piece: 131_072,
        found: &[(0, 1000, 131_072)],
        tail: (131_072, 0, None),
    },
    Row {
        message: "a length of 131,072 in two pieces",
        offset: 0,
        front: &[0, 2, 0, 0],
        octets: 131_072,
        piece: 131_071,
        found: &[(0, 2000, 131_072)],
        tail: (131_072, 0, None),
    },
    Row {
        message: "all but the last of 131,072 octets",
        offset: 0,
        front: &[0, 2, 0, 0],
        octets: 131_071,
        piece: 70_000,
        found: &[],
        tail: (131_071, 131_071, None),
    },
    Row {
        message: "a length of 131,073",
        offset: 0,
        front: &[0, 2, 0, 1],
        octets: 131_073,
        piece: 131_073,
        found: &[],
        tail: (131_073, 0, Some(0)),
    },
    Row {
        message: "a submit_sm in three pieces",
        offset: 0,
        front: SUBMIT,
        octets: 49,
        piece: 20,
        found: &[(0, 3000, 49)],
        tail: (49, 0, None),
    },
    Row {
        message: "a submit_sm octet by octet",
        offset: 0,
        front: SUBMIT,
        octets: 49,
        piece: 1,
        found: &[(0, 49_000, 49)],
        tail: (49, 0, None),
    },
    Row {
        message: "a submit_sm that ends the longest stream",
        offset: 281_474_976_710_607,
        front: SUBMIT,
        octets: 49,
        piece: 49,
        found: &[(281_474_976_710_607, 1000, 49)],
        tail: (281_474_976_710_656, 0, None),
    },
    Row {
        message: "1,200 octets octet by octet",
        offset: 0,
        front: &[0, 0, 4, 176],
        octets: 1200,
        piece: 1,
        found: &[(0, 1_200_000, 1200)],
        tail: (1200, 0, None),
    },
    Row {
        message: "1,200 octets in pieces of 511",
        offset: 0,
        front: &[0, 0, 4, 176],
        octets: 1200,
        piece: 511,
        found: &[(0, 3000, 1200)],
        tail: (1200, 0, None),
    },
    Row {
        message: "1,200 octets in pieces of 512",
        offset: 0,
        front: &[0, 0, 4, 176],
        octets: 1200,
        piece: 512,
        found: &[(0, 3000, 1200)],
        tail: (1200, 0, None),
    },
    Row {
        message: "1,200 octets in pieces of 513",
        offset: 0,
        front: &[0, 0, 4, 176],
        octets: 1200,
        piece: 513,
        found: &[(0, 3000, 1200)],
        tail: (1200, 0, None),
    },
    Row {
        message: "a length of 131,072 octet by octet",
        offset: 0,
        front: &[0, 2, 0, 0],
        octets: 131_072,
        piece: 1,
        found: &[(0, 131_072_000, 131_072)],
        tail: (131_072, 0, None),
    },
    Row {
        message: "a length of 131,072 in pieces of 3,000",
        offset: 0,
        front: &[0, 2, 0, 0],
        octets: 131_072,
        piece: 3000,
        found: &[(0, 44_000, 131_072)],
        tail: (131_072, 0, None),
    },
    Row {
        message: "all but the last of 131,072 octets in pieces of 7",
        offset: 0,
        front: &[0, 2, 0, 0],
        octets: 131_071,
        piece: 7,
        found: &[],
        tail: (131_071, 131_071, None),
    },
    Row {
        message: "a submit_sm after a bad length",
        offset: 0,
        front: BROKEN,
        octets: 163,
        piece: 110,
        found: &[(0, 1000, 49), (49, 1000, 49)],
        tail: (163, 0, Some(98)),
    },
];

/// The octets of a row.
fn octets_of(rt: &impl Abort, alloc: Global, row: &Row) -> Vec<u8> {
    let mut octets = Vec::from_slice(alloc, row.front).expect(rt, "octets");
    octets.resize(row.octets, 0).expect(rt, "octets");
    octets
}

pub fn found_as(frame: &Frame) -> Found {
    let milliseconds = frame.moment.milliseconds();
    (frame.offset, milliseconds, frame.octets.len())
}

/// Puts what is known of some frames after what was found.
fn push_found(found: &mut Vec<Found>, frames: &[Frame]) -> Result<(), AllocError> {
    for frame in frames {
        found.push(found_as(frame))?;
    }
    Ok(())
}

/// The frames of a piece, which the tail takes.
pub fn frames_of(
    rt: &impl Abort,
    alloc: Global,
    tail: &mut Tail,
    moment: Moment,
    piece: &Bytes,
) -> Vec<Frame> {
    assert!(rt; tail.has_room(piece.len()), "room");
    let (frames, after) = frames(alloc, tail, moment, piece).expect(rt, "frames");
    *tail = after;
    frames
}

/// The tail takes a piece, and what was found gets its frames.
fn take_piece(
    rt: &impl Abort,
    alloc: Global,
    tail: &mut Tail,
    found: &mut Vec<Found>,
    moment: Moment,
    piece: &Bytes,
) {
    let frames = frames_of(rt, alloc, tail, moment, piece);
    push_found(found, frames.as_slice()).expect(rt, "found frames");
}

/// The tail takes octets, and what was found gets their frames.
pub fn take(
    rt: &impl Abort,
    alloc: Global,
    tail: &mut Tail,
    found: &mut Vec<Found>,
    moment: Moment,
    octets: &[u8],
) {
    let piece = Bytes::copy_from_slice(alloc, octets).expect(rt, "a piece");
    take_piece(rt, alloc, tail, found, moment, &piece);
}

/// The moment of the n-th piece.
pub fn moment_of(rt: &impl Abort, number: usize) -> Moment {
    Moment::new((number as u64).saturating_mul(1000)).expect(rt, "a moment")
}

/// The tail takes octets in pieces of so many, and what was found gets their frames.
fn take_all(
    rt: &impl Abort,
    alloc: Global,
    tail: &mut Tail,
    found: &mut Vec<Found>,
    octets: &[u8],
    piece: usize,
) {
    assert!(rt; piece > 0, "a piece");
    let mut number: usize = 0;
    for part in octets.chunks(piece) {
        number = number.saturating_add(1);
        take(rt, alloc, tail, found, moment_of(rt, number), part);
    }
}

/// Asserts what is known of the frames of a row's octets, which the tail takes.
fn assert_frames(rt: &impl Abort, alloc: Global, tail: &mut Tail, octets: &[u8], row: &Row) {
    let mut found = Vec::new(alloc);
    take_all(rt, alloc, tail, &mut found, octets, row.piece);
    assert!(rt; found.as_slice() == row.found, "frames of {}", row.message);
}

/// A row's octets come, whose frames are as known.
fn feed(rt: &impl Abort, alloc: Global, tail: &mut Tail, row: &Row) {
    let octets = octets_of(rt, alloc, row);
    assert_frames(rt, alloc, tail, octets.as_slice(), row);
}

/// What a tail shows.
fn state_of(tail: &Tail) -> State {
    (tail.offset(), tail.waiting_octets(), tail.broken())
}

/// Whether a copy of a tail shows the same, and is told to be the same.
pub fn is_copied(tail: &Tail) -> bool {
    match tail.copy() {
        Ok(copy) => state_of(&copy) == state_of(tail) && tail.is_same(&copy),
        Err(_) => false,
    }
}

/// Whether a tail is that of a stream of whole frames and so many octets.
pub fn is_plain(tail: &Tail, offset: u64) -> bool {
    tail.is_same(&Tail::at(offset))
}

/// Whether a tail shows this, and is that of a stream of whole frames only where nothing waits and nothing is broken.
fn is_in_state(tail: &Tail, (offset, waiting, broken): State) -> bool {
    state_of(tail) == (offset, waiting, broken)
        && is_plain(tail, offset) == (waiting == 0 && broken.is_none())
}

fn assert_tail(rt: &impl Abort, tail: &Tail, row: &Row) {
    assert!(rt;
        is_in_state(tail, row.tail) && is_copied(tail),
        "tail after {}",
        row.message
    );
}

fn assert_row(rt: &impl Abort, alloc: Global, row: &Row) {
    let mut tail = Tail::at(row.offset);
    feed(rt, alloc, &mut tail, row);
    assert_tail(rt, &tail, row);
}

#[test]
fn octets_in_pieces_are_these_frames_and_this_tail(rt: HostRuntime) {
    for row in ROWS {
        assert_row(&rt, rt.alloc(), row);
    }
}

/// The number of octets before, a number of octets, and whether there is room for them.
const ROOMS: &[(u64, usize, bool)] = &[
    (0, 0, true),
    (281_474_976_710_655, 1, true),
    (281_474_976_710_655, 2, false),
    (281_474_976_710_656, 0, true),
    (281_474_976_710_656, 1, false),
    (u64::MAX, 0, false),
    (0, usize::MAX, false),
];

fn has_room(offset: u64, octets: usize) -> bool {
    Tail::at(offset).has_room(octets)
}

#[test]
fn a_stream_has_room_for_2_to_the_power_48_octets(rt: HostRuntime) {
    for (offset, octets, wanted) in ROOMS {
        assert!(rt;
            has_room(*offset, *octets) == *wanted,
            "{octets} after {offset}"
        );
    }
}
