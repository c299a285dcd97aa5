//! Random scripts of all edits: after each edit the tables are those that are counted anew of what is present, and a new book
//! that is given what is present says the same.
use crate::tests::scripts::Sent::*;
use crate::tests::scripts::Step::*;
use crate::tests::scripts::*;
use smq_book::*;
use smq_kit::{Dir, Form, Moment};
use smq_route::{Version, VersionKey};
use std::alloc::Global;
use std::process::Abort;

/// What an end sends: submits of three numbers and sequence numbers, one by data_sm, their responses and receipts, and what is
/// none of these.
const BY_CLIENT: &[Sent] = &[
    Submit(1, b"447700900123"),
    Submit(2, b"447700900123"),
    Submit(3, b"447800900456"),
    Submit(1, b"15550001"),
    Asking(2, 0),
    Asking(3, 2),
    Pdu(
        0x0000_0103,
        0,
        2,
        b"\0\0\01000\0\x01\x01447700900123\0\0\x01\0",
    ),
    Pdu(0x8000_0005, 0, 1, b"\0"),
    Pdu(0x0000_0015, 0, 4, b""),
];

const BY_CENTRE: &[Sent] = &[
    Response(1, 0, b"10"),
    Response(2, 0, b"A"),
    Response(3, 0, b"11"),
    Response(1, 0, b"11"),
    Response(2, 8, b""),
    Response(3, 0, b"10"),
    Pdu(0x8000_0103, 0, 2, b"A\0"),
    Pdu(0x8000_0003, 0, 1, b""),
    Receipt(
        1,
        b"id:10 sub:001 dlvrd:001 submit date:2401010000 done date:2401010001 stat:DELIVRD err:000 text:",
    ),
    Receipt(
        2,
        b"id:11 sub:001 dlvrd:000 submit date:2401010000 done date:2401010001 stat:UNDELIV err:011 text:",
    ),
    Receipt(
        3,
        b"id:A sub:001 dlvrd:001 submit date:2401010000 done date:2401010003 stat:DELIVRD err:000 text:",
    ),
    Receipt(
        4,
        b"id:10 sub:001 dlvrd:000 submit date:2401010000 done date:2401010000 stat:ENROUTE err:000 text:",
    ),
    Pdu(
        0x0000_0103,
        0,
        6,
        b"\0\0\0\0\0\0\0\x04\0\0\x04\x24\0\x12id:10 stat:UNDELIV",
    ),
    Message(5, b"hello"),
];

const PREFIXES: &[&[u8]] = &[b"4", b"447", b"4477", b"44770", b"1"];

const SESSIONS: &[u32] = &[10, 11, 20, 21];

const FORMS: &[Form] = &[Form::Verbatim, Form::Decimal, Form::Hexadecimal];

/// Windows of one edit, of a few, and of half a script.
const WINDOWS: &[u64] = &[1, 9_000_000, 27_000_000, 180_000_000];

/// How many ms pass from one edit of a script to the next: two and a half hours.
const LATER: u64 = 9_000_000;

/// How many edits a script has: by its end, two days are past.
const EDITS: u64 = 40;

/// A random number, by the generator of Knuth's MMIX.
#[derive(Drop)]
struct Random(u64);

impl Random {
    /// A number below a bound, or 0 where that is 0.
    fn below(&mut self, bound: usize) -> usize {
        self.0 = self
            .0
            .wrapping_mul(6_364_136_223_846_793_005)
            .wrapping_add(1_442_695_040_888_963_407);
        (self.0 >> 33).checked_rem(bound as u64).unwrap_or(0) as usize
    }
}

/// A random step at a moment. Routes begin and end at moments of the first edits.
fn step(random: &mut Random, moment: u64) -> Option<Step> {
    let session = *SESSIONS.get(random.below(SESSIONS.len()))?;
    let prefix = *PREFIXES.get(random.below(PREFIXES.len()))?;
    let from = (random.below(4) as u64).saturating_mul(LATER);
    let route = u32::try_from(random.below(3)).unwrap_or(0);
    Some(match random.below(21) {
        0..=6 => Client(
            session,
            moment,
            *BY_CLIENT.get(random.below(BY_CLIENT.len()))?,
        ),
        7..=13 => Centre(
            session,
            moment,
            *BY_CENTRE.get(random.below(BY_CENTRE.len()))?,
        ),
        14 => Withdraw(session),
        15 => Route(prefix, from, route, b"23410"),
        16 => End(prefix, from, from.saturating_add(2 * LATER)),
        17 => Correct(prefix, from, route, b"23415"),
        18 => Forms(
            *FORMS.get(random.below(FORMS.len()))?,
            *FORMS.get(random.below(FORMS.len()))?,
        ),
        19 => SetWindow(session / 10, *WINDOWS.get(random.below(WINDOWS.len()))?),
        _ => Advance(moment),
    })
}

/// Gives a book the pieces of one direction of a session of a link.
fn give_pieces(
    rt: &impl Abort,
    alloc: Global,
    book: &mut Book,
    session: (u32, u64, Dir),
    pieces: &[Piece],
) {
    let (link, session, dir) = session;
    for piece in pieces {
        let origin = (link, session, dir, piece.moment.milliseconds());
        append(alloc, book, origin, piece.octets.as_slice()).expect(rt, "a piece");
    }
}

/// Gives a book the forms of another.
fn give_forms(rt: &impl Abort, book: &mut Book, present: &Present) {
    for (link, forms) in present.forms() {
        set_forms(book, *link, forms.response, forms.receipt).expect(rt, "forms");
    }
}

/// Gives a book the windows of another.
fn give_windows(rt: &impl Abort, book: &mut Book, present: &Present) {
    for (link, window) in present.windows() {
        set_window(book, *link, window.milliseconds()).expect(rt, "a window");
    }
}

/// Gives a book a version of a prefix.
fn give_version(rt: &impl Abort, book: &mut Book, key: &VersionKey, version: &Version) {
    let added = book.apply(Edit::AddRoute {
        prefix: key.prefix.copy(),
        from: key.from,
        route: version.route,
        network: version.network.copy(),
    });
    added.expect(rt, "a version");
    if let Some(until) = version.until {
        give_end(rt, book, key, until);
    }
}

fn give_end(rt: &impl Abort, book: &mut Book, key: &VersionKey, until: Moment) {
    let ended = book.apply(Edit::EndRoute {
        prefix: key.prefix.copy(),
        from: key.from,
        until,
    });
    ended.expect(rt, "an end");
}

/// Gives a book the versions of another.
fn give_versions(rt: &impl Abort, book: &mut Book, present: &Present) {
    for (key, version) in present.versions() {
        give_version(rt, book, key, version);
    }
}

fn give_session(rt: &impl Abort, alloc: Global, book: &mut Book, number: u64, session: &Session) {
    let link = session.link.0;
    let client = (link, number, Dir::FromClient);
    give_pieces(rt, alloc, book, client, session.client.pieces());
    let centre = (link, number, Dir::FromCentre);
    give_pieces(rt, alloc, book, centre, session.centre.pieces());
}

/// Gives a book the sessions of another.
fn give_sessions(rt: &impl Abort, alloc: Global, book: &mut Book, present: &Present) {
    for (number, session) in present.sessions() {
        give_session(rt, alloc, book, *number, session);
    }
}

/// Gives a book what is present in another: its settings first, then its sessions.
fn give_all(rt: &impl Abort, alloc: Global, book: &mut Book, present: &Present) {
    give_forms(rt, book, present);
    give_windows(rt, book, present);
    give_versions(rt, book, present);
    let clock = present.clock();
    book.apply(Edit::Advance { clock }).expect(rt, "a clock");
    give_sessions(rt, alloc, book, present);
}

/// Whether the tables of a book are those of a new book that is given what is present in it.
pub(crate) fn is_given_anew(rt: &impl Abort, alloc: Global, book: &Book) -> bool {
    let mut anew = boxed_book(alloc).expect(rt, "a new book");
    give_all(rt, alloc, &mut anew, book.present());
    *anew.tables() == *book.tables()
}

/// Whether a random edit leaves tables that are current, and no fewer touches.
fn is_played(rt: &impl Abort, alloc: Global, book: &mut Book, step: Step) -> bool {
    let touches = book.touches();
    let _refusal = play_step(alloc, book, step).err();
    is_current(rt, alloc, book) && touches <= book.touches()
}

/// Plays random edits, and asserts of the tables after each what the head of this file says.
fn play_edits(rt: &impl Abort, alloc: Global, random: &mut Random, book: &mut Book) {
    for number in 1..EDITS {
        let step = step(random, number.saturating_mul(LATER)).expect(rt, "a step");
        assert!(rt; is_played(rt, alloc, book, step));
    }
}

fn play_random(rt: &impl Abort, alloc: Global, random: &mut Random) {
    let mut book = boxed_book(alloc).expect(rt, "a book");
    play_edits(rt, alloc, random, &mut book);
    assert!(rt; is_given_anew(rt, alloc, &book) && book.touches() > 0);
}

#[test]
fn random_scripts_are_counted_as_from_nothing(rt: HostRuntime) {
    let mut random = Random(2026);
    for _ in 0..1_000 {
        play_random(&rt, rt.alloc(), &mut random);
    }
}
