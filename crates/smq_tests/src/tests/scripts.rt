//! Scripts that are played on a book, and what it shows then. It stands in one file although it is long: the words of scripts, the octets
//! that they send and the edits that they make are read together.
use crate::tests::shown::*;
use crate::tests::{edits, versions, windows};
use bytes::Bytes;
use smq_book::*;
use smq_frame::Tail;
use smq_kit::{Digits, Dir, Form, LinkId, Moment, Network, Refusal, RouteId, SessionId, Window};
use smq_scratch::tables_from_nothing;
use std::alloc::{AllocError, Global};
use std::process::Abort;

/// The number that messages are submitted to.
pub(crate) const NUMBER: &[u8] = b"447700900123";

/// What one end sends.
#[derive(Clone, Copy)]
pub(crate) enum Sent {
    /// A submit_sm from 1000 without a text, which asks for a receipt (SMPP 3.4, 4.4.1): its sequence number, its
    /// destination.
    Submit(u32, &'static [u8]),
    /// A submit_sm with this registered_delivery: its sequence number, then that.
    Asking(u32, u8),
    /// A submit_sm_resp (SMPP 3.4, 4.4.2): its sequence number, its command_status, the message id.
    Response(u32, u32, &'static [u8]),
    /// A PDU of a command_id, a command_status and a sequence number, with a body.
    Pdu(u32, u32, u32, &'static [u8]),
    /// A deliver_sm without addresses (SMPP 3.4, 4.6.1), which is no receipt: its sequence number, its text.
    Message(u32, &'static [u8]),
    /// A delivery receipt: its sequence number, its text.
    Receipt(u32, &'static [u8]),
    Octets(&'static [u8]),
}

/// How many octets a PDU with these parts as its body has.
fn length_of(parts: &[&[u8]]) -> u32 {
    let mut length = 16u32;
    for part in parts {
        length = length.saturating_add(u32::try_from(part.len()).unwrap_or(0));
    }
    length
}

fn push_words(octets: &mut Vec<u8>, words: &[u32]) -> Result<(), AllocError> {
    for word in words {
        octets.extend_from_slice(&word.to_be_bytes())?;
    }
    Ok(())
}

fn push_parts(octets: &mut Vec<u8>, parts: &[&[u8]]) -> Result<(), AllocError> {
    for part in parts {
        octets.extend_from_slice(part)?;
    }
    Ok(())
}

/// Puts a PDU of this header, with these parts as its body, after some octets.
pub(crate) fn push_pdu(
    octets: &mut Vec<u8>,
    command: u32,
    status: u32,
    seq: u32,
    parts: &[&[u8]],
) -> Result<(), AllocError> {
    push_words(octets, &[length_of(parts), command, status, seq])?;
    push_parts(octets, parts)
}

fn push_submit(
    octets: &mut Vec<u8>,
    seq: u32,
    destination: &[u8],
    registered_delivery: u8,
) -> Result<(), AllocError> {
    let parts: &[&[u8]] = &[
        b"\0\0\01000\0\x01\x01",
        destination,
        b"\0\0\0\0\0\0",
        &[registered_delivery],
        b"\0\0\0\0",
    ];
    push_pdu(octets, 0x0000_0004, 0, seq, parts)
}

pub(crate) fn push_deliver(
    octets: &mut Vec<u8>,
    seq: u32,
    esm_class: u8,
    text: &[u8],
) -> Result<(), AllocError> {
    let parts: &[&[u8]] = &[
        b"\0\0\0\0\0\0\0",
        &[esm_class],
        b"\0\0\0\0\0\0\0\0",
        &[u8::try_from(text.len()).unwrap_or(0)],
        text,
    ];
    push_pdu(octets, 0x0000_0005, 0, seq, parts)
}

/// Puts what is sent after some octets.
fn push_sent(octets: &mut Vec<u8>, sent: Sent) -> Result<(), AllocError> {
    match sent {
        Sent::Submit(seq, destination) => push_submit(octets, seq, destination, 1),
        Sent::Asking(seq, registered_delivery) => push_submit(
            octets,
            seq,
            NUMBER,
            registered_delivery,
        ),
        Sent::Response(seq, status, id) => push_pdu(octets, 0x8000_0004, status, seq, &[id, b"\0"]),
        Sent::Pdu(command, status, seq, body) => push_pdu(octets, command, status, seq, &[body]),
        Sent::Message(seq, text) => push_deliver(octets, seq, 0, text),
        Sent::Receipt(seq, text) => push_deliver(octets, seq, 0x04, text),
        Sent::Octets(given) => octets.extend_from_slice(given),
    }
}

pub(crate) fn octets_of(alloc: Global, sent: Sent) -> Result<Vec<u8>, AllocError> {
    let mut octets = Vec::new(alloc);
    push_sent(&mut octets, sent)?;
    Ok(octets)
}

/// How a piece is refused that is prepared on a tail of its own.
#[derive(Clone, Copy)]
pub(crate) enum Misfit {
    /// How many octets the direction has.
    OutOfStep(u64),
    StreamFull,
}

/// One step of a script. Sessions 10 to 19 are of link 1, 20 to 29 of link 2.
#[derive(Clone, Copy)]
pub(crate) enum Step {
    /// What the client sends: the session, the moment.
    Client(u32, u64, Sent),
    /// What the centre sends: the session, the moment.
    Centre(u32, u64, Sent),
    /// What the client of session 10 sends, prepared on a tail of so many octets, and how that is refused: these, the
    /// moment, the refusal.
    At(u64, u64, Sent, Misfit),
    /// A session is withdrawn.
    Withdraw(u32),
    /// A version of a prefix is added: the prefix, its beginning, its route, its network.
    Route(&'static [u8], u64, u32, &'static [u8]),
    /// A version of a prefix is ended: the prefix, its beginning, its end.
    End(&'static [u8], u64, u64),
    /// A version of a prefix is corrected: the prefix, its beginning, its route, its network.
    Correct(&'static [u8], u64, u32, &'static [u8]),
    /// The forms of link 1: in responses and in receipts.
    Forms(Form, Form),
    /// The window of a link: the link, the ms.
    SetWindow(u32, u64),
    /// The clock is set.
    Advance(u64),
}

/// What a book shows after a script.
#[derive(Clone, Copy)]
pub(crate) enum Shown {
    /// Session 10, which is the first.
    Session(WantedSession),
    /// The versions, in their order.
    Versions(&'static [WantedVersion]),
    /// Where a number goes at a moment: its route and network, if it has one.
    RouteAt(&'static [u8], u64, Option<(u32, &'static [u8])>),
    /// The windows that were set, by link: the link, the ms.
    Windows(&'static [(u32, u64)]),
    /// The window of a link: the link, the ms.
    WindowOf(u32, u64),
    /// How many messages of a link are open, and how many have lapsed: the link, these.
    Due(u32, u64, u64),
}

/// A session: its link, how many PDUs the client and the centre sent, how many octets and pieces the client sent, and the
/// client's last moment.
pub(crate) type WantedSession = (u32, usize, usize, u64, usize, u64);

/// A version of a prefix: the prefix, its beginning, its end, its route and its network.
pub(crate) type WantedVersion = (&'static [u8], u64, Option<u64>, u32, &'static [u8]);

/// A submit_sm at 1000.
pub(crate) const SUBMIT: Step = Step::Client(10, 1000, Sent::Submit(1, NUMBER));

/// Its response at 1200, with the id `1`.
pub(crate) const RESPONSE: Step = Step::Centre(10, 1200, Sent::Response(1, 0, b"1"));

/// Scripts, each with the fact that is shown then.
pub(crate) type Table = &'static [(&'static str, &'static [Step], &'static [Shown])];

/// What octets are of: a link, a session and a direction, and their moment.
pub(crate) type Origin = (u32, u64, Dir, u64);

/// Decodes octets on a tail.
pub(crate) fn batch_on(
    alloc: Global,
    tail: &Tail,
    origin: Origin,
    octets: &[u8],
) -> Result<Batch, Refusal> {
    let (link, session, dir, moment) = origin;
    let moment = Moment::new(moment)?;
    let octets = Bytes::copy_from_slice(alloc, octets).map_err(|_| Refusal::Memory)?;
    prepare(
        alloc,
        LinkId(link),
        SessionId(session),
        dir,
        tail,
        moment,
        octets,
    )
}

/// Puts octets after one direction of a session of a link.
pub(crate) fn append(
    alloc: Global,
    book: &mut Book,
    origin: Origin,
    octets: &[u8],
) -> Result<(), Refusal> {
    let (_, session, dir, _) = origin;
    let tail = book.tail(SessionId(session), dir);
    let batch = batch_on(alloc, tail, origin, octets)?;
    book.apply(Edit::Append { batch })
}

/// Appends what one end of a session sends.
pub(crate) fn send(
    rt: &impl Abort,
    alloc: Global,
    book: &mut Book,
    origin: Origin,
    sent: Sent,
) -> Result<(), Refusal> {
    let octets = octets_of(alloc, sent).expect(rt, "octets");
    append(alloc, book, origin, octets.as_slice())
}

pub(crate) fn set_forms(
    book: &mut Book,
    link: u32,
    response: Form,
    receipt: Form,
) -> Result<(), Refusal> {
    let link = LinkId(link);
    book.apply(Edit::SetForm {
        link,
        response,
        receipt,
    })
}

pub(crate) fn set_window(book: &mut Book, link: u32, window: u64) -> Result<(), Refusal> {
    let link = LinkId(link);
    let window = Window::new(window)?;
    book.apply(Edit::SetWindow { link, window })
}

/// The edit that adds a version of a prefix.
fn added(prefix: &[u8], from: u64, route: u32, network: &[u8]) -> Result<Edit, Refusal> {
    Ok(Edit::AddRoute {
        prefix: Digits::parse(prefix)?,
        from: Moment::new(from)?,
        route: RouteId(route),
        network: Network::parse(network)?,
    })
}

fn ended(prefix: &[u8], from: u64, until: u64) -> Result<Edit, Refusal> {
    Ok(Edit::EndRoute {
        prefix: Digits::parse(prefix)?,
        from: Moment::new(from)?,
        until: Moment::new(until)?,
    })
}

fn corrected(prefix: &[u8], from: u64, route: u32, network: &[u8]) -> Result<Edit, Refusal> {
    Ok(Edit::CorrectRoute {
        prefix: Digits::parse(prefix)?,
        from: Moment::new(from)?,
        route: RouteId(route),
        network: Network::parse(network)?,
    })
}

/// What an end of a session sends, or the client of session 10 as if it had sent so many octets.
fn appended(alloc: Global, tail: &Tail, origin: Origin, sent: Sent) -> Result<Edit, Refusal> {
    let octets = octets_of(alloc, sent).map_err(|_| Refusal::Memory)?;
    putting(alloc, tail, origin, octets.as_slice())
}

/// The edit that puts octets after a tail.
fn putting(alloc: Global, tail: &Tail, origin: Origin, octets: &[u8]) -> Result<Edit, Refusal> {
    let batch = batch_on(alloc, tail, origin, octets)?;
    Ok(Edit::Append { batch })
}

/// What an end of a session sends next.
fn sent_by(
    alloc: Global,
    book: &Book,
    session: u32,
    dir: Dir,
    moment: u64,
    sent: Sent,
) -> Result<Edit, Refusal> {
    let tail = book.tail(SessionId(session as u64), dir);
    appended(
        alloc,
        tail,
        (session / 10, session as u64, dir, moment),
        sent,
    )
}

/// The edit of a step.
pub(crate) fn edit_of(alloc: Global, book: &Book, step: Step) -> Result<Edit, Refusal> {
    match step {
        Step::Client(session, moment, sent) => sent_by(
            alloc,
            book,
            session,
            Dir::FromClient,
            moment,
            sent,
        ),
        Step::Centre(session, moment, sent) => sent_by(
            alloc,
            book,
            session,
            Dir::FromCentre,
            moment,
            sent,
        ),
        Step::At(offset, moment, sent, _) => appended(
            alloc,
            &Tail::at(offset),
            (1, 10, Dir::FromClient, moment),
            sent,
        ),
        Step::Withdraw(session) => Ok(Edit::Withdraw {
            session: SessionId(session as u64),
        }),
        Step::Route(prefix, from, route, network) => added(prefix, from, route, network),
        Step::End(prefix, from, until) => ended(prefix, from, until),
        Step::Correct(prefix, from, route, network) => corrected(prefix, from, route, network),
        Step::Forms(response, receipt) => Ok(Edit::SetForm {
            link: LinkId(1),
            response,
            receipt,
        }),
        Step::SetWindow(link, window) => Ok(Edit::SetWindow {
            link: LinkId(link),
            window: Window::new(window)?,
        }),
        Step::Advance(clock) => Ok(Edit::Advance {
            clock: Moment::new(clock)?,
        }),
    }
}

/// How a step is refused, if it is.
fn refusal_of(step: Step) -> Option<Refusal> {
    match step {
        Step::At(_, _, _, Misfit::OutOfStep(offset)) => Some(Refusal::OutOfStep { offset }),
        Step::At(_, _, _, Misfit::StreamFull) => Some(Refusal::StreamFull),
        _ => None,
    }
}

pub(crate) fn play_step(alloc: Global, book: &mut Book, step: Step) -> Result<(), Refusal> {
    let edit = edit_of(alloc, book, step)?;
    book.apply(edit)
}

/// A new book, on the heap: a proof that owns an address is short, and one that owns all parts of a book is not.
pub(crate) fn boxed_book(alloc: Global) -> Option<Box<Book>> {
    Box::new(alloc, Book::new(alloc)).ok()
}

/// Whether the tables of a book are those that are counted anew of what is present.
pub(crate) fn is_current(rt: &impl Abort, alloc: Global, book: &Book) -> bool {
    tables_from_nothing(alloc, book.present()).expect(rt, "tables") == *book.tables()
}

/// The book that a script leaves, whose tables are current after each step.
pub(crate) fn book_after(rt: &impl Abort, alloc: Global, what: &str, script: &[Step]) -> Box<Book> {
    let mut book = boxed_book(alloc).expect(rt, "a book");
    play_steps(rt, alloc, what, &mut book, script);
    book
}

fn play_steps(rt: &impl Abort, alloc: Global, what: &str, book: &mut Book, script: &[Step]) {
    for step in script {
        let reply = play_step(alloc, book, *step).err();
        assert!(rt; reply == refusal_of(*step), "{what}");
        assert!(rt; is_current(rt, alloc, book), "{what}");
    }
}

/// Whether the book that a script leaves shows all this.
fn leaves(rt: &impl Abort, alloc: Global, what: &str, script: &[Step], wanted: &[Shown]) -> bool {
    let book = book_after(rt, alloc, what, script);
    shows_all(&book, wanted)
}

fn assert_scripts(rt: &impl Abort, alloc: Global, table: Table) {
    for (what, script, wanted) in table {
        assert!(rt; leaves(rt, alloc, what, script, wanted), "{what}");
    }
}

#[test]
fn each_script_leaves_what_it_shows(rt: HostRuntime) {
    assert_scripts(&rt, rt.alloc(), edits::EDITS);
    assert_scripts(&rt, rt.alloc(), versions::VERSIONS);
    assert_scripts(&rt, rt.alloc(), windows::WINDOWS);
}
