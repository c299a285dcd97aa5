//! An audit decodes all octets again, in many threads, and counts what a book keeps current.
use crate::tests::scripts::*;
use crate::tests::sizes::{put_receipts, put_responses, put_submits};
use smq_book::*;
use smq_kit::{Dir, LinkId};
use smq_scratch::audit;
use std::alloc::Global;
use std::process::Abort;
use std::thread::Threads;

/// How many sessions there are. The last four are of links that have one already.
const SESSIONS: u64 = 64;

/// How many links there are.
const LINKS: u64 = 60;

/// How many messages each session has: 4,096 in all.
const MESSAGES: u32 = 64;

/// The messages of a session, each in a piece, then their responses and their delivery receipts, in a piece each. The ids are those
/// of every other session.
fn put_session(rt: &impl Abort, alloc: Global, book: &mut Book, session: u64) {
    let link = (session % LINKS) as u32;
    put_submits(
        rt,
        alloc,
        book,
        (link, session, Dir::FromClient, 1000),
        MESSAGES,
    );
    put_responses(
        rt,
        alloc,
        book,
        (link, session, Dir::FromCentre, 2000),
        MESSAGES,
    );
    put_receipts(
        rt,
        alloc,
        book,
        (link, session, Dir::FromCentre, 3000),
        MESSAGES,
    );
}

/// Whether so many messages of a link have an outcome.
fn has_number(tables: &Tables, link: u32, outcome: Outcome, number: u64) -> bool {
    tables.count(View::Link, &Value::Link(LinkId(link)), outcome) == number
}

/// Whether an audit counts nothing, as the book does.
fn counts_nothing<R: Threads + Sync + Abort>(rt: &R, alloc: Global, book: &Book) -> bool {
    let empty = audit(rt, alloc, book.present()).expect(rt, "an audit of nothing");
    empty == *book.tables()
}

/// Asserts what an audit counts of links of two sessions and of one, and that the book keeps it.
fn assert_audit<R: Threads + Sync + Abort>(rt: &R, alloc: Global, book: &Book) {
    let tables = audit(rt, alloc, book.present()).expect(rt, "an audit");
    assert!(rt;
        has_number(&tables, 3, Outcome::Ambiguous, 128),
        "a link of two sessions"
    );
    assert!(rt;
        has_number(&tables, 4, Outcome::Delivered, 64),
        "a link of one session"
    );
    assert!(rt; tables == *book.tables());
}

#[test]
fn an_audit_counts_what_a_book_keeps(rt: HostRuntime) {
    let mut book = boxed_book(rt.alloc()).expect(&rt, "a book");
    assert!(rt; counts_nothing(&rt, rt.alloc(), &book));
    for session in 0..SESSIONS {
        put_session(&rt, rt.alloc(), &mut book, session);
    }
    assert_audit(&rt, rt.alloc(), &book);
}
