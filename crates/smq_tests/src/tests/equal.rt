//! Which tables are equal.
use crate::tests::scripts::Sent::*;
use crate::tests::scripts::Step::*;
use crate::tests::scripts::*;
use smq_book::Tables;
use smq_kit::Form;
use std::alloc::Global;
use std::process::Abort;

const LATE: Step = Centre(11, 4000, Receipt(1, b"id:1 stat:DELIVRD"));

const EARLY: Step = Centre(12, 3000, Receipt(1, b"id:1 stat:EXPIRED err:9"));

/// A message and two receipts of it, in the order of sessions.
const BY_SESSION: &[Step] = &[SUBMIT, RESPONSE, LATE, EARLY];

/// The same in the order of moments.
const BY_MOMENT: &[Step] = &[EARLY, LATE, SUBMIT, RESPONSE];

const OPEN_THEN_REFUSED: &[Step] = &[
    Client(10, 0, Asking(1, 1)),
    Centre(10, 0, Response(1, 0, b"1")),
    Client(10, 0, Asking(2, 1)),
    Centre(10, 0, Response(2, 8, b"")),
];

const REFUSED_THEN_OPEN: &[Step] = &[
    Client(10, 0, Asking(1, 1)),
    Centre(10, 0, Response(1, 8, b"")),
    Client(10, 0, Asking(2, 1)),
    Centre(10, 0, Response(2, 0, b"2")),
];

const REFUSED_TWICE: &[Step] = &[
    Client(10, 0, Asking(1, 1)),
    Centre(10, 0, Response(1, 0, b"1")),
    Client(10, 0, Asking(2, 1)),
    Centre(10, 0, Response(2, 8, b"")),
    Client(10, 0, Asking(3, 1)),
    Centre(10, 0, Response(3, 8, b"")),
];

const OF_ANOTHER_LINK: &[Step] = &[
    Client(20, 0, Asking(1, 1)),
    Centre(20, 0, Response(1, 0, b"1")),
    Client(10, 0, Asking(2, 1)),
    Centre(10, 0, Response(2, 8, b"")),
];

const UNASKED_THEN_REFUSED: &[Step] = &[
    Client(10, 0, Asking(1, 0)),
    Centre(10, 0, Response(1, 0, b"1")),
    Client(10, 0, Asking(2, 0)),
    Centre(10, 0, Response(2, 8, b"")),
];

const REFUSED_THEN_UNASKED: &[Step] = &[
    Client(10, 0, Asking(1, 0)),
    Centre(10, 0, Response(1, 8, b"")),
    Client(10, 0, Asking(2, 0)),
    Centre(10, 0, Response(2, 0, b"2")),
];

/// Two scripts, and whether their tables are equal.
const EQUAL: &[(&str, &[Step], &[Step], bool)] = &[
    (
        "the order of messages is open where they stand in no list",
        UNASKED_THEN_REFUSED,
        REFUSED_THEN_UNASKED,
        true,
    ),
    (
        "the order in which receipts arrive is open",
        BY_SESSION,
        BY_MOMENT,
        true,
    ),
    (
        "forms without messages are open",
        &[],
        &[Forms(Form::Decimal, Form::Decimal)],
        true,
    ),
    (
        "the place of an open message differs",
        OPEN_THEN_REFUSED,
        REFUSED_THEN_OPEN,
        false,
    ),
    ("a count differs", OPEN_THEN_REFUSED, REFUSED_TWICE, false),
    ("a link differs", OPEN_THEN_REFUSED, OF_ANOTHER_LINK, false),
    ("rows differ", OPEN_THEN_REFUSED, &[], false),
];

/// Whether these are the tables that a script leaves.
fn has_tables(
    rt: &impl Abort,
    alloc: Global,
    what: &str,
    script: &[Step],
    tables: &Tables,
) -> bool {
    let book = book_after(rt, alloc, what, script);
    *tables == *book.tables()
}

fn are_equal(rt: &impl Abort, alloc: Global, what: &str, one: &[Step], other: &[Step]) -> bool {
    let book = book_after(rt, alloc, what, one);
    has_tables(rt, alloc, what, other, book.tables())
}

#[test]
fn tables_are_equal_where_rows_and_counts_are(rt: HostRuntime) {
    for (what, one, other, wanted) in EQUAL {
        assert!(rt;
            are_equal(&rt, rt.alloc(), what, one, other) == *wanted,
            "{what}"
        );
    }
}
