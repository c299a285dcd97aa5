//! Scripts of each kind of edit, with how each is refused that is. After each edit the tables are those of a new book that is given what
//! is present, and a book that gets all edits at once answers and counts as one that gets them one by one.
use crate::tests::random::is_given_anew;
use crate::tests::scripts::Sent::*;
use crate::tests::scripts::Step::*;
use crate::tests::scripts::*;
use smq_book::*;
use smq_kit::{Form, Refusal};
use std::alloc::Global;
use std::process::Abort;

/// A step, and the text of its refusal, or none where it is made.
pub(crate) type Row = (Step, &'static str);

/// A step is made.
pub(crate) const MADE: &str = "";

/// Scripts, each with what it shows.
pub(crate) const ROWS: &[(&str, &[Row])] = &[
    (
        "a response comes before its submit_sm",
        &[(RESPONSE, MADE), (SUBMIT, MADE)],
    ),
    (
        "a generic_nack answers the second of two submit_sm of one number",
        &[
            (Client(10, 1000, Submit(7, NUMBER)), MADE),
            (Client(10, 1000, Submit(7, b"447700900456")), MADE),
            (Centre(10, 1200, Response(7, 0, b"1")), MADE),
            (Centre(10, 1300, Pdu(0x8000_0000, 3, 7, b"")), MADE),
        ],
    ),
    (
        "ids are one under the forms of their link, and two again",
        &[
            (Forms(Form::Hexadecimal, Form::Decimal), MADE),
            (SUBMIT, MADE),
            (Centre(10, 1200, Response(1, 0, b"0000A1B2")), MADE),
            (
                Centre(10, 2000, Receipt(1, b"id:0000041394 stat:DELIVRD")),
                MADE,
            ),
            (Forms(Form::Verbatim, Form::Verbatim), MADE),
        ],
    ),
    (
        "forms make the ids of two messages one, until the session of one is withdrawn",
        &[
            (SUBMIT, MADE),
            (Centre(10, 1200, Response(1, 0, b"07")), MADE),
            (Client(11, 1000, Submit(1, NUMBER)), MADE),
            (Centre(11, 1200, Response(1, 0, b"7")), MADE),
            (Forms(Form::Decimal, Form::Decimal), MADE),
            (Centre(11, 2000, Receipt(1, b"id:007 stat:DELIVRD")), MADE),
            (Withdraw(10), MADE),
        ],
    ),
    (
        "the earliest receipt decides, until its session is withdrawn",
        &[
            (Client(10, 0, Submit(1, NUMBER)), MADE),
            (Centre(10, 100, Response(1, 0, b"1")), MADE),
            (
                Centre(11, 5000, Receipt(1, b"id:1 stat:UNDELIV err:012")),
                MADE,
            ),
            (
                Centre(12, 4000, Receipt(1, b"id:1 stat:DELIVRD err:000")),
                MADE,
            ),
            (Withdraw(12), MADE),
        ],
    ),
    (
        "the TLV of a receipt tells its state, before its text",
        &[
            (SUBMIT, MADE),
            (RESPONSE, MADE),
            (
                Centre(
                    10,
                    2000,
                    Pdu(
                        0x0000_0005,
                        0,
                        1,
                        b"\0\0\0\0\0\0\0\x04\0\0\0\0\0\0\0\0\x19id:1 stat:UNDELIV err:027\x04\x27\0\x01\x02",
                    ),
                ),
                MADE,
            ),
        ],
    ),
    (
        "a receipt of dates that no calendar has",
        &[
            (SUBMIT, MADE),
            (RESPONSE, MADE),
            (
                Centre(
                    10,
                    2000,
                    Receipt(
                        1,
                        b"id:1 Submit Date:2502300000 done date:2503010000 stat:UNDELIV err:027",
                    ),
                ),
                MADE,
            ),
        ],
    ),
    (
        "routes begin, end and are corrected, and refused edits of them leave all as it is",
        &[
            (Route(b"44", 0, 1, b"23410"), MADE),
            (Route(b"447", 10_000, 2, b"23415"), MADE),
            (End(b"447", 10_000, 20_000), MADE),
            (Client(10, 9999, Submit(1, NUMBER)), MADE),
            (Client(10, 10_000, Submit(2, NUMBER)), MADE),
            (Client(10, 19_999, Submit(3, NUMBER)), MADE),
            (Client(10, 20_000, Submit(4, NUMBER)), MADE),
            (Route(b"447", 15_000, 3, b"23415"), "7 Overlap 10000"),
            (Correct(b"44", 0, 5, b"23433"), MADE),
            (End(b"44", 1, 2), "8 NoRoute"),
            (End(b"447", 10_000, 30_000), "9 Ended 20000"),
            (End(b"44", 0, 0), "10 BadEnd"),
        ],
    ),
    (
        "a message lapses at the end of its window, and a late receipt decides",
        &[
            (SUBMIT, MADE),
            (RESPONSE, MADE),
            (Advance(172_800_999), MADE),
            (Advance(172_801_000), MADE),
            (
                Centre(10, 172_900_000, Receipt(1, b"id:1 stat:DELIVRD")),
                MADE,
            ),
            (Advance(5), "11 ClockBack 172801000"),
            (Withdraw(9), "6 NoSession"),
        ],
    ),
    (
        "a greater window opens a lapsed message again, and that of another link leaves it",
        &[
            (SUBMIT, MADE),
            (RESPONSE, MADE),
            (SetWindow(1, 1000), MADE),
            (Advance(2000), MADE),
            (SetWindow(1, 1001), MADE),
            (SetWindow(2, 1), MADE),
        ],
    ),
];

/// Whether an answer is that of a row.
pub(crate) fn is_told(rt: &impl Abort, alloc: Global, answer: Option<Refusal>, text: &str) -> bool {
    match answer {
        None => text.is_empty(),
        Some(refusal) => says(rt, alloc, refusal, text),
    }
}

fn says(rt: &impl Abort, alloc: Global, refusal: Refusal, text: &str) -> bool {
    let said = format!(in alloc; "{refusal}").expect(rt, "a text");
    said.as_str() == text
}

/// Plays a row: its answer is as wanted, and the tables after it are those of a new book that is given what is present.
fn play_row(rt: &impl Abort, alloc: Global, book: &mut Book, what: &str, row: Row) {
    let (step, text) = row;
    let answer = play_step(alloc, book, step).err();
    assert!(rt; is_told(rt, alloc, answer, text), "{what}: {text}");
    assert!(rt; is_current(rt, alloc, book), "{what}: as from nothing");
    assert!(rt; is_given_anew(rt, alloc, book), "{what}: as a new book");
}

#[test]
fn each_edit_of_a_script_leaves_what_a_new_book_has(rt: HostRuntime) {
    for (what, rows) in ROWS {
        let mut book = boxed_book(rt.alloc()).expect(&rt, "a book");
        for row in *rows {
            play_row(&rt, rt.alloc(), &mut book, what, *row);
        }
    }
}

/// Makes an edit on a book, and puts a copy of it into a list.
fn make_and_list(
    rt: &impl Abort,
    alloc: Global,
    book: &mut Book,
    edits: &mut Vec<Edit>,
    step: Step,
) {
    let edit = edit_of(alloc, book, step).expect(rt, "an edit");
    edits
        .push(edit.copy().expect(rt, "a copy"))
        .expect(rt, "memory");
    let _answer = book.apply(edit);
}

/// The edits of rows, which are made on a book.
fn edits_of(rt: &impl Abort, alloc: Global, book: &mut Book, rows: &[Row]) -> Vec<Edit> {
    let mut edits = Vec::new(alloc);
    for (step, _) in rows {
        make_and_list(rt, alloc, book, &mut edits, *step);
    }
    edits
}

/// Whether answers are those of rows.
fn are_told(rt: &impl Abort, alloc: Global, answers: &[Option<Refusal>], rows: &[Row]) -> bool {
    let mut place = 0usize;
    for (_, text) in rows {
        match answers.get(place) {
            Some(answer) if is_told(rt, alloc, *answer, text) => place = place.saturating_add(1),
            _ => return false,
        }
    }
    answers.len() == place
}

/// Whether edits that are given at once are answered as the rows are, and leave the tables of a book.
fn is_book_of(rt: &impl Abort, alloc: Global, edits: Vec<Edit>, rows: &[Row], book: &Book) -> bool {
    let (all, answers) = book_of_edits(alloc, edits).expect(rt, "a book of edits");
    are_told(rt, alloc, answers.as_slice(), rows) && *all.tables() == *book.tables()
}

/// Asserts of rows that their edits, given at once, come to the same as one by one.
fn give_at_once(rt: &impl Abort, alloc: Global, what: &str, rows: &[Row]) {
    let mut book = boxed_book(alloc).expect(rt, "a book");
    let edits = edits_of(rt, alloc, &mut book, rows);
    assert!(rt; is_book_of(rt, alloc, edits, rows, &book), "{what}");
}

#[test]
fn edits_at_once_come_to_the_same_as_one_by_one(rt: HostRuntime) {
    for (what, rows) in ROWS {
        give_at_once(&rt, rt.alloc(), what, rows);
    }
}
