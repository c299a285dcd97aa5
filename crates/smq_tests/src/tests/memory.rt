//! Edits of each kind, with each allocation refused in turn (gate/check-out-of-memory-in-calls): a refused edit leaves
//! what is present, the tables, and what edits after it find, and the same edit is answered then as ever. An edit that
//! is refused for what it is, and a clock that lapses nothing, want no memory.
use crate::tests::rows::{MADE, ROWS, Row, is_told};
use crate::tests::same::are_same;
use crate::tests::scripts::Sent::*;
use crate::tests::scripts::Step::*;
use crate::tests::scripts::*;
use smq_book::*;
use smq_kit::{Form, Refusal};
use smq_marks::Call;
use std::alloc::Global;
use std::process::Abort;

/// Two messages of one link, whose receipt comes before its forms make their ids one; a route that is corrected and ends; a
/// clock at which the second message lapses, a window under which it is open again and one under which it isn't, and its receipt;
/// withdrawals of what decides, and of the messages.
const EACH_KIND: &[Row] = &[
    (Route(b"44", 0, 1, b"23410"), MADE),
    (Client(10, 1000, Submit(1, NUMBER)), MADE),
    (Client(10, 1000, Submit(2, NUMBER)), MADE),
    (Centre(10, 1200, Response(1, 0, b"10")), MADE),
    (Centre(10, 1200, Response(2, 0, b"11")), MADE),
    (
        Centre(11, 3000, Receipt(1, b"id:16 stat:UNDELIV err:011")),
        MADE,
    ),
    (Centre(11, 3000, Receipt(2, b"id:16 stat:DELIVRD")), MADE),
    (Forms(Form::Hexadecimal, Form::Decimal), MADE),
    (Correct(b"44", 0, 2, b"23415"), MADE),
    (Advance(172_801_000), MADE),
    (SetWindow(1, 172_801_000), MADE),
    (SetWindow(2, 1), MADE),
    (SetWindow(1, 1), MADE),
    (
        Centre(12, 172_901_000, Receipt(1, b"id:17 stat:DELIVRD")),
        MADE,
    ),
    (Forms(Form::Hexadecimal, Form::Verbatim), MADE),
    (Forms(Form::Hexadecimal, Form::Decimal), MADE),
    (End(b"44", 0, 500), MADE),
    (Withdraw(11), MADE),
    (Withdraw(12), MADE),
    (Centre(10, 172_902_000, Octets(b"\0\0\0\x05")), MADE),
    (Withdraw(10), MADE),
];

/// A submit_sm that comes again.
const AGAIN: Row = (Client(10, 2000, Submit(1, NUMBER)), MADE);

/// Submits and routes in turn, so that what lists them grows.
const GROWING: &[Row] = &[
    (SUBMIT, MADE),
    (RESPONSE, MADE),
    AGAIN,
    AGAIN,
    AGAIN,
    AGAIN,
    AGAIN,
    AGAIN,
    AGAIN,
    (Route(b"1", 0, 1, b"23410"), MADE),
    (Route(b"2", 0, 1, b"23410"), MADE),
    (Route(b"3", 0, 1, b"23410"), MADE),
    (Route(b"5", 0, 1, b"23410"), MADE),
    (Route(b"6", 0, 1, b"23410"), MADE),
    (Route(b"7", 0, 1, b"23410"), MADE),
    (Route(b"8", 0, 1, b"23410"), MADE),
];

/// The call by which the edit of a row is applied: a clock before the end of all windows, and what is refused, want no memory.
fn call_of(row: Row) -> Call {
    let (step, text) = row;
    match step {
        Advance(172_800_999) => Call::ApplyInPlace,
        _ if text.is_empty() => Call::Apply,
        _ => Call::ApplyInPlace,
    }
}

/// The answer to an edit for which memory may be refused.
fn apply_marked(alloc: Global, book: &mut Book, edit: Edit, call: Call) -> Option<Refusal> {
    smq_marks::begin(alloc, call);
    let answer = book.apply(edit).err();
    smq_marks::end(alloc, answer == Some(Refusal::Memory));
    answer
}

/// Edits that find all that is stored of link 1: by numbers, keys, and moments whose windows end.
const PROBES: &[Step] = &[
    Route(b"4477009", 0, 9, b"20801"),
    Forms(Form::Decimal, Form::Decimal),
    Forms(Form::Verbatim, Form::Verbatim),
    SetWindow(1, 1),
    SetWindow(1, 172_800_000),
];

/// Whether two books have the same, and so after each of the probes.
fn are_alike(alloc: Global, book: &mut Book, other: &mut Book) -> bool {
    for probe in PROBES {
        if !are_same(book, other)
            || play_step(alloc, book, *probe) != play_step(alloc, other, *probe)
        {
            return false;
        }
    }
    are_same(book, other)
}

/// The answer to an edit, which is applied again where memory was refused and the book is left as the other is.
fn answer_of(
    rt: &impl Abort,
    alloc: Global,
    book: &mut Book,
    other: &mut Book,
    edit: &Edit,
    call: Call,
) -> Option<Refusal> {
    let first = edit.copy().expect(rt, "a copy");
    let again = edit.copy().expect(rt, "a copy");
    let answer = apply_marked(alloc, book, first, call);
    if answer == Some(Refusal::Memory) && are_alike(alloc, book, other) {
        return book.apply(again).err();
    }
    answer
}

/// Plays a row on two books, on the first with memory refused: both answer as wanted, and have the same then.
fn play_row(
    rt: &impl Abort,
    alloc: Global,
    book: &mut Book,
    other: &mut Book,
    what: &str,
    row: Row,
) {
    let (step, text) = row;
    let edit = edit_of(alloc, other, step).expect(rt, "an edit");
    let answer = answer_of(rt, alloc, book, other, &edit, call_of(row));
    assert!(rt; is_told(rt, alloc, answer, text), "{what}: {text}");
    assert!(rt;
        is_told(rt, alloc, other.apply(edit).err(), text),
        "{what}: {text}"
    );
    assert!(rt;
        are_same(book, other) && is_current(rt, alloc, book),
        "{what}"
    );
}

fn play_rows(rt: &impl Abort, alloc: Global, what: &str, rows: &[Row]) {
    let mut book = boxed_book(alloc).expect(rt, "a book");
    let mut other = boxed_book(alloc).expect(rt, "another book");
    for row in rows {
        play_row(rt, alloc, &mut book, &mut other, what, *row);
    }
}

#[test]
fn an_edit_that_wants_memory_changes_nothing(rt: HostRuntime) {
    for (what, rows) in ROWS {
        play_rows(&rt, rt.alloc(), what, rows);
    }
    play_rows(&rt, rt.alloc(), "each kind", EACH_KIND);
    play_rows(&rt, rt.alloc(), "what grows", GROWING);
}
