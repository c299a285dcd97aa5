//! Calls with each allocation or start of a thread refused in turn (gate/check-out-of-memory-in-calls): each says so,
//! and the same call is answered then as ever.
use crate::tests::load::records::{EACH, is_read};
use crate::tests::load::settings::{EXAMPLE, is_set};
use crate::tests::readers::EVERYTHING;
use crate::tests::scripts::Sent::*;
use crate::tests::scripts::Step::*;
use crate::tests::scripts::*;
use crate::tests::writers::Expecting;
use bytes::Bytes;
use smq_book::*;
use smq_frame::Tail;
use smq_kit::{Dir, LinkId, Moment, Refusal, SessionId};
use smq_load::{LoadFault, Row, read_script, read_settings};
use smq_marks::Call;
use smq_receipt::MessageState;
use smq_report::{Pick, ReportFault, write_csv, write_table};
use smq_scratch::audit;
use std::alloc::Global;
use std::process::Abort;
use std::thread::Threads;

/// The script of examples/first-report.
const FIRST: &[Step] = &[
    Route(b"447", 0, 12, b"23410"),
    SUBMIT,
    RESPONSE,
    Client(10, 1300, Submit(2, NUMBER)),
    Centre(10, 8000, Receipt(1, b"id:1 stat:DELIVRD")),
];

/// Its report.
const CSV: &[u8] = b"view,link,1,waiting,1
view,link,1,delivered,1
view,route,12,waiting,1
view,route,12,delivered,1
view,network,23410,waiting,1
view,network,23410,delivered,1
view,link-delay,under-30s,delivered,1
list,waiting,10,client,49
list,waiting,10,centre,18
";

/// The same as a table (docs/FORMATS.md).
const TABLE: &[u8] = b"view link
  1                        waiting             1
  1                        delivered           1
view route
  12                       waiting             1
  12                       delivered           1
view network
  23410                    waiting             1
  23410                    delivered           1
view error
view link-delay
  under-30s                delivered           1
view centre-delay
list waiting
                    10 client               49
                    10 centre               18
list stray-answers
list mismatched
list stray-receipts
list ambiguous-receipts
list extra-receipts
list unreadable
list undecodable
list broken
list open
list lapsed
";

/// The first 10 octets of a submit_sm_resp (SMPP 3.4, 4.4.2).
const CUT: &[u8] = b"\0\0\0\x12\x80\0\0\x04\0\0";

/// Its other 8, with the id `1`, and a delivery receipt.
const REST: &[u8] =
    b"\0\0\0\0\0\x011\0\0\0\0\x32\0\0\0\x05\0\0\0\0\0\0\0\x01\0\0\0\0\0\0\0\x04\0\0\0\0\0\0\0\0\x11id:1 stat:DELIVRD";

/// A script whose second record is bad.
const BAD: &[u8] = b"clock,1\nclock,x\n";

/// Settings with another key.
const BAD_SETTINGS: &[u8] = b"[[link]]\nid = 1\nforms = 'decimal'\n";

/// What a call comes to.
#[derive(Clone, Copy, PartialEq, Eq)]
enum Came {
    /// It is answered as it is where memory is there.
    Right,
    /// Memory ran out.
    Memory,
    Wrong,
}

/// What is asked of a call.
#[derive(Clone, Copy)]
enum Asked {
    Script,
    BadScript,
    Settings,
    BadSettings,
    Csv,
    Table,
    Audit,
}

/// What is asked of which call.
const ASKED: &[(&str, Asked, Call)] = &[
    ("read_script", Asked::Script, Call::ReadScript),
    (
        "read_script of a bad row",
        Asked::BadScript,
        Call::ReadScript,
    ),
    ("read_settings", Asked::Settings, Call::ReadSettings),
    (
        "read_settings of bad settings",
        Asked::BadSettings,
        Call::ReadSettings,
    ),
    ("write_csv", Asked::Csv, Call::WriteCsv),
    ("write_table", Asked::Table, Call::WriteTable),
    ("audit", Asked::Audit, Call::Audit),
];

fn right_if(holds: bool) -> Came {
    if holds { Came::Right } else { Came::Wrong }
}

/// The octets behind those that are cut, decoded on the tail of these.
fn decode(rt: &impl Abort, alloc: Global, tail: &Tail) -> Came {
    let octets = Bytes::copy_from_slice(alloc, REST).expect(rt, "octets");
    let moment = Moment::new(2000).expect(rt, "a moment");
    smq_marks::begin(alloc, Call::Prepare);
    let answer = prepare(
        alloc,
        LinkId(2),
        SessionId(23),
        Dir::FromCentre,
        tail,
        moment,
        octets,
    );
    let came = decoded(tail, &answer);
    smq_marks::end(alloc, came == Came::Memory);
    came
}

fn decoded(tail: &Tail, answer: &Result<Batch, Refusal>) -> Came {
    match answer {
        Ok(batch) => right_if(is_decoded(tail, batch)),
        Err(Refusal::Memory) => Came::Memory,
        Err(_) => Came::Wrong,
    }
}

/// Whether a batch is of that tail and these octets, and has a response and a receipt.
fn is_decoded(tail: &Tail, batch: &Batch) -> bool {
    let of_tail = batch.tail().is_same(tail) && batch.octets().as_slice() == REST;
    of_tail
        && match batch.pdus() {
            [first, second] => is_response(first) && is_receipt(second),
            _ => false,
        }
}

/// Whether a PDU has this offset and command_id, the command_status 0 and the sequence number 1.
fn is_headed(pdu: &StoredPdu, offset: u64, command: u32) -> bool {
    pdu.offset == offset && pdu.command == command && pdu.status == 0 && pdu.seq == 1
}

fn is_response(pdu: &StoredPdu) -> bool {
    is_headed(pdu, 0, 0x8000_0004)
        && match pdu.content.message_id() {
            Some(id) => id.as_slice() == b"1".as_slice(),
            None => false,
        }
}

fn is_receipt(pdu: &StoredPdu) -> bool {
    is_headed(pdu, 18, 0x0000_0005)
        && match pdu.content.receipt() {
            Some(receipt) => {
                receipt.id.as_slice() == b"1".as_slice() && receipt.state == MessageState::Delivered
            }
            None => false,
        }
}

/// What a fault of loading comes to, where this one is wanted, if one is.
fn told(fault: LoadFault, wanted: Option<LoadFault>) -> Came {
    match fault {
        LoadFault::Memory => Came::Memory,
        other => right_if(wanted == Some(other)),
    }
}

fn load_script(alloc: Global) -> Came {
    match read_script(alloc, &mut EACH) {
        Ok(rows) => right_if(are_read(rows.as_slice())),
        Err(fault) => told(fault, None),
    }
}

fn load_bad_script(alloc: Global) -> Came {
    match read_script(alloc, &mut BAD) {
        Ok(_) => Came::Wrong,
        Err(fault) => told(fault, Some(LoadFault::BadRow { row: 2 })),
    }
}

fn load_settings(alloc: Global) -> Came {
    match read_settings(alloc, EXAMPLE) {
        Ok(rows) => right_if(are_set(rows.as_slice())),
        Err(fault) => told(fault, None),
    }
}

fn load_bad_settings(alloc: Global) -> Came {
    match read_settings(alloc, BAD_SETTINGS) {
        Ok(_) => Came::Wrong,
        Err(fault) => told(fault, Some(LoadFault::BadSettings)),
    }
}

/// Whether these are the rows of `EACH`.
fn are_read(rows: &[Row]) -> bool {
    for (place, row) in rows.iter().enumerate() {
        if !is_read(place, row) {
            return false;
        }
    }
    rows.len() == 8
}

/// Whether these are the rows of `EXAMPLE`.
fn are_set(rows: &[Row]) -> bool {
    for (place, row) in rows.iter().enumerate() {
        if !is_set(place, row) {
            return false;
        }
    }
    rows.len() == 4
}

/// What a report comes to: it is whole, or a part of it was written when memory ran out.
fn written(answer: Result<(), ReportFault>, writer: &Expecting) -> Came {
    match answer {
        Ok(()) => right_if(writer.has_all()),
        Err(ReportFault::Memory) if writer.is_right() => Came::Memory,
        Err(_) => Came::Wrong,
    }
}

fn report_csv(alloc: Global, tables: &Tables) -> Came {
    let mut writer = Expecting::of(CSV, usize::MAX);
    written(write_csv(alloc, tables, Pick::All, &mut writer), &writer)
}

fn report_table(alloc: Global, tables: &Tables) -> Came {
    let mut writer = Expecting::of(TABLE, usize::MAX);
    written(write_table(alloc, tables, Pick::All, &mut writer), &writer)
}

fn count_from_nothing<R: Threads + Sync>(rt: &R, alloc: Global, book: &Book) -> Came {
    match audit(rt, alloc, book.present()) {
        Ok(tables) => right_if(tables == *book.tables()),
        Err(_) => Came::Memory,
    }
}

/// Makes a call: for the report of one book, or to count what is present in the other.
fn make<R: Threads + Sync>(
    rt: &R,
    alloc: Global,
    asked: Asked,
    first: &Book,
    other: &Book,
) -> Came {
    match asked {
        Asked::Script => load_script(alloc),
        Asked::BadScript => load_bad_script(alloc),
        Asked::Settings => load_settings(alloc),
        Asked::BadSettings => load_bad_settings(alloc),
        Asked::Csv => report_csv(alloc, first.tables()),
        Asked::Table => report_table(alloc, first.tables()),
        Asked::Audit => count_from_nothing(rt, alloc, other),
    }
}

/// Makes a call for which memory may be refused.
fn make_marked<R: Threads + Sync>(
    rt: &R,
    alloc: Global,
    what: (Asked, Call),
    first: &Book,
    other: &Book,
) -> Came {
    let (asked, call) = what;
    smq_marks::begin(alloc, call);
    let came = make(rt, alloc, asked, first, other);
    smq_marks::end(alloc, came == Came::Memory);
    came
}

/// Whether a call is answered as ever, at once or, where memory ran out, when it is made again.
fn is_answered<R: Threads + Sync>(
    rt: &R,
    alloc: Global,
    what: (Asked, Call),
    first: &Book,
    other: &Book,
) -> bool {
    match make_marked(rt, alloc, what, first, other) {
        Came::Right => true,
        Came::Memory => make(rt, alloc, what.0, first, other) == Came::Right,
        Came::Wrong => false,
    }
}

/// Whether `prepare` answers as ever, at once or, where memory ran out, when it is called again.
fn is_prepared(rt: &impl Abort, alloc: Global, tail: &Tail) -> bool {
    match decode(rt, alloc, tail) {
        Came::Right => true,
        Came::Memory => decode(rt, alloc, tail) == Came::Right,
        Came::Wrong => false,
    }
}

fn assert_answers<R: Threads + Sync + Abort>(rt: &R, alloc: Global, first: &Book, other: &Book) {
    for (what, asked, call) in ASKED {
        assert!(rt;
            is_answered(rt, alloc, (*asked, *call), first, other),
            "{what}"
        );
    }
    assert!(rt;
        is_prepared(rt, alloc, other.tail(SessionId(23), Dir::FromCentre)),
        "prepare"
    );
}

fn play_all(rt: &impl Abort, alloc: Global, book: &mut Book, script: &[Step]) {
    for step in script {
        assert!(rt; play_step(alloc, book, *step).is_ok());
    }
}

/// Makes the calls on the first book and on another.
fn make_calls<R: Threads + Sync + Abort>(rt: &R, alloc: Global, first: &Book) {
    let mut other = boxed_book(alloc).expect(rt, "a book");
    play_all(rt, alloc, &mut other, EVERYTHING);
    play_all(rt, alloc, &mut other, &[Centre(23, 1900, Octets(CUT))]);
    assert_answers(rt, alloc, first, &other);
}

#[test]
fn a_call_that_wants_memory_is_answered_when_it_is_made_again(rt: HostRuntime) {
    let mut first = boxed_book(rt.alloc()).expect(&rt, "a book");
    play_all(&rt, rt.alloc(), &mut first, FIRST);
    make_calls(&rt, rt.alloc(), &first);
}
