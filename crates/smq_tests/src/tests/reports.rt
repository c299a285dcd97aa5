//! Reports of tables that are written out, and writers that take little or fail.
use crate::tests::tallies::tables::{add, boxed_tally, route};
use crate::tests::writers::{Expecting, Failing};
use smq_kit::{Dir, ErrorCode, ErrorText, LinkId, Place, SessionId};
use smq_report::{Format, Pick, ReportFault, write_csv, write_report, write_table};
use smq_tally::{Band, Fact, List, Outcome, SubmitError, Tables, Tally, View};
use std::alloc::{AllocError, Global};
use std::process::Abort;

/// Why a message failed.
enum Why {
    Nothing,
    Status(u32),
    Network(u8, u16),
    Text(&'static str),
    Unstated,
}

/// A message at an offset of session 1: its link, route and network, outcome, error and delays.
struct Message {
    offset: u64,
    link: u32,
    route: Option<(u32, &'static str)>,
    outcome: Outcome,
    why: Why,
    delays: (Option<Band>, Option<Band>),
}

const MESSAGES: &[Message] = &[
    Message {
        offset: 0,
        link: 7,
        route: None,
        outcome: Outcome::Open,
        why: Why::Nothing,
        delays: (None, None),
    },
    Message {
        offset: 49,
        link: 7,
        route: Some((10, "23410")),
        outcome: Outcome::Delivered,
        why: Why::Nothing,
        delays: (Some(Band::Under5Seconds), Some(Band::Over)),
    },
    Message {
        offset: 98,
        link: 4_294_967_295,
        route: None,
        outcome: Outcome::Refused,
        why: Why::Status(88),
        delays: (None, None),
    },
    Message {
        offset: 147,
        link: 7,
        route: None,
        outcome: Outcome::Failed,
        why: Why::Network(3, 264),
        delays: (Some(Band::Early), None),
    },
    Message {
        offset: 196,
        link: 7,
        route: None,
        outcome: Outcome::Failed,
        why: Why::Text("027"),
        delays: (None, None),
    },
    Message {
        offset: 245,
        link: 7,
        route: None,
        outcome: Outcome::Failed,
        why: Why::Unstated,
        delays: (None, None),
    },
];

const NOTES: &[(List, u64, Dir, u64)] = &[
    (List::Waiting, 10, Dir::FromCentre, 0),
    (List::Waiting, 10, Dir::FromClient, 49),
];

const CSV: &[u8] = b"view,link,7,delivered,1
view,link,7,failed,3
view,link,7,open,1
view,link,4294967295,refused,1
view,route,10,delivered,1
view,route,none,refused,1
view,route,none,failed,3
view,route,none,open,1
view,network,23410,delivered,1
view,network,none,refused,1
view,network,none,failed,3
view,network,none,open,1
view,error,status:88,refused,1
view,error,net:3:264,failed,1
view,error,text:027,failed,1
view,error,unstated,failed,1
view,link-delay,early,failed,1
view,link-delay,under-5s,delivered,1
view,centre-delay,over,delivered,1
list,waiting,10,client,49
list,waiting,10,centre,0
list,open,1,client,0
";

const TABLE: &[u8] = b"view link
  7                        delivered           1
  7                        failed              3
  7                        open                1
  4294967295               refused             1
view route
  10                       delivered           1
  none                     refused             1
  none                     failed              3
  none                     open                1
view network
  23410                    delivered           1
  none                     refused             1
  none                     failed              3
  none                     open                1
view error
  status:88                refused             1
  net:3:264                failed              1
  text:027                 failed              1
  unstated                 failed              1
view link-delay
  early                    failed              1
  under-5s                 delivered           1
view centre-delay
  over                     delivered           1
list waiting
                    10 client               49
                    10 centre                0
list stray-answers
list mismatched
list stray-receipts
list ambiguous-receipts
list extra-receipts
list unreadable
list undecodable
list broken
list open
                     1 client                0
list lapsed
";

const EMPTY_TABLE: &[u8] = b"view link
view route
view network
view error
view link-delay
view centre-delay
list waiting
list stray-answers
list mismatched
list stray-receipts
list ambiguous-receipts
list extra-receipts
list unreadable
list undecodable
list broken
list open
list lapsed
";

const LIST_TABLE: &[u8] = b"list waiting
                    10 client               49
                    10 centre                0
";

const LIST_CSV: &[u8] = b"list,waiting,10,client,49
list,waiting,10,centre,0
";

const VIEW_CSV: &[u8] = b"view,centre-delay,over,delivered,1
";

const VIEW_TABLE: &[u8] = b"view centre-delay
  over                     delivered           1
";

/// Messages, what is picked of their tables and of two notes, and its lines in both formats.
type Case = (
    &'static str,
    &'static [Message],
    Pick,
    &'static [u8],
    &'static [u8],
);

const CASES: &[Case] = &[
    ("all", MESSAGES, Pick::All, CSV, TABLE),
    (
        "a view",
        MESSAGES,
        Pick::View(View::CentreDelay),
        VIEW_CSV,
        VIEW_TABLE,
    ),
    (
        "a list",
        &[],
        Pick::List(List::Waiting),
        LIST_CSV,
        LIST_TABLE,
    ),
];

impl Why {
    fn error(&self) -> Option<SubmitError> {
        match self {
            Why::Nothing => None,
            Why::Status(status) => Some(SubmitError::Refused { status: *status }),
            Why::Network(kind, code) => Some(SubmitError::Failed(ErrorCode::Network {
                kind: *kind,
                code: *code,
            })),
            Why::Text(text) => match ErrorText::new(text.as_bytes()) {
                Some(text) => Some(SubmitError::Failed(ErrorCode::Text(text))),
                None => None,
            },
            Why::Unstated => Some(SubmitError::Failed(ErrorCode::Unstated)),
        }
    }
}

impl Message {
    fn fact(&self, rt: &impl Abort) -> Fact {
        Fact {
            place: place(1, Dir::FromClient, self.offset),
            link: LinkId(self.link),
            route: route(rt, self.route),
            outcome: self.outcome,
            error: self.why.error(),
            link_delay: self.delays.0,
            centre_delay: self.delays.1,
        }
    }
}

fn place(session: u64, dir: Dir, offset: u64) -> Place {
    Place {
        session: SessionId(session),
        dir,
        offset,
    }
}

/// Adds messages and the notes.
fn put_in(rt: &impl Abort, tally: &mut Tally, messages: &[Message]) -> Result<(), AllocError> {
    for message in messages {
        add(rt, tally, message.fact(rt))?;
    }
    for (list, session, dir, offset) in NOTES {
        tally.note(*list, place(*session, *dir, *offset))?;
    }
    Ok(())
}

/// A tally of messages and of the notes.
fn tally_of(rt: &impl Abort, alloc: Global, messages: &[Message]) -> Box<Tally> {
    let mut tally = boxed_tally(alloc).expect(rt, "a tally");
    put_in(rt, &mut tally, messages).expect(rt, "memory");
    tally
}

/// Whether the CSV of what is picked is this text, where so many octets at most are taken at each write.
fn is_csv(alloc: Global, tables: &Tables, pick: Pick, text: &'static [u8], most: usize) -> bool {
    let mut writer = Expecting::of(text, most);
    write_csv(alloc, tables, pick, &mut writer).is_ok() && writer.has_all()
}

/// The same of the table.
fn is_table(alloc: Global, tables: &Tables, pick: Pick, text: &'static [u8], most: usize) -> bool {
    let mut writer = Expecting::of(text, most);
    write_table(alloc, tables, pick, &mut writer).is_ok() && writer.has_all()
}

/// Asserts both reports of what a case picks, where so many octets at most are taken at each write.
fn assert_case(rt: &impl Abort, alloc: Global, tables: &Tables, case: &Case, most: usize) {
    let (what, _, pick, csv, table) = case;
    assert!(rt; is_csv(alloc, tables, *pick, *csv, most), "{what}");
    assert!(rt; is_table(alloc, tables, *pick, *table, most), "{what}");
}

fn assert_written(rt: &impl Abort, alloc: Global, case: &Case) {
    let tally = tally_of(rt, alloc, case.1);
    assert_case(rt, alloc, tally.tables(), case, 1);
    assert_case(rt, alloc, tally.tables(), case, usize::MAX);
}

/// Whether the whole report is this text.
fn is_report(alloc: Global, tables: &Tables, format: Format, text: &'static [u8]) -> bool {
    let mut writer = Expecting::of(text, usize::MAX);
    write_report(alloc, tables, Pick::All, format, &mut writer).is_ok() && writer.has_all()
}

/// Asserts the whole report of no message and no note, in both formats.
fn assert_empty(rt: &impl Abort, alloc: Global) {
    let empty = boxed_tally(alloc).expect(rt, "a tally");
    assert!(rt; is_report(alloc, empty.tables(), Format::Csv, b""));
    assert!(rt; is_report(alloc, empty.tables(), Format::Table, EMPTY_TABLE));
}

#[test]
fn reports_have_their_lines(rt: HostRuntime) {
    for case in CASES {
        assert_written(&rt, rt.alloc(), case);
    }
    assert_empty(&rt, rt.alloc());
}

/// Notes 8,000 places: 202 KiB as CSV, four pages of 64 KiB, and 370 KiB as a table, six.
fn note_many(tally: &mut Tally) -> Result<(), AllocError> {
    for offset in 0..8_000 {
        tally.note(List::Broken, place(1, Dir::FromClient, offset))?;
    }
    Ok(())
}

/// What is told of a whole report where so many calls of its writer succeed.
fn told(alloc: Global, tables: &Tables, format: Format, calls: u32) -> Result<(), ReportFault> {
    let mut writer = Failing::after(calls);
    write_report(alloc, tables, Pick::All, format, &mut writer)
}

/// Asserts that a report takes so many calls, and is told as failed with fewer.
fn assert_calls(rt: &impl Abort, alloc: Global, tables: &Tables, format: Format, calls: u32) {
    for left in 0..calls {
        assert!(rt;
            told(alloc, tables, format, left) == Err(ReportFault::Write),
            "{format:?} at call {left}"
        );
    }
    assert!(rt; told(alloc, tables, format, calls) == Ok(()), "{format:?}");
}

/// A page of 64 KiB at a time is written, and then there is a flush.
#[test]
fn a_failed_write_is_told(rt: HostRuntime) {
    let mut tally = boxed_tally(rt.alloc()).expect(&rt, "a tally");
    note_many(&mut tally).expect(&rt, "notes");
    assert_calls(&rt, rt.alloc(), tally.tables(), Format::Csv, 5);
    assert_calls(&rt, rt.alloc(), tally.tables(), Format::Table, 7);
}
