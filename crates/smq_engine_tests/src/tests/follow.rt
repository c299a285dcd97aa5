//! Records that are followed: an answer is out before the next record is read, a read that is interrupted is tried again, and what was
//! written stands where a reader or a writer fails.
use crate::tests::faults::{Dripping, KINDS, Taker};
use crate::tests::*;
use smq_engine::{Followed, follow};
use smq_report::Format;
use std::io::Read;

/// A submit_sm, a question, its submit_sm_resp, a row that is refused, a gap, and a question about counts.
const RECORDS: &[&[u8]] = &[
    b"piece,1,10,client,1000,00000031000000040000000000000001000000313030300001013434373730303930303132330000000000000100000000\n",
    b"ask,link\n",
    b"piece,1,10,centre,1200,000000128000000400000000000000013100\n",
    b"withdraw,11\n",
    b"lost,10,centre,1460\n",
    b"ask,count,link,outcome\n",
];

/// The records in one text.
const TEXT: &[u8] =
    b"piece,1,10,client,1000,00000031000000040000000000000001000000313030300001013434373730303930303132330000000000000100000000\nask,link\npiece,1,10,centre,1200,000000128000000400000000000000013100\nwithdraw,11\nlost,10,centre,1460\nask,count,link,outcome\n";

/// The two answers in one text, the length of the first, and the line of the refused row.
const ANSWERS: &[u8] =
    b"view,link,1,waiting,1\ntold,2,link,0,0,0,0\nlink,outcome,messages\n1,open,1\ntold,6,count link outcome,0,1,1,1460\n";

const FIRST: usize = 42;

const REFUSALS: &[u8] = b"row 4: 6 NoSession\n";

/// How many octets are to be written before each record is read, and before the end is found.
const BEFORE: &[u64] = &[0, 0, 42, 42, 42, 42, 110];

/// Gives the records one after the other, and fails where other octets than these were written before one, or before the end.
#[derive(Drop)]
struct Turns<'a> {
    next: usize,
    left: &'static [u8],
    written: &'a AtomicU64,
}

impl Turns<'_> {
    /// Whether as many octets were written as are to be before the next read.
    fn is_answered(&self) -> bool {
        BEFORE.get(self.next).copied() == Some(self.written.load(Ordering::SeqCst))
    }
}

impl Read for Turns<'_> {
    fn read(&mut self, buf: &mut [u8]) -> io::Result<usize> {
        if self.left.is_empty() {
            if !self.is_answered() {
                return Err(io::Error::from(io::ErrorKind::Other));
            }
            if let Some(record) = RECORDS.get(self.next) {
                self.left = record;
                self.next += 1;
            }
        }
        let count = self.left.len().min(buf.len());
        let (given, left) = self.left.split_at(count);
        buf[..count].copy_from_slice(given);
        self.left = left;
        Ok(count)
    }
}

/// Counts the octets that are written.
#[derive(Drop)]
struct Count<'a> {
    written: &'a AtomicU64,
}

impl Write for Count<'_> {
    fn write(&mut self, buf: &[u8]) -> io::Result<usize> {
        self.written.fetch_add(buf.len() as u64, Ordering::SeqCst);
        Ok(buf.len())
    }

    fn flush(&mut self) -> io::Result<()> {
        Ok(())
    }
}

/// What records come to, without settings and as CSV.
fn answer_all<RT: AllocGlobal, R: Read, W: Write, E: Write>(
    rt: &RT,
    reader: &mut R,
    writer: &mut W,
    errors: &mut E,
) -> Result<Followed, RunFault> {
    follow(rt, reader, b"", Format::Csv, writer, errors)
}

fn answers_each_in_turn<RT: AllocGlobal>(rt: &RT) -> bool {
    let written = AtomicU64::new(0);
    let mut reader = Turns {
        next: 0,
        left: b"",
        written: &written,
    };
    let mut refusals = Vec::new(rt.alloc());
    let mut writer = Count { written: &written };
    answer_all(rt, &mut reader, &mut writer, &mut refusals) == Ok(Followed { refused: 1 })
        && refusals.as_slice() == REFUSALS
}

#[test]
fn an_answer_is_out_before_the_next_record_is_read(rt: HostRuntime) {
    assert!(rt; answers_each_in_turn(&rt));
}

/// Whether records come to this, and so many octets of the answers are written.
fn comes_to<RT: AllocGlobal>(
    rt: &RT,
    reader: &mut Dripping,
    wanted: Result<Followed, RunFault>,
    count: usize,
) -> bool {
    let mut answers = Vec::new(rt.alloc());
    let mut refusals = Vec::new(rt.alloc());
    answer_all(rt, reader, &mut answers, &mut refusals) == wanted
        && Some(answers.as_slice()) == ANSWERS.get(..count)
}

/// Whether all records are answered where three reads in a row are interrupted after so many.
fn goes_on<RT: AllocGlobal>(rt: &RT, reads: usize) -> bool {
    let mut reader = Dripping::of(TEXT, reads, io::ErrorKind::Interrupted);
    let done = Ok(Followed { refused: 1 });
    comes_to(rt, &mut reader, done, ANSWERS.len()) && reader.failing == 0
}

/// Whether a read that fails after so many is told, and no other follows.
fn tells_read<RT: AllocGlobal>(rt: &RT, reads: usize, kind: io::ErrorKind) -> bool {
    let mut reader = Dripping::of(TEXT, reads, kind);
    comes_to(rt, &mut reader, Err(RunFault::Read), answered_after(reads)) && reader.failing == 2
}

/// How many octets of answers are written where so many octets of the records were read.
fn answered_after(read: usize) -> usize {
    if read == TEXT.len() {
        ANSWERS.len()
    } else if read < RECORDS[0].len() + RECORDS[1].len() {
        0
    } else {
        FIRST
    }
}

#[test]
fn a_failed_read_ends_it_and_an_interrupted_one_is_tried_again(rt: HostRuntime) {
    for reads in 0..TEXT.len() + 1 {
        assert!(rt; goes_on(&rt, reads), "interrupted after {reads} reads");
        let told = tells_read(&rt, reads, io::ErrorKind::Other);
        assert!(rt; told, "failed after {reads} reads");
    }
}

#[test]
fn a_read_that_fails_for_good_is_not_tried_again(rt: HostRuntime) {
    for kind in KINDS {
        assert!(rt; tells_read(&rt, 0, *kind), "at the first octet");
        assert!(rt; tells_read(&rt, 20, *kind), "after 20 octets");
    }
}

/// Records that end with a bad one, the third: a row, and a question.
const BAD: &[&[u8]] = &[
    b"ask,link\nwithdraw,11\nclock,x\n",
    b"ask,link\nwithdraw,11\nask,links\n",
];

/// Whether the bad record is told as soon as its line has ended, and the others were answered. No read follows.
fn tells_bad_row<RT: AllocGlobal>(rt: &RT, records: &'static [u8]) -> bool {
    let mut reader = Dripping::of(records, records.len(), io::ErrorKind::Other);
    let mut answers = Vec::new(rt.alloc());
    let mut refusals = Vec::new(rt.alloc());
    answer_all(rt, &mut reader, &mut answers, &mut refusals) == Err(RunFault::BadRow { row: 3 })
        && reader.failing == 3
        && answers.as_slice() == b"told,1,link,0,0,0,0\n".as_slice()
        && refusals.as_slice() == b"row 2: 6 NoSession\n".as_slice()
}

#[test]
fn a_bad_row_is_told_before_the_input_ends(rt: HostRuntime) {
    for records in BAD {
        assert!(rt; tells_bad_row(&rt, records));
    }
}

/// What records come to whose writers fail after so many calls, and how many octets of answers and of refusals were written, if these
/// are beginnings.
fn cut<RT: AllocGlobal>(
    rt: &RT,
    calls: usize,
    error_calls: usize,
) -> (Result<Followed, RunFault>, Option<usize>, Option<usize>) {
    let mut reader = TEXT;
    let mut answers = Taker {
        taken: Vec::new(rt.alloc()),
        calls,
    };
    let mut refusals = Taker {
        taken: Vec::new(rt.alloc()),
        calls: error_calls,
    };
    let ended = answer_all(rt, &mut reader, &mut answers, &mut refusals);
    (
        ended,
        beginning_of(ANSWERS, answers.taken.as_slice()),
        beginning_of(REFUSALS, refusals.taken.as_slice()),
    )
}

/// The length of what was written, where it is a beginning of a text.
fn beginning_of(text: &[u8], written: &[u8]) -> Option<usize> {
    if text.starts_with(written) {
        Some(written.len())
    } else {
        None
    }
}

/// More calls of a writer than there are.
const ENDLESS: usize = 1_000_000;

/// Octet by octet there are as many writes as octets, and a flush after each answer and each line.
#[test]
fn a_failed_write_ends_it_and_what_was_written_stands(rt: HostRuntime) {
    for calls in 0..ANSWERS.len() + 2 {
        let (written, told) = if calls > FIRST {
            (calls - 1, REFUSALS.len())
        } else {
            (calls, 0)
        };
        let wanted = (Err(RunFault::Write), Some(written), Some(told));
        assert!(rt; cut(&rt, calls, ENDLESS) == wanted, "after {calls} calls");
    }
    for calls in 0..REFUSALS.len() + 1 {
        let wanted = (Err(RunFault::Write), Some(FIRST), Some(calls));
        assert!(rt;
            cut(&rt, ENDLESS, calls) == wanted,
            "after {calls} calls of the errors"
        );
    }
    let done = (
        Ok(Followed { refused: 1 }),
        Some(ANSWERS.len()),
        Some(REFUSALS.len()),
    );
    assert!(rt; cut(&rt, ANSWERS.len() + 2, REFUSALS.len() + 1) == done);
}
