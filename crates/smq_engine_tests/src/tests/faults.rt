//! Readers that fail, are interrupted or give too much, and writers that fail or are interrupted: a run, a total, lines and a check tell it,
//! and nothing is written that isn't wanted. A total takes what is too much for a run.
use crate::tests::*;
use smq_count::Counting;
use smq_engine::{count, run, total};
use smq_report::{Format, Output, Pick, Query};
use smq_tally::View;
use std::io::Read;

/// A submit_sm and its response: the script of examples/one-submit.
pub(crate) const SCRIPT: &[u8] =
    b"piece,1,10,client,1000,00000031000000040000000000000001000000313030300001013434373730303930303132330000000000000100000000\npiece,1,10,centre,1200,000000128000000400000000000000013100\n";

/// What is done with a script.
#[derive(Clone, Copy)]
pub(crate) enum Work {
    Report(Query),
    Total(Query),
    Messages,
    Receipts,
    Counts,
    Check,
}

const WHOLE: Query = Query {
    pick: Pick::All,
    format: Format::Csv,
};

const LINKS: Query = Query {
    pick: Pick::View(View::Link),
    format: Format::Table,
};

const WHOLE_TEXT: &[u8] =
    b"view,link,1,open,1\nview,route,none,open,1\nview,network,none,open,1\nlist,open,10,client,0\n";

const LINKS_TEXT: &[u8] = b"view link\n  1                        open                1\n";

const MESSAGES_TEXT: &[u8] =
    b"link,session,offset,moment,number,route,network,outcome,error,id,response_offset,receipt_session,receipt_offset,receipt_moment,centre_delay,key,command,source,ton\n1,10,0,1000,447700900123,none,none,open,,1,0,,,,,1,submit_sm,1000,0\n";

const RECEIPTS_TEXT: &[u8] =
    b"link,session,offset,moment,id,state,interim,error,standing,message_session,message_offset,key,command\n";

const COUNTS_TEXT: &[u8] = b"link,day,prefix:3,outcome,messages\n1,1970-01-01,447,open,1\n";

/// Works, and what each writes of `SCRIPT`.
pub(crate) const WORKS: &[(Work, &[u8])] = &[
    (Work::Report(WHOLE), WHOLE_TEXT),
    (Work::Report(LINKS), LINKS_TEXT),
    (Work::Total(WHOLE), WHOLE_TEXT),
    (Work::Total(LINKS), LINKS_TEXT),
    (Work::Messages, MESSAGES_TEXT),
    (Work::Receipts, RECEIPTS_TEXT),
    (Work::Counts, COUNTS_TEXT),
    (Work::Check, b"same entries 2 refused 0\n"),
];

/// Gives a text octet by octet. After so many reads some fail, one after the other.
#[derive(Drop)]
pub(crate) struct Dripping {
    text: &'static [u8],
    reads: usize,
    kind: io::ErrorKind,
    /// How many reads are still to fail.
    pub(crate) failing: usize,
}

impl Dripping {
    /// Three reads fail in this way, after so many.
    pub(crate) fn of(text: &'static [u8], reads: usize, kind: io::ErrorKind) -> Dripping {
        Dripping {
            text,
            reads,
            kind,
            failing: 3,
        }
    }
}

impl Read for Dripping {
    fn read(&mut self, buf: &mut [u8]) -> io::Result<usize> {
        if self.reads == 0 && self.failing > 0 {
            self.failing -= 1;
            return Err(io::Error::from(self.kind));
        }
        self.reads = self.reads.saturating_sub(1);
        let count = 1usize.min(buf.len()).min(self.text.len());
        let (given, left) = self.text.split_at(count);
        buf[..count].copy_from_slice(given);
        self.text = left;
        Ok(count)
    }
}

/// Makes line feeds up, so many in all and so many at most at each read; where that is none, each read is interrupted.
#[derive(Drop)]
struct LineFeeds {
    left: usize,
    most: usize,
}

impl Read for LineFeeds {
    fn read(&mut self, buf: &mut [u8]) -> io::Result<usize> {
        if self.most == 0 {
            return Err(io::Error::from(io::ErrorKind::Interrupted));
        }
        let count = self.most.min(self.left).min(buf.len());
        buf[..count].fill(b'\n');
        self.left -= count;
        Ok(count)
    }
}

/// Takes octets one by one, and fails once, after so many calls.
#[derive(Drop)]
pub(crate) struct Taker {
    pub(crate) taken: Vec<u8>,
    pub(crate) calls: usize,
}

impl Taker {
    /// Counts a call.
    fn call(&mut self) -> io::Result<()> {
        if self.calls == 0 {
            self.calls = usize::MAX;
            return Err(io::Error::from(io::ErrorKind::Other));
        }
        self.calls -= 1;
        Ok(())
    }
}

impl Write for Taker {
    fn write(&mut self, buf: &[u8]) -> io::Result<usize> {
        self.call()?;
        let count = 1usize.min(buf.len());
        self.taken.extend_from_slice(&buf[..count])?;
        Ok(count)
    }

    fn flush(&mut self) -> io::Result<()> {
        self.call()
    }
}

/// How a work ends, if it isn't done.
pub(crate) fn fault_of<RT: AllocGlobal + Threads + Wait + Sync, R: Read, W: Write>(
    rt: &RT,
    work: Work,
    reader: &mut R,
    writer: &mut W,
) -> Option<RunFault> {
    match work {
        Work::Report(query) => run(rt, reader, b"", query, writer).err(),
        Work::Total(query) => total(rt, reader, b"", Output::Report(query), writer).err(),
        Work::Messages => total(rt, reader, b"", Output::Messages, writer).err(),
        Work::Receipts => total(rt, reader, b"", Output::Receipts, writer).err(),
        Work::Counts => counts_fault(rt, reader, writer),
        Work::Check => check(rt, reader, b"", writer, &NoGate).err(),
    }
}

/// How counts by link, day, prefix and outcome end, if they aren't done.
fn counts_fault<RT: AllocGlobal, R: Read, W: Write>(
    rt: &RT,
    reader: &mut R,
    writer: &mut W,
) -> Option<RunFault> {
    match Counting::parse(rt.alloc(), b"link,day,prefix:3,outcome", &[]) {
        Ok(counting) => count(rt, reader, b"", &counting?, writer).err(),
        Err(_) => Some(RunFault::Memory),
    }
}

/// Whether a work ends like this, and writes this text and no more.
pub(crate) fn ends<RT: AllocGlobal + Threads + Wait + Sync, R: Read>(
    rt: &RT,
    work: Work,
    reader: &mut R,
    wanted: Option<RunFault>,
    text: &[u8],
) -> bool {
    let mut written = Vec::new(rt.alloc());
    let fault = fault_of(rt, work, reader, &mut written);
    fault == wanted && written.as_slice() == text
}

/// How a read fails for good.
pub(crate) const KINDS: &[io::ErrorKind] = &[
    io::ErrorKind::ConnectionReset,
    io::ErrorKind::WouldBlock,
    io::ErrorKind::TimedOut,
    io::ErrorKind::UnexpectedEof,
    io::ErrorKind::OutOfMemory,
    io::ErrorKind::Other,
];

/// Whether a work is done, and writes this text, where three reads in a row are interrupted after so many.
fn goes_on<RT: AllocGlobal + Threads + Wait + Sync>(
    rt: &RT,
    work: Work,
    text: &[u8],
    reads: usize,
) -> bool {
    let mut reader = Dripping::of(SCRIPT, reads, io::ErrorKind::Interrupted);
    ends(rt, work, &mut reader, None, text) && reader.failing == 0
}

/// Whether a work whose read fails after so many tells it, reads no more, and writes nothing.
fn tells_read<RT: AllocGlobal + Threads + Wait + Sync>(
    rt: &RT,
    work: Work,
    reads: usize,
    kind: io::ErrorKind,
) -> bool {
    let mut reader = Dripping::of(SCRIPT, reads, kind);
    ends(rt, work, &mut reader, Some(RunFault::Read), b"") && reader.failing == 2
}

/// Octet by octet there are as many reads as octets, and one that finds the end.
#[test]
fn a_failed_read_is_told_and_an_interrupted_one_is_tried_again(rt: HostRuntime) {
    for (work, text) in WORKS {
        for reads in 0..SCRIPT.len() + 1 {
            assert!(rt; goes_on(&rt, *work, text, reads), "after {reads} reads");
            let told = tells_read(&rt, *work, reads, io::ErrorKind::Other);
            assert!(rt; told, "after {reads} reads");
        }
    }
}

/// The first octet is read by itself: a byte order mark would begin there.
#[test]
fn a_read_that_fails_for_good_is_not_tried_again(rt: HostRuntime) {
    for (work, _) in WORKS {
        for kind in KINDS {
            assert!(rt; tells_read(&rt, *work, 0, *kind), "at the first octet");
            assert!(rt; tells_read(&rt, *work, 20, *kind), "after 20 octets");
        }
    }
}

/// Works that play a row before they read the next.
const STREAMED: &[Work] = &[Work::Total(WHOLE), Work::Messages, Work::Receipts];

/// A row, and a record that says none.
const BAD: &[u8] = b"clock,1\nclock,x\n";

/// Whether a work tells a bad row as soon as its line has ended, and reads no more.
fn tells_bad_row<RT: AllocGlobal + Threads + Wait + Sync>(rt: &RT, work: Work) -> bool {
    let mut reader = Dripping::of(BAD, BAD.len(), io::ErrorKind::Other);
    ends(
        rt,
        work,
        &mut reader,
        Some(RunFault::BadRow { row: 2 }),
        b"",
    ) && reader.failing == 3
}

#[test]
fn a_bad_row_is_told_before_the_input_ends(rt: HostRuntime) {
    for work in STREAMED {
        assert!(rt; tells_bad_row(&rt, *work));
    }
}

/// Whether a work whose writer fails after so many calls ends so, and writes as many octets of a text and no more; or is done, where
/// there are no more calls than these.
fn tells_write<RT: AllocGlobal + Threads + Wait + Sync>(
    rt: &RT,
    work: Work,
    text: &[u8],
    calls: usize,
) -> bool {
    let mut reader = SCRIPT;
    let mut writer = Taker {
        taken: Vec::new(rt.alloc()),
        calls,
    };
    let fault = fault_of(rt, work, &mut reader, &mut writer);
    let wanted = if calls > text.len() {
        None
    } else {
        Some(RunFault::Write)
    };
    fault == wanted && writer.taken.as_slice() == &text[..calls.min(text.len())]
}

/// Octet by octet there are as many writes as octets, and then there is a flush.
#[test]
fn a_failed_write_is_told(rt: HostRuntime) {
    for (work, text) in WORKS {
        for calls in 0..text.len() + 2 {
            assert!(rt; tells_write(&rt, *work, text, calls), "after {calls} calls");
        }
    }
}

/// Takes octets one by one. Each write is interrupted once before.
#[derive(Drop)]
struct Interrupted {
    taken: Vec<u8>,
    is_next: bool,
}

impl Write for Interrupted {
    fn write(&mut self, buf: &[u8]) -> io::Result<usize> {
        self.is_next = !self.is_next;
        if self.is_next {
            return Err(io::Error::from(io::ErrorKind::Interrupted));
        }
        let count = 1usize.min(buf.len());
        self.taken.extend_from_slice(&buf[..count])?;
        Ok(count)
    }

    fn flush(&mut self) -> io::Result<()> {
        Ok(())
    }
}

/// Whether a work is done, and writes this text, where each write is interrupted once.
fn writes_on<RT: AllocGlobal + Threads + Wait + Sync>(rt: &RT, work: Work, text: &[u8]) -> bool {
    let mut reader = SCRIPT;
    let mut writer = Interrupted {
        taken: Vec::new(rt.alloc()),
        is_next: false,
    };
    let fault = fault_of(rt, work, &mut reader, &mut writer);
    fault.is_none() && writer.taken.as_slice() == text
}

#[test]
fn an_interrupted_write_is_tried_again(rt: HostRuntime) {
    for (work, text) in WORKS {
        assert!(rt; writes_on(&rt, *work, text));
    }
}

/// How many line feeds a reader gives, and how many at a read, and how a work ends.
const LIMITS: &[(usize, usize, Option<RunFault>)] = &[
    // the read that finds the end is one of 16,777,216
    (16_777_215, 1, None),
    (16_777_216, 1, Some(RunFault::Read)),
    (1, 0, Some(RunFault::Read)),
    (268_435_457, usize::MAX, Some(RunFault::Read)),
];

/// Works, and what each writes of empty lines.
const EMPTY: &[(Work, &[u8])] = &[
    (Work::Report(WHOLE), b""),
    (Work::Check, b"same entries 0 refused 0\n"),
];

/// Whether a work keeps a limit.
fn keeps_limit<RT: AllocGlobal + Threads + Wait + Sync>(
    rt: &RT,
    work: Work,
    text: &[u8],
    limit: (usize, usize, Option<RunFault>),
) -> bool {
    let (left, most, wanted) = limit;
    let mut reader = LineFeeds { left, most };
    let text = if wanted.is_none() { text } else { b"" };
    ends(rt, work, &mut reader, wanted, text)
}

/// A script has at most 268,435,456 octets, and 16,777,216 reads (docs/FORMATS.md).
#[test]
fn a_script_that_passes_a_limit_is_not_read(rt: HostRuntime) {
    for (work, text) in EMPTY {
        for limit in LIMITS {
            assert!(rt; keeps_limit(&rt, *work, text, *limit), "{limit:?}");
        }
    }
}

/// More reads, and more octets, than a script may have.
const BEYOND: &[(usize, usize)] = &[(16_777_217, 1), (268_435_457, usize::MAX)];

/// A total is of any number of octets and reads.
#[test]
fn a_total_reads_past_the_limits_of_a_script(rt: HostRuntime) {
    for (left, most) in BEYOND {
        let mut reader = LineFeeds {
            left: *left,
            most: *most,
        };
        assert!(rt;
            ends(&rt, Work::Total(WHOLE), &mut reader, None, b""),
            "{left} octets"
        );
    }
}
