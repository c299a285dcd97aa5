//! What no clause says of a check: that it succeeds with ample memory and threads, what it answers then, that each piece passes the
//! gate, and that other rows are made where they stand between the pieces; and of records that are followed, when they are answered;
//! and of a total, that it is done.
mod faults;
mod follow;
mod memory;
mod total;

use smq_desk::{Gate, NoGate};
use smq_engine::{Checked, RunFault, check};
use std::alloc::{AllocError, Global};
use std::io;
use std::io::Write;
use std::sync::Wait;
use std::sync::atomic::{AtomicU64, Ordering};
use std::thread::Threads;

/// A submit_sm to 447700900123 with sequence number 1, which asks for a receipt (SMPP 3.4, 4.4.1).
const SUBMIT: &[u8] =
    b"\0\0\0\x31\0\0\0\x04\0\0\0\0\0\0\0\x01\0\0\x001000\0\x01\x01447700900123\0\0\0\0\0\0\x01\0\0\0\0";

/// Its submit_sm_resp, with the id `1` (4.4.2).
const RESPONSE: &[u8] = b"\0\0\0\x12\x80\0\0\x04\0\0\0\0\0\0\0\x011\0";

/// A gate that counts how often it is called.
#[derive(Drop)]
struct Counts {
    before: AtomicU64,
    after: AtomicU64,
}

impl Gate for Counts {
    fn before(&self, _worker: u32, _row: u64) {
        self.before.fetch_add(1, Ordering::SeqCst);
    }

    fn after(&self, _worker: u32, _row: u64) {
        self.after.fetch_add(1, Ordering::SeqCst);
    }
}

/// Puts a row of a piece after a script.
fn push_piece(
    script: &mut String,
    session: u64,
    dir: &str,
    moment: u64,
    octets: &[u8],
) -> Result<(), AllocError> {
    write!(script, "piece,1,{session},{dir},{moment},")?;
    for octet in octets {
        write!(script, "{octet:02x}")?;
    }
    script.push('\n')
}

/// Puts the octets of a PDU of session 10 of link 1 after a script, an octet a row.
fn push_octets(
    script: &mut String,
    dir: &str,
    moment: u64,
    octets: &[u8],
) -> Result<(), AllocError> {
    for octet in octets {
        push_piece(script, 10, dir, moment, &[*octet])?;
    }
    Ok(())
}

/// A submit_sm and its response, an octet a row.
fn push_single_octets(script: &mut String) -> Result<(), AllocError> {
    push_octets(script, "client", 1000, SUBMIT)?;
    push_octets(script, "centre", 1200, RESPONSE)
}

/// Puts a PDU of each of 64 sessions of link 1 after a script.
fn push_sessions(
    script: &mut String,
    dir: &str,
    moment: u64,
    octets: &[u8],
) -> Result<(), AllocError> {
    for session in 0..64 {
        push_piece(script, session, dir, moment, octets)?;
    }
    Ok(())
}

/// A submit_sm and its response of each of 64 sessions, the responses after all submit_sm.
fn push_many_sessions(script: &mut String) -> Result<(), AllocError> {
    push_sessions(script, "client", 1000, SUBMIT)?;
    push_sessions(script, "centre", 1200, RESPONSE)
}

/// What a check answers, and what it writes.
fn answer<RT: AllocGlobal + Threads + Wait + Sync, G: Gate + Sync>(
    rt: &RT,
    settings: &[u8],
    script: &[u8],
    written: &mut Vec<u8>,
    gate: &G,
) -> Result<Checked, RunFault> {
    let mut reader = script;
    check(rt, &mut reader, settings, written, gate)
}

/// Whether a check writes this line, and answers what it says.
fn tells<RT: AllocGlobal + Threads + Wait + Sync, G: Gate + Sync>(
    rt: &RT,
    settings: &[u8],
    script: &[u8],
    gate: &G,
    wanted: Checked,
    line: &str,
) -> bool {
    let mut written = Vec::new(rt.alloc());
    let answer = answer(rt, settings, script, &mut written, gate);
    answer == Ok(wanted) && written.as_slice() == line.as_bytes()
}

/// Whether a check ends with a fault, and nothing is written.
fn fails<RT: AllocGlobal + Threads + Wait + Sync>(
    rt: &RT,
    settings: &[u8],
    script: &[u8],
    wanted: RunFault,
) -> bool {
    let mut written = Vec::new(rt.alloc());
    let answer = answer(rt, settings, script, &mut written, &NoGate);
    answer == Err(wanted) && written.is_empty()
}

/// A writer that fails.
#[derive(Drop)]
struct Full;

impl Write for Full {
    fn write(&mut self, _buf: &[u8]) -> io::Result<usize> {
        Err(io::Error::from(io::ErrorKind::Other))
    }

    fn flush(&mut self) -> io::Result<()> {
        Ok(())
    }
}

/// Whether a check whose line can't be written ends with that fault.
fn fails_to_write<RT: AllocGlobal + Threads + Wait + Sync>(rt: &RT) -> bool {
    let mut reader: &[u8] = b"clock,1\n";
    check(rt, &mut reader, b"", &mut Full, &NoGate) == Err(RunFault::Write)
}

fn same(entries: u64, refused: u64) -> Checked {
    Checked {
        same: true,
        entries,
        refused,
    }
}

/// How often a gate was called before and after rows.
fn calls_of(gate: &Counts) -> (u64, u64) {
    (
        gate.before.load(Ordering::SeqCst),
        gate.after.load(Ordering::SeqCst),
    )
}

/// Whether each of 67 rows of a script passes the gate, and they are told.
fn passes_the_gate<RT: AllocGlobal + Threads + Wait + Sync>(rt: &RT, script: &[u8]) -> bool {
    let gate = Counts {
        before: AtomicU64::new(0),
        after: AtomicU64::new(0),
    };
    let line = "same entries 67 refused 0\n";
    tells(rt, b"", script, &gate, same(67, 0), line) && calls_of(&gate) == (67, 67)
}

fn single_octets_pass<RT: AllocGlobal + Threads + Wait + Sync>(rt: &RT) -> bool {
    let mut script = String::new(rt.alloc());
    push_single_octets(&mut script).is_ok() && passes_the_gate(rt, script.as_bytes())
}

fn many_sessions_are_told<RT: AllocGlobal + Threads + Wait + Sync>(rt: &RT) -> bool {
    let mut script = String::new(rt.alloc());
    let line = "same entries 128 refused 0\n";
    push_many_sessions(&mut script).is_ok()
        && tells(rt, b"", script.as_bytes(), &NoGate, same(128, 0), line)
}

#[test]
fn each_piece_passes_the_gate(rt: HostRuntime) {
    assert!(rt; single_octets_pass(&rt));
    assert!(rt; many_sessions_are_told(&rt));
}

/// Settings with a form and a clock.
const SETTINGS: &[u8] =
    b"clock = 5000\n[[link]]\nid = 1\nresponse = \"hexadecimal\"\nreceipt = \"decimal\"\n";

/// A script of a submit_sm, in two pieces, between which a form is set.
const CUT_BY_A_FORM: &[u8] =
    b"piece,1,10,client,1000,00000031000000040000000000000001000000313030300001013434373730303930303132330000000000000100\nform,1,decimal,decimal\npiece,1,10,client,1300,000000\n";

/// A submit_sm of session 10, which is withdrawn and comes again under another link; and a withdrawal of no session.
const BETWEEN_SUBMITS: &[u8] =
    b"piece,1,10,client,1000,00000031000000040000000000000001000000313030300001013434373730303930303132330000000000000100000000\nwithdraw,10\npiece,2,10,client,1000,00000031000000040000000000000001000000313030300001013434373730303930303132330000000000000100000000\nwithdraw,11\n";

/// Settings, a script, the entries and refused rows that are told of it, and the line.
const CASES: &[(&[u8], &[u8], u64, u64, &str)] = &[
    (b"", b"", 0, 0, "same entries 0 refused 0\n"),
    // a piece without octets isn't prepared, so it has no entry
    (
        b"",
        b"piece,1,10,client,1000,\n",
        0,
        1,
        "same entries 0 refused 1\n",
    ),
    // rows that are no pieces, one of them refused by the book
    (
        b"",
        b"clock,5\nform,1,decimal,decimal\nclock,4\nwithdraw,10\n",
        4,
        2,
        "same entries 4 refused 2\n",
    ),
    (SETTINGS, b"", 2, 0, "same entries 2 refused 0\n"),
    // refused rows of the script alone are counted
    (
        SETTINGS,
        b"clock,4999\npiece,1,10,client,1000,00\n",
        4,
        1,
        "same entries 4 refused 1\n",
    ),
    (SETTINGS, CUT_BY_A_FORM, 5, 0, "same entries 5 refused 0\n"),
    // a session under another link, and a moment that goes back
    (
        b"",
        b"piece,1,10,client,1000,00\npiece,2,10,client,1000,00\npiece,1,10,client,999,00\npiece,1,10,client,1000,00\n",
        4,
        2,
        "same entries 4 refused 2\n",
    ),
    // a withdrawal between the submit_sm of its session, without which another message would wait
    (b"", BETWEEN_SUBMITS, 4, 1, "same entries 4 refused 1\n"),
];

#[test]
fn checks_of_known_scripts(rt: HostRuntime) {
    for (settings, script, entries, refused, line) in CASES {
        let wanted = same(*entries, *refused);
        let told = tells(&rt, settings, script, &NoGate, wanted, line);
        assert!(rt; told, "{line}");
    }
    let bad_row = fails(&rt, b"", b"clock,1\nclock,x\n", RunFault::BadRow { row: 2 });
    assert!(rt; bad_row);
    let bad_settings = fails(&rt, b"clock = -1", b"clock,x\n", RunFault::BadSettings);
    assert!(rt; bad_settings);
    let unwritten = fails_to_write(&rt);
    assert!(rt; unwritten);
}
