//! A run, a total, lines and a check with each allocation and each start of a thread refused in turn
//! (gate/check-out-of-memory-in-calls): what was written is a beginning of what is wanted, and the same is done then as
//! ever.
use crate::tests::faults::{SCRIPT, WORKS, Work, ends, fault_of};
use crate::tests::*;
use smq_marks::Call;

/// The call that does a work. Lines are marked as totals, whose rows they play.
fn call_of(work: Work) -> Call {
    match work {
        Work::Report(_) => Call::Run,
        Work::Total(_) | Work::Messages | Work::Receipts | Work::Counts => Call::Total,
        Work::Check => Call::Check,
    }
}

/// How a work ends for which memory or a thread may be refused, if it isn't done.
fn marked_fault<RT: AllocGlobal + Threads + Wait + Sync>(
    rt: &RT,
    work: Work,
    written: &mut Vec<u8>,
) -> Option<RunFault> {
    let mut reader = SCRIPT;
    smq_marks::begin(rt.alloc(), call_of(work));
    let fault = fault_of(rt, work, &mut reader, written);
    smq_marks::end(rt.alloc(), is_wanting(fault));
    fault
}

fn is_wanting(fault: Option<RunFault>) -> bool {
    fault == Some(RunFault::Memory) || fault == Some(RunFault::NoThread)
}

/// Whether a work is done and writes this text, or ends for lack of memory or of a thread and writes a beginning of it.
fn is_answered<RT: AllocGlobal + Threads + Wait + Sync>(
    rt: &RT,
    work: Work,
    text: &[u8],
) -> Option<bool> {
    // (what is written has room, so that it wants no memory)
    let mut written = Vec::with_capacity(rt.alloc(), 4096).ok()?;
    let fault = marked_fault(rt, work, &mut written);
    let is_right = match fault {
        None => written.as_slice() == text,
        Some(_) => is_wanting(fault) && text.starts_with(written.as_slice()),
    };
    Some(is_right)
}

#[test]
fn what_wants_memory_or_a_thread_says_so(rt: HostRuntime) {
    for (work, text) in WORKS {
        assert!(rt; is_answered(&rt, *work, text) == Some(true));
        let mut reader = SCRIPT;
        assert!(rt; ends(&rt, *work, &mut reader, None, text), "once more");
    }
}
