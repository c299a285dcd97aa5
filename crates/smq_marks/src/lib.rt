//! Marks, by which a test tells gate/out_of_memory.c which call it makes, so that memory and threads are refused to
//! that call alone. A mark asks for more memory than a machine has: it is refused in any case, and changes nothing.
#![tactic(auto)]

use std::alloc::Global;

/// A call that is made with memory or a thread refused. gate/check-out-of-memory-in-calls names them in this order.
#[derive(Clone, Copy)]
pub enum Call {
    /// An edit that reaches something is applied to a book.
    Apply,
    /// An edit is applied that is refused, or a clock that lapses no message: it wants no memory.
    ApplyInPlace,
    Prepare,
    ReadScript,
    ReadSettings,
    WriteCsv,
    WriteTable,
    Audit,
    Run,
    Total,
    Check,
    NewDesk,
    Seat,
    Tail,
    Commit,
    Publish,
    Watcher,
    LoadLinks,
}

/// How many octets the first mark asks for: 64 TiB. The marks after it ask for one more each.
const FIRST: usize = 0x4000_0000_0000;

/// Tells that a call begins.
pub fn begin(alloc: Global, call: Call) {
    mark(alloc, (call as usize).saturating_add(2));
}

/// Tells that the call has ended, and whether it answered that memory or a thread was refused.
pub fn end(alloc: Global, is_refused: bool) {
    mark(alloc, if is_refused { 1 } else { 0 });
}

/// Makes the mark of a number.
fn mark(alloc: Global, number: usize) {
    let asked: Result<Vec<u8>, _> = Vec::with_capacity(alloc, FIRST.saturating_add(number));
    drop(asked);
}
