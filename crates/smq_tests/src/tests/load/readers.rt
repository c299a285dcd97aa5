//! Readers that give little at a time, and readers that fail.
use smq_load::{LoadFault, read_script};
use std::alloc::Global;
use std::io;
use std::io::Read;
use std::process::Abort;

/// Gives a text octet by octet, and fails at one of its reads.
#[derive(Drop)]
struct Dripping<'a> {
    text: &'a [u8],
    /// How many reads succeed.
    reads: usize,
    kind: io::ErrorKind,
}

impl Read for Dripping<'_> {
    fn read(&mut self, buf: &mut [u8]) -> io::Result<usize> {
        if self.reads == 0 {
            self.reads = usize::MAX;
            return Err(io::Error::from(self.kind));
        }
        self.reads -= 1;
        let count = 1usize.min(buf.len()).min(self.text.len());
        let (given, left) = self.text.split_at(count);
        buf[..count].copy_from_slice(given);
        self.text = left;
        Ok(count)
    }
}

/// A script whose second record is bad.
const BAD: &[u8] = b"clock,1\nclock,x\nclock,2\n";

/// What is told of a script, of which the read after so many fails.
fn fault_after(alloc: Global, text: &[u8], reads: usize, kind: io::ErrorKind) -> Option<LoadFault> {
    let mut reader = Dripping { text, reads, kind };
    read_script(alloc, &mut reader).err()
}

fn assert_faults(rt: &impl Abort, alloc: Global, reads: usize) {
    let failed = fault_after(alloc, BAD, reads, io::ErrorKind::Other);
    assert!(rt; failed == Some(LoadFault::Read), "after {reads} reads");
    let interrupted = fault_after(alloc, BAD, reads, io::ErrorKind::Interrupted);
    assert!(rt;
        interrupted == Some(LoadFault::BadRow { row: 2 }),
        "after {reads} reads"
    );
}

fn rows_of_a_whole_script(alloc: Global) -> Option<usize> {
    let mut whole = Dripping {
        text: b"clock,1\nclock,2",
        reads: usize::MAX,
        kind: io::ErrorKind::Other,
    };
    match read_script(alloc, &mut whole) {
        Ok(rows) => Some(rows.len()),
        Err(_) => None,
    }
}

#[test]
fn a_failed_read_is_told_before_any_row_is_judged(rt: HostRuntime) {
    for reads in 0..BAD.len() + 1 {
        assert_faults(&rt, rt.alloc(), reads);
    }
    assert!(rt; rows_of_a_whole_script(rt.alloc()) == Some(2));
}
