//! Octets that are written by a writer which takes one at a call, is interrupted, takes none or fails.
use smq_report::{ReportFault, write_octets};
use std::alloc::{AllocError, Global};
use std::io;
use std::io::Write;

/// What a writer answers once before it takes an octet.
#[derive(Clone, Copy, Debug)]
enum Before {
    Nothing,
    Interrupted,
    NoOctet,
    WouldBlock,
}

/// Takes an octet at a call, and answers something once before.
#[derive(Drop)]
struct Single {
    taken: usize,
    before: Before,
    /// Whether that was answered before the next octet.
    is_ready: bool,
}

impl Write for Single {
    fn write(&mut self, buf: &[u8]) -> io::Result<usize> {
        self.is_ready = !self.is_ready;
        match self.before {
            Before::Interrupted if self.is_ready => Err(io::Error::from(
                io::ErrorKind::Interrupted,
            )),
            Before::NoOctet if self.is_ready => Ok(0),
            Before::WouldBlock if self.is_ready => Err(io::Error::from(io::ErrorKind::WouldBlock)),
            _ => {
                let count = 1usize.min(buf.len());
                self.taken = self.taken.saturating_add(count);
                Ok(count)
            }
        }
    }

    fn flush(&mut self) -> io::Result<()> {
        Ok(())
    }
}

/// How many octets are written: one more than a page of 64 KiB.
const OCTETS: usize = 65_537;

/// What a writer answers before each octet, what is told, and how many octets it took.
const CASES: &[(Before, Result<(), ReportFault>, usize)] = &[
    (Before::Nothing, Ok(()), OCTETS),
    (Before::Interrupted, Ok(()), OCTETS),
    (Before::NoOctet, Err(ReportFault::Write), 0),
    (Before::WouldBlock, Err(ReportFault::Write), 0),
];

/// What is told of octets, and how many of them such a writer took.
fn told(alloc: Global, before: Before) -> Result<(Result<(), ReportFault>, usize), AllocError> {
    let octets = vec![in alloc; b'x'; OCTETS]?;
    let mut writer = Single {
        taken: 0,
        before,
        is_ready: false,
    };
    let answer = write_octets(&mut writer, octets.as_slice());
    Ok((answer, writer.taken))
}

#[test]
fn octets_are_written_until_the_writer_fails_or_takes_none(rt: HostRuntime) {
    for (before, wanted, taken) in CASES {
        assert!(rt;
            told(rt.alloc(), *before) == Ok((*wanted, *taken)),
            "{before:?}"
        );
    }
}
