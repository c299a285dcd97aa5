//! Captures as rows that are read.
use crate::error_lines::ErrorLines;
use crate::sources::Sources;
use smq_capture::{Capture, Fault, Texts};
use std::io;
use std::io::{ErrorKind, Read};
use std::rt::Files;
use std::time::Clock;

/// What rows of captures are written to, and what is told of them.
pub(crate) type RowTexts<'a, R> = Texts<
    Vec<u8>,
    ErrorLines<'a, R>,
    <R as Files>::File,
    <R as Files>::File,
>;

/// The rows that `smq capture` writes of captures, as they are read.
#[derive(Drop)]
pub(crate) struct CaptureRows<'a, R: Files, I> {
    sources: Sources<'a, R, I>,
    capture: Capture<RowTexts<'a, R>>,
    /// How many octets of the rows that are there were given.
    given: usize,
    is_ended: bool,
    has_loss: bool,
    fault: Option<Fault>,
}

impl<'a, R: Files + Clock + Eprint + AllocGlobal, I: Read + Drop> CaptureRows<'a, R, I> {
    /// None was read yet.
    pub(crate) fn new(
        sources: Sources<'a, R, I>,
        capture: Capture<RowTexts<'a, R>>,
    ) -> CaptureRows<'a, R, I> {
        CaptureRows {
            sources,
            capture,
            given: 0,
            is_ended: false,
            has_loss: false,
            fault: None,
        }
    }

    /// Whether something is missing in the captures.
    pub(crate) fn has_loss(&self) -> bool {
        self.has_loss
    }

    /// Why they weren't read to their end, and the path of the one that wasn't, where that is so.
    pub(crate) fn fault(&self) -> Option<(&str, &Fault)> {
        match &self.fault {
            Some(fault) => Some((self.sources.path(), fault)),
            None => None,
        }
    }

    /// Reads captures until there are rows, or their end.
    fn read_rows(&mut self) -> Result<(), Fault> {
        for _ in 0..u64::MAX {
            if self.is_ended || !self.capture.sink().rows().is_empty() {
                break;
            }
            if !self.sources.read_on(&mut self.capture)? {
                self.is_ended = true;
                self.has_loss = self.capture.end()?;
            }
        }
        Ok(())
    }
}

impl<R: Files + Clock + Eprint + AllocGlobal, I: Read + Drop> Read for CaptureRows<'_, R, I> {
    fn read(&mut self, to: &mut [u8]) -> io::Result<usize> {
        if self.given >= self.capture.sink().rows().len() {
            self.capture.sink().rows().clear();
            self.given = 0;
            if let Err(fault) = self.read_rows() {
                let kind = match &fault {
                    Fault::Memory => ErrorKind::OutOfMemory,
                    Fault::Read(error) | Fault::Write(error) => error.kind(),
                    _ => ErrorKind::InvalidData,
                };
                self.fault = Some(fault);
                self.is_ended = true;
                return Err(io::Error::from(kind));
            }
        }
        let Some(left) = self.capture.sink().rows().as_slice().get(self.given..) else {
            return Ok(0);
        };
        let count = left.len().min(to.len());
        for (place, octet) in to.iter_mut().zip(left.iter().take(count)) {
            *place = *octet;
        }
        self.given = self.given.saturating_add(count);
        Ok(count)
    }
}
