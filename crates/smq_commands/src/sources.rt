//! Captures that are read one after the other.
use crate::progress::now;
use smq_capture::{Capture, Fault, Reading, Sink, Step};
use std::alloc::Global;
use std::fs;
use std::io::Read;
use std::rt::Files;
use std::time::Clock;

/// Captures that are read one after the other; the path - is that of standard input.
#[derive(Drop)]
pub(crate) struct Sources<'a, R: Files, I> {
    rt: &'a R,
    alloc: Global,
    input: I,
    paths: &'a [String],
    /// The capture that is read, and how far.
    file: Option<R::File>,
    reading: Option<Reading>,
}

impl<'a, R: Files + Clock + AllocGlobal, I: Read> Sources<'a, R, I> {
    /// Nothing of them was read yet. None: standard input is read.
    pub(crate) fn new(rt: &'a R, input: I, paths: &'a [String]) -> Sources<'a, R, I> {
        Sources {
            rt,
            alloc: rt.alloc(),
            input,
            paths,
            file: None,
            reading: None,
        }
    }

    /// The path of the capture that is read.
    pub(crate) fn path(&self) -> &str {
        match self.paths.first() {
            Some(path) => path.as_str(),
            None => "-",
        }
    }

    /// Reads once; whether more may follow.
    pub(crate) fn read_on<S: Sink + Drop>(
        &mut self,
        capture: &mut Capture<S>,
    ) -> Result<bool, Fault> {
        if self.reading.is_none() {
            self.file = self.open()?;
            self.reading = Some(Reading::new(self.alloc));
        }
        let Some(reading) = &mut self.reading else {
            return Ok(false);
        };
        let step = match &mut self.file {
            Some(file) => capture.read_on(reading, file)?,
            None => capture.read_on(reading, &mut self.input)?,
        };
        match step {
            Step::GoesOn => Ok(true),
            Step::Waits => {
                match now(self.rt) {
                    Ok(now) => capture.pass_time(now)?,
                    Err(error) => return Err(Fault::Read(error)),
                }
                Ok(true)
            }
            Step::Ended => Ok(self.pass()),
        }
    }

    /// Opens the next capture; none where that is standard input.
    fn open(&self) -> Result<Option<R::File>, Fault> {
        let path = self.path();
        if path == "-" {
            return Ok(None);
        }
        match fs::open(self.rt, path) {
            Ok(file) => Ok(Some(file)),
            Err(error) => Err(Fault::Read(error)),
        }
    }

    /// Passes to the next capture; whether there is one.
    fn pass(&mut self) -> bool {
        self.file = None;
        self.reading = None;
        if let Some((_, rest)) = self.paths.split_first() {
            self.paths = rest;
        }
        !self.paths.is_empty()
    }
}
