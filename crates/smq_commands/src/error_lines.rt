//! What is told on standard error, as a writer of texts.
use crate::progress::Progress;
use std::io::Write;
use std::time::Clock;
use std::{io, str};

/// Writes texts on standard error. A text that can't be written is lost.
#[derive(Drop)]
pub(crate) struct ErrorLines<'a, R> {
    to: &'a R,
    progress: Progress,
}

impl<'a, R: Eprint> ErrorLines<'a, R> {
    /// A writer of texts on standard error, where it may be told how far it is.
    pub(crate) fn new(to: &'a R, progress: Progress) -> ErrorLines<'a, R> {
        ErrorLines { to, progress }
    }
}

impl<R: Eprint + Clock> Write for ErrorLines<'_, R> {
    fn write(&mut self, octets: &[u8]) -> io::Result<usize> {
        self.progress.take_away(self.to);
        if let Ok(text) = str::from_utf8(octets) {
            let _ = eprint!(self.to; "{text}");
        }
        Ok(octets.len())
    }

    fn flush(&mut self) -> io::Result<()> {
        Ok(())
    }
}
