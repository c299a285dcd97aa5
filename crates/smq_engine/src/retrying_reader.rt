//! A reader that is asked again where a read was interrupted.
ghost use Rattle.std.specs.Prelude.{◌≡◌, ◌<◌, IfOk, OnErr, length, take};
ghost use Rattle.std.specs.Io.{ReadsAtMost};
ghost use Rattle.std.specs.Io.KnownBytes.{Consumes, IsAtEnd, Keeps};

use std::io;
use std::io::{ErrorKind, Read};

/// A reader that tries a read again that was interrupted.
#[derive(Drop)]
pub struct RetryingReader<R> {
    inner: R,
}

impl<R: Read> RetryingReader<R> {
    /// That of a reader.
    pub fn new(inner: R) -> RetryingReader<R>
        ensures { result.inner ≡ inner }
    {
        RetryingReader { inner }
    }
}

impl<R: Read> Read for RetryingReader<R> {
    ghost remaining = { λ retried. R.remaining retried.inner };

    fn read(&mut self, octets: &mut [u8]) -> io::Result<usize> {
        read_on(&mut self.inner, octets)
    }
}

/// One read that isn't interrupted.
fn read_on<R: Read>(reader: &mut R, octets: &mut [u8]) -> io::Result<usize>
    ensures bound { ReadsAtMost result octets.new }
    ensures ok { IfOk result (λ count.
        Consumes (R.remaining reader.old) (R.remaining reader.new) (take count octets.new)) }
    ensures end { IfOk result (λ count.
        count ≡ 0 → 0 < length octets.old → IsAtEnd (R.remaining reader.new)) }
    ensures err { OnErr result (Keeps (R.remaining reader.old) (R.remaining reader.new)) }
{
    for _ in 0..u64::MAX {
        match reader.read(octets) {
            Err(error) if error.kind() == ErrorKind::Interrupted => {}
            read => return read,
        }
    }
    Err(io::Error::from(ErrorKind::Interrupted))
}
