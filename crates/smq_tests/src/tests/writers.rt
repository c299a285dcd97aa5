//! Writers that compare what they are given with a text, or fail. They want no memory.
use std::io;
use std::io::Write;

/// Takes the octets of a text, and no others, so many at most at each write.
#[derive(Drop)]
pub(crate) struct Expecting {
    /// What is still to come.
    left: &'static [u8],
    most: usize,
    /// Whether all that came was expected.
    is_right: bool,
}

impl Expecting {
    pub(crate) fn of(text: &'static [u8], most: usize) -> Expecting {
        Expecting {
            left: text,
            most,
            is_right: true,
        }
    }

    /// Whether what came was expected.
    pub(crate) fn is_right(&self) -> bool {
        self.is_right
    }

    /// Whether the text came, and nothing else.
    pub(crate) fn has_all(&self) -> bool {
        self.is_right && self.left.is_empty()
    }
}

impl Write for Expecting {
    fn write(&mut self, buf: &[u8]) -> io::Result<usize> {
        let count = self.most.min(buf.len());
        match self.left.strip_prefix(&buf[..count]) {
            Some(left) => self.left = left,
            None => self.is_right = false,
        }
        Ok(count)
    }

    fn flush(&mut self) -> io::Result<()> {
        Ok(())
    }
}

/// Takes all that it is given, and fails after so many calls.
#[derive(Drop)]
pub(crate) struct Failing {
    calls: u32,
}

impl Failing {
    pub(crate) fn after(calls: u32) -> Failing {
        Failing { calls }
    }

    /// Counts a call, which fails where none is left.
    fn call(&mut self) -> io::Result<()> {
        if self.calls == 0 {
            return Err(io::Error::from(io::ErrorKind::Other));
        }
        self.calls -= 1;
        Ok(())
    }
}

impl Write for Failing {
    fn write(&mut self, buf: &[u8]) -> io::Result<usize> {
        self.call()?;
        Ok(buf.len())
    }

    fn flush(&mut self) -> io::Result<()> {
        self.call()
    }
}
