//! Standard input that a thread reads, so that a read ends where nothing comes.
use crossbeam_channel::{Receiver, RecvTimeoutError, Sender, bounded};
use std::alloc::{AllocError, Global};
use std::io;
use std::io::{ErrorKind, Read};
use std::sync::Wait;
use std::time::{Clock, Duration};

/// How many octets the thread reads at once, and how many such blocks wait.
const BLOCK: usize = 65_536;

const WAITING: usize = 4;

/// After so many ms without an octet a read ends.
const PATIENCE: u64 = 100;

/// Octets that were read, as they come.
pub type Blocks = Receiver<io::Result<Vec<u8>>>;

/// Where a thread puts them, and where they come from.
pub fn blocks(alloc: Global) -> io::Result<(Sender<io::Result<Vec<u8>>>, Blocks)> {
    Ok(bounded(alloc, WAITING)?)
}

/// Standard input.
#[derive(Drop)]
pub(crate) struct TimedInput<'a, R> {
    rt: &'a R,
    blocks: Blocks,
    /// The block that is being read, and from where on.
    block: Vec<u8>,
    from: usize,
}

impl<'a, R: AllocGlobal> TimedInput<'a, R> {
    /// An input of blocks as they come.
    pub(crate) fn new(rt: &'a R, blocks: Blocks) -> TimedInput<'a, R> {
        TimedInput {
            rt,
            blocks,
            block: Vec::new(rt.alloc()),
            from: 0,
        }
    }
}

/// Sends what is read from standard input, up to its end or the first failure, or until nobody takes it.
pub fn send_all<R: Input + AllocGlobal + Wait>(rt: &R, to: &Sender<io::Result<Vec<u8>>>) {
    let mut reader = rt.reader();
    for _ in 0..u64::MAX {
        let block = read_block(rt.alloc(), &mut reader);
        let is_last = match &block {
            Ok(octets) => octets.is_empty(),
            Err(_) => true,
        };
        if to.send(rt, block).is_err() || is_last {
            return;
        }
    }
}

/// Reads up to a block; none at the end.
fn read_block<I: Read>(alloc: Global, reader: &mut I) -> io::Result<Vec<u8>> {
    let mut octets = Vec::new(alloc);
    octets.resize(BLOCK, 0).map_err(AllocError::from)?;
    for _ in 0..u64::MAX {
        match reader.read(octets.as_mut_slice()) {
            Ok(count) => {
                octets.truncate(count);
                return Ok(octets);
            }
            Err(error) if error.kind() == ErrorKind::Interrupted => {}
            Err(error) => return Err(error),
        }
    }
    Err(io::Error::from(ErrorKind::Interrupted))
}

impl<R: Wait + Clock> Read for TimedInput<'_, R> {
    fn read(&mut self, to: &mut [u8]) -> io::Result<usize> {
        if self.from >= self.block.len() {
            match self
                .blocks
                .recv_timeout(self.rt, Duration::from_millis(PATIENCE))
            {
                Ok(block) => {
                    self.block = block?;
                    self.from = 0;
                }
                Err(RecvTimeoutError::Timeout) => {
                    return Err(io::Error::from(ErrorKind::TimedOut));
                }
                Err(RecvTimeoutError::Disconnected) => return Ok(0),
            }
        }
        let Some(left) = self.block.as_slice().get(self.from..) else {
            return Ok(0);
        };
        let count = left.len().min(to.len());
        for (place, octet) in to.iter_mut().zip(left.iter().take(count)) {
            *place = *octet;
        }
        self.from = self.from.saturating_add(count);
        Ok(count)
    }
}
