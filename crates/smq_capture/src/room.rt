//! Octets that were read and aren't used yet.
use crate::fault::Fault;
use std::alloc::{AllocError, Global};
use std::io::{ErrorKind, Read};

/// How many octets are asked for at a time.
const CHUNK: usize = 262_144;

/// Octets that were read, of which those from a place on aren't used yet.
#[derive(Drop)]
pub(crate) struct Room {
    octets: Vec<u8>,
    from: usize,
    until: usize,
    /// How many octets were used.
    used: u64,
}

impl Room {
    /// No octets.
    pub(crate) fn new(alloc: Global) -> Room {
        Room {
            octets: Vec::new(alloc),
            from: 0,
            until: 0,
            used: 0,
        }
    }

    /// The octets that aren't used yet.
    pub(crate) fn unused(&self) -> &[u8] {
        match self.octets.as_slice().get(self.from..self.until) {
            Some(octets) => octets,
            None => self.octets.as_slice().get(..0).unwrap_or_default(),
        }
    }

    /// How many octets were used.
    pub(crate) fn used(&self) -> u64 {
        self.used
    }

    /// Uses so many octets.
    pub(crate) fn use_up(&mut self, count: usize) {
        self.from = self.from.saturating_add(count);
        self.used = self.used.saturating_add(count as u64);
    }

    /// Uses so many octets, as far as they are there, and gives how many those are.
    pub(crate) fn skip(&mut self, count: u64) -> u64 {
        let there = count.min(self.unused().len() as u64);
        self.use_up(there as usize);
        there
    }

    /// Reads more behind what isn't used, which is moved to the front. How many; 0 at the end.
    pub(crate) fn fill<R: Read>(&mut self, alloc: Global, reader: &mut R) -> Result<usize, Fault> {
        let left = self.move_to_front(alloc)?;
        for _ in 0..u64::MAX {
            let Some((_, back)) = self.octets.as_mut_slice().split_at_mut_checked(left) else {
                return Err(Fault::Memory);
            };
            match reader.read(back) {
                Ok(count) => {
                    self.until = left.saturating_add(count);
                    return Ok(count);
                }
                Err(error) if error.kind() == ErrorKind::Interrupted => {}
                Err(error) => return Err(Fault::Read(error)),
            }
        }
        Ok(0)
    }

    /// Moves what isn't used to the front, with room behind it. How many octets it has.
    fn move_to_front(&mut self, alloc: Global) -> Result<usize, AllocError> {
        let left = self.unused().len();
        if 0 < self.from && left <= self.from {
            copy_back(self.octets.as_mut_slice(), self.from, left);
        } else if 0 < self.from {
            self.octets = Vec::from_slice(alloc, self.unused())?;
        }
        self.from = 0;
        self.until = left;
        // (what is long is moved only each time that twice as much was read)
        if self.octets.len() <= left {
            let size = left.saturating_mul(2).saturating_add(CHUNK);
            self.octets.resize(size, 0)?;
        }
        Ok(left)
    }
}

/// Copies so many octets from a place on to the front, which ends before that place.
fn copy_back(octets: &mut [u8], from: usize, count: usize) {
    if let Some((front, back)) = octets.split_at_mut_checked(from) {
        for (to, octet) in front.iter_mut().zip(back.iter().take(count)) {
            *to = *octet;
        }
    }
}
