//! Connections that ended: what comes of them again is no new connection.
ghost use Rattle.std.specs.Prelude.{◌≡◌, ◌↔◌, IsTrue};
ghost use Rattle.smq_capture.specs.Ended.{IsOf};

use crate::ends::{Ends, Recent};
use crate::numbers::behind;
use smq_packets::{SYN, Segment};
use std::alloc::{AllocError, Global};

/// Of so many pairs of ends at least is known which connections ended, and of each pair of so many connections.
const PAIRS: usize = 16_384;

const OF_A_PAIR: usize = 32;

/// The octets of a direction: the number of the first, and how many they are.
#[derive(Clone, Copy, Debug, PartialEq, Eq)]
pub(crate) struct Span {
    pub first: u32,
    pub length: u64,
}

/// The directions of a connection that ended: of the lesser end, and of the other.
#[derive(Clone, Copy, Debug, PartialEq, Eq)]
pub(crate) struct Spans {
    pub low: Option<Span>,
    pub high: Option<Span>,
}

/// The connections that ended last.
#[derive(Drop)]
pub(crate) struct Ended {
    recent: Recent<Vec<Spans>>,
}

impl Ended {
    /// No connection ended.
    pub(crate) fn new(alloc: Global) -> Ended {
        Ended {
            recent: Recent::new(alloc, PAIRS),
        }
    }

    /// Takes a connection that ended.
    pub(crate) fn put(
        &mut self,
        alloc: Global,
        ends: Ends,
        spans: Spans,
    ) -> Result<(), AllocError> {
        let mut all = match self.recent.remove(&ends) {
            Some(all) => all,
            None => Vec::new(alloc),
        };
        if all.len() >= OF_A_PAIR {
            let _ = all.remove(0);
        }
        all.push(spans)?;
        let _ = self.recent.put(alloc, ends, all)?;
        Ok(())
    }

    /// Whether a segment is of a connection that ended.
    pub(crate) fn has(&self, ends: &Ends, segment: &Segment) -> bool {
        let Some(all) = self.recent.get(ends) else {
            return false;
        };
        for it in all.as_slice() {
            let span = if segment.source == ends.low {
                it.low
            } else {
                it.high
            };
            if let Some(span) = span {
                if is_of(span, segment.sequence, segment.length, segment.has(SYN)) {
                    return true;
                }
            }
        }
        false
    }
}

/// Whether a segment with a number and so many octets, or a SYN, is of a direction.
fn is_of(span: Span, sequence: u32, length: usize, is_syn: bool) -> bool
    ensures { IsTrue result ↔ IsOf span sequence length is_syn }
{
    let second = behind(sequence, 1);
    if is_syn {
        return second == span.first;
    }
    let far = second.wrapping_sub(span.first);
    far as u128 + length as u128 <= span.length as u128 + 2
}
