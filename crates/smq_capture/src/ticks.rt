//! When a sink is told of the capture's clock.
ghost use Rattle.std.specs.Prelude.{◌≡◌, ◌<◌, ◌≤◌, IfSome};

use std::cmp::max;

/// A multiple of so many ms that the clock has passed, if it is past the one before.
#[derive(Clone, Copy, Debug, PartialEq, Eq)]
pub(crate) struct Tick {
    pub clock: Option<u64>,
}

/// When the capture's clock passes multiples of so many ms since 1970.
#[derive(Drop)]
pub(crate) struct Ticks {
    every: Option<u64>,
    /// The moments between which none is due, once a packet came.
    quiet: Option<(u64, u64)>,
    /// The multiple that was told last.
    told: u64,
    /// How many packets there were when nothing more came, and when that was, by the host's clock.
    packets: u64,
    since: Option<u64>,
}

impl Ticks {
    /// Before the first packet.
    pub(crate) fn new(every: Option<u64>) -> Ticks {
        Ticks {
            every,
            quiet: None,
            told: 0,
            packets: 0,
            since: None,
        }
    }

    /// Whether any is.
    pub(crate) fn is_wanted(&self) -> bool {
        self.every.is_some()
    }

    /// What is due before a moment: where that is past the next multiple, or the clock was set back by more than one.
    pub(crate) fn pass_to(&mut self, moment: u64) -> Option<Tick>
        ensures { IfSome result (λ t. IfSome t.clock (λ clock. (clock ≤ moment) × (self.old.told < clock)
            × (self.new.told ≡ clock))) }
    {
        let every = max(self.every?, 1);
        if let Some((from, until)) = self.quiet {
            if from <= moment && moment < until {
                return None;
            }
        }
        let is_first = self.quiet.is_none();
        let begin = moment - moment % every;
        self.quiet = Some((begin.saturating_sub(every), begin.saturating_add(every)));
        if is_first {
            return None;
        }
        let is_later = begin > self.told;
        if is_later {
            self.told = begin;
        }
        Some(Tick {
            clock: if is_later { Some(begin) } else { None },
        })
    }

    /// For how many ms no packet came after so many, at a moment of the host's clock.
    pub(crate) fn passed(&mut self, packets: u64, now: u64) -> u64 {
        match self.since {
            Some(since) if self.packets == packets => now.saturating_sub(since),
            _ => {
                self.packets = packets;
                self.since = Some(now);
                0
            }
        }
    }

    /// Whether questions are due where no packet came yet, so that the capture's clock isn't known: each so many ms of the host's.
    pub(crate) fn is_due_unknown(&mut self, passed: u64, now: u64) -> bool {
        match self.every {
            Some(every) if passed >= every => {
                self.since = Some(now);
                true
            }
            _ => false,
        }
    }
}
