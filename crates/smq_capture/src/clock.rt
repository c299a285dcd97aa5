//! Which moments of packets are believed.
ghost use Rattle.std.specs.Prelude.{◌≡◌, if◌then◌else◌, unwrap_or, None};
ghost use Rattle.smq_capture.specs.Clock.{is_believed, newest_settled, newest_with, settled};

use smq_packets::LinkType;
use std::alloc::{AllocError, Global};

/// The last moment that a packet may have, in ms since 1970: the end of 2099.
pub(crate) const LAST_MOMENT: u64 = 4_102_444_800_000;

/// A moment that is further ahead of all before, in ms, is believed once the next packet's isn't as far before it.
pub(crate) const AHEAD: u64 = 3_600_000;

/// A packet whose moment isn't believed yet.
#[derive(Drop)]
pub(crate) struct Doubted {
    pub link_type: LinkType,
    pub number: u64,
    pub moment: u64,
    pub is_whole: bool,
    pub frame: Vec<u8>,
}

/// The clock of a capture.
#[derive(Drop)]
pub(crate) struct Clock {
    newest: Option<u64>,
    doubted: Option<Doubted>,
}

impl Clock {
    /// Before the first packet.
    pub(crate) fn new() -> Clock
        ensures { result.newest ≡ None }
    {
        Clock {
            newest: None,
            doubted: None,
        }
    }

    /// The newest moment that is believed, or 0.
    pub(crate) fn now(&self) -> u64
        ensures { result ≡ unwrap_or self.now.newest 0 }
    {
        self.newest.unwrap_or(0)
    }

    /// The newest moment that is believed.
    pub(crate) fn newest(&self) -> Option<u64>
        ensures { result ≡ self.now.newest }
    {
        self.newest
    }

    /// Whether a moment is believed at once, which then is the newest if it is later.
    pub(crate) fn believes(&mut self, moment: u64) -> bool
        ensures believed { result ≡ is_believed self.old.newest moment }
        ensures newest { self.new.newest ≡ if is_believed self.old.newest moment
            then newest_with self.old.newest moment else self.old.newest }
        ensures doubted { self.new.doubted ≡ self.old.doubted }
    {
        match self.newest {
            Some(newest) if moment <= newest.saturating_add(AHEAD) && moment <= LAST_MOMENT => {
                if newest < moment {
                    self.newest = Some(moment);
                }
                true
            }
            _ => false,
        }
    }

    /// Keeps a packet whose moment isn't believed yet.
    pub(crate) fn doubt(
        &mut self,
        alloc: Global,
        link_type: LinkType,
        number: u64,
        moment: u64,
        is_whole: bool,
        frame: &[u8],
    ) -> Result<(), AllocError> {
        let frame = Vec::from_slice(alloc, frame)?;
        self.doubted = Some(Doubted {
            link_type,
            number,
            moment,
            is_whole,
            frame,
        });
        Ok(())
    }

    /// The packet whose moment isn't believed yet, if there is one.
    pub(crate) fn take_doubted(&mut self) -> Option<Doubted> {
        self.doubted.take()
    }

    /// The moment that a packet has whose own isn't believed at once, where the next one's is this, if there is one: its own where that
    /// isn't far behind; else the newest, or the next one's. None where there is none of these.
    pub(crate) fn settle(&mut self, moment: u64, next: Option<u64>) -> Option<u64>
        ensures settled { result ≡ settled self.old.newest moment next }
        ensures newest { self.new.newest ≡ newest_settled self.old.newest moment next }
        ensures doubted { self.new.doubted ≡ self.old.doubted }
    {
        let next = match next {
            Some(next) if next <= LAST_MOMENT => Some(next),
            _ => None,
        };
        let is_confirmed = moment <= LAST_MOMENT
            && match next {
                Some(next) => moment <= next.saturating_add(AHEAD),
                None => self.newest.is_none(),
            };
        if is_confirmed {
            self.newest = Some(moment);
            return Some(moment);
        }
        match self.newest {
            Some(newest) => Some(newest),
            None => next,
        }
    }
}
