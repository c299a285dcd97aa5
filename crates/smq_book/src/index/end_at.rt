//! The keys under which messages whose receipts are due are found by the ends of their windows.
ghost use Rattle.std.specs.Prelude.{◌≡◌, ◌+◌};
ghost use Rattle.smq_kit.specs.Orders.{least_place};
ghost use Rattle.smq_book.specs.index.Ends.{end_at};

use smq_kit::{Dir, Moment, Place, SessionId, Window};
use smq_shelf::{ShelfKey, Stretch};

/// The end of the window and the place of a message whose receipt is due: of an open or a lapsed one. Ordered by the end, then by
/// the place: those that lapse first stand first.
#[derive(Debug, PartialEq, Eq, PartialOrd, Ord, Drop)]
pub(crate) struct EndAt {
    /// In ms since 1970 in UTC.
    pub(crate) end: u64,
    pub(crate) place: Place,
}

impl EndAt {
    /// Where a message of a moment stands that waits so long.
    pub(crate) fn of(moment: Moment, window: Window, place: Place) -> EndAt
        ensures { result ≡ end_at (moment + window) place }
    {
        EndAt {
            end: moment.milliseconds() + window.milliseconds(),
            place,
        }
    }

    /// The least key after a clock.
    pub(crate) fn first_after(clock: Moment) -> EndAt
        ensures { result ≡ end_at (clock + 1) least_place }
    {
        EndAt {
            end: clock.milliseconds() + 1,
            place: Place {
                session: SessionId(0),
                dir: Dir::FromClient,
                offset: 0,
            },
        }
    }
}

impl ShelfKey for EndAt {
    ghost use Rattle.smq_book.specs.index.EndKeys.{one_end};

    ghost exact = { one_end };

    fn copy(&self) -> EndAt {
        EndAt {
            end: self.end,
            place: self.place,
        }
    }
}

/// The ends that come after a clock and not after another.
#[derive(Drop)]
pub(crate) struct EndsBetween {
    pub(crate) from: Moment,
    pub(crate) clock: Moment,
}

impl Stretch<EndAt> for EndsBetween {
    ghost use Rattle.smq_book.specs.index.Ends.{is_between};

    ghost has = { λ s k. is_between s.from s.clock k };

    fn has(&self, key: &EndAt) -> bool {
        self.from.milliseconds() < key.end && key.end <= self.clock.milliseconds()
    }
}
