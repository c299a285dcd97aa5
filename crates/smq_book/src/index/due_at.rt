//! The keys under which messages whose receipts are due are found by link and by moment.
ghost use Rattle.std.specs.Prelude.{◌≡◌};
ghost use Rattle.smq_kit.specs.Orders.{least_place};
ghost use Rattle.smq_book.specs.index.Due.{due_at};

use smq_kit::{Dir, LinkId, Moment, Place, SessionId};
use smq_shelf::{ShelfKey, Stretch};

/// The link, the moment and the place of a message whose receipt is due: of an open or a lapsed one. Ordered by the link, then by the
/// moment, then by the place: those of a link stand together, and those that lapse first stand first.
#[derive(Debug, PartialEq, Eq, PartialOrd, Ord, Drop)]
pub(crate) struct DueAt {
    pub(crate) link: LinkId,
    pub(crate) moment: Moment,
    pub(crate) place: Place,
}

impl DueAt {
    /// The least key of a link from a moment on.
    pub(crate) fn first_from(link: LinkId, moment: Moment) -> DueAt
        ensures { result ≡ due_at link moment least_place }
    {
        DueAt {
            link,
            moment,
            place: Place {
                session: SessionId(0),
                dir: Dir::FromClient,
                offset: 0,
            },
        }
    }
}

impl ShelfKey for DueAt {
    ghost use Rattle.smq_book.specs.index.DueKeys.{one_due};

    ghost exact = { one_due };

    fn copy(&self) -> DueAt {
        DueAt {
            link: self.link,
            moment: self.moment,
            place: self.place,
        }
    }
}

/// The keys of a link.
#[derive(Drop)]
pub(crate) struct DueOn {
    pub(crate) link: LinkId,
}

impl Stretch<DueAt> for DueOn {
    ghost use Rattle.std.specs.Prelude.{◌==◌};

    ghost has = { λ s k. k.link.0 == s.link.0 };

    fn has(&self, key: &DueAt) -> bool {
        key.link.0 == self.link.0
    }
}
