//! The keys of the maps in which members are kept.
ghost use Rattle.std.specs.Prelude.{◌≡◌};

use smq_kit::{HashedKey, Moment, Place};
use smq_shelf::ShelfKey;

/// A member of a group: the group's key and the member's place. Those of a group stand together, by place.
#[derive(Debug, PartialEq, Eq, PartialOrd, Ord, Drop)]
pub(crate) struct Member {
    pub(crate) key: HashedKey,
    pub(crate) place: Place,
}

impl ShelfKey for Member {
    ghost use Rattle.smq_group.specs.within.KeyLaws.{one_member};

    ghost exact = { one_member };

    fn copy(&self) -> Member {
        Member {
            key: self.key.copy(),
            place: self.place,
        }
    }
}

/// A receipt that waits, since it can decide and an earlier one does: the group's key, and the receipt's moment and place.
/// Those of a group stand together, the earliest first.
#[derive(Debug, PartialEq, Eq, PartialOrd, Ord, Drop)]
pub(crate) struct Candidate {
    pub(crate) key: HashedKey,
    pub(crate) moment: Moment,
    pub(crate) place: Place,
}

impl ShelfKey for Candidate {
    ghost use Rattle.smq_group.specs.within.KeyLaws.{one_candidate};

    ghost exact = { one_candidate };

    fn copy(&self) -> Candidate {
        Candidate {
            key: self.key.copy(),
            moment: self.moment,
            place: self.place,
        }
    }
}

/// What is kept of a receipt beside its key and place.
#[derive(Clone, Copy, Debug, PartialEq, Eq)]
pub(crate) struct ReceiptFacts {
    pub(crate) moment: Moment,
    pub(crate) decides: bool,
}
