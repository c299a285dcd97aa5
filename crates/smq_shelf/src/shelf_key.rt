//! Keys of maps that can be undone.
ghost use Rattle.std.specs.Prelude.{◌≡◌};

use smq_kit::{HashedKey, LinkId, Place, SessionId};
use std::cmp::Ord;

/// A key of a map that can be undone: it is copied without memory, and keys that compare equal are one.
pub trait ShelfKey: Ord + Drop {
    ghost use Rattle.std.specs.declared.cmp.Ordering.TheVariants.{Equal};

    /// An equal key. It takes no memory.
    fn copy(&self) -> Self
        ensures { result ≡ self.now };

    ghost exact: { (x y : Self) → Self.cmp x y ≡ Equal → x ≡ y };
}

impl ShelfKey for u32 {
    ghost use Rattle.std.proofs.lemmas.Map.Lookups.{exact_unsigned};

    ghost exact = { exact_unsigned };

    fn copy(&self) -> u32 {
        *self
    }
}

impl ShelfKey for u64 {
    ghost use Rattle.std.proofs.lemmas.Map.Lookups.{exact_unsigned};

    ghost exact = { exact_unsigned };

    fn copy(&self) -> u64 {
        *self
    }
}

impl ShelfKey for LinkId {
    ghost use Rattle.smq_shelf.specs.within.KeyLaws.{one_link};

    ghost exact = { one_link };

    fn copy(&self) -> LinkId {
        *self
    }
}

impl ShelfKey for SessionId {
    ghost use Rattle.smq_shelf.specs.within.KeyLaws.{one_session};

    ghost exact = { one_session };

    fn copy(&self) -> SessionId {
        *self
    }
}

impl ShelfKey for Place {
    ghost use Rattle.smq_shelf.specs.within.KeyLaws.{one_place};

    ghost exact = { one_place };

    fn copy(&self) -> Place {
        *self
    }
}

impl ShelfKey for HashedKey {
    ghost use Rattle.smq_kit.proofs.HashedKeyOrders.{one_hashed_key};

    ghost exact = { one_hashed_key };

    fn copy(&self) -> HashedKey {
        HashedKey::copy(self)
    }
}
