//! Taking back what a call that succeeded left in a map, once a later one fails.
ghost use Rattle.std.specs.Prelude.{◌≡◌};
ghost use Rattle.smq_shelf.specs.Keeping.{KeepingMap};
ghost use Rattle.smq_tally.specs.within.Kept.{IsLogged, AreLogged};

use smq_shelf::{KeptMap, ShelfKey};

/// Makes a map what it was before a call, which says whether it left a change. It takes no memory.
pub(crate) fn take_back<K: ShelfKey, V: Drop>(map: &mut KeptMap<K, V>, is_logged: bool)
    ensures { (before : KeepingMap K V) → IsLogged is_logged before map.old
        → map.old.settled ≡ before.settled → map.new ≡ before }
{
    if is_logged {
        map.take_back();
    }
}

/// Makes a map what it was before a call that left two changes or fewer. It takes no memory.
pub(crate) fn take_back_both<K: ShelfKey, V: Drop>(
    map: &mut KeptMap<K, V>,
    are_logged: (bool, bool),
)
    ensures { (before : KeepingMap K V) → AreLogged are_logged before map.old
        → map.old.settled ≡ before.settled → map.new ≡ before }
{
    take_back(map, are_logged.1);
    take_back(map, are_logged.0);
}
