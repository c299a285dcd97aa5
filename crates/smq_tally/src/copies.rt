//! Copies of maps that can be undone.
ghost use Rattle.std.specs.Prelude.{◌≡◌, IfOk};
ghost use Rattle.std.specs.List.Sorted.{IsStrictlySortedBy};
ghost use Rattle.std.specs.Map.{keys_of};

use smq_shelf::{Entries, KeptMap, ShelfKey};
use std::alloc::{AllocError, Global};

/// A map of these entries, which come by key. It is settled.
#[tactic(auto, using(crate::proofs::Copied::comes_next))]
pub(crate) fn copy_entries<K: ShelfKey, V: Copy + Drop>(
    alloc: Global,
    mut entries: Entries<'_, K, V>,
) -> Result<KeptMap<K, V>, AllocError>
    requires ordered { IsStrictlySortedBy K.cmp (keys_of entries) }
    ensures content { IfOk result (λ map. map.content ≡ entries.entry) }
    ensures settled { IfOk result (λ map. map.settled ≡ entries.entry) }
{
    let mut copy = KeptMap::new(alloc);
    while let Some((key, value)) = entries.next() {
        copy.set(key.copy(), *value)?;
        copy.settle();
    }
    Ok(copy)
}
