//! A walk over the places of a map whose keys pass a test, which stand beside each other in the keys' order.
ghost use Rattle.std.specs.Prelude.{◌≡◌, ◌≤◌, ◌+◌, ◌++◌, ◌∷◌, [], Bool, true, false, None, IfOk, IsOk, OnOk, filter, find, length};
ghost use Rattle.std.specs.declared.cmp.Ordering.TheVariants.{Less};
ghost use Rattle.std.specs.Ordering.{is_le};
ghost use Rattle.std.specs.List.Sorted.{IsStrictlySortedBy};
ghost use Rattle.std.specs.Map.{keys_of};
ghost use Rattle.smq_shelf.specs.Places.{content_of, places_of};
ghost use Rattle.smq_shelf.specs.Walks.{IsWalked, stands_after};

use crate::{Kept, ShelfKey};
use std::alloc::{AllocError, Global};

/// A stretch of keys: those that pass a test.
pub trait Stretch<K: ShelfKey> {
    ghost has: { Self → K → Bool };

    /// Whether a key is of it.
    fn has(&self, key: &K) -> bool
        ensures { result ≡ has self.now key.now };
}

/// The keys of a stretch, in order, from a key on that stands before all of them. It looks at their places alone, and at one more.
pub fn keys_in<K: ShelfKey, S: Stretch<K>>(
    alloc: Global,
    kept: &mut Kept<K, ()>,
    from: &K,
    stretch: &S,
) -> Result<Vec<K>, AllocError>
    requires from { (k : K) → S.has stretch.now k ≡ true → is_le (K.cmp from.now k) ≡ true }
    requires beside { (k j : K) → is_le (K.cmp from.now k) ≡ true → S.has stretch.now k ≡ false
        → K.cmp k j ≡ Less → S.has stretch.now j ≡ false }
    ensures value { IfOk result (λ keys. keys.items
        ≡ keys_of (content_of (filter (λ e. S.has stretch.now e.0) kept.old.places))) }
    ensures none { keys_of (content_of (filter (λ e. S.has stretch.now e.0) kept.old.places)) ≡ []
        → IsOk result }
    ensures walked { IsWalked (1 + length (filter (λ e. S.has stretch.now e.0) kept.old.places))
        kept.old kept.new }
    ensures touches { kept.old.places ≡ places_of kept.old.content
        → IfOk result (λ keys. kept.new.touches ≤ kept.old.touches + 1 + length keys.items) }
    ensures content { kept.old.content ≡ content_of kept.old.places }
    ensures ordered { IsStrictlySortedBy K.cmp (keys_of kept.old.places) }
{
    let mut keys = Vec::new(alloc);
    let mut next = first_in(kept, from, stretch);
    while let Some((found, value)) = next {
        push_there(&mut keys, &found, value)?;
        next = next_in(kept, &found, from, stretch);
    }
    Ok(keys)
}

// Puts a key at the end, unless its place is vacant.
fn push_there<K: ShelfKey>(
    keys: &mut Vec<K>,
    found: &K,
    value: Option<()>,
) -> Result<(), AllocError>
    ensures value { OnOk result (keys.new.items
        ≡ keys.old.items ++ keys_of (content_of ((found.now, value) ∷ []))) }
    ensures none { value ≡ None → IsOk result }
{
    if value.is_some() {
        keys.push(found.copy())?;
    }
    Ok(())
}

// The first place of a stretch, vacant or not.
fn first_in<K: ShelfKey, S: Stretch<K>>(
    kept: &mut Kept<K, ()>,
    from: &K,
    stretch: &S,
) -> Option<(K, Option<()>)>
    requires from { (k : K) → S.has stretch.now k ≡ true → is_le (K.cmp from.now k) ≡ true }
    requires beside { (k j : K) → is_le (K.cmp from.now k) ≡ true → S.has stretch.now k ≡ false
        → K.cmp k j ≡ Less → S.has stretch.now j ≡ false }
    ensures value { result ≡ find (λ e. S.has stretch.now e.0) kept.old.places }
    ensures walked { IsWalked 1 kept.old kept.new }
    ensures content { kept.old.content ≡ content_of kept.old.places }
    ensures ordered { IsStrictlySortedBy K.cmp (keys_of kept.old.places) }
{
    match kept.first_from(from) {
        Some((found, value)) => {
            if stretch.has(found) {
                Some((found.copy(), value.copied()))
            } else {
                None
            }
        }
        None => None,
    }
}

// The next place of a stretch after one of it, vacant or not.
fn next_in<K: ShelfKey, S: Stretch<K>>(
    kept: &mut Kept<K, ()>,
    after: &K,
    from: &K,
    stretch: &S,
) -> Option<(K, Option<()>)>
    requires there { S.has stretch.now after.now ≡ true }
    requires from { (k : K) → S.has stretch.now k ≡ true → is_le (K.cmp from.now k) ≡ true }
    requires beside { (k j : K) → is_le (K.cmp from.now k) ≡ true → S.has stretch.now k ≡ false
        → K.cmp k j ≡ Less → S.has stretch.now j ≡ false }
    ensures value { result
        ≡ find (stands_after K.cmp (λ e. S.has stretch.now e.0) after.now) kept.old.places }
    ensures walked { IsWalked 1 kept.old kept.new }
{
    match kept.first_after(after) {
        Some((found, value)) => {
            if stretch.has(found) {
                Some((found.copy(), value.copied()))
            } else {
                None
            }
        }
        None => None,
    }
}
