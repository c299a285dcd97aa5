//! An ordered map that counts its calls.
ghost use Rattle.std.specs.Prelude.{◌≡◌, ◌≤◌, ◌<◌, ◌+◌, ◌-◌, [], IfOk, OnOk, IfErr, OnErr, None, Some, find};
ghost use Rattle.std.specs.Ordering.{is_le, is_lt};
ghost use Rattle.std.specs.Option.{option_copied, option_map};
ghost use Rattle.std.specs.Map.Iter.{deref_pair};
ghost use Rattle.std.specs.Map.{keys_of, lookup, remove_entry, set_value};
ghost use Rattle.std.specs.BTreeMap.{is_at, insert_entry};
ghost use Rattle.std.specs.List.Sorted.{IsStrictlySortedBy};
ghost use Rattle.smq_shelf.specs.Shown.{touched};
ghost use Rattle.smq_shelf.specs.within.Undoing.{cleared, is_vacant};

use std::alloc::{AllocError, Global};
use std::collections::BTreeMap;
use std::collections::btree_map::Entry;
use std::marker::Model;
use std::mem::replace;
use std::ops::Bound;

/// An ordered map with a number of touches: how many calls of `get`, `insert`, `remove`, `first_from` and
/// `first_after` were made. A contract sees its entries in the keys' order, and the touches, which end at the greatest
/// u64. Nothing of the content is read but by these calls.
#[derive(Drop)]
pub struct Shelf<K: Ord, V> {
    pub(crate) map: BTreeMap<K, V>,
    pub(crate) count: u64,
}

impl<K: Ord, V> Model for Shelf<K, V> {
    ghost use Rattle.smq_shelf.specs.Shown.{Shown};

    ghost Value = { Shown K V };

    ghost view = { λ s. record { entries = s.map.entries; touches = s.count } };
}

impl<K: Ord, V> Shelf<K, V> {
    /// A shelf of nothing, with no touches.
    pub fn new(alloc: Global) -> Self
        ensures entries { result.entries ≡ [] }
        ensures touches { result.touches ≡ 0 }
    {
        Shelf {
            map: BTreeMap::new(alloc),
            count: 0,
        }
    }

    // The map, which no caller outside reads.
    pub(crate) fn map(&self) -> &BTreeMap<K, V>
        ensures { result.now.entries ≡ self.now.entries }
    {
        &self.map
    }

    /// How many touches there were.
    pub fn touches(&self) -> u64
        ensures { result ≡ self.now.touches }
    {
        self.count
    }

    /// Puts a value at a key, and gives what was there. Where memory runs out the pair comes back and the map stays; a
    /// key that is there takes no memory. One touch, refused or not.
    pub fn insert(&mut self, key: K, value: V) -> Result<Option<V>, (K, V)>
    where
        K: Drop,
        ensures touches { self.new.touches ≡ touched self.old.touches }
        ensures counted { self.old.touches ≤ self.new.touches }
        ensures old { IfOk result (λ old. old ≡ lookup (is_at (K.cmp key)) self.old.entries) }
        ensures entries { OnOk result
            (self.new.entries ≡ insert_entry K.cmp self.old.entries key value) }
        ensures absent { OnErr result (lookup (is_at (K.cmp key)) self.old.entries ≡ None) }
        ensures handed_back { IfErr result (λ pair. pair ≡ (key, value)) }
        ensures err { OnErr result (self.new.entries ≡ self.old.entries) }
        ensures ordered { IsStrictlySortedBy K.cmp (keys_of self.new.entries) }
    {
        self.count = self.count.saturating_add(1);
        match self.map.insert(key, value) {
            Ok(old) => Ok(old),
            Err(refused) => Err(refused.value),
        }
    }

    /// Takes a key out, and gives what was there. It takes no memory. One touch.
    pub fn remove(&mut self, key: &K) -> Option<V>
    where
        K: Drop,
        ensures touches { self.new.touches ≡ touched self.old.touches }
        ensures counted { self.old.touches ≤ self.new.touches }
        ensures value { result ≡ lookup (is_at (K.cmp key.now)) self.old.entries }
        ensures entries { self.new.entries
            ≡ remove_entry (is_at (K.cmp key.now)) self.old.entries }
        ensures ordered { IsStrictlySortedBy K.cmp (keys_of self.new.entries) }
    {
        self.count = self.count.saturating_add(1);
        self.map.remove(key)
    }

    // Puts a value in the place of the one at a key, and gives that one. Where the key has none, nothing changes. It
    // takes no memory. One touch.
    pub(crate) fn replace(&mut self, key: &K, value: V) -> Option<V>
    where
        V: Drop,
        ensures touches { self.new.touches ≡ touched self.old.touches }
        ensures counted { self.old.touches ≤ self.new.touches }
        ensures old { result ≡ lookup (is_at (K.cmp key.now)) self.old.entries }
        ensures entries { self.new.entries
            ≡ set_value (is_at (K.cmp key.now)) self.old.entries value }
        ensures ordered { IsStrictlySortedBy K.cmp (keys_of self.new.entries) }
        ensures was_ordered { IsStrictlySortedBy K.cmp (keys_of self.old.entries) }
    {
        self.count = self.count.saturating_add(1);
        match self.map.get_mut(key) {
            Some(place) => Some(replace(place, value)),
            None => None,
        }
    }
}

impl<K: Ord, V: Drop> Shelf<K, Option<V>> {
    // Takes the place of a key out where it is vacant, and tells whether it was. It needs no memory. One touch.
    pub(crate) fn clear(&mut self, key: K) -> bool
    where
        K: Drop,
        ensures touches { self.new.touches ≡ touched self.old.touches }
        ensures counted { self.old.touches ≤ self.new.touches }
        ensures was_vacant { result ≡ is_vacant (lookup (is_at (K.cmp key)) self.old.entries) }
        ensures entries { self.new.entries ≡ cleared K.cmp key self.old.entries }
        ensures ordered { IsStrictlySortedBy K.cmp (keys_of self.new.entries) }
    {
        self.count = self.count.saturating_add(1);
        clear_at(&mut self.map, key)
    }
}

impl<K: Ord, V> Shelf<K, V> {
    ghost use Rattle.std.specs.Borrow.{sem, follows_so};
    ghost use Rattle.smq_shelf.specs.Lending.{LeavesShelf};

    /// The value at a key. One touch.
    pub fn get(&mut self, key: &K) -> Option<&V>
        ensures* after { sem 𝓛 (LeavesShelf K.row V.row K.Ord self.entry self.old) }
        ensures value { option_copied result
            ≡ lookup (is_at (K.cmp key.now)) self.old.entries }
    {
        self.count = self.count.saturating_add(1);
        self.map.get(key)
    }

    /// The least key at or above `key`, with its value. One touch.
    pub fn first_from(&mut self, key: &K) -> Option<(&K, &V)>
        ensures* after { sem 𝓛 (LeavesShelf K.row V.row K.Ord self.entry self.old) }
        ensures value { option_map deref_pair result
            ≡ find (λ e. is_le (K.cmp key.now e.0)) self.old.entries }
    {
        self.count = self.count.saturating_add(1);
        least_from(&self.map, key)
    }

    /// The least key above `key`, with its value. One touch.
    pub fn first_after(&mut self, key: &K) -> Option<(&K, &V)>
        ensures* after { sem 𝓛 (LeavesShelf K.row V.row K.Ord self.entry self.old) }
        ensures value { option_map deref_pair result
            ≡ find (λ e. is_lt (K.cmp key.now e.0)) self.old.entries }
    {
        self.count = self.count.saturating_add(1);
        least_after(&self.map, key)
    }
}

// Takes the place of a key out where it is vacant, and tells whether it was. Where the key has no place, room may be made for
// one, which stays unused; where that is refused nothing changes.
fn clear_at<K: Ord + Drop, V: Drop>(map: &mut BTreeMap<K, Option<V>>, key: K) -> bool
    ensures was_vacant { result ≡ is_vacant (lookup (is_at (K.cmp key)) map.old.entries) }
    ensures entries { map.new.entries ≡ cleared K.cmp key map.old.entries }
    ensures ordered { IsStrictlySortedBy K.cmp (keys_of map.new.entries) }
{
    match map.entry(key) {
        Ok(Entry::Occupied(place)) => {
            let is_vacant = place.get().is_none();
            if is_vacant {
                place.remove();
            }
            is_vacant
        }
        Ok(vacant) => match vacant.or_try_insert_with(|| Err(AllocError)) {
            Ok(_) => false,
            Err(AllocError) => false,
        },
        Err(_) => false,
    }
}

// The least key at or above `key`, with its value.
pub(crate) fn least_from<'a, K: Ord, V>(map: &'a BTreeMap<K, V>, key: &K) -> Option<(&'a K, &'a V)>
    ensures { option_map deref_pair result
        ≡ find (λ e. is_le (K.cmp key.now e.0)) map.now.entries }
{
    map.range(key..).next()
}

// The least key above `key`, with its value.
fn least_after<'a, K: Ord, V>(map: &'a BTreeMap<K, V>, key: &K) -> Option<(&'a K, &'a V)>
    ensures { option_map deref_pair result
        ≡ find (λ e. is_lt (K.cmp key.now e.0)) map.now.entries }
{
    map.range((Bound::Excluded(key), Bound::Unbounded)).next()
}
