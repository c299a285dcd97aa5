//! Changes of a shelf's places, each with what was there before it in a log.
ghost use Rattle.std.specs.Prelude.{◌≡◌, ◌||◌, ◌&&◌, ◌∷◌, ◌++◌, ◌+◌, ◌-◌, ◌≤◌, ◌<◌, [], IfOk, OnOk, OnErr, None, Some, IsSome, is_some, if◌then◌else◌};
ghost use Rattle.std.specs.List.Sorted.{IsStrictlySortedBy};
ghost use Rattle.std.specs.Map.{keys_of, lookup};
ghost use Rattle.std.specs.BTreeMap.{is_at, insert_entry};
ghost use Rattle.std.specs.Vec.{vec_len, vec_capacity};
ghost use Rattle.smq_shelf.specs.Shown.{touched};
ghost use Rattle.smq_shelf.specs.within.Undoing.{flatten, has_value, is_vacant, reverted, cleared_after};

use crate::{Change, Shelf, ShelfKey};
use std::alloc::AllocError;
use std::collections::BTreeMap;

/// The most changes for which an emptied log keeps its room.
const MOST_KEPT_CHANGES: usize = 1_024;

impl<K: ShelfKey, V: Drop> Shelf<K, Option<V>> {
    // Puts a place at a key, and what was there into the log. One touch.
    pub(crate) fn put(
        &mut self,
        log: &mut Vec<(K, Option<Option<V>>)>,
        key: K,
        place: Option<V>,
    ) -> Result<(), AllocError>
        ensures entries { OnOk result
            (self.new.entries ≡ insert_entry K.cmp self.old.entries key place) }
        ensures ordered { OnOk result (IsStrictlySortedBy K.cmp (keys_of self.new.entries)) }
        ensures log { OnOk result (log.new.items
            ≡ log.old.items ++ (key, lookup (is_at (K.cmp key)) self.old.entries) ∷ []) }
        ensures touched { OnOk result (self.new.touches ≡ touched self.old.touches) }
        ensures err { OnErr result (self.new.entries ≡ self.old.entries) }
        ensures err_log { OnErr result (log.new.items ≡ log.old.items) }
        ensures touches { self.new.touches ≤ self.old.touches + 1 }
        ensures counted { self.old.touches ≤ self.new.touches }
    {
        log.reserve(1)?;
        self.count = self.count.saturating_add(1);
        put_in(&mut self.map, log, key, place)
    }

    // Makes of the place of a key what a change makes of its value, and puts what was there into the log, unless there was no
    // value and is none. It tells whether there was one, and whether there is one. One touch.
    pub(crate) fn alter<C: Change<V>>(
        &mut self,
        log: &mut Vec<(K, Option<Option<V>>)>,
        key: K,
        change: &C,
    ) -> Result<(bool, bool), AllocError>
        ensures had { IfOk result (λ r. r.0
            ≡ has_value (lookup (is_at (K.cmp key)) self.old.entries)) }
        ensures has { IfOk result (λ r. r.1
            ≡ is_some (C.after change.now (flatten (lookup (is_at (K.cmp key)) self.old.entries)))) }
        ensures entries { IfOk result (λ r. self.new.entries ≡ if r.0 || r.1
            then insert_entry K.cmp self.old.entries key
            (C.after change.now (flatten (lookup (is_at (K.cmp key)) self.old.entries)))
            else self.old.entries) }
        ensures log { IfOk result (λ r. log.new.items ≡ (if r.0 || r.1
            then log.old.items ++ (key, lookup (is_at (K.cmp key)) self.old.entries) ∷ []
            else log.old.items)) }
        ensures ordered { OnOk result (IsStrictlySortedBy K.cmp (keys_of self.new.entries)) }
        ensures touched { OnOk result (touched self.old.touches ≤ self.new.touches) }
        ensures err { OnErr result (self.new.entries ≡ self.old.entries) }
        ensures err_log { OnErr result (log.new.items ≡ log.old.items) }
        ensures touches { self.new.touches ≤ self.old.touches + 1 }
        ensures counted { self.old.touches ≤ self.new.touches }
    {
        log.reserve(1)?;
        self.count = self.count.saturating_add(1);
        match self.map.get_mut(&key) {
            Some(place) => Ok(change_at(place, log, key, change)),
            None => Ok((false, begin(&mut self.map, log, key, change)?)),
        }
    }
}

// Makes of a place what a change makes of its value, and logs what was there.
fn change_at<K: Drop, V: Drop, C: Change<V>>(
    place: &mut Option<V>,
    log: &mut Vec<(K, Option<Option<V>>)>,
    key: K,
    change: &C,
) -> (bool, bool)
    requires room { vec_len log.old < vec_capacity log.old }
    ensures had { result.0 ≡ is_some place.old }
    ensures has { result.1 ≡ is_some (C.after change.now place.old) }
    ensures new { place.new ≡ C.after change.now place.old }
    ensures log { log.new.items ≡ (if result.0 || result.1
        then log.old.items ++ (key, Some place.old) ∷ [] else log.old.items) }
{
    let before = change.make(place);
    let had = before.is_some();
    let has = place.is_some();
    if had || has {
        log.push_reserved((key, Some(before)));
    }
    (had, has)
}

// Begins the place of a key that has none with what a change makes of no value, where that is one, and tells whether it is.
fn begin<K: ShelfKey, V: Drop, C: Change<V>>(
    map: &mut BTreeMap<K, Option<V>>,
    log: &mut Vec<(K, Option<Option<V>>)>,
    key: K,
    change: &C,
) -> Result<bool, AllocError>
    requires room { vec_len log.old < vec_capacity log.old }
    ensures has { IfOk result (λ has. has ≡ is_some (C.after change.now None)) }
    ensures entries { IfOk result (λ has. map.new.entries ≡ if has
        then insert_entry K.cmp map.old.entries key (C.after change.now None)
        else map.old.entries) }
    ensures log { IfOk result (λ has. log.new.items ≡ (if has
        then log.old.items ++ (key, lookup (is_at (K.cmp key)) map.old.entries) ∷ []
        else log.old.items)) }
    ensures err { OnErr result (map.new.entries ≡ map.old.entries) }
    ensures err_log { OnErr result (log.new.items ≡ log.old.items) }
    ensures ordered { IsStrictlySortedBy K.cmp (keys_of map.new.entries) }
{
    let mut place = None;
    change.make(&mut place);
    if place.is_none() {
        // For the proof: the keys ascend.
        let _ = map.len();
        return Ok(false);
    }
    put_in(map, log, key, place)?;
    Ok(true)
}

// Puts a place at a key, and what was there into the log, which has room for it.
fn put_in<K: ShelfKey, V: Drop>(
    map: &mut BTreeMap<K, Option<V>>,
    log: &mut Vec<(K, Option<Option<V>>)>,
    key: K,
    place: Option<V>,
) -> Result<(), AllocError>
    requires room { vec_len log.old < vec_capacity log.old }
    ensures entries { OnOk result
        (map.new.entries ≡ insert_entry K.cmp map.old.entries key place) }
    ensures log { OnOk result (log.new.items
        ≡ log.old.items ++ (key, lookup (is_at (K.cmp key)) map.old.entries) ∷ []) }
    ensures err { OnErr result (map.new.entries ≡ map.old.entries) }
    ensures err_log { OnErr result (log.new.items ≡ log.old.items) }
    ensures ordered { IsStrictlySortedBy K.cmp (keys_of map.new.entries) }
{
    let logged = key.copy();
    match map.insert(key, place) {
        Ok(before) => {
            log.push_reserved((logged, before));
            Ok(())
        }
        Err(_) => Err(AllocError),
    }
}

// Makes the place of a key vacant, and puts the value that was there into the log. It tells whether there was one.
pub(crate) fn vacate<K: ShelfKey, V: Drop>(
    shelf: &mut Shelf<K, Option<V>>,
    log: &mut Vec<(K, Option<Option<V>>)>,
    key: &K,
) -> Result<bool, AllocError>
    ensures had { IfOk result (λ had. had
        ≡ has_value (lookup (is_at (K.cmp key.now)) shelf.old.entries)) }
    ensures entries { IfOk result (λ had. shelf.new.entries
        ≡ if had then insert_entry K.cmp shelf.old.entries key.now None else shelf.old.entries) }
    ensures log { IfOk result (λ had. log.new.items ≡ (if had
        then log.old.items ++ (key.now, lookup (is_at (K.cmp key.now)) shelf.old.entries) ∷ []
        else log.old.items)) }
    ensures ordered { OnOk result (IsStrictlySortedBy K.cmp (keys_of shelf.new.entries)) }
    ensures touched { OnOk result (shelf.new.touches ≡ touched shelf.old.touches) }
    ensures err { OnErr result (shelf.new.entries ≡ shelf.old.entries) }
    ensures err_log { OnErr result (log.new.items ≡ log.old.items) }
    ensures touches { shelf.new.touches ≤ shelf.old.touches + 1 }
    ensures counted { shelf.old.touches ≤ shelf.new.touches }
{
    log.reserve(1)?;
    match shelf.replace(key, None) {
        Some(Some(value)) => {
            log.push_reserved((key.copy(), Some(Some(value))));
            Ok(true)
        }
        Some(None) => Ok(false),
        None => Ok(false),
    }
}

// Takes one change back. The key has a place, so this takes no memory.
pub(crate) fn revert<K: ShelfKey, V: Drop>(
    shelf: &mut Shelf<K, Option<V>>,
    change: (K, Option<Option<V>>),
)
    requires { IsSome (lookup (is_at (K.cmp change.0)) shelf.old.entries) }
    ensures entries { shelf.new.entries ≡ reverted K.cmp change.0 change.1 shelf.old.entries }
    ensures ordered { IsStrictlySortedBy K.cmp (keys_of shelf.new.entries) }
    ensures touched { shelf.new.touches ≡ touched shelf.old.touches }
    ensures touches { shelf.new.touches ≤ shelf.old.touches + 1 }
    ensures counted { shelf.old.touches ≤ shelf.new.touches }
{
    let (key, before) = change;
    match before {
        None => {
            shelf.remove(&key);
        }
        Some(place) => {
            let _ = shelf.insert(key, place);
        }
    }
}

// Takes out the place of a change's key where it is vacant, and tells whether it was. Only a key that had a value can have
// been taken out by the change, so that no other is looked up.
pub(crate) fn clear_vacant<K: ShelfKey, V: Drop>(
    shelf: &mut Shelf<K, Option<V>>,
    change: (K, Option<Option<V>>),
) -> bool
    ensures was_vacant { result ≡ (has_value change.1
        && is_vacant (lookup (is_at (K.cmp change.0)) shelf.old.entries)) }
    ensures entries { shelf.new.entries ≡ cleared_after K.cmp change shelf.old.entries }
    ensures ordered { IsStrictlySortedBy K.cmp (keys_of shelf.old.entries)
        → IsStrictlySortedBy K.cmp (keys_of shelf.new.entries) }
    ensures touches { shelf.new.touches ≤ shelf.old.touches + 2 }
    ensures counted { shelf.old.touches ≤ shelf.new.touches }
{
    let (key, Some(Some(_))) = change else {
        return false;
    };
    shelf.clear(key)
}

// Gives back the room of an emptied log that had many changes.
pub(crate) fn give_back_room<K, V>(log: &mut Vec<(K, Option<Option<V>>)>)
    ensures { log.new.items ≡ log.old.items }
{
    if log.capacity() > MOST_KEPT_CHANGES {
        log.shrink_to_fit();
    }
}
