//! A shelf whose changes since it was last settled can be undone. It stands in one file although it is long: it is one type, and
//! half of it is contracts.
ghost use Rattle.std.specs.Prelude.{◌≡◌, false, true, [], ◌∷◌, List, Option, ◌++◌, ◌+◌, ◌-◌, ◌*◌, ◌≤◌, ◌<◌, ◌^◌, ◌||◌, IfOk, OnOk, OnErr, None, Some, IsSome, is_some, find, length, if◌then◌else◌};
ghost use Rattle.std.specs.Option.{option_copied, option_map};
ghost use Rattle.std.specs.Map.Iter.{deref_pair};
ghost use Rattle.std.specs.Ordering.{is_le, is_lt};
ghost use Rattle.std.specs.List.Sorted.{IsStrictlySortedBy};
ghost use Rattle.std.specs.Map.{keys_of, lookup, remove_entry};
ghost use Rattle.std.specs.BTreeMap.{is_at, insert_entry};
ghost use Rattle.smq_shelf.specs.Keeping.{with_touches};
ghost use Rattle.smq_shelf.specs.Shown.{touched};
ghost use Rattle.smq_shelf.specs.Places.{content_of, places_of};
ghost use Rattle.smq_shelf.specs.Values.{with_value};
ghost use Rattle.smq_shelf.specs.within.Undoing.{flatten, vacancies};

use crate::logged::{clear_vacant, give_back_room, revert, vacate};
use crate::{Change, Shelf, ShelfKey};
use std::alloc::{AllocError, Global};
use std::cmp::Ord;
use std::collections::BTreeMap;
use std::marker::Model;

/// An ordered map over a shelf, whose changes can be taken back. After `undo` the content is that of the last
/// `settle`, or of `new` where there was none; after `take_back` it is that before the last change. Neither needs
/// memory, nor does `settle`: for that, a key that is taken out keeps its place, vacant, until the map is settled or
/// undone.
#[derive(Drop)]
pub struct Kept<K: Ord, V> {
    shelf: Shelf<K, Option<V>>,
    log: Vec<(K, Option<Option<V>>)>,
    /// How many places are vacant at most: as many keys were taken out since the last `settle` or `undo`.
    most_vacant: u64,
}

impl<K: Ord, V> Model for Kept<K, V> {
    ghost use Rattle.std.specs.Prelude.{reverse, length};
    ghost use Rattle.smq_shelf.specs.Keeping.{Keeping};
    ghost use Rattle.smq_shelf.specs.Shown.{touched};
    ghost use Rattle.smq_shelf.specs.Places.{content_of};
    ghost use Rattle.smq_shelf.specs.within.Undoing.{undone, pasts, IsKeptBy};

    ghost Value = { Keeping K V };

    ghost view = { λ s. record {
      content = content_of s.shelf.entries;
      settled = content_of (undone K.cmp (reverse s.log.items) s.shelf.entries);
      places = s.shelf.entries;
      past = pasts K.cmp (reverse s.log.items) s.shelf.entries;
      touches = s.shelf.touches;
      pending = length s.log.items;
    } };

    ghost invariant = { λ s. IsKeptBy K.cmp s.most_vacant s.log.items s.shelf.entries };
}

impl<K: ShelfKey, V: Drop> Kept<K, V> {
    /// A map of nothing, with no touches.
    pub fn new(alloc: Global) -> Self
        ensures content { result.content ≡ [] }
        ensures settled { result.settled ≡ [] }
        ensures places { result.places ≡ [] }
        ensures past { result.past ≡ [] }
        ensures touches { result.touches ≡ 0 }
        ensures pending { result.pending ≡ 0 }
    {
        Kept {
            shelf: Shelf::new(alloc),
            log: Vec::new(alloc),
            most_vacant: 0,
        }
    }

    /// Puts a value at a key, in the place of one that is there: one touch. An error changes nothing but the touches,
    /// by one at most.
    pub fn set(&mut self, key: K, value: V) -> Result<(), AllocError>
        ensures content { OnOk result
            (self.new.content ≡ insert_entry K.cmp self.old.content key value) }
        ensures places { OnOk result
            (self.new.places ≡ insert_entry K.cmp self.old.places key (Some value)) }
        ensures past { OnOk result (self.new.past ≡ self.old.places ∷ self.old.past) }
        ensures pending { OnOk result (self.new.pending ≡ self.old.pending + 1) }
        ensures touched { OnOk result (self.new.touches ≡ touched self.old.touches) }
        ensures unchanged { OnErr result (self.new ≡ with_touches self.new.touches self.old) }
        ensures err { OnErr result (self.new.content ≡ self.old.content) }
        ensures err_places { OnErr result (self.new.places ≡ self.old.places) }
        ensures err_past { OnErr result (self.new.past ≡ self.old.past) }
        ensures err_pending { OnErr result (self.new.pending ≡ self.old.pending) }
        ensures settled { self.new.settled ≡ self.old.settled }
        ensures shown { self.old.content ≡ content_of self.old.places }
        ensures touches { self.new.touches ≤ self.old.touches + 1 }
        ensures counted { self.old.touches ≤ self.new.touches }
    {
        self.shelf.put(&mut self.log, key, Some(value))?;
        Ok(())
    }

    /// Takes a key out: one touch. Its place then stays, vacant, until the map is settled or undone. An error changes
    /// nothing but the touches.
    pub fn remove(&mut self, key: &K) -> Result<(), AllocError>
        ensures content { OnOk result (self.new.content
            ≡ remove_entry (is_at (K.cmp key.now)) self.old.content) }
        ensures places { OnOk result (IsSome (lookup (is_at (K.cmp key.now)) self.old.content)
            → self.new.places ≡ insert_entry K.cmp self.old.places key.now None) }
        ensures past { OnOk result (IsSome (lookup (is_at (K.cmp key.now)) self.old.content)
            → self.new.past ≡ self.old.places ∷ self.old.past) }
        ensures absent { OnOk result (lookup (is_at (K.cmp key.now)) self.old.content ≡ None
            → self.new ≡ with_touches self.new.touches self.old) }
        ensures touched { OnOk result (touched self.old.touches ≤ self.new.touches) }
        ensures unchanged { OnErr result (self.new ≡ with_touches self.new.touches self.old) }
        ensures err { OnErr result (self.new.content ≡ self.old.content) }
        ensures err_places { OnErr result (self.new.places ≡ self.old.places) }
        ensures err_past { OnErr result (self.new.past ≡ self.old.past) }
        ensures settled { self.new.settled ≡ self.old.settled }
        ensures shown { OnOk result (self.old.content ≡ content_of self.old.places) }
        ensures ordered { OnOk result
            (IsStrictlySortedBy K.cmp (keys_of self.old.content)) }
        ensures pending { self.new.pending ≤ self.old.pending + 1 }
        ensures touches { self.new.touches ≤ self.old.touches + 2 }
        ensures counted { self.old.touches ≤ self.new.touches }
    {
        if vacate(&mut self.shelf, &mut self.log, key)? {
            self.most_vacant = most_vacant_after(self.most_vacant, true, &self.shelf);
        }
        Ok(())
    }

    /// Takes a key out, as `remove` does, and gives the value that was there.
    pub fn take(&mut self, key: &K) -> Result<Option<V>, AllocError>
    where
        V: Copy,
        ensures value { IfOk result (λ taken. taken
            ≡ lookup (is_at (K.cmp key.now)) self.old.content) }
        ensures content { OnOk result (self.new.content
            ≡ remove_entry (is_at (K.cmp key.now)) self.old.content) }
        ensures places { IfOk result (λ taken. self.new.places ≡ if is_some taken
            then insert_entry K.cmp self.old.places key.now None else self.old.places) }
        ensures past { IfOk result (λ taken. self.new.past
            ≡ if is_some taken then self.old.places ∷ self.old.past else self.old.past) }
        ensures pending { IfOk result (λ taken. self.new.pending
            ≡ if is_some taken then self.old.pending + 1 else self.old.pending) }
        ensures absent { IfOk result (λ taken. taken ≡ None
            → self.new ≡ with_touches self.new.touches self.old) }
        ensures touched { OnOk result (self.new.touches ≡ touched self.old.touches) }
        ensures unchanged { OnErr result (self.new ≡ with_touches self.new.touches self.old) }
        ensures err { OnErr result (self.new.content ≡ self.old.content) }
        ensures err_places { OnErr result (self.new.places ≡ self.old.places) }
        ensures err_past { OnErr result (self.new.past ≡ self.old.past) }
        ensures err_pending { OnErr result (self.new.pending ≡ self.old.pending) }
        ensures settled { self.new.settled ≡ self.old.settled }
        ensures shown { self.old.content ≡ content_of self.old.places }
        ensures ordered { IsStrictlySortedBy K.cmp (keys_of self.old.content) }
        ensures touches { self.new.touches ≤ self.old.touches + 1 }
        ensures counted { self.old.touches ≤ self.new.touches }
    {
        if vacate(&mut self.shelf, &mut self.log, key)? {
            self.most_vacant = most_vacant_after(self.most_vacant, true, &self.shelf);
            return Ok(last_value(&self.log));
        }
        Ok(None)
    }

    /// Makes of the value at a key what a change makes of it: one touch. It tells whether it left something to take back:
    /// not so where there was no value and is none. The place of a key that is taken out stays, vacant, until the map is
    /// settled or undone. An error changes nothing but the touches.
    pub fn change<C: Change<V>>(&mut self, key: K, change: &C) -> Result<bool, AllocError>
        ensures logged { IfOk result (λ logged. logged
            ≡ (is_some (lookup (is_at (K.cmp key)) self.old.content)
            || is_some (C.after change.now (lookup (is_at (K.cmp key)) self.old.content)))) }
        ensures content { OnOk result (self.new.content ≡ with_value K.cmp key
            (C.after change.now (lookup (is_at (K.cmp key)) self.old.content)) self.old.content) }
        ensures places { IfOk result (λ logged. self.new.places ≡ if logged
            then insert_entry K.cmp self.old.places key
            (C.after change.now (lookup (is_at (K.cmp key)) self.old.content))
            else self.old.places) }
        ensures past { IfOk result (λ logged. self.new.past
            ≡ if logged then self.old.places ∷ self.old.past else self.old.past) }
        ensures pending { IfOk result (λ logged. self.new.pending
            ≡ if logged then self.old.pending + 1 else self.old.pending) }
        ensures absent { IfOk result (λ logged. logged ≡ false
            → self.new ≡ with_touches self.new.touches self.old) }
        ensures touched { OnOk result (touched self.old.touches ≤ self.new.touches) }
        ensures unchanged { OnErr result (self.new ≡ with_touches self.new.touches self.old) }
        ensures err { OnErr result (self.new.content ≡ self.old.content) }
        ensures err_places { OnErr result (self.new.places ≡ self.old.places) }
        ensures err_past { OnErr result (self.new.past ≡ self.old.past) }
        ensures err_pending { OnErr result (self.new.pending ≡ self.old.pending) }
        ensures settled { self.new.settled ≡ self.old.settled }
        ensures shown { self.old.content ≡ content_of self.old.places }
        ensures ordered { IsStrictlySortedBy K.cmp (keys_of self.old.content) }
        ensures touches { self.new.touches ≤ self.old.touches + 1 }
        ensures counted { self.old.touches ≤ self.new.touches }
    {
        let (had, has) = self.shelf.alter(&mut self.log, key, change)?;
        self.most_vacant = most_vacant_after(self.most_vacant, had & !has, &self.shelf);
        Ok(had | has)
    }

    /// Makes of the value at a key what a change makes of it, as `change` does, and gives the value that was there.
    pub fn exchange<C: Change<V>>(&mut self, key: K, change: &C) -> Result<Option<V>, AllocError>
    where
        V: Copy,
        ensures before { IfOk result (λ before. before
            ≡ lookup (is_at (K.cmp key)) self.old.content) }
        ensures content { IfOk result (λ before. self.new.content
            ≡ with_value K.cmp key (C.after change.now before) self.old.content) }
        ensures places { IfOk result (λ before. self.new.places
            ≡ if is_some before || is_some (C.after change.now before)
            then insert_entry K.cmp self.old.places key (C.after change.now before)
            else self.old.places) }
        ensures past { IfOk result (λ before. self.new.past
            ≡ if is_some before || is_some (C.after change.now before)
            then self.old.places ∷ self.old.past else self.old.past) }
        ensures pending { IfOk result (λ before. self.new.pending
            ≡ if is_some before || is_some (C.after change.now before)
            then self.old.pending + 1 else self.old.pending) }
        ensures touched { OnOk result (touched self.old.touches ≤ self.new.touches) }
        ensures unchanged { OnErr result (self.new ≡ with_touches self.new.touches self.old) }
        ensures err { OnErr result (self.new.content ≡ self.old.content) }
        ensures err_past { OnErr result (self.new.past ≡ self.old.past) }
        ensures err_pending { OnErr result (self.new.pending ≡ self.old.pending) }
        ensures settled { self.new.settled ≡ self.old.settled }
        ensures shown { self.old.content ≡ content_of self.old.places }
        ensures touches { self.new.touches ≤ self.old.touches + 1 }
        ensures counted { self.old.touches ≤ self.new.touches }
    {
        let (had, has) = self.shelf.alter(&mut self.log, key, change)?;
        self.most_vacant = most_vacant_after(self.most_vacant, had & !has, &self.shelf);
        Ok(value_before(&self.log, had))
    }

    /// Takes the last change back, where one is pending: one touch then. It takes no memory.
    pub fn take_back(&mut self)
        ensures places { (p : List (K × Option V)) (ps : List (List (K × Option V)))
            → self.old.past ≡ p ∷ ps → self.new.places ≡ p }
        ensures content { (p : List (K × Option V)) (ps : List (List (K × Option V)))
            → self.old.past ≡ p ∷ ps → self.new.content ≡ content_of p }
        ensures past { (p : List (K × Option V)) (ps : List (List (K × Option V)))
            → self.old.past ≡ p ∷ ps → self.new.past ≡ ps }
        ensures settled { self.new.settled ≡ self.old.settled }
        ensures one { self.new.pending ≡ self.old.pending - 1 }
        ensures pending { self.new.pending ≤ self.old.pending }
        ensures touched { 0 < self.old.pending → self.new.touches ≡ touched self.old.touches }
        ensures touches { self.new.touches ≤ self.old.touches + 1 }
        ensures counted { self.old.touches ≤ self.new.touches }
    {
        if let Some(last) = self.log.pop() {
            revert(&mut self.shelf, last);
        }
    }

    /// Brings back the content of the last `settle`, or of `new`, by at most one touch for each pending change. It
    /// takes no memory, and leaves no place vacant.
    pub fn undo(&mut self)
        ensures content { self.new.content ≡ self.old.settled }
        ensures settled { self.new.settled ≡ self.old.settled }
        ensures places { self.new.places ≡ places_of self.new.content }
        ensures past { self.new.past ≡ [] }
        ensures pending { self.new.pending ≡ 0 }
        ensures touches { self.new.touches ≤ self.old.touches + self.old.pending }
        ensures counted { self.old.touches ≤ self.new.touches }
    {
        while let Some(change) = self.log.pop() {
            revert(&mut self.shelf, change);
        }
        self.most_vacant = 0;
        give_back_room(&mut self.log);
    }

    /// Makes the content the one that `undo` brings back, by at most two touches for each pending change: the newest, up to
    /// where no more places can be vacant. It needs no memory, and leaves no place vacant.
    pub fn settle(&mut self)
        ensures content { self.new.content ≡ self.old.content }
        ensures settled { self.new.settled ≡ self.old.content }
        ensures places { self.new.places ≡ places_of self.new.content }
        ensures past { self.new.past ≡ [] }
        ensures pending { self.new.pending ≡ 0 }
        ensures touches { self.new.touches ≤ self.old.touches + 2 * self.old.pending }
        ensures counted { self.old.touches ≤ self.new.touches }
    {
        if self.log.is_empty() {
            return;
        }
        while self.most_vacant > 0 {
            match self.log.pop() {
                Some(change) => {
                    self.most_vacant -= u64::from(clear_vacant(&mut self.shelf, change));
                }
                None => self.most_vacant = 0,
            }
        }
        self.log.clear();
        give_back_room(&mut self.log);
    }
}

impl<K: ShelfKey, V> Kept<K, V> {
    ghost use Rattle.std.specs.Borrow.{sem};
    ghost use Rattle.smq_shelf.specs.KeptLending.{LeavesKept};

    /// The value at a key: one touch.
    pub fn get(&mut self, key: &K) -> Option<&V>
        ensures* after { sem 𝓛 (LeavesKept K.row V.row K.Ord self.entry self.old) }
        ensures value { option_copied result
            ≡ lookup (is_at (K.cmp key.now)) self.old.content }
    {
        value_of(self.shelf.get(key))
    }

    /// The least place at or above `key`: its key, and its value unless it is vacant. One touch.
    pub fn first_from(&mut self, key: &K) -> Option<(&K, Option<&V>)>
        ensures* after { sem 𝓛 (LeavesKept K.row V.row K.Ord self.entry self.old) }
        ensures value { option_map (λ p. (p.0.now, option_copied p.1)) result
            ≡ find (λ e. is_le (K.cmp key.now e.0)) self.old.places }
        ensures content { self.old.content ≡ content_of self.old.places }
        ensures ordered { IsStrictlySortedBy K.cmp (keys_of self.old.places) }
    {
        place_of(self.shelf.first_from(key))
    }

    /// The least place above `key`: its key, and its value unless it is vacant. One touch.
    pub fn first_after(&mut self, key: &K) -> Option<(&K, Option<&V>)>
        ensures* after { sem 𝓛 (LeavesKept K.row V.row K.Ord self.entry self.old) }
        ensures value { option_map (λ p. (p.0.now, option_copied p.1)) result
            ≡ find (λ e. is_lt (K.cmp key.now e.0)) self.old.places }
        ensures content { self.old.content ≡ content_of self.old.places }
        ensures ordered { IsStrictlySortedBy K.cmp (keys_of self.old.places) }
    {
        place_of(self.shelf.first_after(key))
    }

    // The value at a key, for a map that is read through `&self`.
    pub(crate) fn peek(&self, key: &K) -> Option<&V>
        ensures { option_copied result ≡ lookup (is_at (K.cmp key.now)) self.now.content }
    {
        value_of(self.shelf.map().get(key))
    }

    // The places, for a map that is read through `&self`.
    pub(crate) fn places(&self) -> &BTreeMap<K, Option<V>>
        ensures places { result.now.entries ≡ self.now.places }
        ensures content { self.now.content ≡ content_of self.now.places }
        ensures ordered { IsStrictlySortedBy K.cmp (keys_of self.now.content) }
    {
        self.shelf.map()
    }

    /// How many places it has, vacant ones among them.
    pub fn place_count(&self) -> usize
        ensures count { result ≡ length self.now.places }
        ensures content { self.now.content ≡ content_of self.now.places }
        ensures small { result < 2 ^ 63 }
        ensures ordered { IsStrictlySortedBy K.cmp (keys_of self.now.content) }
    {
        self.shelf.map().len()
    }

    /// How many touches there were: those of its shelf.
    pub fn touches(&self) -> u64
        ensures { result ≡ self.now.touches }
    {
        self.shelf.touches()
    }
}

// How many places are vacant at most once one more may be.
fn most_vacant_after<K: ShelfKey, V>(
    most: u64,
    is_vacated: bool,
    shelf: &Shelf<K, Option<V>>,
) -> u64
    ensures vacated { is_vacated ≡ true → vacancies shelf.now.entries ≤ most + 1
        → vacancies shelf.now.entries ≤ result }
    ensures before { most ≤ result }
{
    // For the proof: there are fewer places than addresses.
    let _ = shelf.map().len();
    most.saturating_add(u64::from(is_vacated))
}

// What a place holds.
fn value_of<V>(place: Option<&Option<V>>) -> Option<&V>
    ensures { option_copied result ≡ flatten (option_copied place.entry) }
{
    match place {
        Some(Some(value)) => Some(value),
        _ => None,
    }
}

// An entry of the shelf, as a key and what its place holds.
pub(crate) fn place_of<'a, K, V>(
    entry: Option<(&'a K, &'a Option<V>)>,
) -> Option<(&'a K, Option<&'a V>)>
    ensures { option_map (λ p. (p.0.now, option_copied p.1)) result
        ≡ option_map deref_pair entry.entry }
{
    match entry {
        Some((key, place)) => Some((key, place.as_ref())),
        None => None,
    }
}

// The value that the last change of a log took out, if it had one.
fn value_before<K, V: Copy>(log: &Vec<(K, Option<Option<V>>)>, had: bool) -> Option<V>
    ensures had { had ≡ true → (cs : List (K × Option (Option V))) (k : K)
        (before : Option (Option V)) → log.now.items ≡ cs ++ (k, before) ∷ []
        → result ≡ flatten before }
    ensures none { had ≡ false → result ≡ None }
{
    if had {
        return last_value(log);
    }
    None
}

// The value that the last change of a log took out.
fn last_value<K, V: Copy>(log: &Vec<(K, Option<Option<V>>)>) -> Option<V>
    ensures { (cs : List (K × Option (Option V))) (k : K) (before : Option (Option V))
        → log.now.items ≡ cs ++ (k, before) ∷ [] → result ≡ flatten before }
{
    match log.last() {
        Some((_, Some(Some(value)))) => Some(*value),
        _ => None,
    }
}
