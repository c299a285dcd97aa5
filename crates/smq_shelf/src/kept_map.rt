//! A map that can be undone, and is read through `&self`.
ghost use Rattle.std.specs.Prelude.{◌≡◌, ◌||◌, ◌<◌, ◌-◌, [], ◌∷◌, false, List, Option, IfOk, OnOk, OnErr, None, IsSome, Some, is_some, length, filter, find, if◌then◌else◌};
ghost use Rattle.std.specs.Option.{option_copied, option_map};
ghost use Rattle.std.specs.Ordering.{is_gt, is_le};
ghost use Rattle.std.specs.BTreeMap.Range.{entries_between};
ghost use Rattle.std.specs.declared.ops.Bound.TheVariants.{Included, Excluded, Unbounded};
ghost use Rattle.std.specs.Iterator.{at_most};
ghost use Rattle.std.specs.List.Sorted.{IsStrictlySortedBy};
ghost use Rattle.std.specs.Map.{keys_of, lookup, remove_entry};
ghost use Rattle.std.specs.Map.Iter.{TakesFirst, TakesLast, deref_pair};
ghost use Rattle.std.specs.BTreeMap.{is_at, insert_entry};
ghost use Rattle.smq_shelf.specs.Nearest.{FindsFrom, FindsUpTo};
ghost use Rattle.smq_shelf.specs.Places.{content_of, places_of};
ghost use Rattle.smq_shelf.specs.Values.{with_value};

use crate::kept::place_of;
use crate::shelf::least_from;
use crate::{Change, Kept, ShelfKey};
use std::alloc::{AllocError, Global};
use std::cmp::Ord;
use std::collections::btree_map::Range;
use std::iter::{DoubleEndedIterator, Iterator};
use std::marker::Model;

/// An ordered map that is read through `&self`, without touches. `undo`, `take_back` and `settle` are those of `Kept`.
#[derive(Drop)]
pub struct KeptMap<K: Ord, V> {
    kept: Kept<K, V>,
}

impl<K: Ord, V> Model for KeptMap<K, V> {
    ghost use Rattle.smq_shelf.specs.Keeping.{KeepingMap};

    ghost Value = { KeepingMap K V };

    ghost view = { λ s. record {
      content = s.kept.content;
      settled = s.kept.settled;
      places = s.kept.places;
      past = s.kept.past;
    } };
}

impl<K: ShelfKey, V: Drop> KeptMap<K, V> {
    /// A map of nothing.
    pub fn new(alloc: Global) -> Self
        ensures content { result.content ≡ [] }
        ensures settled { result.settled ≡ [] }
        ensures places { result.places ≡ [] }
        ensures past { result.past ≡ [] }
    {
        KeptMap {
            kept: Kept::new(alloc),
        }
    }

    /// Puts a value at a key, in the place of one that is there. An error changes nothing.
    pub fn set(&mut self, key: K, value: V) -> Result<(), AllocError>
        ensures content { OnOk result
            (self.new.content ≡ insert_entry K.cmp self.old.content key value) }
        ensures places { OnOk result
            (self.new.places ≡ insert_entry K.cmp self.old.places key (Some value)) }
        ensures past { OnOk result (self.new.past ≡ self.old.places ∷ self.old.past) }
        ensures unchanged { OnErr result (self.new ≡ self.old) }
        ensures err { OnErr result (self.new.content ≡ self.old.content) }
        ensures err_places { OnErr result (self.new.places ≡ self.old.places) }
        ensures err_past { OnErr result (self.new.past ≡ self.old.past) }
        ensures settled { self.new.settled ≡ self.old.settled }
        ensures shown { self.old.content ≡ content_of self.old.places }
    {
        self.kept.set(key, value)
    }

    /// Takes a key out. Its place stays, vacant, until the map is settled or undone. An error changes nothing.
    pub fn remove(&mut self, key: &K) -> Result<(), AllocError>
        ensures content { OnOk result (self.new.content
            ≡ remove_entry (is_at (K.cmp key.now)) self.old.content) }
        ensures places { OnOk result (IsSome (lookup (is_at (K.cmp key.now)) self.old.content)
            → self.new.places ≡ insert_entry K.cmp self.old.places key.now None) }
        ensures past { OnOk result (IsSome (lookup (is_at (K.cmp key.now)) self.old.content)
            → self.new.past ≡ self.old.places ∷ self.old.past) }
        ensures absent { OnOk result (lookup (is_at (K.cmp key.now)) self.old.content ≡ None
            → self.new ≡ self.old) }
        ensures unchanged { OnErr result (self.new ≡ self.old) }
        ensures err { OnErr result (self.new.content ≡ self.old.content) }
        ensures err_places { OnErr result (self.new.places ≡ self.old.places) }
        ensures err_past { OnErr result (self.new.past ≡ self.old.past) }
        ensures settled { self.new.settled ≡ self.old.settled }
        ensures shown { OnOk result (self.old.content ≡ content_of self.old.places) }
        ensures ordered { OnOk result
            (IsStrictlySortedBy K.cmp (keys_of self.old.content)) }
    {
        self.kept.remove(key)
    }

    /// Takes a key out, as `remove` does, and gives the value that was there.
    pub fn take(&mut self, key: &K) -> Result<Option<V>, AllocError>
    where
        V: Copy,
        ensures value { IfOk result (λ taken. taken
            ≡ lookup (is_at (K.cmp key.now)) self.old.content) }
        ensures content { OnOk result (self.new.content
            ≡ remove_entry (is_at (K.cmp key.now)) self.old.content) }
        ensures places { IfOk result (λ taken. self.new.places ≡ if is_some taken
            then insert_entry K.cmp self.old.places key.now None else self.old.places) }
        ensures past { IfOk result (λ taken. self.new.past
            ≡ if is_some taken then self.old.places ∷ self.old.past else self.old.past) }
        ensures absent { IfOk result (λ taken. taken ≡ None → self.new ≡ self.old) }
        ensures unchanged { OnErr result (self.new ≡ self.old) }
        ensures err { OnErr result (self.new.content ≡ self.old.content) }
        ensures err_places { OnErr result (self.new.places ≡ self.old.places) }
        ensures err_past { OnErr result (self.new.past ≡ self.old.past) }
        ensures settled { self.new.settled ≡ self.old.settled }
        ensures shown { self.old.content ≡ content_of self.old.places }
        ensures ordered { IsStrictlySortedBy K.cmp (keys_of self.old.content) }
    {
        self.kept.take(key)
    }

    /// Makes of the value at a key what a change makes of it. It tells whether it left something to take back: not so where
    /// there was no value and is none. A key that has a place is looked up once. The place of a key that is taken out stays,
    /// vacant, until the map is settled or undone. An error changes nothing.
    pub fn change<C: Change<V>>(&mut self, key: K, change: &C) -> Result<bool, AllocError>
        ensures logged { IfOk result (λ logged. logged
            ≡ (is_some (lookup (is_at (K.cmp key)) self.old.content)
            || is_some (C.after change.now (lookup (is_at (K.cmp key)) self.old.content)))) }
        ensures content { OnOk result (self.new.content ≡ with_value K.cmp key
            (C.after change.now (lookup (is_at (K.cmp key)) self.old.content)) self.old.content) }
        ensures places { IfOk result (λ logged. self.new.places ≡ if logged
            then insert_entry K.cmp self.old.places key
            (C.after change.now (lookup (is_at (K.cmp key)) self.old.content))
            else self.old.places) }
        ensures past { IfOk result (λ logged. self.new.past
            ≡ if logged then self.old.places ∷ self.old.past else self.old.past) }
        ensures absent { IfOk result (λ logged. logged ≡ false → self.new ≡ self.old) }
        ensures unchanged { OnErr result (self.new ≡ self.old) }
        ensures err { OnErr result (self.new.content ≡ self.old.content) }
        ensures err_places { OnErr result (self.new.places ≡ self.old.places) }
        ensures err_past { OnErr result (self.new.past ≡ self.old.past) }
        ensures settled { self.new.settled ≡ self.old.settled }
        ensures shown { self.old.content ≡ content_of self.old.places }
        ensures ordered { IsStrictlySortedBy K.cmp (keys_of self.old.content) }
    {
        self.kept.change(key, change)
    }

    /// Makes of the value at a key what a change makes of it, as `change` does, and gives the value that was there.
    pub fn exchange<C: Change<V>>(&mut self, key: K, change: &C) -> Result<Option<V>, AllocError>
    where
        V: Copy,
        ensures before { IfOk result (λ before. before
            ≡ lookup (is_at (K.cmp key)) self.old.content) }
        ensures content { IfOk result (λ before. self.new.content
            ≡ with_value K.cmp key (C.after change.now before) self.old.content) }
        ensures places { IfOk result (λ before. self.new.places
            ≡ if is_some before || is_some (C.after change.now before)
            then insert_entry K.cmp self.old.places key (C.after change.now before)
            else self.old.places) }
        ensures past { IfOk result (λ before. self.new.past
            ≡ if is_some before || is_some (C.after change.now before)
            then self.old.places ∷ self.old.past else self.old.past) }
        ensures unchanged { OnErr result (self.new ≡ self.old) }
        ensures err { OnErr result (self.new.content ≡ self.old.content) }
        ensures err_past { OnErr result (self.new.past ≡ self.old.past) }
        ensures settled { self.new.settled ≡ self.old.settled }
        ensures shown { self.old.content ≡ content_of self.old.places }
    {
        self.kept.exchange(key, change)
    }

    /// Takes the last change back, where one is pending. It takes no memory.
    pub fn take_back(&mut self)
        ensures places { (p : List (K × Option V)) (ps : List (List (K × Option V)))
            → self.old.past ≡ p ∷ ps → self.new.places ≡ p }
        ensures content { (p : List (K × Option V)) (ps : List (List (K × Option V)))
            → self.old.past ≡ p ∷ ps → self.new.content ≡ content_of p }
        ensures past { (p : List (K × Option V)) (ps : List (List (K × Option V)))
            → self.old.past ≡ p ∷ ps → self.new.past ≡ ps }
        ensures settled { self.new.settled ≡ self.old.settled }
    {
        self.kept.take_back();
    }

    /// Brings back the content of the last `settle`, or of `new`. It takes no memory, and leaves no place vacant.
    pub fn undo(&mut self)
        ensures content { self.new.content ≡ self.old.settled }
        ensures settled { self.new.settled ≡ self.old.settled }
        ensures places { self.new.places ≡ places_of self.new.content }
        ensures past { self.new.past ≡ [] }
    {
        self.kept.undo();
    }

    /// Makes the content the one that `undo` brings back. It needs no memory, and leaves no place vacant.
    pub fn settle(&mut self)
        ensures content { self.new.content ≡ self.old.content }
        ensures settled { self.new.settled ≡ self.old.content }
        ensures places { self.new.places ≡ places_of self.new.content }
        ensures past { self.new.past ≡ [] }
    {
        self.kept.settle();
    }

    /// The value at a key.
    pub fn get(&self, key: &K) -> Option<&V>
        ensures { option_copied result ≡ lookup (is_at (K.cmp key.now)) self.now.content }
    {
        self.kept.peek(key)
    }

    /// The least place at or above `key`: its key, and its value unless it is vacant.
    pub fn first_from(&self, key: &K) -> Option<(&K, Option<&V>)>
        ensures value { option_map (λ p. (p.0.now, option_copied p.1)) result
            ≡ find (λ e. is_le (K.cmp key.now e.0)) self.now.places }
        ensures content { self.now.content ≡ content_of self.now.places }
    {
        place_of(least_from(self.kept.places(), key))
    }

    /// The entries, by key.
    pub fn iter(&self) -> Entries<'_, K, V>
        ensures entries { result ≡ self.now.content }
        ensures ordered { IsStrictlySortedBy K.cmp (keys_of result) }
    {
        Entries {
            left: self.kept.places().range(..),
        }
    }

    /// The entries from `key` on, by key. What comes before is not looked at.
    pub fn iter_from(&self, key: &K) -> Entries<'_, K, V>
        ensures entries { result ≡ filter (λ e. is_le (K.cmp key.now e.0)) self.now.content }
        ensures ordered { IsStrictlySortedBy K.cmp (keys_of self.now.content) }
    {
        Entries {
            left: self.kept.places().range(key..),
        }
    }

    /// The entries from the first key up to the second, which isn't among them, by key. The first may not be above the
    /// second.
    pub fn range(&self, first: K, end: K) -> Entries<'_, K, V>
        requires forward { is_gt (K.cmp first end) ≡ false }
        ensures between { result
            ≡ entries_between K.cmp (Included first) (Excluded end) self.now.content }
        ensures ordered { IsStrictlySortedBy K.cmp (keys_of self.now.content) }
    {
        Entries {
            left: self.kept.places().range(first..end),
        }
    }

    /// The entries from a key on, by key.
    pub fn range_from(&self, first: K) -> Entries<'_, K, V>
        ensures between { result
            ≡ entries_between K.cmp (Included first) Unbounded self.now.content }
        ensures ordered { IsStrictlySortedBy K.cmp (keys_of self.now.content) }
    {
        Entries {
            left: self.kept.places().range(first..),
        }
    }

    /// The entries up to a key, which is among them if it is there, by key.
    pub fn range_to(&self, last: K) -> Entries<'_, K, V>
        ensures between { result
            ≡ entries_between K.cmp Unbounded (Included last) self.now.content }
        ensures ordered { IsStrictlySortedBy K.cmp (keys_of self.now.content) }
    {
        Entries {
            left: self.kept.places().range(..=last),
        }
    }

    /// The least entry at or above `key`.
    pub fn entry_from(&self, key: K) -> Option<(&K, &V)>
        ensures { FindsFrom K.cmp key self.now.content (option_map deref_pair result) }
    {
        self.range_from(key).next()
    }

    /// The greatest entry at or below `key`.
    pub fn entry_up_to(&self, key: K) -> Option<(&K, &V)>
        ensures { FindsUpTo K.cmp key self.now.content (option_map deref_pair result) }
    {
        self.range_to(key).next_back()
    }
}

/// The entries of a `KeptMap` that are left.
#[derive(Drop)]
pub struct Entries<'a, K, V> {
    left: Range<'a, K, Option<V>>,
}

impl<'a, K, V> Model for Entries<'a, K, V> {
    ghost use Rattle.std.specs.Prelude.{List};
    ghost use Rattle.smq_shelf.specs.Places.{content_of};

    ghost Value = { List (K × V) };

    ghost view = { λ a. content_of a.left };
}

impl<'a, K, V> Iterator for Entries<'a, K, V> {
    type Item = (&'a K, &'a V);

    ghost next_gives = { TakesFirst deref_pair };

    ghost remaining = { λ s. at_most (length s) };

    fn next(&mut self) -> Option<(&'a K, &'a V)> {
        while let Some((key, place)) = self.left.next() {
            if let Some(value) = place {
                return Some((key, value));
            }
        }
        None
    }
}

impl<'a, K, V> DoubleEndedIterator for Entries<'a, K, V> {
    ghost next_back_gives = { TakesLast deref_pair };

    fn next_back(&mut self) -> Option<(&'a K, &'a V)> {
        while let Some((key, place)) = self.left.next_back() {
            if let Some(value) = place {
                return Some((key, value));
            }
        }
        None
    }
}
