//! A shelf's calls, changes of kept maps that are taken back, undone and settled, and refused memory. It stands in one file although
//! it is long: its tests share what fills and changes a map.
use smq_shelf::{Change, Kept, KeptMap, Shelf};
use std::process::Abort;

fn assert_first_touches(rt: &impl Abort, shelf: &mut Shelf<u32, u8>) {
    assert!(rt; shelf.insert(5, b'a') == Ok(None));
    assert!(rt; shelf.insert(9, b'b') == Ok(None));
    assert!(rt; shelf.first_from(&6) == Some((&9, &b'b')));
    assert!(rt; shelf.remove(&5) == Some(b'a'));
    assert_eq!(rt; shelf.touches(), 4);
}

fn assert_last_touches(rt: &impl Abort, shelf: &mut Shelf<u32, u8>) {
    assert!(rt; shelf.first_after(&9).is_none());
    assert!(rt; shelf.get(&9) == Some(&b'b'));
    assert!(rt; shelf.remove(&5).is_none());
    assert_eq!(rt; shelf.touches(), 7);
}

#[test]
fn each_call_of_a_shelf_is_one_touch(rt: HostRuntime) {
    let mut shelf = Shelf::new(rt.alloc());
    assert_first_touches(&rt, &mut shelf);
    assert_last_touches(&rt, &mut shelf);
}

/// Inserts a pair that came back, which was one touch and left the map as it was.
fn insert_again(
    rt: &impl Abort,
    shelf: &mut Shelf<u32, u64>,
    (key, value): (u32, u64),
    touches: u64,
) {
    assert!(rt; shelf.touches() == touches.saturating_add(1), "one touch");
    assert!(rt; shelf.first_from(&key).is_none(), "the map is as before");
    assert!(rt;
        shelf.insert(key, value) == Ok(None),
        "there is memory again"
    );
}

/// Inserts a pair, again where memory was refused: the pair came back, the map was as before, and that was one touch.
fn insert(rt: &impl Abort, shelf: &mut Shelf<u32, u64>, key: u32, value: u64) {
    let touches = shelf.touches();
    if let Err(pair) = shelf.insert(key, value) {
        assert!(rt; pair == (key, value), "the pair comes back");
        insert_again(rt, shelf, pair, touches);
    }
}

/// Inserts 60 keys, the first and the last of which are then there.
fn insert_60(rt: &impl Abort, shelf: &mut Shelf<u32, u64>) {
    for key in 0..60u32 {
        insert(rt, shelf, key, 7);
    }
    assert!(rt; shelf.first_from(&59) == Some((&59, &7)));
    assert!(rt; shelf.get(&0) == Some(&7));
}

/// Whichever allocation is refused (gate/check-out-of-memory-in-calls), a refused insert hands its pair back.
#[test]
fn a_refused_insert_hands_its_pair_back(rt: HostRuntime) {
    let mut shelf = Shelf::new(rt.alloc());
    insert_60(&rt, &mut shelf);
}

/// Inserts keys from 0 until memory is refused, or up to a number, and gives how many there are.
fn filled(shelf: &mut Shelf<u32, u64>, end: u32) -> u32 {
    for key in 0..end {
        if shelf.insert(key, 1).is_err() {
            return key;
        }
    }
    end
}

/// Keys from 0 up to a number take new values.
fn change_below(rt: &impl Abort, shelf: &mut Shelf<u32, u64>, end: u32) {
    for key in 0..end {
        assert!(rt; shelf.insert(key, 2) == Ok(Some(1)), "a new value");
    }
}

/// Keys from 0 up to a number, and no others are there, are taken out.
fn take_below(rt: &impl Abort, shelf: &mut Shelf<u32, u64>, end: u32) {
    for key in 0..end {
        assert!(rt; shelf.remove(&key) == Some(2), "the new value");
    }
    assert!(rt; shelf.first_from(&0).is_none());
}

/// Whichever allocation is refused (gate/check-out-of-memory-in-calls), the keys that are there take new values, and
/// are taken out.
#[test]
fn a_key_that_is_there_takes_no_memory(rt: HostRuntime) {
    let mut shelf = Shelf::new(rt.alloc());
    let end = filled(&mut shelf, 60);
    change_below(&rt, &mut shelf, end);
    take_below(&rt, &mut shelf, end);
}

/// Two keys are settled; then one is taken out, one is changed, and one comes and goes.
fn set_and_change(rt: &impl Abort, kept: &mut Kept<u32, u8>) {
    kept.set(1, 10).expect(rt, "memory");
    kept.set(2, 20).expect(rt, "memory");
    kept.settle();
    kept.remove(&1).expect(rt, "memory");
    kept.set(2, 21).expect(rt, "memory");
    kept.set(3, 30).expect(rt, "memory");
    kept.remove(&3).expect(rt, "memory");
}

fn assert_changed(rt: &impl Abort, kept: &mut Kept<u32, u8>) {
    assert!(rt; kept.get(&1).is_none());
    assert!(rt; kept.first_from(&0) == Some((&1, None)));
    assert!(rt; kept.first_after(&1) == Some((&2, Some(&21))));
}

fn assert_undone(rt: &impl Abort, kept: &mut Kept<u32, u8>) {
    kept.take_back();
    assert!(rt; kept.get(&3).copied() == Some(30));
    kept.undo();
    assert!(rt; kept.get(&1).copied() == Some(10));
    assert!(rt; kept.get(&2).copied() == Some(20));
    assert!(rt; kept.first_from(&3).is_none());
}

fn assert_one_is_left(rt: &impl Abort, kept: &mut Kept<u32, u8>) {
    kept.remove(&1).expect(rt, "memory");
    kept.settle();
    assert!(rt; kept.first_from(&0).is_some_and(|e| *e.0 == 2));
    assert_eq!(rt; kept.place_count(), 1);
}

#[test]
fn what_was_not_settled_is_undone(rt: HostRuntime) {
    let mut kept = Kept::new(rt.alloc());
    set_and_change(&rt, &mut kept);
    assert_changed(&rt, &mut kept);
    assert_undone(&rt, &mut kept);
    assert_one_is_left(&rt, &mut kept);
}

/// What a key has, and how many places there are.
fn state_at(kept: &mut Kept<u32, u64>, key: u32) -> (Option<u64>, usize) {
    (kept.get(&key).copied(), kept.place_count())
}

/// Sets a key, again where memory was refused: the map was as before.
fn set(rt: &impl Abort, kept: &mut Kept<u32, u64>, key: u32, value: u64) {
    let before = state_at(kept, key);
    if kept.set(key, value).is_ok() {
        return;
    }
    assert!(rt; state_at(kept, key) == before, "the map is as before");
    assert!(rt; kept.set(key, value).is_ok(), "there is memory again");
}

/// Takes a key out, again where memory was refused: the map was as before.
fn remove(rt: &impl Abort, kept: &mut Kept<u32, u64>, key: u32) {
    let before = state_at(kept, key);
    if kept.remove(&key).is_ok() {
        return;
    }
    assert!(rt; state_at(kept, key) == before, "the map is as before");
    assert!(rt; kept.remove(&key).is_ok(), "there is memory again");
}

/// Sets keys, and then changes each and takes it out.
fn change_30(rt: &impl Abort, kept: &mut Kept<u32, u64>) {
    for key in 0..30u32 {
        set(rt, kept, key, 1);
    }
    for key in 0..30u32 {
        set(rt, kept, key, 2);
        remove(rt, kept, key);
    }
}

/// Whether no key is left, and the last is the only one once its taking out is taken back.
fn assert_last_comes_back(rt: &impl Abort, kept: &mut Kept<u32, u64>) {
    assert!(rt; kept.first_from(&0) == Some((&0, None)));
    kept.take_back();
    assert!(rt; kept.first_from(&29) == Some((&29, Some(&2))));
    kept.settle();
    assert_eq!(rt; kept.place_count(), 1);
}

/// Whichever allocation is refused (gate/check-out-of-memory-in-calls), a refused change leaves the map, and is made
/// when it is tried again.
#[test]
fn a_refused_change_changes_nothing(rt: HostRuntime) {
    let mut kept = Kept::new(rt.alloc());
    change_30(&rt, &mut kept);
    assert_last_comes_back(&rt, &mut kept);
}

/// Puts this value in where none is, and takes out what is there.
struct Toggle(u64);

impl Change<u64> for Toggle {
    ghost use Rattle.std.specs.Prelude.{None, Some, is_some, if◌then◌else◌};

    ghost after = { λ toggle before. if is_some before then None else Some toggle.0 };

    fn make(&self, place: &mut Option<u64>) -> Option<u64> {
        let before = *place;
        *place = match before {
            Some(_) => None,
            None => Some(self.0),
        };
        before
    }
}

/// Puts this value in the place of one that is there.
struct Overwrite(u64);

impl Change<u64> for Overwrite {
    ghost use Rattle.std.specs.Prelude.{option_map};

    ghost after = { λ overwrite before. option_map (λ _. overwrite.0) before };

    fn make(&self, place: &mut Option<u64>) -> Option<u64> {
        let before = *place;
        *place = match before {
            Some(_) => Some(self.0),
            None => None,
        };
        before
    }
}

fn assert_changed_in_place(rt: &impl Abort, kept: &mut Kept<u32, u64>) {
    assert!(rt; kept.change(1, &Toggle(5)) == Ok(true), "it is put in");
    assert!(rt; kept.exchange(1, &Overwrite(6)) == Ok(Some(5)));
    assert!(rt;
        kept.change(2, &Overwrite(6)) == Ok(false),
        "none was there"
    );
    assert!(rt; kept.exchange(2, &Toggle(9)) == Ok(None));
    assert!(rt; kept.get(&1).copied() == Some(6));
}

fn assert_taken(rt: &impl Abort, kept: &mut Kept<u32, u64>) {
    assert!(rt; kept.take(&2) == Ok(Some(9)));
    assert!(rt; kept.first_from(&2) == Some((&2, None)));
    assert!(rt; kept.take(&2) == Ok(None), "none is left");
    assert!(rt; kept.take(&3) == Ok(None), "none was there");
    assert!(rt; kept.change(1, &Toggle(0)) == Ok(true), "it is taken out");
    assert!(rt; kept.get(&1).is_none());
}

fn assert_changes_undone(rt: &impl Abort, kept: &mut Kept<u32, u64>) {
    assert!(rt; kept.exchange(2, &Toggle(3)) == Ok(None));
    kept.take_back();
    assert!(rt; kept.first_from(&2) == Some((&2, None)));
    kept.undo();
    assert!(rt; kept.get(&1).copied() == Some(6));
    assert!(rt; kept.get(&2).copied() == Some(9));
}

#[test]
fn values_are_changed_in_place(rt: HostRuntime) {
    let mut kept = Kept::new(rt.alloc());
    assert_changed_in_place(&rt, &mut kept);
    kept.settle();
    assert_taken(&rt, &mut kept);
    assert_changes_undone(&rt, &mut kept);
    assert!(rt; kept.take(&2) == Ok(Some(9)));
    kept.settle();
    assert_eq!(rt; kept.place_count(), 1);
}

/// Puts a value in or takes it out, again where memory was refused: the map was as before.
fn toggle_value(rt: &impl Abort, kept: &mut Kept<u32, u64>, key: u32) {
    let before = state_at(kept, key);
    if kept.change(key, &Toggle(7)).is_ok() {
        return;
    }
    assert!(rt; state_at(kept, key) == before, "the map is as before");
    assert!(rt;
        kept.change(key, &Toggle(7)) == Ok(true),
        "there is memory again"
    );
}

/// Overwrites a value, again where memory was refused: the value was as before.
fn overwrite_value(rt: &impl Abort, kept: &mut Kept<u32, u64>, key: u32) {
    if kept.exchange(key, &Overwrite(8)).is_ok() {
        return;
    }
    assert!(rt;
        kept.get(&key).copied() == Some(7),
        "the value is as before"
    );
    assert!(rt;
        kept.exchange(key, &Overwrite(8)) == Ok(Some(7)),
        "there is memory again"
    );
}

/// Takes a value out, again where memory was refused: the value was as before.
fn take_value(rt: &impl Abort, kept: &mut Kept<u32, u64>, key: u32) {
    if kept.take(&key).is_ok() {
        return;
    }
    assert!(rt;
        kept.get(&key).copied() == Some(8),
        "the value is as before"
    );
    assert!(rt; kept.take(&key) == Ok(Some(8)), "there is memory again");
}

/// Puts each of 30 keys in, overwrites it, takes it out, and does so again.
fn change_30_in_place(rt: &impl Abort, kept: &mut Kept<u32, u64>) {
    for key in 0..30u32 {
        toggle_value(rt, kept, key);
        overwrite_value(rt, kept, key);
        take_value(rt, kept, key);
        assert!(rt; kept.first_from(&key) == Some((&key, None)), "none is left");
        toggle_value(rt, kept, key);
        toggle_value(rt, kept, key);
    }
}

/// Whichever allocation is refused (gate/check-out-of-memory-in-calls), a value that can't be changed stays, and is
/// changed when it is tried again.
#[test]
fn a_value_that_is_not_changed_stays(rt: HostRuntime) {
    let mut kept = Kept::new(rt.alloc());
    change_30_in_place(&rt, &mut kept);
    kept.settle();
    assert_eq!(rt; kept.place_count(), 0);
}

/// Sets keys from 0 until memory is refused, or up to a number, and gives how many have the value.
fn set_below(kept: &mut KeptMap<u32, u64>, end: u32, value: u64) -> u32 {
    for key in 0..end {
        if kept.set(key, value).is_err() {
            return key;
        }
    }
    end
}

/// Whether the keys below a number, and no others, have the value 1.
fn has_ones_below(map: &KeptMap<u32, u64>, end: u32) -> bool {
    let mut next: u32 = 0;
    for entry in map.iter() {
        if entry != (&next, &1) {
            return false;
        }
        next = next.saturating_add(1);
    }
    next == end
}

/// Changes the keys below a number as far as there is memory, and takes one out, again as far as there is.
fn change(rt: &impl Abort, map: &mut KeptMap<u32, u64>) {
    let changed = set_below(map, 60, 2);
    let is_removed = map.remove(&0).is_ok();
    if is_removed {
        assert!(rt; map.get(&0).is_none(), "taken out");
    }
    if changed > 0 && !is_removed {
        assert!(rt; map.get(&0).copied() == Some(2), "changed");
    }
}

/// Whichever allocation is refused (gate/check-out-of-memory-in-calls), a map is settled and undone all the same.
#[test]
fn a_map_is_settled_and_undone_without_memory(rt: HostRuntime) {
    let mut map = KeptMap::new(rt.alloc());
    let settled = set_below(&mut map, 40, 1);
    map.settle();
    change(&rt, &mut map);
    map.undo();
    assert!(rt; has_ones_below(&map, settled), "as it was settled");
}

fn set_three(rt: &impl Abort, map: &mut KeptMap<u32, u8>) {
    map.set(1, 10).expect(rt, "memory");
    map.set(2, 20).expect(rt, "memory");
    map.set(3, 30).expect(rt, "memory");
    map.remove(&2).expect(rt, "memory");
}

/// How many entries there are.
fn entry_count(map: &KeptMap<u32, u8>) -> u32 {
    let mut count: u32 = 0;
    for _ in map.iter() {
        count = count.saturating_add(1);
    }
    count
}

/// How many entries there are from the key 1 up to 3.
fn entry_count_from_1_to_3(map: &KeptMap<u32, u8>) -> u32 {
    let mut count: u32 = 0;
    for _ in map.range(1, 3) {
        count = count.saturating_add(1);
    }
    count
}

/// Whether this is the first entry from a key on.
fn is_first_from(map: &KeptMap<u32, u8>, key: u32, wanted: (u32, u8)) -> bool {
    map.iter_from(&key).next() == Some((&wanted.0, &wanted.1))
}

/// Whether this is the first entry of the range from a key on.
fn is_first_of_range(map: &KeptMap<u32, u8>, first: u32, wanted: (u32, u8)) -> bool {
    map.range_from(first).next() == Some((&wanted.0, &wanted.1))
}

fn assert_reads(rt: &impl Abort, map: &KeptMap<u32, u8>) {
    assert_eq!(rt; entry_count(map), 2);
    assert!(rt; entry_count_from_1_to_3(map) == 1);
    assert!(rt; is_first_from(map, 2, (3, 30)));
    assert!(rt; is_first_of_range(map, 3, (3, 30)));
    assert!(rt; map.first_from(&2) == Some((&2, None)));
}

fn assert_undone_map(rt: &impl Abort, map: &mut KeptMap<u32, u8>) {
    map.take_back();
    assert!(rt; map.get(&2).copied() == Some(20));
    map.undo();
    assert!(rt; map.iter().next().is_none());
}

#[test]
fn a_map_is_read_from_a_key_on(rt: HostRuntime) {
    let mut map = KeptMap::new(rt.alloc());
    set_three(&rt, &mut map);
    assert_reads(&rt, &map);
    assert_undone_map(&rt, &mut map);
}
