//! Histories up to an entry less than a chunk, a chunk, and an entry more: entries by number, copies, beginnings, closed
//! desks.
use crate::tests::*;
use smq_desk::{Edition, Entries, History, LONGEST_HISTORY, Watcher};

/// Puts the entry of a clock at the end.
fn push(history: &mut History, milliseconds: u64) -> Result<(), Refusal> {
    let clock = Moment::new(milliseconds)?;
    if history.len() >= LONGEST_HISTORY {
        return Err(Refusal::HistoryFull);
    }
    let Ok(()) = history.reserve() else {
        return Err(Refusal::Memory);
    };
    history.push_reserved(Entry {
        seat: 7,
        edit: Edit::Advance { clock },
        reply: Reply::Done,
    });
    Ok(())
}

/// Puts entries at the end up to so many, each the clock of its number, but the last that of another number.
fn fill(history: &mut History, size: u64, last: u64) -> Result<(), Refusal> {
    for number in 1..size {
        push(history, number)?;
    }
    if size > 0 {
        push(history, last)?;
    }
    Ok(())
}

/// A history of so many entries, each the clock of its number, but the last that of another number.
fn filled(rt: &impl Abort, alloc: Global, size: u64, last: u64) -> History {
    let mut history = History::new(alloc);
    fill(&mut history, size, last).expect(rt, "entries");
    history
}

/// Whether this is the entry of a clock of so many ms.
fn is_clock(entry: &Entry, milliseconds: u64) -> bool {
    match &entry.edit {
        Edit::Advance { clock } => clock.milliseconds() == milliseconds,
        _ => false,
    }
}

/// Whether the entry of a number is there, and is the clock of that number.
fn has_entry(history: &History, number: u64) -> bool {
    match history.get(number) {
        Some(entry) => is_clock(entry, number),
        None => false,
    }
}

/// Whether the history has so many entries, each the clock of its number, and none of number 0 or beyond the last.
fn has_numbers(history: &History, size: u64) -> bool {
    for number in 1..=size {
        if !has_entry(history, number) {
            return false;
        }
    }
    history.len() == size
        && history.get(0).is_none()
        && history.get(size.saturating_add(1)).is_none()
}

/// Whether so many entries come, each the clock of its number.
fn come_in_order(entries: Entries<'_>, size: u64) -> bool {
    let mut number: u64 = 0;
    for entry in entries {
        number = number.wrapping_add(1);
        if !is_clock(entry, number) {
            return false;
        }
    }
    number == size
}

/// Whether a copy has as many entries, which are the same.
fn is_copied(history: &History) -> bool {
    match history.copy() {
        Ok(copy) => are_alike(&copy, history),
        Err(_) => false,
    }
}

/// Whether each of two histories begins with the other.
fn are_alike(one: &History, other: &History) -> bool {
    one.len() == other.len() && one.starts_with(other) && other.starts_with(one)
}

/// Whether a history has so many entries, each the clock of its number, wherever it is read.
fn is_filled(history: &History, size: u64) -> bool {
    has_numbers(history, size) && come_in_order(history.iter(), size) && is_copied(history)
}

/// Puts an entry at the end, and once more where memory was wanting: then the history was as before.
fn push_again(history: &mut History, number: u64) -> bool {
    if push(history, number) == Ok(()) {
        return history.len() == number;
    }
    let is_kept = history.len().saturating_add(1) == number;
    is_kept && push(history, number) == Ok(())
}

/// Whichever allocation is refused (gate/check-out-of-memory-in-calls), a history grows past the end of a chunk all the
/// same, and is copied, if not at once.
#[test]
fn want_of_memory_leaves_a_history_as_it_was(rt: HostRuntime) {
    let mut history = History::new(rt.alloc());
    push_all_again(&rt, &mut history, 1_030);
    let is_as_wanted = has_numbers(&history, 1_030) && (is_copied(&history) || is_copied(&history));
    assert!(rt; is_as_wanted);
}

/// Puts so many entries, each once more where memory was wanting.
fn push_all_again(rt: &impl Abort, history: &mut History, size: u64) {
    for number in 1..=size {
        let is_put = push_again(history, number);
        assert!(rt; is_put, "entry {number}");
    }
}

/// How many entries histories have here.
const SIZES: &[u64] = &[0, 1, 1_023, 1_024, 1_025, 2_048, 2_049];

#[test]
fn entries_are_numbered_through_chunks(rt: HostRuntime) {
    for size in SIZES {
        let is_as_wanted = is_numbered(&rt, rt.alloc(), *size);
        assert!(rt; is_as_wanted, "{size} entries");
    }
}

/// Whether a history of so many entries has each, wherever it is read.
fn is_numbered(rt: &impl Abort, alloc: Global, size: u64) -> bool {
    let history = filled(rt, alloc, size, size);
    is_filled(&history, size)
}

/// The sizes of two histories and the clocks of their last entries, and whether the first begins with the second.
type Beginning = ((u64, u64), (u64, u64), bool);

const BEGINNINGS: &[Beginning] = &[
    ((1_025, 1_025), (1_025, 1_025), true),
    ((1_025, 1_025), (1_024, 1_024), true),
    ((1_024, 1_024), (1_025, 1_025), false),
    ((1_025, 1_025), (0, 0), true),
    ((1_025, 1_025), (1_025, 1_026), false),
    ((1_024, 1_024), (1_024, 1_025), false),
    ((1_025, 1_025), (1_024, 1_025), false),
    ((1_023, 1_023), (1_023, 1_024), false),
];

/// Whether the first begins with the second.
fn begins_with(rt: &impl Abort, alloc: Global, case: &Beginning) -> bool {
    let one = filled(rt, alloc, case.0.0, case.0.1);
    let other = filled(rt, alloc, case.1.0, case.1.1);
    one.starts_with(&other)
}

#[test]
fn a_history_begins_with_its_earlier_entries_alone(rt: HostRuntime) {
    for case in BEGINNINGS {
        let is_as_wanted = begins_with(&rt, rt.alloc(), case) == case.2;
        assert!(rt; is_as_wanted, "{case:?}");
    }
}

/// Commits so many clocks from a seat.
fn play<R: Abort + Wait>(rt: &R, desk: &Desk, seat: &mut Seat, size: u64) {
    for number in 1..=size {
        commit_clock(rt, desk, seat, number).expect(rt, "an entry");
    }
}

/// Whether an edition has so many entries, each the clock of its number, and none of number 0 or beyond the front.
fn shows_numbers(edition: &Edition, size: u64) -> bool {
    for number in 1..=size {
        if !shows_entry(edition, number) {
            return false;
        }
    }
    edition.front() == size
        && edition.entry(0).is_none()
        && edition.entry(size.saturating_add(1)).is_none()
}

/// Whether the entry of a number is there, and is the clock of that number.
fn shows_entry(edition: &Edition, number: u64) -> bool {
    match edition.entry(number) {
        Some(entry) => is_clock(entry, number),
        None => false,
    }
}

/// Whether an edition of a watcher shows them.
fn sees_numbers(watcher: &mut Watcher, size: u64) -> bool {
    match watcher.edition() {
        Ok(edition) => shows_numbers(&edition, size),
        Err(_) => false,
    }
}

/// Commits and publishes so many clocks from a seat, and says whether a watcher shows them.
fn published<R: Abort + Wait>(rt: &R, desk: &Desk, seat: &mut Seat, size: u64) -> bool {
    play(rt, desk, seat, size);
    publish(rt, desk, seat).expect(rt, "a note");
    let mut watcher = desk.watcher(rt).expect(rt, "a watcher");
    sees_numbers(&mut watcher, size)
}

/// How many entries a desk closes with, to which one seat committed so many clocks, and whether a watcher showed them.
fn closed_with<R: Abort + Wait + AllocGlobal>(rt: &R, size: u64) -> (Option<usize>, bool) {
    let alloc = rt.alloc();
    let desk = new_desk(rt, 10_000).expect(rt, "a desk");
    let mut seat = seat_of(rt, &desk);
    let shown = published(rt, &desk, &mut seat, size);
    let seats = vec![in alloc; seat].expect(rt, "memory");
    let entries = entries_of(close_and_end(rt, alloc, desk, seats));
    (entries, shown)
}

#[test]
fn a_desk_publishes_and_closes_at_the_end_of_a_chunk(rt: HostRuntime) {
    let sizes: &[u64] = &[1_023, 1_024, 1_025];
    for size in sizes {
        let closed = closed_with(&rt, *size);
        assert!(rt; closed == (Some(*size as usize), true));
    }
}
