//! What watchers see of a desk.
use crate::tests::*;
use smq_desk::{Edition, MOST_WATCHERS, Note, Watcher};
use std::sync::Mutex;

/// The front that a watcher shows.
pub(crate) fn front_of(watcher: &mut Watcher) -> Option<u64> {
    match watcher.edition() {
        Ok(edition) => Some(edition.front()),
        Err(_) => None,
    }
}

/// A watcher of a desk.
fn watcher_of<R: Abort + Wait>(rt: &R, desk: &Desk) -> Watcher {
    desk.watcher(rt).expect(rt, "a watcher")
}

/// Commits a submit_sm for session 10 of link 1.
fn put_first<R: Abort + Wait>(rt: &R, alloc: Global, desk: &Desk, seat: &mut Seat) {
    put(rt, alloc, desk, seat, FIRST).expect(rt, "an entry");
}

/// Publishes a seat's calls, and tells a watcher.
fn publish_to<R: Abort + Wait>(rt: &R, desk: &Desk, seat: &mut Seat, watcher: &mut Watcher) {
    let note = desk.publish(rt, seat).expect(rt, "a note");
    watcher.learn(&note).expect(rt, "learnt");
}

/// Whether an edition has one entry, which is the first call of this seat, and counts its one message as waiting.
fn shows_first_call(edition: &Edition, seat: &Seat) -> bool {
    edition.front() == 1
        && edition.entry(0).is_none()
        && edition.entry(2).is_none()
        && is_entry(edition.entry(1), seat)
        && count(edition.tables(), 1, Outcome::Waiting) == 1
}

/// Whether this is the entry of the first call of a seat, which was made.
fn is_entry(entry: Option<&Entry>, seat: &Seat) -> bool {
    match (entry, seat.calls()) {
        (Some(entry), [call]) => {
            entry.seat == seat.number() && entry.reply == Reply::Done && entry.edit == call.edit
        }
        _ => false,
    }
}

/// Whether an edition of a watcher shows the first call of this seat.
fn sees_first_call(watcher: &mut Watcher, seat: &Seat) -> bool {
    match watcher.edition() {
        Ok(edition) => shows_first_call(&edition, seat),
        Err(_) => false,
    }
}

/// Whether a new watcher that learns a note shows the first call of this seat.
fn learns<R: Abort + Wait>(rt: &R, desk: &Desk, seat: &Seat, note: &Note) -> bool {
    let mut watcher = watcher_of(rt, desk);
    watcher.learn(note).expect(rt, "learnt");
    sees_first_call(&mut watcher, seat)
}

fn learns_a_commit<R: Abort + Wait>(rt: &R, alloc: Global, desk: &Desk) -> bool {
    let mut seat = seat_of(rt, desk);
    put_first(rt, alloc, desk, &mut seat);
    let note = desk.publish(rt, &mut seat).expect(rt, "a note");
    learns(rt, desk, &seat, &note)
}

#[test]
fn an_edition_shows_the_commit_that_was_learnt(rt: HostRuntime) {
    let desk = new_desk(&rt, 100).expect(&rt, "a desk");
    let shown = learns_a_commit(&rt, rt.alloc(), &desk);
    end_desk(&rt, desk);
    assert!(rt; shown);
}

/// The fronts that a watcher which is told nothing shows: of a new desk, after a commit, and after a publish.
fn fronts_untold<R: Abort + Wait>(
    rt: &R,
    alloc: Global,
    desk: &Desk,
) -> (Option<u64>, Option<u64>, Option<u64>) {
    let mut watcher = watcher_of(rt, desk);
    let opening = front_of(&mut watcher);
    let mut seat = seat_of(rt, desk);
    put_first(rt, alloc, desk, &mut seat);
    let committed = front_of(&mut watcher);
    publish(rt, desk, &mut seat).expect(rt, "a note");
    (opening, committed, front_of(&mut watcher))
}

#[test]
fn a_watcher_that_is_told_nothing_shows_what_was_published(rt: HostRuntime) {
    let desk = new_desk(&rt, 100).expect(&rt, "a desk");
    let fronts = fronts_untold(&rt, rt.alloc(), &desk);
    end_desk(&rt, desk);
    assert!(rt; fronts == (Some(0), Some(0), Some(1)));
}

/// The front that a watcher shows which learns the note of a seat without calls, where another seat committed.
fn front_of_another<R: Abort + Wait>(rt: &R, alloc: Global, desk: &Desk) -> Option<u64> {
    let mut one = seat_of(rt, desk);
    let mut two = seat_of(rt, desk);
    let mut watcher = watcher_of(rt, desk);
    put_first(rt, alloc, desk, &mut one);
    publish_to(rt, desk, &mut two, &mut watcher);
    front_of(&mut watcher)
}

#[test]
fn a_note_has_the_commits_of_all_seats(rt: HostRuntime) {
    let desk = new_desk(&rt, 100).expect(&rt, "a desk");
    let front = front_of_another(&rt, rt.alloc(), &desk);
    end_desk(&rt, desk);
    assert!(rt; front == Some(1));
}

/// Makes watchers up to one that is refused, and gives its refusal.
fn fill<R: Abort + Wait>(rt: &R, desk: &Desk, watchers: &mut Vec<Watcher>) -> Option<Refusal> {
    for _ in 0..2 * MOST_WATCHERS {
        match desk.watcher(rt) {
            Ok(watcher) => watchers.push(watcher).expect(rt, "memory"),
            Err(refusal) => return Some(refusal),
        }
    }
    None
}

/// Whether the place of a watcher that is dropped is given out again.
fn is_given_again<R: Wait>(rt: &R, desk: &Desk, watchers: &mut Vec<Watcher>) -> bool {
    let _ = watchers.pop();
    desk.watcher(rt).is_ok()
}

/// How many watchers live before the next is refused, how it is refused, and whether the place of one that is dropped is given out
/// again.
fn crowd<R: Abort + Wait>(rt: &R, alloc: Global, desk: &Desk) -> (usize, Option<Refusal>, bool) {
    let mut watchers = Vec::new(alloc);
    let refusal = fill(rt, desk, &mut watchers);
    let count = watchers.len();
    (count, refusal, is_given_again(rt, desk, &mut watchers))
}

#[test]
fn sixty_four_watchers_live_at_once(rt: HostRuntime) {
    let desk = new_desk(&rt, 100).expect(&rt, "a desk");
    let first = crowd(&rt, rt.alloc(), &desk);
    let second = crowd(&rt, rt.alloc(), &desk);
    end_desk(&rt, desk);
    assert!(rt; first == (64, Some(Refusal::NoWatcher), true));
    assert!(rt; second == (64, Some(Refusal::NoWatcher), true));
}

/// Commits of a clock by another desk's seat and by this desk's seat, and the number that `publish` then tells as torn for the
/// other desk's: none where it publishes.
type Torn = (&'static str, &'static [u64], &'static [u64], Option<u64>);

const TORN: &[Torn] = &[
    ("a seat without calls is torn nowhere", &[], &[5], None),
    ("a call of another desk", &[5], &[], Some(1)),
    ("the least of several calls", &[5, 6, 7], &[], Some(1)),
    (
        "the first calls are the history's",
        &[5, 6, 7],
        &[5, 8, 9],
        Some(2),
    ),
    (
        "the history ends before the last call",
        &[5, 6],
        &[5],
        Some(2),
    ),
    (
        "another desk's calls that are this history",
        &[5, 6],
        &[5, 6],
        None,
    ),
];

/// A seat after commits of these clocks.
fn seat_with<R: Abort + Wait>(rt: &R, desk: &Desk, clocks: &[u64]) -> Seat {
    let mut seat = seat_of(rt, desk);
    for clock in clocks {
        commit_clock(rt, desk, &mut seat, *clock).expect(rt, "an entry");
    }
    seat
}

/// The same of a desk that ended.
fn seat_elsewhere<R: Abort + Wait + AllocGlobal>(rt: &R, clocks: &[u64]) -> Seat {
    let desk = new_desk(rt, 100).expect(rt, "a desk");
    let seat = seat_with(rt, &desk, clocks);
    end_desk(rt, desk);
    seat
}

/// The number that `publish` tells as torn for a seat.
fn torn_at<R: Wait>(rt: &R, desk: &Desk, other: &mut Seat) -> Result<Option<u64>, Refusal> {
    match publish(rt, desk, other) {
        Ok(()) => Ok(None),
        Err(Refusal::TornSeat { number }) => Ok(Some(number)),
        Err(refusal) => Err(refusal),
    }
}

/// The same for a seat that keeps its calls.
fn torn_of<R: Abort + Wait>(rt: &R, desk: &Desk, other: &mut Seat) -> Option<u64> {
    let before = other.calls().len();
    let torn = torn_at(rt, desk, other).expect(rt, "published, or torn");
    assert!(rt; other.calls().len() == before);
    torn
}

/// What `publish` tells of another desk's seat.
fn told<R: Abort + Wait + AllocGlobal>(rt: &R, case: &Torn) -> Option<u64> {
    let mut other = seat_elsewhere(rt, case.1);
    let desk = new_desk(rt, 100).expect(rt, "a desk");
    let _own = seat_with(rt, &desk, case.2);
    let torn = torn_of(rt, &desk, &mut other);
    end_desk(rt, desk);
    torn
}

#[test]
fn a_seat_publishes_where_its_calls_are_the_history(rt: HostRuntime) {
    for case in TORN {
        let is_as_wanted = told(&rt, case) == case.3;
        assert!(rt; is_as_wanted, "{}", case.0);
    }
}

/// The fronts of two watchers after the close, and of the first once the board is gone; none where the desk doesn't close.
type Fronts = Option<(Option<u64>, Option<u64>, Option<u64>)>;

fn fronts_after_close<R: Wait>(
    rt: &R,
    ended: Ended,
    told: &mut Watcher,
    untold: &mut Watcher,
) -> Fronts {
    match ended {
        Ended::Closed(closed) => {
            let (first, second) = (front_of(told), front_of(untold));
            end_closed(rt, closed);
            Some((first, second, front_of(told)))
        }
        other => {
            end(rt, other);
            None
        }
    }
}

/// The fronts of a watcher that is told of the publish of a submit_sm, and of one that is told nothing.
fn fronts_beyond<R: Abort + Wait + AllocGlobal>(rt: &R, alloc: Global) -> Fronts {
    let desk = new_desk(rt, 100).expect(rt, "a desk");
    let mut seat = seat_of(rt, &desk);
    let mut told = watcher_of(rt, &desk);
    let mut untold = watcher_of(rt, &desk);
    put_first(rt, alloc, &desk, &mut seat);
    publish_to(rt, &desk, &mut seat, &mut told);
    let seats = vec![in alloc; seat].expect(rt, "memory");
    let ended = close(rt, alloc, desk, seats);
    fronts_after_close(rt, ended, &mut told, &mut untold)
}

#[test]
fn watchers_outlive_the_desk(rt: HostRuntime) {
    let seen = fronts_beyond(&rt, rt.alloc());
    assert!(rt; seen == Some((Some(1), Some(1), Some(1))));
}

/// Publishes a seat's calls, and hands the note over.
fn hand_over<R: Abort + Wait>(rt: &R, desk: &Desk, seat: &mut Seat, notes: &Mutex<Vec<Note>>) {
    let note = desk.publish(rt, seat).expect(rt, "a note");
    notes.lock(rt).push(note).expect(rt, "memory");
}

/// Commits the clocks 1 to 20 and publishes each, and hands the notes over.
fn publish_clocks<R: Abort + Wait>(rt: &R, desk: &Desk, seat: &mut Seat, notes: &Mutex<Vec<Note>>) {
    for clock in 1..21 {
        commit_clock(rt, desk, seat, clock).expect(rt, "an entry");
        hand_over(rt, desk, seat, notes);
    }
}

/// The last note that was handed over, if one is there.
fn last_note<R: Wait>(rt: &R, notes: &Mutex<Vec<Note>>) -> Option<Note> {
    notes.lock(rt).pop()
}

/// Learns a note, where one is there.
fn learn_last<R: Abort + Wait>(rt: &R, watcher: &mut Watcher, notes: &Mutex<Vec<Note>>) {
    if let Some(note) = last_note(rt, notes) {
        watcher.learn(&note).expect(rt, "learnt");
    }
}

/// The front of an edition, where that isn't below the last and the last entry sets the clock to its number.
fn front_after(watcher: &mut Watcher, last: u64) -> Option<u64> {
    match watcher.edition() {
        Ok(edition) => risen_front(&edition, last),
        Err(_) => None,
    }
}

fn risen_front(edition: &Edition, last: u64) -> Option<u64> {
    if edition.front() < last || !ends_with_its_number(edition) {
        return None;
    }
    Some(edition.front())
}

/// Whether the fronts of 1,000 editions never fall, and each edition's last entry sets the clock to its number.
fn rises<R: Abort + Wait>(rt: &R, watcher: &mut Watcher, notes: &Mutex<Vec<Note>>) -> bool {
    let mut last = 0;
    for _ in 0..1000 {
        learn_last(rt, watcher, notes);
        match front_after(watcher, last) {
            Some(front) => last = front,
            None => return false,
        }
    }
    true
}

/// Whether the last entry sets the clock to its number.
fn ends_with_its_number(edition: &Edition) -> bool {
    match edition.entry(edition.front()) {
        Some(entry) => match &entry.edit {
            Edit::Advance { clock } => clock.milliseconds() == edition.front(),
            _ => false,
        },
        None => edition.front() == 0,
    }
}

/// Whether two threads met, and what one reads rises while the other publishes.
fn rises_beside<R: Abort + Wait + Threads + Sync>(
    rt: &R,
    desk: &Desk,
    seat: &mut Seat,
    watcher: &mut Watcher,
    notes: &Mutex<Vec<Note>>,
) -> bool {
    let (left, right) = (AtomicBool::new(false), AtomicBool::new(false));
    let (met, rose) = thread::join_mut(
        rt,
        &mut || {
            let met = meet(&left, &right);
            publish_clocks(rt, desk, seat, notes);
            met
        },
        &mut || meet(&right, &left) && rises(rt, watcher, notes),
    );
    met && rose
}

/// The same, and the front once both are done.
fn publish_and_read<R: Abort + Wait + Threads + Sync>(
    rt: &R,
    alloc: Global,
    desk: &Desk,
) -> (bool, Option<u64>) {
    let mut seat = seat_of(rt, desk);
    let mut watcher = watcher_of(rt, desk);
    let notes = Mutex::new(Vec::new(alloc));
    let rose = rises_beside(rt, desk, &mut seat, &mut watcher, &notes);
    (rose, front_of(&mut watcher))
}

#[test]
fn one_thread_publishes_and_another_learns_and_reads(rt: HostRuntime) {
    let desk = new_desk(&rt, 100).expect(&rt, "a desk");
    let seen = publish_and_read(&rt, rt.alloc(), &desk);
    end_desk(&rt, desk);
    assert!(rt; seen == (true, Some(20)));
}
