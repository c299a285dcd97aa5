//! Many facts, and refused memory.
use crate::tests::tallies::known::CLIENT;
use crate::tests::tallies::tables::{add, boxed_tally, network, place_of};
use smq_kit::{LinkId, RouteId};
use smq_tally::{Band, Fact, List, Outcome, SubmitError, Tables, Tally, View};
use std::alloc::{AllocError, Global};
use std::process::Abort;

/// Outcomes in turn, of which two are listed.
const TURNS: [Outcome; 4] = [
    Outcome::Open,
    Outcome::Delivered,
    Outcome::Lapsed,
    Outcome::Refused,
];

/// One of many facts: each has a route of its own.
fn one_of_many(rt: &impl Abort, number: u32) -> Fact {
    Fact {
        place: place_of((u64::from(number % 5), CLIENT, u64::from(number))),
        link: LinkId(number % 7),
        route: Some((RouteId(number), network(rt, "20801"))),
        outcome: TURNS[number as usize % 4],
        error: Some(SubmitError::Refused { status: number % 3 }),
        link_delay: Some(Band::Over),
        centre_delay: Some(Band::of(i64::from(number) * 1000)),
    }
}

/// Adds one of many facts, or notes its place where it may be open.
fn make(rt: &impl Abort, tally: &mut Tally, number: u32) -> Result<(), AllocError> {
    let fact = one_of_many(rt, number / 2);
    if number % 2 == 0 {
        return tally.note(List::Open, fact.place);
    }
    add(rt, tally, fact)
}

/// Makes the steps below a number. Where one is refused memory it stops and gives its number, or makes it again.
fn make_below(rt: &impl Abort, tally: &mut Tally, end: u32, stops: bool) -> Option<u32> {
    for number in 0..end {
        if make(rt, tally, number).is_err() {
            if stops {
                return Some(number);
            }
            assert!(rt; make(rt, tally, number).is_ok(), "{number}");
        }
    }
    None
}

/// A new tally, which is asked for once more where memory runs out.
fn new_tally(rt: &impl Abort, alloc: Global) -> Box<Tally> {
    boxed_tally(alloc)
        .or_else(|| boxed_tally(alloc))
        .expect(rt, "a tally")
}

/// A tally of the steps below a number.
fn tally_below(rt: &impl Abort, alloc: Global, end: u32) -> Box<Tally> {
    let mut tally = new_tally(rt, alloc);
    make_below(rt, &mut tally, end, false);
    tally
}

/// How many rows a view has.
fn number_of_rows(tables: &Tables, view: View) -> u64 {
    let mut number: u64 = 0;
    for _row in tables.rows(view) {
        number = number.saturating_add(1);
    }
    number
}

/// How many facts the rows of a view count.
fn number_of_facts(tables: &Tables, view: View) -> u64 {
    let mut number: u64 = 0;
    for (_, _, facts) in tables.rows(view) {
        number = number.saturating_add(facts);
    }
    number
}

/// How many places a list has.
fn number_listed(tables: &Tables, list: List) -> u64 {
    let mut number: u64 = 0;
    for _place in tables.list(list) {
        number = number.saturating_add(1);
    }
    number
}

/// Whichever allocation is refused (gate/check-out-of-memory-in-calls), a refused step leaves the tally as it was, and
/// is made when it is tried again.
#[test]
fn want_of_memory_changes_nothing(rt: HostRuntime) {
    let mut tally = new_tally(&rt, rt.alloc());
    let refused = make_below(&rt, &mut tally, 4000, true);
    assert!(rt; is_of_all_below(&rt, rt.alloc(), &tally, refused.unwrap_or(4000)));
    assert_whole(&rt, rt.alloc());
}

/// Whether a tally has the tables of the steps below a number.
fn is_of_all_below(rt: &impl Abort, alloc: Global, tally: &Tally, end: u32) -> bool {
    let others = tally_below(rt, alloc, end);
    *tally.tables() == *others.tables()
}

/// Asserts what a tally of all steps shows.
fn assert_whole(rt: &impl Abort, alloc: Global) {
    let whole = tally_below(rt, alloc, 4000);
    assert_rows(rt, whole.tables());
    assert!(rt; number_listed(whole.tables(), List::Open) == 2000);
    assert!(rt; number_listed(whole.tables(), List::Lapsed) == 500);
}

fn assert_rows(rt: &impl Abort, tables: &Tables) {
    assert!(rt; number_of_rows(tables, View::Link) == 28);
    assert!(rt; number_of_facts(tables, View::Link) == 2000);
    assert!(rt; number_of_rows(tables, View::Route) == 2000);
    assert!(rt; number_of_facts(tables, View::Route) == 2000);
}

/// Whether two tables have as many rows in each view, which count as many facts.
fn have_as_many_rows(tables: &Tables, others: &Tables) -> bool {
    for view in View::all() {
        if number_of_rows(tables, *view) != number_of_rows(others, *view) {
            return false;
        }
        if number_of_facts(tables, *view) != number_of_facts(others, *view) {
            return false;
        }
    }
    true
}

/// Whether two tables have as many places in each list.
fn have_as_many_places(tables: &Tables, others: &Tables) -> bool {
    for list in List::all() {
        if number_listed(tables, *list) != number_listed(others, *list) {
            return false;
        }
    }
    true
}

/// A copy of tables. Where memory runs out it is made once more.
fn copied(rt: &impl Abort, alloc: Global, tables: &Tables) -> Tables {
    tables
        .copy(alloc)
        .or_else(|_| tables.copy(alloc))
        .expect(rt, "a copy")
}

/// Whether a copy of tables is equal, by `==` and by its rows and places.
fn is_copied(rt: &impl Abort, alloc: Global, tables: &Tables) -> bool {
    let copy = copied(rt, alloc, tables);
    copy == *tables && have_as_many_rows(&copy, tables) && have_as_many_places(&copy, tables)
}

/// Whichever allocation is refused (gate/check-out-of-memory-in-calls), a copy of many rows and places, settled or not,
/// shows what its tables show.
#[test]
fn a_copy_shows_what_its_tables_show(rt: HostRuntime) {
    let mut tally = tally_below(&rt, rt.alloc(), 1000);
    assert!(rt;
        is_copied(&rt, rt.alloc(), tally.tables()),
        "nothing is settled"
    );
    tally.settle();
    assert!(rt;
        is_copied(&rt, rt.alloc(), tally.tables()),
        "all is settled"
    );
    assert!(rt; nothing_is_copied(&rt, rt.alloc()), "nothing is there");
}

fn nothing_is_copied(rt: &impl Abort, alloc: Global) -> bool {
    let tally = new_tally(rt, alloc);
    is_copied(rt, alloc, tally.tables())
}
