//! Tables of known facts and notes.
use crate::tests::tallies::known::{At, By, CASES, Case, EQUAL, Known, Row, STAGES, Step};
use smq_kit::{LinkId, Network, Place, RouteId, SessionId};
use smq_tally::{Band, Fact, List, Outcome, SubmitError, Tables, Tally, Value, View};
use std::alloc::{AllocError, Global};
use std::process::Abort;

pub fn place_of(at: At) -> Place {
    let (session, dir, offset) = at;
    Place {
        session: SessionId(session),
        dir,
        offset,
    }
}

fn plain(at: At, outcome: Outcome) -> Fact {
    Fact {
        place: place_of(at),
        link: LinkId(7),
        route: None,
        outcome,
        error: None,
        link_delay: None,
        centre_delay: None,
    }
}

pub fn network(rt: &impl Abort, code: &str) -> Network {
    Network::parse(code.as_bytes()).expect(rt, "a network")
}

pub fn route(rt: &impl Abort, route: Option<(u32, &str)>) -> Option<(RouteId, Network)> {
    match route {
        Some((number, code)) => Some((RouteId(number), network(rt, code))),
        None => None,
    }
}

fn refused(status: Option<u32>) -> Option<SubmitError> {
    match status {
        Some(status) => Some(SubmitError::Refused { status }),
        None => None,
    }
}

impl Known {
    fn fact(&self, rt: &impl Abort) -> Fact {
        Fact {
            place: place_of(self.at),
            link: LinkId(self.link),
            route: route(rt, self.route),
            outcome: self.outcome,
            error: refused(self.status),
            link_delay: self.delays.0,
            centre_delay: self.delays.1,
        }
    }
}

impl By {
    fn value(&self, rt: &impl Abort) -> Value {
        match self {
            By::Link(link) => Value::Link(LinkId(*link)),
            By::Route(route) => Value::Route(RouteId(*route)),
            By::NoRoute => Value::NoRoute,
            By::Network(code) => Value::Network(network(rt, code)),
            By::NoNetwork => Value::NoNetwork,
            By::Status(status) => Value::Error(SubmitError::Refused { status: *status }),
            By::Band(band) => Value::Band(*band),
        }
    }
}

/// Adds a fact of a new place.
pub fn add(rt: &impl Abort, tally: &mut Tally, fact: Fact) -> Result<(), AllocError> {
    assert!(rt; !tally.has_fact(fact.place));
    tally.add(fact)
}

/// Takes the fact of a place out, which is there.
fn take_out(rt: &impl Abort, tally: &mut Tally, place: Place) -> Result<(), AllocError> {
    assert!(rt; tally.has_fact(place));
    tally.remove(place)
}

/// Takes a note out, which is there.
fn forget(rt: &impl Abort, tally: &mut Tally, list: List, place: Place) -> Result<(), AllocError> {
    assert!(rt; tally.is_noted(list, place));
    tally.forget(list, place)
}

fn take_step(rt: &impl Abort, tally: &mut Tally, step: &Step) -> Result<(), AllocError> {
    match step {
        Step::Plain(at, outcome) => add(rt, tally, plain(*at, *outcome)),
        Step::Fact(known) => add(rt, tally, known.fact(rt)),
        Step::Note(list, at) => tally.note(*list, place_of(*at)),
        Step::Remove(at) => take_out(rt, tally, place_of(*at)),
        Step::Forget(list, at) => forget(rt, tally, *list, place_of(*at)),
        Step::Undo => Ok(tally.undo()),
        Step::Settle => Ok(tally.settle()),
    }
}

fn take_steps(rt: &impl Abort, tally: &mut Tally, steps: &[Step]) {
    for step in steps {
        take_step(rt, tally, step).expect(rt, "memory");
    }
}

/// A new tally, on the heap as a book is (`boxed_book`).
pub(crate) fn boxed_tally(alloc: Global) -> Option<Box<Tally>> {
    Box::new(alloc, Tally::new(alloc)).ok()
}

fn tally_of(rt: &impl Abort, alloc: Global, steps: &[Step]) -> Box<Tally> {
    let mut tally = boxed_tally(alloc).expect(rt, "a tally");
    take_steps(rt, &mut tally, steps);
    tally
}

/// Whether a view has these rows, in order, and these counts.
fn has_rows(rt: &impl Abort, tables: &Tables, view: View, wanted: &[Row]) -> bool {
    let mut place = 0usize;
    for (value, outcome, count) in tables.rows(view) {
        if !is_row(rt, wanted.get(place), value, outcome, count) {
            return false;
        }
        place = place.saturating_add(1);
    }
    place == wanted.len() && has_counts(rt, tables, view, wanted)
}

fn is_row(
    rt: &impl Abort,
    wanted: Option<&Row>,
    value: &Value,
    outcome: Outcome,
    count: u64,
) -> bool {
    match wanted {
        Some(wanted) => {
            outcome == wanted.1 && count == wanted.2 && is_value(rt, value, &wanted.0)
        }
        None => false,
    }
}

fn is_value(rt: &impl Abort, value: &Value, wanted: &By) -> bool {
    let wanted = wanted.value(rt);
    *value == wanted
}

fn has_counts(rt: &impl Abort, tables: &Tables, view: View, wanted: &[Row]) -> bool {
    for (by, outcome, count) in wanted {
        if count_of(rt, tables, view, by, *outcome) != *count {
            return false;
        }
    }
    true
}

fn count_of(rt: &impl Abort, tables: &Tables, view: View, by: &By, outcome: Outcome) -> u64 {
    let value = by.value(rt);
    tables.count(view, &value, outcome)
}

/// Whether a list has these places, in order.
fn has_places(tables: &Tables, list: List, wanted: &[At]) -> bool {
    let mut number = 0usize;
    for place in tables.list(list) {
        if !is_at(place, wanted.get(number)) {
            return false;
        }
        number = number.saturating_add(1);
    }
    number == wanted.len()
}

fn is_at(place: Place, wanted: Option<&At>) -> bool {
    match wanted {
        Some(at) => place == place_of(*at),
        None => false,
    }
}

fn assert_views(rt: &impl Abort, tables: &Tables, case: &Case) {
    let what = case.what;
    for (view, rows) in case.rows {
        assert!(rt; has_rows(rt, tables, *view, rows), "{what}");
    }
}

fn assert_lists(rt: &impl Abort, tables: &Tables, case: &Case) {
    let what = case.what;
    for (list, places) in case.lists {
        assert!(rt; has_places(tables, *list, places), "{what}");
    }
}

fn assert_case(rt: &impl Abort, alloc: Global, case: &Case) {
    let tally = tally_of(rt, alloc, case.steps);
    assert_views(rt, tally.tables(), case);
    assert_lists(rt, tally.tables(), case);
}

/// Whether these are the tables that steps leave.
fn has_tables(rt: &impl Abort, alloc: Global, steps: &[Step], tables: &Tables) -> bool {
    let tally = tally_of(rt, alloc, steps);
    *tables == *tally.tables()
}

fn are_equal(rt: &impl Abort, alloc: Global, steps: &[Step], others: &[Step]) -> bool {
    let tally = tally_of(rt, alloc, steps);
    has_tables(rt, alloc, others, tally.tables())
}

fn assert_names(rt: &impl Abort) {
    assert!(rt; View::CentreDelay.name() == "centre-delay");
    assert!(rt; List::ExtraReceipts.name() == "extra-receipts");
    assert!(rt; Outcome::NoId.name() == "noid");
    assert!(rt; Band::Under30Seconds.name() == "under-30s");
}

fn assert_equal(rt: &impl Abort, alloc: Global) {
    for (what, steps, others, wanted) in EQUAL {
        assert!(rt; are_equal(rt, alloc, steps, others) == *wanted, "{what}");
    }
}

#[test]
fn tables_are_of_facts_and_notes(rt: HostRuntime) {
    for case in CASES {
        assert_case(&rt, rt.alloc(), case);
    }
    assert_equal(&rt, rt.alloc());
    assert_names(&rt);
}

/// Asserts what a tally shows after each stage.
fn assert_stages(rt: &impl Abort, tally: &mut Tally) {
    for (what, steps, errors, open) in STAGES {
        take_steps(rt, tally, steps);
        assert!(rt; has_rows(rt, tally.tables(), View::Error, errors), "{what}");
        assert!(rt; has_places(tally.tables(), List::Open, open), "{what}");
    }
}

#[test]
fn what_goes_comes_back_until_it_is_settled(rt: HostRuntime) {
    let mut tally = boxed_tally(rt.alloc()).expect(&rt, "a tally");
    assert_stages(&rt, &mut tally);
}
