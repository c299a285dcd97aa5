//! Plans as real ones are, whose routes are known by hand, and refused memory.
mod many;
mod nested;
mod numbers;
mod plans;

use crate::tests::route::nested::NESTED;
use crate::tests::route::plans::PLANS;
use smq_kit::{Digits, Moment, Network, Refusal, RouteId};
use smq_route::{Routes, Version, VersionKey};
use std::alloc::Global;
use std::process::Abort;

/// A version: its prefix, its beginning, its end, its route and its network.
type Row<'a> = (&'a [u8], u64, Option<u64>, u32, &'a [u8]);

/// What an edit comes to.
pub enum Reply {
    /// It is made, and these are the versions then, in order.
    Made(&'static [Row<'static>]),
    Overlap(u64),
    NoRoute,
    Ended(u64),
    BadEnd,
}

pub enum Edit {
    /// A prefix from a moment on has a route and a network.
    Add(&'static [u8], u64, u32, &'static [u8]),
    /// The version of a prefix and beginning ends at a moment.
    End(&'static [u8], u64, u64),
    /// The version of a prefix and beginning has another route and network.
    Correct(&'static [u8], u64, u32, &'static [u8]),
}

pub enum Step {
    Edit(Edit, Reply),
    /// A number at a moment has a route and a network, or none.
    At(&'static [u8], u64, Option<(u32, &'static [u8])>),
}

pub struct Plan {
    fact: &'static str,
    steps: &'static [Step],
}

/// The last moment, and the first of the year 2100.
pub const LAST: u64 = 4_102_444_800_000;

pub fn moment(rt: &impl Abort, milliseconds: u64) -> Moment {
    Moment::new(milliseconds).expect(rt, "a moment")
}

pub fn digits(rt: &impl Abort, text: &[u8]) -> Digits {
    Digits::parse(text).expect(rt, "digits")
}

pub fn network(rt: &impl Abort, code: &[u8]) -> Network {
    Network::parse(code).expect(rt, "a network")
}

impl Reply {
    fn is(&self, answer: &Result<(), Refusal>) -> bool {
        match (self, answer) {
            (Reply::Made(_), Ok(())) => true,
            (Reply::Overlap(wanted), Err(Refusal::Overlap { from })) => {
                from.milliseconds() == *wanted
            }
            (Reply::NoRoute, Err(Refusal::NoRoute)) => true,
            (Reply::Ended(wanted), Err(Refusal::Ended { until })) => {
                until.milliseconds() == *wanted
            }
            (Reply::BadEnd, Err(Refusal::BadEnd)) => true,
            _ => false,
        }
    }
}

impl Edit {
    fn apply(&self, rt: &impl Abort, routes: &mut Routes) -> Result<(), Refusal> {
        match self {
            Edit::Add(prefix, from, route, code) => {
                let (from, route) = (moment(rt, *from), RouteId(*route));
                routes.add(digits(rt, prefix), from, route, network(rt, code))
            }
            Edit::End(prefix, from, until) => {
                routes.end(&digits(rt, prefix), moment(rt, *from), moment(rt, *until))
            }
            Edit::Correct(prefix, from, route, code) => {
                let (from, route) = (moment(rt, *from), RouteId(*route));
                routes.correct(&digits(rt, prefix), from, route, network(rt, code))
            }
        }
    }
}

pub fn is_version(key: &VersionKey, version: &Version, wanted: Row<'_>) -> bool {
    let (prefix, from, until, route, code) = wanted;
    key.prefix.as_slice() == prefix
        && key.from.milliseconds() == from
        && version.until.map(|until| until.milliseconds()) == until
        && version.route == RouteId(route)
        && version.network.as_slice() == code
}

/// Whether the versions are these, in order.
fn has_versions(routes: &Routes, rows: &[Row<'_>]) -> bool {
    let mut left = rows.iter();
    for (key, version) in routes.versions() {
        match left.next() {
            Some(row) if is_version(key, version, *row) => {}
            _ => return false,
        }
    }
    left.next().is_none()
}

fn is_route(found: &Option<(RouteId, Network)>, wanted: Option<(u32, &[u8])>) -> bool {
    match (found, wanted) {
        (None, None) => true,
        (Some((route, network)), Some((number, code))) => {
            *route == RouteId(number) && network.as_slice() == code
        }
        _ => false,
    }
}

/// Asserts that a number has this route and network at a moment, or none.
pub fn assert_route(
    rt: &impl Abort,
    routes: &Routes,
    number: &[u8],
    at: u64,
    wanted: Option<(u32, &[u8])>,
) {
    let number = digits(rt, number);
    let found = routes.at(&number, moment(rt, at));
    assert!(rt; is_route(&found, wanted), "{number:?} at {at}");
}

/// Whether the versions are those of the last edit that was made, of so many steps of a plan.
fn has_versions_after(routes: &Routes, plan: &Plan, count: usize) -> bool {
    for step in plan.steps.iter().take(count).rev() {
        if let Step::Edit(_, Reply::Made(rows)) = step {
            return has_versions(routes, rows);
        }
    }
    has_versions(routes, &[])
}

/// Makes the edit of a step, again where memory was refused, which left the versions as they were.
fn apply(
    rt: &impl Abort,
    routes: &mut Routes,
    plan: &Plan,
    count: usize,
    edit: &Edit,
) -> Result<(), Refusal> {
    let answer = edit.apply(rt, routes);
    if answer == Err(Refusal::Memory) {
        assert!(rt; has_versions_after(routes, plan, count), "{}", plan.fact);
        return edit.apply(rt, routes);
    }
    answer
}

/// Makes the edit that comes after so many steps, which has this reply.
fn make(
    rt: &impl Abort,
    routes: &mut Routes,
    plan: &Plan,
    count: usize,
    edit: &Edit,
    reply: &Reply,
) {
    let answer = apply(rt, routes, plan, count, edit);
    let after = count.saturating_add(1);
    assert!(rt;
        reply.is(&answer) && has_versions_after(routes, plan, after),
        "{}",
        plan.fact
    );
}

/// Whether the versions are those after so many steps once what came since is undone.
fn is_undone(routes: &mut Routes, plan: &Plan, count: usize) -> bool {
    routes.undo();
    has_versions_after(routes, plan, count)
}

/// Makes the edit that comes after so many steps, undoes it, and makes it again.
fn make_twice(
    rt: &impl Abort,
    routes: &mut Routes,
    plan: &Plan,
    count: usize,
    edit: &Edit,
    reply: &Reply,
) {
    routes.settle();
    make(rt, routes, plan, count, edit, reply);
    assert!(rt; is_undone(routes, plan, count), "{}", plan.fact);
    make(rt, routes, plan, count, edit, reply);
}

/// Plays the step that comes after so many.
fn play(rt: &impl Abort, routes: &mut Routes, plan: &Plan, count: usize, step: &Step) {
    match step {
        Step::Edit(edit, reply) => make_twice(rt, routes, plan, count, edit, reply),
        Step::At(number, at, route) => assert_route(rt, routes, number, *at, *route),
    }
}

/// Plays the steps of a plan.
fn play_steps(rt: &impl Abort, routes: &mut Routes, plan: &Plan) {
    for (count, step) in plan.steps.iter().enumerate() {
        play(rt, routes, plan, count, step);
    }
}

fn play_all(rt: &impl Abort, alloc: Global, plan: &Plan) {
    let mut routes = Routes::new(alloc);
    play_steps(rt, &mut routes, plan);
}

/// Whichever allocation is refused (gate/check-out-of-memory-in-calls), an edit leaves the versions as they were, and
/// is made when it is tried again; all other calls give these answers all the same.
#[test]
fn plans_are_edited_and_route_as_known(rt: HostRuntime) {
    for plan in &PLANS {
        play_all(&rt, rt.alloc(), plan);
    }
    play_all(&rt, rt.alloc(), &NESTED);
}
