//! Many versions of many prefixes.
use crate::tests::route::{assert_route, digits, is_version, moment, network};
use smq_kit::{Refusal, RouteId};
use smq_route::{Routes, Version, VersionKey};
use std::process::Abort;

const DIGITS: [u8; 10] = *b"0123456789";

/// The subscriber's number of a version, whose first five digits are its prefix. A prefix has five versions in turn, which
/// are numbered in the order of all.
fn subscriber(number: u32) -> [u8; 6] {
    let prefix = (number / 5) as usize;
    [
        b'7',
        DIGITS[prefix / 1000 % 10],
        DIGITS[prefix / 100 % 10],
        DIGITS[prefix / 10 % 10],
        DIGITS[prefix % 10],
        b'5',
    ]
}

/// Where a version begins: a second after the one before of its prefix.
fn beginning_of(number: u32) -> u64 {
    u64::from(number % 5) * 1000
}

/// Where a version ends: where the next of its prefix begins, and the last is open.
fn end_of(number: u32) -> Option<u64> {
    if number % 5 < 4 {
        return Some(beginning_of(number).saturating_add(1000));
    }
    None
}

/// Whether the versions are the first so many of those that are added, which come in order.
fn has_first(routes: &Routes, count: u32) -> bool {
    let mut number = 0u32;
    for (key, version) in routes.versions() {
        if !is_numbered(key, version, number) {
            return false;
        }
        number = number.saturating_add(1);
    }
    number == count
}

fn is_numbered(key: &VersionKey, version: &Version, number: u32) -> bool {
    let prefix = &subscriber(number)[..5];
    let (from, until) = (beginning_of(number), end_of(number));
    is_version(key, version, (prefix, from, until, number, b"25001"))
}

fn add(rt: &impl Abort, routes: &mut Routes, number: u32) -> Result<(), Refusal> {
    let prefix = digits(rt, &subscriber(number)[..5]);
    let from = moment(rt, beginning_of(number));
    routes.add(prefix, from, RouteId(number), network(rt, b"25001"))
}

/// Ends a version where it isn't the last of its prefix.
fn end(rt: &impl Abort, routes: &mut Routes, number: u32) -> Result<(), Refusal> {
    match end_of(number) {
        None => Ok(()),
        Some(until) => {
            let prefix = digits(rt, &subscriber(number)[..5]);
            let from = moment(rt, beginning_of(number));
            routes.end(&prefix, from, moment(rt, until))
        }
    }
}

/// Adds a version, again where memory was refused, and ends it where it isn't the last of its prefix.
fn add_version(rt: &impl Abort, routes: &mut Routes, number: u32) {
    if add(rt, routes, number) == Err(Refusal::Memory) {
        assert!(rt; has_first(routes, number), "the versions before");
        add(rt, routes, number).expect(rt, "a version");
    }
    end(rt, routes, number).expect(rt, "an end");
}

/// Adds the first so many versions.
fn add_versions(rt: &impl Abort, routes: &mut Routes, count: u32) {
    for number in 0..count {
        add_version(rt, routes, number);
    }
}

/// Asserts that the subscriber of each of so many versions has its route where it begins.
fn assert_routes(rt: &impl Abort, routes: &Routes, count: u32) {
    for number in 0..count {
        let (subscriber, at) = (subscriber(number), beginning_of(number));
        let wanted = Some((number, b"25001".as_slice()));
        assert_route(rt, routes, &subscriber, at, wanted);
    }
}

/// Five versions of each of 2,000 prefixes, of which the last is open.
#[test]
fn many_versions_are_added_and_found(rt: HostRuntime) {
    let mut routes = Routes::new(rt.alloc());
    add_versions(&rt, &mut routes, 10_000);
    assert!(rt; has_first(&routes, 10_000), "all versions");
    assert_routes(&rt, &routes, 10_000);
}
