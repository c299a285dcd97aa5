//! Dated routes of prefixes: which route and network a number had at a moment.
ghost use Rattle.std.specs.Prelude.{◌≡◌, ◌≤◌, ℕ, true, false, Some, None, MatchOption, MatchResult, IsSome, option_map};
ghost use Rattle.std.specs.FinMap as fin;
ghost use Rattle.smq_kit.specs.Numbers.{IsDigits};
ghost use Rattle.smq_kit.specs.Replies.{IsReply, first_of};
ghost use Rattle.smq_route.specs.Versions.{AreApart, lasts_past, version_of, overlap as least_overlap, route_at};
ghost use Rattle.smq_route.specs.within.Kept.{NoneHolds, settled_in, versions_in};
ghost use Rattle.smq_route.specs.Routes.{empty};
ghost use Rattle.smq_route.specs.Edits.{add_refusals, end_refusals, correct_refusals, added, changed, ending, corrected};

use crate::prefix_search::{Sought, lesser, search};
use crate::{Version, VersionKey};
use smq_kit::{Digits, Moment, Network, Refusal, RouteId};
use smq_shelf::{Entries, KeptMap};
use std::alloc::Global;
use std::marker::Model;

/// Dated routes of prefixes of E.164 numbers. A contract sees the set of versions, each by its prefix and beginning, and
/// those that were settled last. Versions of one prefix never overlap.
#[derive(Drop)]
pub struct Routes {
    versions: KeptMap<VersionKey, Version>,
    /// No prefix has more digits, so no number is looked up by more. A version that was refused or undone may have raised
    /// it, which costs searches and changes no answer.
    most_digits: usize,
}

impl Model for Routes {
    ghost use Rattle.smq_route.specs.Routes.{RoutesValue, routes_code};
    ghost use Rattle.smq_route.specs.Versions.{AreApart};
    ghost use Rattle.smq_route.specs.within.Kept.{AreWithin, settled_in, versions_in};

    ghost Value = { RoutesValue };

    ghost coded = { routes_code };

    ghost view = { λ r. record {
      versions = versions_in r.versions;
      settled = settled_in r.versions;
    } };

    ghost invariant = { λ r. AreApart (versions_in r.versions) × AreWithin r.most_digits (versions_in r.versions)
        × AreApart (settled_in r.versions) × AreWithin r.most_digits (settled_in r.versions) };
}

impl Routes {
    /// No versions.
    pub fn new(alloc: Global) -> Routes
        ensures { result ≡ empty }
    {
        Routes {
            versions: KeptMap::new(alloc),
            most_digits: 0,
        }
    }

    /// The versions in order: by the octets of their prefixes, then by their beginnings. It takes no memory.
    pub fn versions(&self) -> Entries<'_, VersionKey, Version>
        ensures entries { result ≡ fin.entries self.now.versions }
        ensures apart { AreApart self.now.versions }
    {
        self.versions.iter()
    }

    /// Adds a version of a prefix, from a moment on and open. It is refused as `Overlap` where a version of the prefix is
    /// open or ends after that moment, and the least beginning of those is told; `Memory` comes last. A refusal changes
    /// nothing.
    pub fn add(
        &mut self,
        prefix: Digits,
        from: Moment,
        route: RouteId,
        network: Network,
    ) -> Result<(), Refusal>
        ensures reply { IsReply (first_of (add_refusals self.old.versions prefix from)) result
            (self.new.versions ≡ added self.old.versions prefix from route network)
            (self.new ≡ self.old) }
        ensures settled { self.new.settled ≡ self.old.settled }
    {
        self.most_digits = greater(self.most_digits, prefix.as_slice().len());
        add_in(&mut self.versions, prefix, from, route, network)
    }

    /// Ends the open version of a prefix that begins at a moment: it holds up to `until`, and no longer. It is refused
    /// as `NoRoute` where there is no such version, then as `Ended` where it has an end, which is told, then as `BadEnd`
    /// where `until` isn't after the beginning; `Memory` comes last. A refusal changes nothing.
    pub fn end(&mut self, prefix: &Digits, from: Moment, until: Moment) -> Result<(), Refusal>
        ensures reply { let version = version_of self.old.versions prefix.now from in
            IsReply (first_of (end_refusals version from until)) result
            (self.new.versions ≡ changed self.old.versions prefix.now from (ending until))
            (self.new ≡ self.old) }
        ensures settled { self.new.settled ≡ self.old.settled }
    {
        end_in(&mut self.versions, prefix, from, until)
    }

    /// Gives the version of a prefix that begins at a moment, open or ended, another route and network. It is refused as
    /// `NoRoute` where there is no such version; `Memory` comes last. A refusal changes nothing.
    pub fn correct(
        &mut self,
        prefix: &Digits,
        from: Moment,
        route: RouteId,
        network: Network,
    ) -> Result<(), Refusal>
        ensures reply { let version = version_of self.old.versions prefix.now from in
            IsReply (first_of (correct_refusals version)) result
            (self.new.versions ≡ changed self.old.versions prefix.now from (corrected route network))
            (self.new ≡ self.old) }
        ensures settled { self.new.settled ≡ self.old.settled }
    {
        correct_in(&mut self.versions, prefix, from, route, network)
    }

    /// Brings back the versions of the last `settle`, or of `new`. It takes no memory.
    pub fn undo(&mut self)
        ensures versions { self.new.versions ≡ self.old.settled }
        ensures settled { self.new.settled ≡ self.old.settled }
    {
        self.versions.undo();
    }

    /// Makes the versions those that `undo` brings back. It takes no memory.
    pub fn settle(&mut self)
        ensures versions { self.new.versions ≡ self.old.versions }
        ensures settled { self.new.settled ≡ self.old.versions }
    {
        self.versions.settle();
    }

    /// The route and network of a number at a moment: those of the version which holds then and has the longest prefix
    /// that begins the number. It takes at most one ordered search for each digit that the longest prefix has, 15 at
    /// most, mostly one or two in all, and no memory.
    pub fn at(&self, number: &Digits, at: Moment) -> Option<(RouteId, Network)>
        ensures { result ≡ route_at self.now.versions number.now at }
    {
        let mut len = lesser(number.as_slice().len(), self.most_digits);
        while len > 0 {
            match search(&self.versions, number, len, at) {
                Sought::Longest(version) => return Some((version.route, version.network.copy())),
                Sought::NoLonger(fewer) => len = fewer,
            }
        }
        None
    }
}

/// The greater of two numbers.
fn greater(a: usize, b: usize) -> usize
    ensures first { a ≤ result }
    ensures second { b ≤ result }
{
    if a < b { b } else { a }
}

/// The last version of a prefix that begins at or before a moment, with its beginning.
fn last_up_to<'a>(
    versions: &'a KeptMap<VersionKey, Version>,
    prefix: &Digits,
    at: Moment,
) -> Option<(Moment, &'a Version)>
    ensures { MatchOption result
        ((from : ℕ) → from ≤ at → version_of (versions_in versions.now) prefix.now from ≡ None)
        (λ r. (r.0 ≤ at) × (version_of (versions_in versions.now) prefix.now r.0 ≡ Some r.1.now)
        × ((from : ℕ) → from ≤ at → IsSome (version_of (versions_in versions.now) prefix.now from) → from ≤ r.0)) }
{
    let key = VersionKey {
        prefix: prefix.copy(),
        from: at,
    };
    match versions.entry_up_to(key) {
        Some((found, version)) => {
            if found.prefix == *prefix {
                Some((found.from, version))
            } else {
                None
            }
        }
        None => None,
    }
}

/// The beginning of the first version of a prefix that begins at or after a moment.
fn first_from(
    versions: &KeptMap<VersionKey, Version>,
    prefix: &Digits,
    at: Moment,
) -> Option<Moment>
    ensures { MatchOption result
        ((from : ℕ) → at ≤ from → version_of (versions_in versions.now) prefix.now from ≡ None)
        (λ r. (at ≤ r) × IsSome (version_of (versions_in versions.now) prefix.now r)
        × ((from : ℕ) → at ≤ from → IsSome (version_of (versions_in versions.now) prefix.now from) → r ≤ from)) }
{
    let key = VersionKey {
        prefix: prefix.copy(),
        from: at,
    };
    match versions.entry_from(key) {
        Some((found, _)) => {
            if found.prefix == *prefix {
                Some(found.from)
            } else {
                None
            }
        }
        None => None,
    }
}

/// The version of a prefix that holds at a moment, with its beginning.
fn holding<'a>(
    versions: &'a KeptMap<VersionKey, Version>,
    prefix: &Digits,
    at: Moment,
) -> Option<(Moment, &'a Version)>
    requires { AreApart (versions_in versions.now) }
    ensures { MatchOption result (NoneHolds (versions_in versions.now) prefix.now at)
        (λ r. (r.0 ≤ at) × (version_of (versions_in versions.now) prefix.now r.0 ≡ Some r.1.now)
        × (lasts_past at r.1.now.until ≡ true)) }
{
    match last_up_to(versions, prefix, at) {
        Some((from, version)) => {
            if version.lasts_past(at) {
                Some((from, version))
            } else {
                None
            }
        }
        None => None,
    }
}

/// The least beginning of the versions of a prefix that are open or end after a moment.
fn overlap(versions: &KeptMap<VersionKey, Version>, prefix: &Digits, from: Moment) -> Option<Moment>
    requires { AreApart (versions_in versions.now) }
    ensures { result ≡ least_overlap (versions_in versions.now) prefix.now from }
{
    match holding(versions, prefix, from) {
        Some((earlier, _)) => Some(earlier),
        None => first_from(versions, prefix, from),
    }
}

/// Puts a version in, in the place of one that is there. An error changes nothing.
fn insert(
    versions: &mut KeptMap<VersionKey, Version>,
    key: VersionKey,
    version: Version,
) -> Result<(), Refusal>
    ensures answer { MatchResult result
        (λ _. versions_in versions.new ≡ fin.insert (versions_in versions.old) key version)
        (λ e. (e ≡ Refusal.Memory) × (versions_in versions.new ≡ versions_in versions.old)) }
    ensures settled { settled_in versions.new ≡ settled_in versions.old }
{
    match versions.set(key, version) {
        Ok(()) => Ok(()),
        Err(_) => Err(Refusal::Memory),
    }
}

/// Puts an open version in, unless it would overlap. A refusal changes nothing.
fn add_in(
    versions: &mut KeptMap<VersionKey, Version>,
    prefix: Digits,
    from: Moment,
    route: RouteId,
    network: Network,
) -> Result<(), Refusal>
    requires { AreApart (versions_in versions.old) }
    ensures digits { IsDigits prefix }
    ensures answer { IsReply (first_of (add_refusals (versions_in versions.old) prefix from)) result
        (versions_in versions.new ≡ added (versions_in versions.old) prefix from route network)
        (versions_in versions.new ≡ versions_in versions.old) }
    ensures settled { settled_in versions.new ≡ settled_in versions.old }
{
    let key = VersionKey {
        prefix: prefix.copy(),
        from,
    };
    if let Some(earlier) = overlap(versions, &prefix, from) {
        return Err(Refusal::Overlap { from: earlier });
    }
    let version = Version {
        until: None,
        route,
        network,
    };
    insert(versions, key, version)
}

/// Ends the version of a prefix and beginning. A refusal changes nothing.
fn end_in(
    versions: &mut KeptMap<VersionKey, Version>,
    prefix: &Digits,
    from: Moment,
    until: Moment,
) -> Result<(), Refusal>
    ensures answer { let version = version_of (versions_in versions.old) prefix.now from in
        IsReply (first_of (end_refusals version from until)) result
        (versions_in versions.new ≡ changed (versions_in versions.old) prefix.now from (ending until))
        (versions_in versions.new ≡ versions_in versions.old) }
    ensures settled { settled_in versions.new ≡ settled_in versions.old }
{
    let key = VersionKey {
        prefix: prefix.copy(),
        from,
    };
    let Some(version) = versions.get(&key) else {
        return Err(Refusal::NoRoute);
    };
    let mut ended = version.copy();
    match ended.end(from, until) {
        Ok(()) => insert(versions, key, ended),
        Err(refusal) => Err(refusal),
    }
}

/// Corrects the version of a prefix and beginning. A refusal changes nothing.
fn correct_in(
    versions: &mut KeptMap<VersionKey, Version>,
    prefix: &Digits,
    from: Moment,
    route: RouteId,
    network: Network,
) -> Result<(), Refusal>
    ensures answer { let version = version_of (versions_in versions.old) prefix.now from in
        IsReply (first_of (correct_refusals version)) result
        (versions_in versions.new ≡ changed (versions_in versions.old) prefix.now from (corrected route network))
        (versions_in versions.new ≡ versions_in versions.old) }
    ensures settled { settled_in versions.new ≡ settled_in versions.old }
{
    let corrected = VersionKey {
        prefix: prefix.copy(),
        from,
    };
    let Some(version) = versions.get(&corrected) else {
        return Err(Refusal::NoRoute);
    };
    let mut version = version.copy();
    version.correct(route, network);
    insert(versions, corrected, version)
}
