//! A search among dated versions for that of a number at a moment.
ghost use Rattle.std.specs.Prelude.{◌≡◌, ◌≤◌, ◌⊎◌, ℕ, length, take};
ghost use Rattle.smq_route.specs.Versions.{AreApart};
ghost use Rattle.smq_route.specs.within.Kept.{versions_in};
ghost use Rattle.smq_route.specs.within.Searches.{NoneLonger, Tells};

use crate::{Version, VersionKey};
use smq_kit::{Digits, Moment};
use smq_shelf::KeptMap;

/// What a search tells of the versions for a number at a moment.
#[derive(Drop)]
pub(crate) enum Sought<'a> {
    /// The one with the longest prefix.
    Longest(&'a Version),
    /// None of them has a prefix of more digits than this.
    NoLonger(usize),
}

/// Searches for the version of a number at a moment, where none of its versions has a prefix of more than `len` digits.
/// Those of its prefixes stand at or below the first `len` digits, and so at or below the greatest one there, which
/// begins with their prefixes, too.
pub(crate) fn search<'a>(
    versions: &'a KeptMap<VersionKey, Version>,
    number: &Digits,
    len: usize,
    at: Moment,
) -> Sought<'a>
    requires apart { AreApart (versions_in versions.now) }
    requires longest { NoneLonger (versions_in versions.now) number.now at len }
    requires one { 1 ≤ len }
    requires in_range { len ≤ length number.now }
    ensures { Tells (versions_in versions.now) number.now at len result }
{
    let key = VersionKey {
        prefix: first_digits(number, len),
        from: at,
    };
    let Some((found, version)) = versions.entry_up_to(key) else {
        return Sought::NoLonger(0);
    };
    let shared = shared_digits(&found.prefix, number);
    if shared < found.prefix.as_slice().len() || at < found.from {
        return Sought::NoLonger(shared);
    }
    if version.lasts_past(at) {
        Sought::Longest(version)
    } else {
        Sought::NoLonger(shared - 1)
    }
}

/// How many digits two numbers begin with alike.
fn shared_digits(a: &Digits, b: &Digits) -> usize
    ensures first { result ≤ length a.now }
    ensures second { result ≤ length b.now }
    ensures same { take result a.now ≡ take result b.now }
    ensures most { (len : ℕ) → len ≤ length a.now → len ≤ length b.now
        → take len a.now ≡ take len b.now → len ≤ result }
{
    let a = a.as_slice();
    let b = b.as_slice();
    let most = lesser(a.len(), b.len());
    for len in 0..most {
        if a[len] != b[len] {
            return len;
        }
    }
    most
}

/// The first digits of a number.
fn first_digits(number: &Digits, len: usize) -> Digits
    requires one { 1 ≤ len }
    requires in_range { len ≤ length number.now }
    ensures { result ≡ take len number.now }
{
    // What begins digits is digits.
    match Digits::parse(&number.as_slice()[..len]) {
        Ok(prefix) => prefix,
        Err(_) => number.copy(),
    }
}

/// The lesser of two numbers.
pub(crate) fn lesser(a: usize, b: usize) -> usize
    ensures bound { result ≤ a }
    ensures other { result ≤ b }
    ensures one { (result ≡ a) ⊎ (result ≡ b) }
{
    if a < b { a } else { b }
}
