//! Numbers at places as a shelf keeps them: each number packed into one, which nearly always tells the order.
ghost use Rattle.std.specs.Prelude.{◌≡◌, ◌≤◌, ◌+◌, ◌^◌, refl};
ghost use Rattle.std.specs.Cmp.{eq_by_cmp_equiv, partial_equiv_from_equiv, partial_order_from_total};
ghost use Rattle.std.specs.Ordering.{as_partial_cmp, eq_by_cmp};
ghost use Rattle.smq_kit.specs.Orders.{least_place};
ghost use Rattle.smq_route.specs.Numbers.{number_at, number_cmp};
ghost use Rattle.smq_route.specs.Versions.{begins};
ghost use Rattle.smq_route.specs.within.NumberCodes.{IsCode, number_of, span_of};
ghost use Rattle.smq_route.specs.within.NumberKeys.{numbers_exact, numbers_total};

use smq_kit::{Digits, LEAST_PLACE, Place};
use smq_shelf::{ShelfKey, Stretch};
use std::cmp::Ordering;
use std::marker::Model;

/// 11^15, which is above each code.
const PAST_CODES: u64 = 4_177_248_169_415_651;

/// A number and the place of a message to it. Of the number its code is kept: to base 11 in 15 positions, the first digit
/// first, each as one more than its value, and 0 past the end. A contract sees the number and the place.
#[derive(Drop)]
pub(crate) struct NumberKey {
    code: u64,
    pub(crate) place: Place,
}

impl Model for NumberKey {
    ghost use Rattle.smq_route.specs.declared.numbers.NumberAt.{NumberAt};
    ghost use Rattle.smq_route.specs.within.NumberCodes.{IsCode, number_of};

    ghost Value = { NumberAt };

    ghost view = { λ k. record { number = number_of k.code; place = k.place } };

    ghost invariant = { λ k. IsCode k.code };
}

impl NumberKey {
    /// A number at a place.
    pub(crate) fn new(number: &Digits, place: Place) -> NumberKey
        ensures { result ≡ number_at number.now place }
    {
        let (code, _) = pack(number);
        NumberKey { code, place }
    }
}

impl PartialEq for NumberKey {
    ghost eq = { eq_by_cmp number_cmp };

    ghost laws = { partial_equiv_from_equiv (eq_by_cmp_equiv numbers_total) };

    fn eq(&self, other: &NumberKey) -> bool {
        self.cmp(other).is_eq()
    }
}

impl Eq for NumberKey {
    ghost laws = { eq_by_cmp_equiv numbers_total };
}

impl PartialOrd for NumberKey {
    ghost partial_cmp = { as_partial_cmp number_cmp };

    ghost laws = { partial_order_from_total numbers_total };

    fn partial_cmp(&self, other: &NumberKey) -> Option<Ordering> {
        Some(self.cmp(other))
    }
}

impl Ord for NumberKey {
    ghost cmp = { number_cmp };

    ghost total = { numbers_total };

    ghost matches_partial_cmp = { λ _ _. refl };

    ghost matches_eq = { λ _ _. refl };

    fn cmp(&self, other: &NumberKey) -> Ordering {
        if self.code == other.code {
            return self.place.cmp(&other.place);
        }
        self.code.cmp(&other.code)
    }
}

impl ShelfKey for NumberKey {
    ghost exact = { numbers_exact };

    fn copy(&self) -> NumberKey {
        NumberKey {
            code: self.code,
            place: self.place,
        }
    }
}

/// A prefix, kept as the codes of the numbers that begin with it: from its own up to `past`, which is of none of them. A
/// contract sees the prefix.
#[derive(Drop)]
pub(crate) struct Prefix {
    first: u64,
    past: u64,
}

impl Model for Prefix {
    ghost use Rattle.std.specs.Prelude.{◌≡◌, ◌+◌, ℕ, List};
    ghost use Rattle.smq_route.specs.within.NumberCodes.{IsCode, number_of, span_of};

    ghost Value = { List ℕ };

    ghost view = { λ p. number_of p.first };

    ghost invariant = { λ p. IsCode p.first × (p.past ≡ p.first + span_of (number_of p.first)) };
}

impl Prefix {
    /// A prefix of these digits.
    pub(crate) fn of(digits: &Digits) -> Prefix
        ensures { result ≡ digits.now }
    {
        let (first, span) = pack(digits);
        Prefix {
            first,
            past: first + span,
        }
    }

    /// The least key of a number that begins with it.
    pub(crate) fn least_key(&self) -> NumberKey
        ensures { result ≡ number_at self.now least_place }
    {
        NumberKey {
            code: self.first,
            place: LEAST_PLACE,
        }
    }

    /// Whether it begins the number of a key.
    pub(crate) fn begins(&self, key: &NumberKey) -> bool
        ensures { result ≡ begins key.now.number self.now }
    {
        (self.first <= key.code) & (key.code < self.past)
    }
}

/// The numbers that begin with it, at all places.
impl Stretch<NumberKey> for Prefix {
    ghost has = { λ prefix key. begins key.number prefix };

    fn has(&self, key: &NumberKey) -> bool {
        self.begins(key)
    }
}

// The code of digits, and how many codes the numbers have that begin with them.
fn pack(digits: &Digits) -> (u64, u64)
    ensures code { IsCode result.0 }
    ensures number { number_of result.0 ≡ digits.now }
    ensures span { result.1 ≡ span_of digits.now }
    ensures fits { result.0 + result.1 ≤ 11 ^ 15 }
{
    let mut code = 0;
    let mut span = PAST_CODES;
    for octet in digits.as_slice() {
        span /= 11;
        code += u64::from(*octet - 47) * span;
    }
    (code, span)
}
