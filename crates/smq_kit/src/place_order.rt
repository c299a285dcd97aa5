//! The order of places, by hand: maps compare places at each step, and nearly all are of one session and direction, which
//! `==` tells in fewer steps than a derived `cmp`.
ghost use Rattle.std.specs.Prelude.{refl};
ghost use Rattle.std.specs.Cmp.{partial_order_from_agreeing_total};
ghost use Rattle.std.specs.Ordering.{as_partial_cmp};
ghost use Rattle.smq_kit.specs.PlaceOrder.{parts_cmp, parts_total, parts_ties};

use crate::Place;
use std::cmp::Ordering;

impl PartialOrd for Place {
    ghost partial_cmp = { as_partial_cmp parts_cmp };

    ghost laws = { partial_order_from_agreeing_total parts_cmp parts_total (λ _ _. refl) parts_ties };

    fn partial_cmp(&self, other: &Place) -> Option<Ordering> {
        Some(self.cmp(other))
    }
}

impl Ord for Place {
    ghost cmp = { parts_cmp };

    ghost total = { parts_total };

    ghost matches_partial_cmp = { λ _ _. refl };

    ghost matches_eq = { parts_ties };

    fn cmp(&self, other: &Place) -> Ordering {
        let a = *self;
        let b = *other;
        if a.session.0 == b.session.0 {
            if a.dir as u8 == b.dir as u8 {
                a.offset.cmp(&b.offset)
            } else {
                (a.dir as u8).cmp(&(b.dir as u8))
            }
        } else {
            a.session.0.cmp(&b.session.0)
        }
    }
}
