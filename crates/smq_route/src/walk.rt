//! A walk over the numbers that begin with a prefix, by number, then by place.
ghost use Rattle.std.specs.Prelude.{◌≡◌, ◌+◌, IfOk, filter, length};
ghost use Rattle.std.specs.List.Sorted.{IsStrictlySortedBy};
ghost use Rattle.std.specs.Map.{keys_of};
ghost use Rattle.smq_shelf.specs.Places.{content_of};
ghost use Rattle.smq_shelf.specs.Walks.{IsWalked};
ghost use Rattle.smq_route.specs.Numbers.{number_cmp};
ghost use Rattle.smq_route.specs.within.NumberWalks.{filled, is_under};

use crate::number_key::{NumberKey, Prefix};
use smq_kit::Place;
use smq_shelf::{Kept, keys_in};
use std::alloc::{AllocError, Global};

/// The places of the numbers that begin with a prefix.
pub(crate) fn gather(
    alloc: Global,
    kept: &mut Kept<NumberKey, ()>,
    prefix: &Prefix,
) -> Result<Vec<Place>, AllocError>
    ensures value { IfOk result (λ places.
        places.items ≡ filled (filter (is_under prefix.now) kept.old.places)) }
    ensures walked { IsWalked (1 + length (filter (is_under prefix.now) kept.old.places))
        kept.old kept.new }
    ensures content { kept.old.content ≡ content_of kept.old.places }
    ensures ordered { IsStrictlySortedBy number_cmp (keys_of kept.old.places) }
{
    let keys = keys_in(alloc, kept, &prefix.least_key(), prefix)?;
    let mut places = Vec::new(alloc);
    for key in keys.as_slice() {
        places.push(key.place)?;
    }
    Ok(places)
}
