//! The places of the members of a link.
ghost use Rattle.std.specs.Prelude.{◌≡◌, ◌≤◌, ◌+◌, [], filter, length, map, IfOk};
ghost use Rattle.std.specs.List.Sorted.{IsPermutation, IsSorted};
ghost use Rattle.smq_kit.specs.Orders.{kept_place_cmp};
ghost use Rattle.smq_shelf.specs.Walks.{IsWalked};
ghost use Rattle.smq_group.specs.within.Walked.{link_places, member_key, on_link, vacant_keys};

use crate::member::Member;
use crate::walks::members_of;
use smq_kit::{HashedKey, Key, LEAST_PLACE, LinkId, Place};
use smq_shelf::Kept;
use std::alloc::{AllocError, Global};

/// The places of the members of a link, by place. It looks at these members alone, and at one more.
pub(crate) fn places_on<V: Copy + Drop>(
    alloc: Global,
    kept: &mut Kept<Member, V>,
    link: LinkId,
) -> Result<Vec<Place>, AllocError>
    ensures value { IfOk result (λ places.
        IsPermutation (link_places link kept.old.content) places.items) }
    ensures by_place { IfOk result (λ places. IsSorted kept_place_cmp places.items) }
    ensures walked { IsWalked (1 + length (filter (on_link link) kept.old.places))
        kept.old kept.new }
    ensures touches { vacant_keys member_key kept.old.places ≡ [] → IfOk result (λ places.
        kept.new.touches ≤ kept.old.touches + 1 + length places.items) }
{
    let least = Member {
        key: HashedKey::new(link, Key::Number(0)),
        place: LEAST_PLACE,
    };
    let most = kept.place_count() as u64;
    let members = members_of(alloc, kept, &least.key, true, most)?;
    let mut places = places_of(alloc, &members)?;
    places.sort_unstable();
    Ok(places)
}

// The places of members.
fn places_of<V: Copy + Drop>(
    alloc: Global,
    members: &[(Place, V)],
) -> Result<Vec<Place>, AllocError>
    ensures { IfOk result (λ places. places.items ≡ map (λ m. m.0) members.now) }
{
    let mut places = Vec::new(alloc);
    for (place, _) in members {
        places.push(*place)?;
    }
    Ok(places)
}
