//! Walks over the members of a key, or of a link, by key, then by place.
ghost use Rattle.std.specs.Prelude.{◌≡◌, true, false, IfOk, OnOk, [], ◌∷◌, ◌++◌, map, filter, find, ◌+◌, ◌≤◌, length};
ghost use Rattle.std.specs.List.Sorted.{IsStrictlySortedBy};
ghost use Rattle.std.specs.Map.{keys_of};
ghost use Rattle.smq_shelf.specs.Places.{content_of};
ghost use Rattle.smq_kit.specs.LinkKeys.{same_key};
ghost use Rattle.smq_kit.specs.Orders.{place_cmp};
ghost use Rattle.smq_kit.specs.declared.message_id.Key.TheVariants.{Number};
ghost use Rattle.smq_shelf.specs.Walks.{IsWalked, stands_after};
ghost use Rattle.smq_group.specs.within.Orders.{kept_member_cmp};
ghost use Rattle.smq_group.specs.within.Walked.{is_like, of_part, placed, vacant_part};

use crate::member::Member;
use smq_kit::{HashedKey, LEAST_PLACE, Place};
use smq_shelf::{Kept, ShelfKey};
use std::alloc::{AllocError, Global};

/// The members of a key, by place, with what is kept of each; or those of its link, by key, then by place, from the link's
/// least key. There are no more than `most`: the walk ends with the last that there can be.
pub(crate) fn members_of<V: Copy + Drop>(
    alloc: Global,
    kept: &mut Kept<Member, V>,
    key: &HashedKey,
    by_link: bool,
    most: u64,
) -> Result<Vec<(Place, V)>, AllocError>
    requires least { by_link ≡ true → key.now.key ≡ Number 0 }
    requires most { length (map placed (filter (of_part by_link key.now) kept.old.content)) ≤ most }
    ensures value { IfOk result (λ members. members.items
        ≡ map placed (filter (of_part by_link key.now) kept.old.content)) }
    ensures by_place { by_link ≡ false → IfOk result (λ members.
        IsStrictlySortedBy place_cmp (keys_of members.items)) }
    ensures walked { IsWalked (1 + length (filter (of_part by_link key.now) kept.old.places))
        kept.old kept.new }
    ensures touches { IfOk result (λ members. kept.new.touches ≤ kept.old.touches + 1
        + vacant_part by_link key.now kept.old.places + length members.items) }
{
    let mut members = Vec::new(alloc);
    if most == 0 {
        return Ok(members);
    }
    let mut next = first_of(kept, key, by_link);
    while let Some((member, value)) = next {
        push_there(&mut members, member.place, value)?;
        if members.len() as u64 == most {
            return Ok(members);
        }
        next = next_of(kept, key, by_link, &member);
    }
    Ok(members)
}

// Puts a member at the end, unless its place is vacant.
fn push_there<V: Copy + Drop>(
    members: &mut Vec<(Place, V)>,
    place: Place,
    value: Option<V>,
) -> Result<(), AllocError>
    ensures { OnOk result (members.new.items
        ≡ members.old.items ++ content_of ((place, value) ∷ [])) }
{
    if let Some(value) = value {
        members.push((place, value))?;
    }
    Ok(())
}

// The first member of a key, or of its link, and what is kept of it unless its place is vacant.
fn first_of<V: Copy + Drop>(
    kept: &mut Kept<Member, V>,
    key: &HashedKey,
    by_link: bool,
) -> Option<(Member, Option<V>)>
    requires { by_link ≡ true → key.now.key ≡ Number 0 }
    ensures value { result ≡ find (of_part by_link key.now) kept.old.places }
    ensures walked { IsWalked 1 kept.old kept.new }
    ensures content { kept.old.content ≡ content_of kept.old.places }
    ensures ordered { IsStrictlySortedBy kept_member_cmp (keys_of kept.old.places) }
{
    let from = Member {
        key: key.copy(),
        place: LEAST_PLACE,
    };
    match kept.first_from(&from) {
        Some((member, value)) => {
            if is_like(key, &member.key, by_link) {
                Some((member.copy(), value.copied()))
            } else {
                None
            }
        }
        None => None,
    }
}

// The next one after a member of the key, or of its link.
fn next_of<V: Copy + Drop>(
    kept: &mut Kept<Member, V>,
    key: &HashedKey,
    by_link: bool,
    after: &Member,
) -> Option<(Member, Option<V>)>
    requires { is_like by_link key.now after.now.key ≡ true }
    ensures value { result
        ≡ find (stands_after kept_member_cmp (of_part by_link key.now) after.now) kept.old.places }
    ensures walked { IsWalked 1 kept.old kept.new }
{
    match kept.first_after(after) {
        Some((next, value)) => {
            if is_like(key, &next.key, by_link) {
                Some((next.copy(), value.copied()))
            } else {
                None
            }
        }
        None => None,
    }
}

// Whether a second key is of the link of a first, or is that key.
fn is_like(key: &HashedKey, other: &HashedKey, by_link: bool) -> bool
    ensures { result ≡ is_like by_link key.now other.now }
{
    if by_link {
        return other.link().0 == key.link().0;
    }
    is_one_key(key, other)
}

// Whether two keys are one, by their order.
pub(crate) fn is_one_key(one: &HashedKey, other: &HashedKey) -> bool
    ensures { result ≡ same_key one.now other.now }
{
    one.cmp(other).is_eq()
}
