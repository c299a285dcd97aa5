//! The receipts of a key that wait behind the one that decides, the earliest first.
ghost use Rattle.std.specs.Prelude.{◌≡◌, ◌+◌, ◌≤◌, true, find};
ghost use Rattle.std.specs.List.Sorted.{IsStrictlySortedBy};
ghost use Rattle.std.specs.Map.{keys_of};
ghost use Rattle.smq_kit.specs.LinkKeys.{same_key};
ghost use Rattle.smq_shelf.specs.Places.{content_of};
ghost use Rattle.smq_shelf.specs.Walks.{Stays, stands_after};
ghost use Rattle.smq_group.specs.within.Orders.{kept_candidate_cmp};
ghost use Rattle.smq_group.specs.within.Walked.{candidate_key, first_candidate_after, of_candidate, vacant_of};

use crate::group_summary::Earliest;
use crate::member::Candidate;
use crate::walks::is_one_key;
use smq_kit::HashedKey;
use smq_shelf::{Kept, ShelfKey};

/// The earliest receipt of a key that waits after this moment and place.
pub(crate) fn next_candidate(
    candidates: &mut Kept<Candidate, bool>,
    key: &HashedKey,
    from: Earliest,
) -> Option<Earliest>
    ensures value { result ≡ first_candidate_after key.now from candidates.old.content }
    ensures read { Stays candidates.old candidates.new }
    ensures ordered { IsStrictlySortedBy kept_candidate_cmp (keys_of candidates.old.content) }
    ensures touches { candidates.new.touches ≤ candidates.old.touches + 1
        + vacant_of candidate_key key.now candidates.old.places }
{
    let after = Candidate {
        key: key.copy(),
        moment: from.moment,
        place: from.place,
    };
    let mut next = place_after(candidates, key, &after);
    while let Some((candidate, value)) = next {
        if value.is_some() {
            return Some(Earliest {
                moment: candidate.moment,
                place: candidate.place,
            });
        }
        next = place_after(candidates, key, &candidate);
    }
    None
}

// The next place of a key's candidates, and what is kept there unless it is vacant.
fn place_after(
    candidates: &mut Kept<Candidate, bool>,
    key: &HashedKey,
    after: &Candidate,
) -> Option<(Candidate, Option<bool>)>
    requires { same_key key.now after.now.key ≡ true }
    ensures value { result
        ≡ find (stands_after kept_candidate_cmp (of_candidate key.now) after.now) candidates.old.places }
    ensures read { Stays candidates.old candidates.new }
    ensures content { candidates.old.content ≡ content_of candidates.old.places }
    ensures ordered { IsStrictlySortedBy kept_candidate_cmp (keys_of candidates.old.places) }
    ensures touches { candidates.new.touches ≤ candidates.old.touches + 1 }
{
    match candidates.first_after(after) {
        Some((next, value)) => {
            if is_one_key(key, &next.key) {
                Some((next.copy(), value.copied()))
            } else {
                None
            }
        }
        None => None,
    }
}
