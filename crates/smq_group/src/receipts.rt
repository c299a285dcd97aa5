//! A receipt put among the kept ones, or taken out, and taken back.
ghost use Rattle.std.specs.Prelude.{◌≡◌, ◌+◌, ◌≤◌, ◌&&◌, Bool, true, false, if◌then◌else◌, List, ◌∷◌, Option, None, Some, IfSome, IsSome, OnOk, OnErr, is_some};
ghost use Rattle.std.specs.List.Sorted.{IsStrictlySortedBy};
ghost use Rattle.std.specs.Map.{keys_of, lookup, remove_entry};
ghost use Rattle.std.specs.BTreeMap.{insert_entry, is_at};
ghost use Rattle.smq_shelf.specs.KeptLending.{IsRead};
ghost use Rattle.smq_shelf.specs.Places.{content_of};
ghost use Rattle.smq_shelf.specs.Walks.{Stays};
ghost use Rattle.smq_group.specs.within.Orders.{kept_candidate_cmp, kept_member_cmp};
ghost use Rattle.smq_group.specs.within.Outlooks.{is_decided_by};
ghost use Rattle.smq_group.specs.within.Stored.{CanTakeBack, earliest_at, gone_of, member_of, with_waiting, without_waiting};
ghost use Rattle.smq_group.specs.within.Walked.{candidate_at, candidate_key, first_candidate_after, vacant_of};

use crate::candidates::next_candidate;
use crate::group_summary::{Earliest, GroupSummary};
use crate::member::{Candidate, Member, ReceiptFacts};
use smq_kit::{HashedKey, Place};
use smq_shelf::{Kept, ShelfKey};
use std::alloc::AllocError;

/// What is kept of the receipt of a key at a place.
pub(crate) fn receipt_facts_at(
    receipts: &mut Kept<Member, ReceiptFacts>,
    key: &HashedKey,
    place: Place,
) -> Option<ReceiptFacts>
    ensures value { result ≡ lookup
        (is_at (kept_member_cmp (member_of key.now place))) receipts.old.content }
    ensures read { IsRead receipts.old receipts.new }
{
    let member = Member {
        key: key.copy(),
        place,
    };
    receipts.get(&member).copied()
}

/// The earliest receipt of a key that can decide once one is taken out: where that decided, the next one that waits.
pub(crate) fn decider_without(
    candidates: &mut Kept<Candidate, bool>,
    key: &HashedKey,
    before: &GroupSummary,
    place: Place,
    said: ReceiptFacts,
) -> Option<Earliest>
    ensures stays { (said.decides && is_decided_by before.now place) ≡ false
        → result ≡ before.now.decider }
    ensures follows { (said.decides && is_decided_by before.now place) ≡ true
        → result ≡ first_candidate_after key.now (earliest_at (said.moment, place))
        candidates.old.content }
    ensures ordered { (said.decides && is_decided_by before.now place) ≡ true
        → IsStrictlySortedBy kept_candidate_cmp (keys_of candidates.old.content) }
    ensures read { Stays candidates.old candidates.new }
    ensures touches { candidates.new.touches ≤ candidates.old.touches + 1
        + vacant_of candidate_key key.now candidates.old.places }
{
    let ReceiptFacts { moment, decides } = said;
    if decides && before.is_decided_by(place) {
        return next_candidate(candidates, key, Earliest { moment, place });
    }
    before.decider
}

/// What waits no more once a receipt is taken out: where that decided, the one that does then, and else itself, where it can.
pub(crate) fn gone(
    before: &GroupSummary,
    next: &Option<Earliest>,
    place: Place,
    said: ReceiptFacts,
) -> Option<Earliest>
    ensures { result ≡ gone_of said.decides (is_decided_by before.now place) next.now
        (earliest_at (said.moment, place)) }
{
    let ReceiptFacts { moment, decides } = said;
    if !decides {
        return None;
    }
    if before.is_decided_by(place) {
        return *next;
    }
    Some(Earliest { moment, place })
}

/// Puts a receipt in, and among the candidates what waits then, if anything. An error changes nothing.
pub(crate) fn put_receipt(
    receipts: &mut Kept<Member, ReceiptFacts>,
    candidates: &mut Kept<Candidate, bool>,
    key: &HashedKey,
    place: Place,
    said: ReceiptFacts,
    waits: &Option<Earliest>,
) -> Result<(), AllocError>
    ensures receipts { OnOk result (receipts.new.content
        ≡ insert_entry kept_member_cmp receipts.old.content (member_of key.now place) said) }
    ensures candidates { OnOk result (candidates.new.content
        ≡ with_waiting key.now waits.now true candidates.old.content) }
    ensures places { OnOk result (receipts.new.places
        ≡ insert_entry kept_member_cmp receipts.old.places (member_of key.now place)
        (Some said)) }
    ensures candidate_places { OnOk result (candidates.new.places
        ≡ with_waiting key.now waits.now (Some true) candidates.old.places) }
    ensures touches { OnOk result (receipts.new.touches + candidates.new.touches
        ≤ receipts.old.touches + candidates.old.touches + 2) }
    ensures pending { OnOk result (receipts.new.pending + candidates.new.pending
        ≤ receipts.old.pending + candidates.old.pending + 2) }
    ensures back { OnOk result
        (CanTakeBack (is_some waits.now) receipts.old candidates.old receipts.new candidates.new) }
    ensures err { OnErr result (receipts.new.content ≡ receipts.old.content) }
    ensures err_candidates { OnErr result (candidates.new.content ≡ candidates.old.content) }
    ensures settled { receipts.new.settled ≡ receipts.old.settled }
    ensures settled_candidates { candidates.new.settled ≡ candidates.old.settled }
    ensures counted { receipts.old.touches ≤ receipts.new.touches }
    ensures counted_candidates { candidates.old.touches ≤ candidates.new.touches }
{
    let member = Member {
        key: key.copy(),
        place,
    };
    receipts.set(member, said)?;
    let Some(earliest) = waits else {
        return Ok(());
    };
    let candidate = Candidate {
        key: key.copy(),
        moment: earliest.moment,
        place: earliest.place,
    };
    match candidates.set(candidate, true) {
        Ok(()) => Ok(()),
        Err(error) => {
            receipts.take_back();
            Err(error)
        }
    }
}

/// Takes a receipt out, and from the candidates what waits no more, if anything. An error changes nothing.
pub(crate) fn take_out_receipt(
    receipts: &mut Kept<Member, ReceiptFacts>,
    candidates: &mut Kept<Candidate, bool>,
    key: &HashedKey,
    place: Place,
    gone: &Option<Earliest>,
) -> Result<(), AllocError>
    requires there { IsSome (lookup (is_at (kept_member_cmp (member_of key.now place)))
        receipts.old.content) }
    requires candidate { IfSome gone.now (λ e. IsSome (lookup
        (is_at (kept_candidate_cmp (candidate_at key.now e))) candidates.old.content)) }
    ensures receipts { OnOk result (receipts.new.content
        ≡ remove_entry (is_at (kept_member_cmp (member_of key.now place))) receipts.old.content) }
    ensures candidates { OnOk result (candidates.new.content
        ≡ without_waiting key.now gone.now candidates.old.content) }
    ensures ordered { OnOk result (IsSome gone.now
        → IsStrictlySortedBy kept_candidate_cmp (keys_of candidates.old.content)) }
    ensures places { OnOk result (receipts.new.places
        ≡ insert_entry kept_member_cmp receipts.old.places (member_of key.now place) None) }
    ensures candidate_places { OnOk result (candidates.new.places
        ≡ with_waiting key.now gone.now None candidates.old.places) }
    ensures touches { OnOk result (receipts.new.touches + candidates.new.touches
        ≤ receipts.old.touches + candidates.old.touches + 4) }
    ensures pending { OnOk result (receipts.new.pending + candidates.new.pending
        ≤ receipts.old.pending + candidates.old.pending + 2) }
    ensures back { OnOk result
        (CanTakeBack (is_some gone.now) receipts.old candidates.old receipts.new candidates.new) }
    ensures err { OnErr result (receipts.new.content ≡ receipts.old.content) }
    ensures err_candidates { OnErr result (candidates.new.content ≡ candidates.old.content) }
    ensures settled { receipts.new.settled ≡ receipts.old.settled }
    ensures settled_candidates { candidates.new.settled ≡ candidates.old.settled }
    ensures counted { receipts.old.touches ≤ receipts.new.touches }
    ensures counted_candidates { candidates.old.touches ≤ candidates.new.touches }
{
    let member = Member {
        key: key.copy(),
        place,
    };
    receipts.remove(&member)?;
    let Some(earliest) = gone else {
        return Ok(());
    };
    let candidate = Candidate {
        key: key.copy(),
        moment: earliest.moment,
        place: earliest.place,
    };
    match candidates.remove(&candidate) {
        Ok(()) => Ok(()),
        Err(error) => {
            receipts.take_back();
            Err(error)
        }
    }
}

/// Takes back what `put_receipt` or `take_out_receipt` did last.
pub(crate) fn take_back_receipt(
    receipts: &mut Kept<Member, ReceiptFacts>,
    candidates: &mut Kept<Candidate, bool>,
    candidate: &Option<Earliest>,
)
    ensures receipts { (p : List (Member × Option ReceiptFacts)) (ps : List (List (Member × Option ReceiptFacts)))
        → receipts.old.past ≡ p ∷ ps → receipts.new.content ≡ content_of p }
    ensures candidates { (p : List (Candidate × Option Bool))
        (ps : List (List (Candidate × Option Bool))) → is_some candidate.now ≡ true
        → candidates.old.past ≡ p ∷ ps → candidates.new.content ≡ content_of p }
    ensures unchanged { is_some candidate.now ≡ false → candidates.new.content ≡ candidates.old.content }
    ensures settled { receipts.new.settled ≡ receipts.old.settled }
    ensures settled_candidates { candidates.new.settled ≡ candidates.old.settled }
    ensures counted { receipts.old.touches ≤ receipts.new.touches }
    ensures counted_candidates { candidates.old.touches ≤ candidates.new.touches }
{
    receipts.take_back();
    if candidate.is_some() {
        candidates.take_back();
    }
}
