//! Which members' standings a change of a group changes.
ghost use Rattle.std.specs.Prelude.{◌≡◌, ◌≤◌, ◌+◌, length, false, [], ◌∷◌, ◌++◌, IfOk, OnOk, OnErr};
ghost use Rattle.std.specs.BTreeMap.{is_at};
ghost use Rattle.std.specs.List.Sorted.{IsStrictlySortedBy};
ghost use Rattle.std.specs.Map.{keys_of};
ghost use Rattle.smq_kit.specs.Orders.{place_cmp};
ghost use Rattle.smq_kit.specs.HashedKeys.{hashed_key_cmp};
ghost use Rattle.smq_kit.specs.declared.link_key.LinkKey.{LinkKey};
ghost use Rattle.smq_shelf.specs.Walks.{Stays};
ghost use Rattle.smq_group.specs.declared.changes.Added.TheVariants.{Nothing};
ghost use Rattle.smq_group.specs.within.Outlooks.{decider_of, group_at};
ghost use Rattle.smq_group.specs.within.Told.{IsKnown, ReceiptsByPlace, SubmitsByPlace, change_at, decider_changes, kept_group, newcomer_receipt, newcomer_submit, sole_submit_left, receipt_changes, rival, same_decider, submit_changes, told_receipts, changes_of_submits, turn_between};
ghost use Rattle.smq_group.specs.within.Walked.{member_key, members_in, vacant_of};

use crate::group_summary::{Group, GroupSummary, keep_outlook};
use crate::member::{Member, ReceiptFacts};
use crate::walks::members_of;
use crate::{Change, Standing};
use smq_kit::{HashedKey, Place};
use smq_shelf::Kept;
use std::alloc::{AllocError, Global};

/// Which member was put in, if one was; a receipt with whether it can decide.
#[derive(Clone, Copy)]
pub(crate) enum Added {
    Submit(Place),
    Receipt(Place, bool),
    Nothing,
}

/// Which members of a key have another standing now.
#[derive(Clone, Copy)]
pub(crate) enum Turn {
    /// Each: the number of submits passed between none, one and more.
    Each,
    /// The one submit and the receipts that decided and decide: another decides.
    Deciders,
    /// The one that was put in, if one was.
    Newcomer,
}

/// Tells the changes. The members are those after the change, and `only` is the place of the key's only submit, where that is
/// known.
pub(crate) fn standing_changes(
    alloc: Global,
    submits: &mut Kept<Member, bool>,
    receipts: &mut Kept<Member, ReceiptFacts>,
    key: &HashedKey,
    before: &GroupSummary,
    after: &GroupSummary,
    only: Option<Place>,
    added: Added,
) -> Result<Vec<Change>, AllocError>
    requires counted { after.now.matches ≡ length (members_in key.now submits.old.content) }
    requires received { after.now.receipts ≡ length (members_in key.now receipts.old.content) }
    requires only { IsKnown only (members_in key.now submits.old.content) }
    ensures submits { Stays submits.old submits.new }
    ensures receipts { Stays receipts.old receipts.new }
    ensures told { IfOk result (λ changes. changes.items
        ≡ changes_of_submits (turn_between before.now after.now) after.now added
        (members_in key.now submits.old.content)
        ++ told_receipts (turn_between before.now after.now) before.now after.now added
        (members_in key.now receipts.old.content)) }
    ensures submits_by_place { OnOk result (SubmitsByPlace (turn_between before.now after.now)
        (members_in key.now submits.old.content)) }
    ensures receipts_by_place { OnOk result (ReceiptsByPlace (turn_between before.now after.now)
        (members_in key.now receipts.old.content)) }
    ensures touches { IfOk result (λ changes.
        submits.new.touches + receipts.new.touches
        ≤ submits.old.touches + receipts.old.touches + 2
        + vacant_of member_key key.now submits.old.places
        + vacant_of member_key key.now receipts.old.places + length changes.items) }
{
    let turn = turn_of(before, after);
    let mut changes = Vec::new(alloc);
    tell_submits(&mut changes, alloc, submits, key, after, only, turn, added)?;
    tell_receipts(
        &mut changes,
        alloc,
        receipts,
        key,
        before,
        after,
        turn,
        added,
    )?;
    Ok(changes)
}

/// Tells the changes where a member was taken out, and keeps the outlook that its key has now. An error changes nothing.
pub(crate) fn standing_changes_and_summary(
    alloc: Global,
    submits: &mut Kept<Member, bool>,
    receipts: &mut Kept<Member, ReceiptFacts>,
    outlooks: &mut Kept<HashedKey, Group>,
    key: &HashedKey,
    before: &GroupSummary,
    after: &GroupSummary,
    only: Option<Place>,
) -> Result<Vec<Change>, AllocError>
    requires counted { after.now.matches ≡ length (members_in key.now submits.old.content) }
    requires received { after.now.receipts ≡ length (members_in key.now receipts.old.content) }
    requires only { IsKnown only (members_in key.now submits.old.content) }
    ensures submits { Stays submits.old submits.new }
    ensures receipts { Stays receipts.old receipts.new }
    ensures here { IfOk result (λ changes. group_at key.now outlooks.new.content
        ≡ kept_group after.now only changes.items) }
    ensures elsewhere { OnOk result ((other : LinkKey) → is_at (hashed_key_cmp other) key.now ≡ false
        → group_at other outlooks.new.content ≡ group_at other outlooks.old.content) }
    ensures told { IfOk result (λ changes. changes.items
        ≡ changes_of_submits (turn_between before.now after.now) after.now Nothing
        (members_in key.now submits.old.content)
        ++ told_receipts (turn_between before.now after.now) before.now after.now Nothing
        (members_in key.now receipts.old.content)) }
    ensures submits_by_place { OnOk result (SubmitsByPlace (turn_between before.now after.now)
        (members_in key.now submits.old.content)) }
    ensures receipts_by_place { OnOk result (ReceiptsByPlace (turn_between before.now after.now)
        (members_in key.now receipts.old.content)) }
    ensures touches { IfOk result (λ changes.
        submits.new.touches + receipts.new.touches + outlooks.new.touches
        ≤ submits.old.touches + receipts.old.touches + outlooks.old.touches + 4
        + vacant_of member_key key.now submits.old.places
        + vacant_of member_key key.now receipts.old.places + length changes.items) }
    ensures pending { outlooks.new.pending ≤ outlooks.old.pending + 1 }
    ensures err { OnErr result (outlooks.new.content ≡ outlooks.old.content) }
    ensures settled { outlooks.new.settled ≡ outlooks.old.settled }
    ensures counted { outlooks.old.touches ≤ outlooks.new.touches }
{
    let changes = standing_changes(
        alloc,
        submits,
        receipts,
        key,
        before,
        after,
        only,
        Added::Nothing,
    )?;
    let known = match only {
        Some(place) => Some(place),
        None => sole_submit_left(after.matches, &changes),
    };
    keep_outlook(
        outlooks,
        key,
        after.matches,
        after.receipts,
        after.decider,
        known,
    )?;
    Ok(changes)
}

// Which members a change of outlook concerns.
fn turn_of(before: &GroupSummary, after: &GroupSummary) -> Turn
    ensures { result ≡ turn_between before.now after.now }
{
    if before.matches.min(2) != after.matches.min(2) {
        return Turn::Each;
    }
    if after.matches == 1 && !is_same_decider(before, after) {
        return Turn::Deciders;
    }
    Turn::Newcomer
}

fn is_same_decider(before: &GroupSummary, after: &GroupSummary) -> bool
    ensures { result ≡ same_decider before.now after.now }
{
    match &after.decider {
        Some(decider) => before.is_decided_by(decider.place),
        None => before.decider.is_none(),
    }
}

// The changes of submits.
fn tell_submits(
    changes: &mut Vec<Change>,
    alloc: Global,
    submits: &mut Kept<Member, bool>,
    key: &HashedKey,
    after: &GroupSummary,
    only: Option<Place>,
    turn: Turn,
    added: Added,
) -> Result<(), AllocError>
    requires counted { after.now.matches ≡ length (members_in key.now submits.old.content) }
    requires only { IsKnown only (members_in key.now submits.old.content) }
    ensures submits { Stays submits.old submits.new }
    ensures told { OnOk result (changes.new.items ≡ changes.old.items
        ++ changes_of_submits turn after.now added (members_in key.now submits.old.content)) }
    ensures by_place { OnOk result
        (SubmitsByPlace turn (members_in key.now submits.old.content)) }
    ensures touches { OnOk result (submits.new.touches ≤ submits.old.touches + 1
        + vacant_of member_key key.now submits.old.places
        + length (changes_of_submits turn after.now added (members_in key.now submits.old.content))) }
{
    match turn {
        Turn::Each | Turn::Deciders => {
            tell_each_submit(changes, alloc, submits, key, after, only)?;
        }
        Turn::Newcomer => push_new_submit(changes, after, added)?,
    }
    Ok(())
}

// Each submit, with its standing. The only one, where it is known, needs no walk.
fn tell_each_submit(
    changes: &mut Vec<Change>,
    alloc: Global,
    submits: &mut Kept<Member, bool>,
    key: &HashedKey,
    after: &GroupSummary,
    only: Option<Place>,
) -> Result<(), AllocError>
    requires counted { after.now.matches ≡ length (members_in key.now submits.old.content) }
    requires only { IsKnown only (members_in key.now submits.old.content) }
    ensures submits { Stays submits.old submits.new }
    ensures told { OnOk result (changes.new.items ≡ changes.old.items
        ++ submit_changes after.now (members_in key.now submits.old.content)) }
    ensures by_place { OnOk result (IsStrictlySortedBy place_cmp
        (keys_of (members_in key.now submits.old.content))) }
    ensures touches { OnOk result (submits.new.touches ≤ submits.old.touches + 1
        + vacant_of member_key key.now submits.old.places
        + length (submit_changes after.now (members_in key.now submits.old.content))) }
{
    if let Some(place) = only {
        push(changes, place, after.of_submits())?;
        return Ok(());
    }
    let members = members_of(alloc, submits, key, false, after.matches)?;
    push_submits(changes, &members, after)?;
    Ok(())
}

// The changes of receipts.
fn tell_receipts(
    changes: &mut Vec<Change>,
    alloc: Global,
    receipts: &mut Kept<Member, ReceiptFacts>,
    key: &HashedKey,
    before: &GroupSummary,
    after: &GroupSummary,
    turn: Turn,
    added: Added,
) -> Result<(), AllocError>
    requires { after.now.receipts ≡ length (members_in key.now receipts.old.content) }
    ensures receipts { Stays receipts.old receipts.new }
    ensures told { OnOk result (changes.new.items ≡ changes.old.items
        ++ told_receipts turn before.now after.now added
        (members_in key.now receipts.old.content)) }
    ensures by_place { OnOk result
        (ReceiptsByPlace turn (members_in key.now receipts.old.content)) }
    ensures touches { OnOk result (receipts.new.touches ≤ receipts.old.touches + 1
        + vacant_of member_key key.now receipts.old.places
        + length (told_receipts turn before.now after.now added
        (members_in key.now receipts.old.content))) }
{
    match turn {
        Turn::Each => {
            let members = members_of(alloc, receipts, key, false, after.receipts)?;
            push_receipts(changes, &members, after)?;
        }
        Turn::Deciders => push_deciders(changes, rival_of(before, added), after.decider_place())?,
        Turn::Newcomer => push_new_receipt(changes, after, added)?,
    }
    Ok(())
}

// Each submit, with its standing.
fn push_submits(
    changes: &mut Vec<Change>,
    members: &[(Place, bool)],
    outlook: &GroupSummary,
) -> Result<(), AllocError>
    ensures { OnOk result (changes.new.items
        ≡ changes.old.items ++ submit_changes outlook.now members.now) }
{
    for member in members {
        push(changes, member.0, outlook.of_submits())?;
    }
    Ok(())
}

// Each receipt, with its standing.
fn push_receipts(
    changes: &mut Vec<Change>,
    members: &[(Place, ReceiptFacts)],
    outlook: &GroupSummary,
) -> Result<(), AllocError>
    ensures { OnOk result (changes.new.items
        ≡ changes.old.items ++ receipt_changes outlook.now members.now) }
{
    for member in members {
        push(
            changes,
            member.0,
            outlook.of_receipt(member.0, member.1.decides),
        )?;
    }
    Ok(())
}

// The submit that was put in, if one was.
fn push_new_submit(
    changes: &mut Vec<Change>,
    outlook: &GroupSummary,
    added: Added,
) -> Result<(), AllocError>
    ensures { OnOk result (changes.new.items
        ≡ changes.old.items ++ newcomer_submit outlook.now added) }
{
    if let Added::Submit(place) = added {
        push(changes, place, outlook.of_submits())?;
    }
    Ok(())
}

// The receipt that was put in, if one was.
fn push_new_receipt(
    changes: &mut Vec<Change>,
    outlook: &GroupSummary,
    added: Added,
) -> Result<(), AllocError>
    ensures { OnOk result (changes.new.items
        ≡ changes.old.items ++ newcomer_receipt outlook.now added) }
{
    if let Added::Receipt(place, decides) = added {
        push(changes, place, outlook.of_receipt(place, decides))?;
    }
    Ok(())
}

// The receipt that decided, where it is there still.
fn rival_of(before: &GroupSummary, added: Added) -> Option<Place>
    ensures { result ≡ rival before.now added }
{
    match added {
        Added::Submit(_) => None,
        Added::Receipt(_, _) => before.decider_place(),
        Added::Nothing => None,
    }
}

// The receipt that decided, where it is there still, and the one that decides, by place.
fn push_deciders(
    changes: &mut Vec<Change>,
    rival: Option<Place>,
    decider: Option<Place>,
) -> Result<(), AllocError>
    ensures { OnOk result (changes.new.items
        ≡ changes.old.items ++ decider_changes rival decider) }
{
    let Some(decider) = decider else {
        return Ok(());
    };
    let Some(rival) = rival else {
        push(changes, decider, Standing::Deciding)?;
        return Ok(());
    };
    if decider < rival {
        push(changes, decider, Standing::Deciding)?;
        push(changes, rival, Standing::Extra)?;
    } else {
        push(changes, rival, Standing::Extra)?;
        push(changes, decider, Standing::Deciding)?;
    }
    Ok(())
}

// The place of the submit that is left, where just one is: that of the first change.
fn sole_submit_left(matches: u64, changes: &[Change]) -> Option<Place>
    ensures { result ≡ sole_submit_left matches changes.now }
{
    match changes.first() {
        Some(change) if matches == 1 => Some(change.place),
        _ => None,
    }
}

fn push(changes: &mut Vec<Change>, place: Place, standing: Standing) -> Result<(), AllocError>
    ensures { OnOk result (changes.new.items
        ≡ changes.old.items ++ change_at place standing ∷ []) }
{
    changes.push(Change { place, standing })?;
    Ok(())
}
