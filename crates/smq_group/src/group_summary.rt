//! What all standings of a group rest on.
ghost use Rattle.std.specs.Prelude.{◌≡◌, unwrap_or, true, false, IfOk, OnOk, OnErr, ◌∷◌, ◌+◌, ◌≤◌};
ghost use Rattle.std.specs.Map.{lookup};
ghost use Rattle.std.specs.BTreeMap.{is_at};
ghost use Rattle.smq_shelf.specs.Places.{content_of};
ghost use Rattle.smq_kit.specs.HashedKeys.{hashed_key_cmp};
ghost use Rattle.smq_kit.specs.declared.link_key.LinkKey.{LinkKey};
ghost use Rattle.smq_group.specs.within.Outlooks.{a_group, later_candidate, group_after, group_at, group_with, no_group, outlook_with, outlook_without, decider_of, is_decided_by, submit_standing_of, receipt_standing_of};

use crate::Standing;
use smq_kit::{HashedKey, Moment, Place};
use smq_shelf::{Change, Kept, ShelfKey};
use std::alloc::AllocError;

/// A receipt that can decide, by its moment and its place.
#[derive(Clone, Copy, Debug, PartialEq, Eq, PartialOrd, Ord)]
pub(crate) struct Earliest {
    pub(crate) moment: Moment,
    pub(crate) place: Place,
}

/// What all standings of a group rest on: how many submits and receipts it has, and the earliest receipt that can decide.
#[derive(Clone, Copy, Debug, PartialEq, Eq)]
pub(crate) struct GroupSummary {
    pub(crate) matches: u64,
    pub(crate) receipts: u64,
    pub(crate) decider: Option<Earliest>,
}

/// What is kept of a group: its outlook, and the place of its submit where it has just one.
#[derive(Clone, Copy, Debug, PartialEq, Eq)]
pub(crate) struct Group {
    pub(crate) outlook: GroupSummary,
    pub(crate) only: Option<Place>,
}

/// A submit more, or a receipt that can decide or not.
#[derive(Clone, Copy)]
pub(crate) enum More {
    Submit(Place),
    Receipt(Earliest, bool),
}

impl GroupSummary {
    /// Whether the receipt at a place is the earliest that can decide.
    pub(crate) fn is_decided_by(&self, place: Place) -> bool
        ensures { result ≡ is_decided_by self.now place }
    {
        match &self.decider {
            Some(earliest) => earliest.place == place,
            None => false,
        }
    }

    /// The place of the earliest receipt that can decide.
    pub(crate) fn decider_place(&self) -> Option<Place>
        ensures { result ≡ decider_of self.now }
    {
        match &self.decider {
            Some(earliest) => Some(earliest.place),
            None => None,
        }
    }

    /// With one submit less.
    pub(crate) fn without_submit(&self) -> GroupSummary
        requires { 1 ≤ self.now.matches }
        ensures { result ≡ outlook_without self.now }
    {
        GroupSummary {
            matches: self.matches - 1,
            receipts: self.receipts,
            decider: self.decider,
        }
    }

    /// With one receipt more, which can decide or not.
    fn with_receipt(&self, receipt: Earliest, decides: bool) -> GroupSummary
        ensures { result ≡ outlook_with self.now receipt decides }
    {
        let is_earliest = match &self.decider {
            Some(earliest) => receipt < *earliest,
            None => true,
        };
        let decider = if decides && is_earliest {
            Some(receipt)
        } else {
            self.decider
        };
        GroupSummary {
            matches: self.matches,
            receipts: self.receipts.saturating_add(1),
            decider,
        }
    }

    /// The later of a receipt and the earliest that can decide, where both can.
    pub(crate) fn later_candidate(&self, receipt: Earliest, decides: bool) -> Option<Earliest>
        ensures { result ≡ later_candidate self.now.decider receipt decides }
    {
        if !decides {
            return None;
        }
        match &self.decider {
            Some(earliest) => Some(if receipt < *earliest {
                *earliest
            } else {
                receipt
            }),
            None => None,
        }
    }

    /// The standing of the group's submits.
    pub(crate) fn of_submits(&self) -> Standing
        ensures { result ≡ submit_standing_of self.now }
    {
        if self.matches != 1 {
            return Standing::Shared;
        }
        Standing::Single(self.decider_place())
    }

    /// The standing of a receipt of the group.
    pub(crate) fn of_receipt(&self, place: Place, decides: bool) -> Standing
        ensures { result ≡ receipt_standing_of self.now place decides }
    {
        if self.matches == 0 {
            return Standing::Stray;
        }
        if self.matches != 1 {
            return Standing::Shared;
        }
        if self.is_decided_by(place) {
            Standing::Deciding
        } else if decides {
            Standing::Extra
        } else {
            Standing::Noted
        }
    }
}

impl Group {
    /// No members.
    const fn none() -> Group
        ensures { result ≡ no_group }
    {
        Group {
            outlook: GroupSummary {
                matches: 0,
                receipts: 0,
                decider: None,
            },
            only: None,
        }
    }

    /// With one member more.
    pub(crate) fn with(&self, more: More) -> Group
        ensures { result ≡ group_with self.now more }
    {
        match more {
            More::Submit(place) => Group {
                outlook: GroupSummary {
                    matches: self.outlook.matches.saturating_add(1),
                    receipts: self.outlook.receipts,
                    decider: self.outlook.decider,
                },
                only: if self.outlook.matches == 0 {
                    Some(place)
                } else {
                    None
                },
            },
            More::Receipt(receipt, decides) => Group {
                outlook: self.outlook.with_receipt(receipt, decides),
                only: self.only,
            },
        }
    }
}

impl Change<Group> for More {
    ghost after = { group_after };

    fn make(&self, place: &mut Option<Group>) -> Option<Group> {
        let before = *place;
        *place = Some(kept_or_none(place).with(*self));
        before
    }
}

/// Puts a member more into what is kept of its group, and gives what was kept before. An error changes nothing.
pub(crate) fn put_more(
    outlooks: &mut Kept<HashedKey, Group>,
    key: &HashedKey,
    more: More,
) -> Result<Group, AllocError>
    ensures value { IfOk result (λ before. before ≡ group_at key.now outlooks.old.content) }
    ensures here { OnOk result (group_at key.now outlooks.new.content
        ≡ group_with (group_at key.now outlooks.old.content) more) }
    ensures elsewhere { OnOk result ((other : LinkKey) → is_at (hashed_key_cmp other) key.now ≡ false
        → group_at other outlooks.new.content ≡ group_at other outlooks.old.content) }
    ensures past { OnOk result (outlooks.new.past ≡ outlooks.old.places ∷ outlooks.old.past) }
    ensures shown { outlooks.old.content ≡ content_of outlooks.old.places }
    ensures err { OnErr result (outlooks.new.content ≡ outlooks.old.content) }
    ensures settled { outlooks.new.settled ≡ outlooks.old.settled }
    ensures pending { outlooks.new.pending ≤ outlooks.old.pending + 1 }
    ensures touches { outlooks.new.touches ≤ outlooks.old.touches + 1 }
    ensures counted { outlooks.old.touches ≤ outlooks.new.touches }
{
    let before = outlooks.exchange(key.copy(), &more)?;
    Ok(kept_or_none(&before))
}

// What is kept of a group, which may have no members.
fn kept_or_none(kept: &Option<Group>) -> Group
    ensures { result ≡ unwrap_or kept.now no_group }
{
    match kept {
        Some(group) => *group,
        None => Group::none(),
    }
}

/// What is kept of a group.
pub(crate) fn group_of(outlooks: &mut Kept<HashedKey, Group>, key: &HashedKey) -> Group
    ensures value { result ≡ group_at key.now outlooks.old.content }
    ensures content { outlooks.new.content ≡ outlooks.old.content }
    ensures settled { outlooks.new.settled ≡ outlooks.old.settled }
    ensures pending { outlooks.new.pending ≡ outlooks.old.pending }
    ensures touches { outlooks.new.touches ≤ outlooks.old.touches + 1 }
    ensures counted { outlooks.old.touches ≤ outlooks.new.touches }
{
    match outlooks.get(key) {
        Some(group) => *group,
        None => Group::none(),
    }
}

/// Keeps another outlook of a key. That of no submits and no receipts is not kept. An error changes nothing.
pub(crate) fn keep_outlook(
    outlooks: &mut Kept<HashedKey, Group>,
    key: &HashedKey,
    matches: u64,
    receipts: u64,
    decider: Option<Earliest>,
    only: Option<Place>,
) -> Result<(), AllocError>
    ensures here { OnOk result (group_at key.now outlooks.new.content
        ≡ a_group matches receipts decider only) }
    ensures elsewhere { OnOk result ((other : LinkKey) → is_at (hashed_key_cmp other) key.now ≡ false
        → group_at other outlooks.new.content ≡ group_at other outlooks.old.content) }
    ensures err { OnErr result (outlooks.new.content ≡ outlooks.old.content) }
    ensures settled { outlooks.new.settled ≡ outlooks.old.settled }
    ensures pending { outlooks.new.pending ≤ outlooks.old.pending + 1 }
    ensures touches { outlooks.new.touches ≤ outlooks.old.touches + 2 }
    ensures counted { outlooks.old.touches ≤ outlooks.new.touches }
{
    if is_empty(matches, receipts, &decider, &only) {
        outlooks.remove(key)?;
        return Ok(());
    }
    let outlook = GroupSummary {
        matches,
        receipts,
        decider,
    };
    outlooks.set(key.copy(), Group { outlook, only })?;
    Ok(())
}

fn is_empty(matches: u64, receipts: u64, decider: &Option<Earliest>, only: &Option<Place>) -> bool
    ensures { result ≡ true → a_group matches receipts decider.now only.now ≡ no_group }
{
    matches == 0 && receipts == 0 && decider.is_none() && only.is_none()
}
