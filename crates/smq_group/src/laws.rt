//! Laws of the definitions that the contracts cite. No code calls these functions.
ghost use Rattle.std.specs.Prelude.{◌≡◌, ◌==◌, ◌↔◌, ◌∷◌, [], ℕ, IsTrue, Some, None};
ghost use Rattle.std.specs.FinMap as fin;
ghost use Rattle.smq_kit.specs.declared.link_key.LinkKey.{LinkKey};
ghost use Rattle.smq_group.specs.Changes.{TellsChanges, receipt_at, submit_at};
ghost use Rattle.smq_group.specs.declared.change.Standing.TheVariants.{Deciding, Extra, Noted, Shared, Single, Stray};
ghost use Rattle.smq_group.specs.Known.{both_links, centre_at, client_at, decided_late, elsewhere, grouped, late, late_and_early, link_of, none, on_two_links, one, received, tied, told, two, undecided};
ghost use Rattle.smq_group.specs.Links.{receipts_on, submits_on};
ghost use Rattle.smq_group.specs.Matching.{CanDecide, Grouping, IsEarliest, IsSingle, decider, matches};
ghost use Rattle.smq_group.specs.Laws.{IsToldOneWay, OrderOfReceiptsIsIdle, OrderOfSidesIsIdle, OrderOfSubmitsIsIdle, ReceiptsLeaveNoTrace, SubmitsLeaveNoTrace, SubmitsLeaveOtherKeys, TellsNothingOfTheSame};

use smq_kit::Place;

/// Of a message that is accepted with a key, the key is single exactly where no other message is accepted with it.
pub fn single_keys_have_no_other()
    ensures { (g : Grouping) (key : LinkKey) (place : Place) → fin.get g.submits place ≡ Some key
        → IsTrue (matches g key == 1) ↔ IsSingle g key place }
{}

/// The receipt that decides has the key, can decide, and comes after none of those that have it and can: by moment, and
/// by place where moments are one. Where none decides, none of the key can.
pub fn deciding_receipts_are_earliest()
    ensures found { (g : Grouping) (key : LinkKey) (place : Place)
        → decider g key ≡ Some place → IsEarliest g key place }
    ensures none { (g : Grouping) (key : LinkKey) → decider g key ≡ None
        → (moment : ℕ) (place : Place) → ¬ CanDecide g key moment place }
{}

/// A member that comes and goes leaves the members that were.
pub fn moves_leave_no_trace()
    ensures submits { SubmitsLeaveNoTrace }
    ensures receipts { ReceiptsLeaveNoTrace }
{}

/// It doesn't matter in which order members come.
pub fn order_of_members_is_idle()
    ensures submits { OrderOfSubmitsIsIdle }
    ensures receipts { OrderOfReceiptsIsIdle }
    ensures sides { OrderOfSidesIsIdle }
{}

/// What differs is told by one list alone, which is empty where no standing differs.
pub fn changes_are_told_one_way()
    ensures one { IsToldOneWay }
    ensures nothing { TellsNothingOfTheSame }
{}

/// A submit leaves the standings of submits of other keys.
pub fn keys_are_apart()
    ensures { SubmitsLeaveOtherKeys }
{}

/// The standings of groups that are written out.
pub fn known_standings()
    // A receipt matches no submit, one, or several.
    ensures stray { receipt_at (grouped none late) (centre_at 18) ≡ Some Stray }
    ensures deciding { receipt_at (grouped one late) (centre_at 18) ≡ Some Deciding }
    ensures several { receipt_at (grouped two late) (centre_at 18) ≡ Some Shared }

    // A submit is alone with its key, with or without a receipt that decides it, or shares it.
    ensures alone { submit_at (grouped one []) (client_at 0) ≡ Some (Single None) }
    ensures decided { submit_at (grouped one late) (client_at 0) ≡ Some (Single (Some (centre_at 18))) }
    ensures shared { submit_at (grouped two late) (client_at 0) ≡ Some Shared }
    ensures shared_too { submit_at (grouped two late) (client_at 49) ≡ Some Shared }

    // The earliest receipt decides, whatever its place, and the other is extra.
    ensures earliest { submit_at (grouped one late_and_early) (client_at 0)
        ≡ Some (Single (Some (centre_at 90))) }
    ensures earliest_decides { receipt_at (grouped one late_and_early) (centre_at 90)
        ≡ Some Deciding }
    ensures later_is_extra { receipt_at (grouped one late_and_early) (centre_at 18) ≡ Some Extra }

    // Of two of one moment, the one at the lower place decides.
    ensures tie { submit_at (grouped one tied) (client_at 0) ≡ Some (Single (Some (centre_at 18))) }
    ensures tie_decides { receipt_at (grouped one tied) (centre_at 18) ≡ Some Deciding }
    ensures tie_is_extra { receipt_at (grouped one tied) (centre_at 90) ≡ Some Extra }

    // A receipt that can't decide is noted, however early.
    ensures undecided { submit_at (grouped one undecided) (client_at 0) ≡ Some (Single None) }
    ensures noted { receipt_at (grouped one undecided) (centre_at 18) ≡ Some Noted }
    ensures later_decides { submit_at (grouped one decided_late) (client_at 0)
        ≡ Some (Single (Some (centre_at 90))) }
    ensures noted_still { receipt_at (grouped one decided_late) (centre_at 18) ≡ Some Noted }

    // The same key on another link is another key.
    ensures other_link { receipt_at (grouped elsewhere late) (centre_at 18) ≡ Some Stray }
    ensures not_theirs { submit_at (grouped elsewhere late) (client_at 49) ≡ Some (Single None) }
    ensures not_shared { submit_at (grouped both_links late) (client_at 0)
        ≡ Some (Single (Some (centre_at 18))) }

    // Nothing stands at a place that is no member's.
    ensures nowhere { submit_at (grouped one late) (client_at 7) ≡ None }
{}

/// The changes of groups that are written out.
pub fn known_changes()
    // An earlier receipt takes the place of the one that decided.
    ensures replaced { TellsChanges (grouped one late) (grouped one late_and_early)
        (told (client_at 0) (Single (Some (centre_at 90)))
        ∷ told (centre_at 18) Extra ∷ told (centre_at 90) Deciding ∷ []) }

    // Where it goes, the other decides again. What is gone is not told.
    ensures back { TellsChanges (grouped one late_and_early) (grouped one late)
        (told (client_at 0) (Single (Some (centre_at 18))) ∷ told (centre_at 18) Deciding ∷ []) }

    // A second submit makes all of the key shared, and where it goes none is.
    ensures shared { TellsChanges (grouped one late) (grouped two late)
        (told (client_at 0) Shared ∷ told (client_at 49) Shared ∷ told (centre_at 18) Shared ∷ []) }
    ensures alone { TellsChanges (grouped two late) (grouped one late)
        (told (client_at 0) (Single (Some (centre_at 18))) ∷ told (centre_at 18) Deciding ∷ []) }

    // A receipt that can't decide changes no other's standing.
    ensures noted { TellsChanges (grouped one []) (grouped one undecided)
        (told (centre_at 18) Noted ∷ []) }
{}

/// The members of links in groups that are written out.
pub fn known_links()
    // A link has the submits of all its keys, by place whatever their keys, and no other link's.
    ensures submits { fin.keys (submits_on (link_of 1) (grouped on_two_links received))
        ≡ client_at 0 ∷ client_at 98 ∷ [] }
    ensures other_submits { fin.keys (submits_on (link_of 2) (grouped on_two_links received))
        ≡ client_at 49 ∷ [] }

    // And its receipts, those that can't decide too.
    ensures receipts { fin.keys (receipts_on (link_of 1) (grouped on_two_links received))
        ≡ centre_at 90 ∷ [] }
    ensures other_receipts { fin.keys (receipts_on (link_of 2) (grouped on_two_links received))
        ≡ centre_at 18 ∷ [] }

    // A link may have none.
    ensures no_submits { fin.keys (submits_on (link_of 3) (grouped on_two_links received)) ≡ [] }
    ensures no_receipts { fin.keys (receipts_on (link_of 3) (grouped on_two_links received)) ≡ [] }
{}
