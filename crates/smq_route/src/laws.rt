//! Laws of versions, of their edits, of routes and of numbers. No code calls these functions.
ghost use Rattle.std.specs.Prelude.{◌≡◌, ◌∷◌, [], Some, None, true, false, codes};
ghost use Rattle.std.specs.FinMap as fin;
ghost use Rattle.smq_kit.specs.Replies.{first_of};
ghost use Rattle.smq_kit.specs.declared.refusal.Refusal.TheVariants.{Overlap, NoRoute, Ended, BadEnd};
ghost use Rattle.smq_route.specs.Edits.{add_refusals, end_refusals, correct_refusals, changed, corrected};
ghost use Rattle.smq_route.specs.Known.{plan, unsorted, route, routed, version, at_moment, keys_of};
ghost use Rattle.smq_route.specs.KnownNumbers.{client_at, known};
ghost use Rattle.smq_route.specs.Laws.{KeysAreOrdered, VersionsAreTold, OneHolds, EditsChangeOne, EditsKeepApart, EndsAtItsEnd, KeepsDates, OrderIsIdle, IsOfLongest, IsLeastOverlap, EditsStayInPrefix};
ghost use Rattle.smq_route.specs.Numbers.{places_under};
ghost use Rattle.smq_route.specs.Versions.{key_at, version_of, holds, begins, route_at};

/// Keys of versions are ordered by prefix, then by beginning. Keys and versions are equal exactly where they are one.
pub fn versions_are_ordered()
    ensures keys { KeysAreOrdered }
    ensures versions { VersionsAreTold }
{}

/// One version of a prefix at most holds at a moment.
pub fn one_version_holds()
    ensures { OneHolds }
{}

/// An edit puts in or changes one version, and no other.
pub fn edits_change_one_version()
    ensures { EditsChangeOne }
{}

/// An edit that is accepted keeps versions of one prefix from overlapping.
pub fn edits_keep_versions_apart()
    ensures { EditsKeepApart }
{}

/// A version whose end is accepted holds up to it, before it as it did.
pub fn versions_end_at_their_end()
    ensures { EndsAtItsEnd }
{}

/// A correction changes no date.
pub fn corrections_keep_dates()
    ensures { KeepsDates }
{}

/// It doesn't matter which of two versions is added first.
pub fn order_of_adding_is_idle()
    ensures { OrderIsIdle }
{}

/// The route of a number is that of the version with the longest prefix among those that hold and begin it, and there
/// is none exactly where no such version is.
pub fn routes_are_of_the_longest_prefix()
    ensures { IsOfLongest }
{}

/// The overlap that is told is the least beginning of the versions of the prefix that are open or end after the moment,
/// and there is none exactly where no such version is.
pub fn overlaps_are_told_by_the_least_beginning()
    ensures { IsLeastOverlap }
{}

/// An edit of a prefix changes no route of a number that the prefix doesn't begin.
pub fn edits_stay_in_their_prefix()
    ensures { EditsStayInPrefix }
{}

/// The routes of a plan that is written out.
pub fn known_routes()
    // The longest prefix that holds decides, from its first moment on and up to its end, which it doesn't hold.
    ensures outer { at_moment 0 ≡ routed 1 (codes "20404") }
    ensures before_from { at_moment 999 ≡ routed 1 (codes "20404") }
    ensures from { at_moment 1000 ≡ routed 2 (codes "23410") }
    ensures before_nested { at_moment 1499 ≡ routed 2 (codes "23410") }
    ensures nested { at_moment 1500 ≡ routed 4 (codes "23420") }
    ensures before_adjoining { at_moment 1599 ≡ routed 4 (codes "23420") }
    ensures adjoining { at_moment 1600 ≡ routed 5 (codes "23430") }
    ensures before_until { at_moment 1699 ≡ routed 5 (codes "23430") }
    ensures until { at_moment 1700 ≡ routed 2 (codes "23410") }
    ensures before_gap { at_moment 1999 ≡ routed 2 (codes "23410") }
    ensures gap { at_moment 2000 ≡ routed 1 (codes "20404") }
    ensures before_anew { at_moment 2999 ≡ routed 1 (codes "20404") }
    ensures anew { at_moment 3000 ≡ routed 3 (codes "23415") }
    ensures before_longest { at_moment 3999 ≡ routed 3 (codes "23415") }
    ensures longest { at_moment 4000 ≡ routed 6 (codes "234033") }
    ensures last_moment { at_moment 4102444800000 ≡ routed 6 (codes "234033") }

    // A prefix begins itself and what is longer, and nothing else.
    ensures itself { route_at plan (codes "44") 1500 ≡ routed 2 (codes "23410") }
    ensures shorter { route_at plan (codes "4") 1500 ≡ routed 1 (codes "20404") }
    ensures sibling { route_at plan (codes "45") 1500 ≡ routed 1 (codes "20404") }
    ensures stranger { route_at plan (codes "15") 1500 ≡ None }
    ensures no_version { route_at fin.empty (codes "44") 1500 ≡ None }
{}

/// What edits of a plan that is written out are refused for, and how its versions are ordered.
pub fn known_edits()
    // The least beginning is told of the versions that are open or end after the new one begins.
    ensures told { first_of (add_refusals plan (codes "44") 0) ≡ Some (Overlap 1000) }
    ensures last_of_first { first_of (add_refusals plan (codes "44") 1999) ≡ Some (Overlap 1000) }
    ensures past_the_first { first_of (add_refusals plan (codes "44") 2000) ≡ Some (Overlap 3000) }
    ensures is_open { first_of (add_refusals plan (codes "44") 3500) ≡ Some (Overlap 3000) }
    ensures before_both { first_of (add_refusals plan (codes "447") 1599) ≡ Some (Overlap 1500) }
    ensures in_second { first_of (add_refusals plan (codes "447") 1600) ≡ Some (Overlap 1600) }
    ensures past_all { first_of (add_refusals plan (codes "447") 1700) ≡ None }
    ensures other_prefix { first_of (add_refusals plan (codes "45") 0) ≡ None }

    ensures no_route { first_of (end_refusals (version_of plan (codes "44") 1) 1 2) ≡ Some NoRoute }
    ensures ended { first_of (end_refusals (version_of plan (codes "44") 1000) 1000 1000)
        ≡ Some (Ended 2000) }
    ensures bad_end { first_of (end_refusals (version_of plan (codes "44") 3000) 3000 3000)
        ≡ Some BadEnd }
    ensures end { first_of (end_refusals (version_of plan (codes "44") 3000) 3000 3001) ≡ None }

    ensures nothing_there { first_of (correct_refusals (version_of plan (codes "44") 2000))
        ≡ Some NoRoute }
    ensures ended_too { first_of (correct_refusals (version_of plan (codes "44") 1000)) ≡ None }
    ensures correction { version_of
        (changed plan (codes "44") 1000 (corrected (route 9) (codes "23433"))) (codes "44") 1000
        ≡ Some (version (Some 2000) 9 (codes "23433")) }

    // Versions are ordered by the octets of their prefixes, then by their beginnings.
    ensures order { keys_of unsorted ≡ key_at (codes "44") 0 ∷ key_at (codes "44") 5
        ∷ key_at (codes "447") 0 ∷ key_at (codes "45") 0 ∷ [] }
    ensures ended_there { version_of unsorted (codes "44") 0 ≡ Some (version (Some 5) 3 (codes "23410")) }
    ensures open_there { version_of unsorted (codes "44") 5 ≡ Some (version None 4 (codes "23410")) }
{}

/// The places of numbers that are written out, under prefixes.
pub fn known_numbers()
    // A prefix has the numbers that it is or begins, by number, and those of one number by place.
    ensures all { places_under known (codes "447")
        ≡ client_at 40 ∷ client_at 0 ∷ client_at 20 ∷ client_at 60 ∷ [] }
    ensures no_number_of_its_own { places_under known (codes "4")
        ≡ client_at 40 ∷ client_at 0 ∷ client_at 20 ∷ client_at 60 ∷ client_at 30 ∷ [] }
    ensures one_number { places_under known (codes "4479") ≡ client_at 20 ∷ client_at 60 ∷ [] }

    // It has no number that is shorter, nor one of other digits.
    ensures longer { places_under known (codes "44791") ≡ [] }
    ensures other_digits { places_under known (codes "448") ≡ [] }
{}
