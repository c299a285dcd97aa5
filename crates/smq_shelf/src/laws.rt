//! Laws of the definitions that the contracts cite. No code calls these functions.
ghost use Rattle.std.specs.Prelude.{◌≡◌, ◌∷◌, [], Some, None, find};
ghost use Rattle.std.specs.BTreeMap.{is_at, insert_entry};
ghost use Rattle.std.specs.Map.{lookup, remove_entry};
ghost use Rattle.std.specs.Ordering.{is_le, is_lt, nat_cmp};
ghost use Rattle.smq_shelf.specs.Known.{three_places, vacant_places, two_entries, changed_places, three_changes};
ghost use Rattle.smq_shelf.specs.Places.{content_of, places_of};
ghost use Rattle.smq_shelf.specs.Shown.{touched};
ghost use Rattle.smq_shelf.specs.within.Undoing.{cleared, pasts, undone};

/// A touch is one more, up to the greatest u64, where it stays.
pub fn known_touches()
    ensures first { touched 0 ≡ 1 }
    ensures second { touched 1 ≡ 2 }
    ensures last { touched 18446744073709551614 ≡ 18446744073709551615 }
    ensures greatest { touched 18446744073709551615 ≡ 18446744073709551615 }
{}

/// The content of places that are written out: what is vacant isn't content, and all else is, in its order. The
/// places of entries hold all of them.
pub fn known_contents()
    ensures none { content_of vacant_places ≡ [] }
    ensures some { content_of three_places ≡ (1, 10) ∷ (4, 40) ∷ [] }
    ensures changed { content_of changed_places ≡ (3, 31) ∷ (4, 40) ∷ [] }
    ensures occupied { places_of two_entries ≡ (1, Some 10) ∷ (4, Some 40) ∷ [] }
{}

/// What calls make of entries that are written out, and find in them.
pub fn known_entries()
    // A new key goes between those below and above it, or at an end.
    ensures below { insert_entry nat_cmp two_entries 0 5 ≡ (0, 5) ∷ (1, 10) ∷ (4, 40) ∷ [] }
    ensures between { insert_entry nat_cmp two_entries 2 20 ≡ (1, 10) ∷ (2, 20) ∷ (4, 40) ∷ [] }
    ensures above { insert_entry nat_cmp two_entries 5 50 ≡ (1, 10) ∷ (4, 40) ∷ (5, 50) ∷ [] }

    // A key that is there gets the new value, and a vacant place one.
    ensures changed { insert_entry nat_cmp two_entries 1 11 ≡ (1, 11) ∷ (4, 40) ∷ [] }
    ensures filled { insert_entry nat_cmp three_places 2 (Some 20)
        ≡ (1, Some 10) ∷ (2, Some 20) ∷ (4, Some 40) ∷ [] }

    // A key that is taken out is gone, and no other is.
    ensures taken_out { remove_entry (is_at (nat_cmp 1)) two_entries ≡ (4, 40) ∷ [] }
    ensures absent { remove_entry (is_at (nat_cmp 2)) two_entries ≡ (1, 10) ∷ (4, 40) ∷ [] }

    // The value at a key is its own, and a key between two has none.
    ensures found { lookup (is_at (nat_cmp 4)) two_entries ≡ Some 40 }
    ensures none { lookup (is_at (nat_cmp 3)) two_entries ≡ None }

    // At or above a key is the key itself, and above it the next.
    ensures at_or_above { find (λ e. is_le (nat_cmp 1 e.0)) two_entries ≡ Some (1, 10) }
    ensures strictly_above { find (λ e. is_lt (nat_cmp 1 e.0)) two_entries ≡ Some (4, 40) }
    ensures past_the_last { find (λ e. is_lt (nat_cmp 4 e.0)) two_entries ≡ None }
{}

/// Changes of a map that are written out, as they are taken back: the newest first.
pub fn known_changes()
    ensures undone { undone nat_cmp three_changes changed_places ≡ (1, Some 10) ∷ (4, Some 40) ∷ [] }
    ensures one { undone nat_cmp ((1, Some (Some 10)) ∷ []) changed_places
        ≡ (1, Some 10) ∷ (3, Some 31) ∷ (4, Some 40) ∷ [] }
    ensures past { pasts nat_cmp three_changes changed_places
        ≡ ((1, Some 10) ∷ (3, Some 31) ∷ (4, Some 40) ∷ [])
        ∷ ((1, Some 10) ∷ (3, Some 30) ∷ (4, Some 40) ∷ [])
        ∷ ((1, Some 10) ∷ (4, Some 40) ∷ [])
        ∷ [] }
    ensures nothing { undone nat_cmp [] changed_places ≡ changed_places }
{}

/// The places that are cleared when a map is settled: the vacant ones, and no others.
pub fn known_clearings()
    ensures vacant { cleared nat_cmp 2 three_places ≡ (1, Some 10) ∷ (4, Some 40) ∷ [] }
    ensures occupied { cleared nat_cmp 1 three_places ≡ three_places }
    ensures absent { cleared nat_cmp 3 three_places ≡ three_places }
{}
