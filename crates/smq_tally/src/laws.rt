//! Laws of counts and lists: what a count is, what one fact more changes, which places a list shows, and the orders in
//! which rows and places stand.
ghost use Rattle.std.specs.Prelude.{◌≡◌, ◌≢◌, ◌≤◌, ◌+◌, ◌∷◌, ◌↔◌, ◌⊎◌, [], ℕ, Option, Some, None, option_map, Contains, length, map, IsTrue};
ghost use Rattle.std.specs.Ordering.{nat_cmp};
ghost use Rattle.std.specs.List.Sorted.{IsStrictlySortedBy};
ghost use Rattle.std.specs.FinMap as fin;
ghost use Rattle.std.specs.FinSet.{FinSet};
ghost use Rattle.smq_kit.specs.Maps.{positive, set_at, share};
ghost use Rattle.smq_kit.specs.Orders.{place_cmp};
ghost use Rattle.smq_tally.specs.Bands.{band_rank};
ghost use Rattle.smq_tally.specs.Known.{known_keys, known_values, KnownDelays, KnownLists, KnownNames, KnownTables};
ghost use Rattle.smq_tally.specs.Lists.{lists, list_rank, listed, listed_cmp, HasOutcomeAt};
ghost use Rattle.smq_tally.specs.Rows.{views, view_rank, route_value, network_value, value_in, value_cmp, count_key, count_cmp, stands_in};
ghost use Rattle.smq_tally.specs.Tables.{TablesValue, tables_of, number_at, count_at, shown_cmp, rows_of, listed_in};
ghost use Rattle.smq_tally.specs.within.CountOrder.{kept_cmp, kept_band_cmp, kept_value_cmp, kept_value_eq};
ghost use Rattle.smq_tally.specs.within.Equal.{fact_eq, tables_eq};
ghost use Rattle.smq_tally.specs.within.ListOrder.{kept_listed_cmp};

use crate::{Band, CountKey, Fact, List, Listed, Outcome, Value, View};
use smq_kit::{LinkId, Network, Place, RouteId};
use std::cmp::Ordering;

/// A message is counted by its link, its route and its network, each a value or none, and by its error and its delays where
/// it has them: once in each view in which it has a value, under its outcome.
#[tactic(auto, using(crate::proofs::Standing::stands_once))]
pub fn messages_are_counted_once_in_a_view()
    ensures link { (fact : Fact) → value_in View.Link fact ≡ Some (Value.Link fact.link) }
    ensures route { (fact : Fact) → value_in View.Route fact ≡ Some (route_value fact.route) }
    ensures network { (fact : Fact) → value_in View.Network fact ≡ Some (network_value fact.route) }
    ensures error { (fact : Fact) → value_in View.Error fact ≡ option_map Value.Error fact.error }
    ensures link_delay { (fact : Fact)
        → value_in View.LinkDelay fact ≡ option_map Value.Band fact.link_delay }
    ensures centre_delay { (fact : Fact)
        → value_in View.CentreDelay fact ≡ option_map Value.Band fact.centre_delay }
    ensures a_route { (route : RouteId) (network : Network)
        → route_value (Some (route, network)) ≡ Value.Route route }
    ensures no_route { route_value None ≡ Value.NoRoute }
    ensures a_network { (route : RouteId) (network : Network)
        → network_value (Some (route, network)) ≡ Value.Network network }
    ensures no_network { network_value None ≡ Value.NoNetwork }
    ensures once { (fact : Fact) (view : View) (value : Value) (outcome : Outcome)
        → IsTrue (stands_in (count_key view value outcome) fact)
        ↔ ((value_in view fact ≡ Some value) × (fact.outcome ≡ outcome)) }
{}

/// A count is the number of the facts with this value in the view, and this outcome. A row stands where it isn't 0: the
/// rows that are shown of a view are its counts that aren't 0, and no others.
pub fn counts_are_numbers()
    ensures number { (facts : fin.FinMap place_cmp Fact) (notes : FinSet listed_cmp)
        (view : View) (value : Value) (outcome : Outcome)
        → count_at (tables_of facts notes) view value outcome
        ≡ number_at (count_key view value outcome) facts }
    ensures stands { (facts : fin.FinMap place_cmp Fact) (notes : FinSet listed_cmp)
        (view : View) (value : Value) (outcome : Outcome)
        → fin.get (tables_of facts notes).counts (count_key view value outcome)
        ≡ positive (number_at (count_key view value outcome) facts) }
    ensures shown { (facts : fin.FinMap place_cmp Fact) (notes : FinSet listed_cmp)
        (view : View) (value : Value) (outcome : Outcome) (n : ℕ)
        → Contains (rows_of (tables_of facts notes) view) (value, outcome, n)
        ↔ (positive (number_at (count_key view value outcome) facts) ≡ Some n) }
    ensures bound { (facts : fin.FinMap place_cmp Fact) (notes : FinSet listed_cmp)
        (view : View) (value : Value) (outcome : Outcome)
        → count_at (tables_of facts notes) view value outcome ≤ length (fin.values facts) }
{}

/// Where the fact at a place is put in, changed or taken out, each count after it and what the old fact counted is the
/// count before it and what the new fact counts.
pub fn one_fact_moves_its_counts()
    ensures { (facts : fin.FinMap place_cmp Fact) (notes : FinSet listed_cmp)
        (place : Place) (fact : Option Fact)
        (view : View) (value : Value) (outcome : Outcome)
        → count_at (tables_of (set_at facts place fact) notes) view value outcome
        + share (stands_in (count_key view value outcome)) (fin.get facts place)
        ≡ count_at (tables_of facts notes) view value outcome
        + share (stands_in (count_key view value outcome)) fact }
{}

/// `==` of tables says whether they are one.
pub fn equal_tables_are_one()
    ensures { (tables others : TablesValue)
        → IsTrue (tables_eq tables others) ↔ (tables ≡ others) }
{}

/// `==` of facts says whether they are one.
#[tactic(auto, using(crate::proofs::FactEquals::facts_decide))]
pub fn facts_are_told_apart()
    ensures { (a b : Fact) → IsTrue (fact_eq a b) ↔ (a ≡ b) }
{}

/// Values are ordered: links first, by number; then routes, by number, and none; then networks, by the octets of their
/// codes, and none; then refused messages, by status; then failed ones, by the order of error codes; then bands, by their
/// delays. They are equal exactly where they are one.
pub fn values_are_in_order()
    ensures order { (a b : Value) → kept_value_cmp a b ≡ value_cmp a b }
    ensures same { (a b : Value) → IsTrue (kept_value_eq a b) ↔ (a ≡ b) }
    ensures known { (link : LinkId) → IsStrictlySortedBy value_cmp (known_values link) }
{}

/// The rows of a view stand strictly in order of value, then outcome. Views are in the order of their table, and keys are
/// compared by view, value and outcome.
pub fn rows_are_in_order()
    ensures rows { (tables : TablesValue) (view : View)
        → IsStrictlySortedBy shown_cmp (rows_of tables view) }
    ensures order { (a b : CountKey) → kept_cmp a b ≡ count_cmp a b }
    ensures exact { (a b : CountKey) → count_cmp a b ≡ Ordering.Equal → a ≡ b }
    ensures known { IsStrictlySortedBy count_cmp known_keys }
    ensures views { map view_rank views ≡ 0 ∷ 1 ∷ 2 ∷ 3 ∷ 4 ∷ 5 ∷ [] }
{}

/// A list shows exactly the places that are listed there, strictly in order. Lists are in the order of their table, and
/// listed places are compared by list, then by place; they are equal exactly where they are one.
#[tactic(auto, using(crate::proofs::ListOrders::places_sorted))]
pub fn lists_are_in_order()
    ensures order { (a b : Listed) → kept_listed_cmp a b ≡ listed_cmp a b }
    ensures exact { (a b : Listed) → listed_cmp a b ≡ Ordering.Equal → a ≡ b }
    ensures lists { map list_rank lists
        ≡ 0 ∷ 1 ∷ 2 ∷ 3 ∷ 4 ∷ 5 ∷ 6 ∷ 7 ∷ 8 ∷ 9 ∷ 10 ∷ [] }
    ensures sorted { (tables : TablesValue) (list : List)
        → IsStrictlySortedBy place_cmp (listed_in tables list) }
    ensures members { (tables : TablesValue) (list : List) (place : Place)
        → Contains (listed_in tables list) place
        ↔ IsTrue (fin.contains_key tables.places (listed list place)) }
{}

/// A place is in the list of open messages exactly where it is noted there or a message at this place is open; likewise
/// where messages lapsed. In every other list are its notes alone.
pub fn open_and_lapsed_messages_are_listed()
    ensures open { (facts : fin.FinMap place_cmp Fact) (notes : FinSet listed_cmp) (place : Place)
        → Contains (listed_in (tables_of facts notes) List.Open) place
        ↔ (IsTrue (fin.contains_key notes (listed List.Open place))
        ⊎ HasOutcomeAt facts Outcome.Open place) }
    ensures lapsed { (facts : fin.FinMap place_cmp Fact) (notes : FinSet listed_cmp) (place : Place)
        → Contains (listed_in (tables_of facts notes) List.Lapsed) place
        ↔ (IsTrue (fin.contains_key notes (listed List.Lapsed place))
        ⊎ HasOutcomeAt facts Outcome.Lapsed place) }
    ensures others { (facts : fin.FinMap place_cmp Fact) (notes : FinSet listed_cmp)
        (list : List) (place : Place) → list ≢ List.Open → list ≢ List.Lapsed
        → Contains (listed_in (tables_of facts notes) list) place
        ↔ IsTrue (fin.contains_key notes (listed list place)) }
{}

/// Bands are in the order of their table, and delays at their ends have these.
pub fn bands_are_in_order()
    ensures order { (a b : Band) → kept_band_cmp a b ≡ nat_cmp (band_rank a) (band_rank b) }
    ensures known { KnownDelays }
{}

/// Listed places that are written out, in their order and by their lists.
pub fn known_lists()
    ensures { KnownLists }
{}

/// The views, lists, outcomes and bands in the order in which reports print them, and their names.
pub fn known_names()
    ensures { KnownNames }
{}

/// Counts of messages that are written out in each view, and places of lists.
pub fn known_tables()
    ensures { KnownTables }
{}
