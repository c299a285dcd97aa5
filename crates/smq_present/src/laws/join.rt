//! Laws of what became of messages: whose keys theirs are, what a fact rests on and what a change leaves, and known
//! outcomes.
ghost use Rattle.std.specs.Prelude.{◌≡◌, ◌≢◌, ℕ, ◌+◌, ◌<◌, ◌≤◌, nat_le, ◌↔◌, ◌⊎◌, ◌++◌, ◌∷◌, [], List, Some, None, IsTrue, is_some, map, option_map, pos, ◌-ℤ◌};
ghost use Rattle.std.specs.FinMap as fin;
ghost use Rattle.smq_kit.specs.Maps.{SameOutside, patched};
ghost use Rattle.smq_kit.specs.declared.link_key.LinkKey.{LinkKey};
ghost use Rattle.smq_route.specs.Versions.{Versions, route_at};
ghost use Rattle.smq_present.specs.known.Join.{KnownLapses, KnownOutcomes, KnownReceipts};
ghost use Rattle.smq_tally.specs.Bands.{band_of};
ghost use Rattle.smq_tally.specs.Rows.{outcome_rank};
ghost use Rattle.smq_present.specs.present.Settings.{SettingsValue, with_versions, with_clock, forms_of};
ghost use Rattle.smq_present.specs.pairing.Traffic.{Message, ReceivedReceipt, TrafficValue};
ghost use Rattle.smq_present.specs.join.Circumstances.{Circumstances, circumstances, route_in, window_of};
ghost use Rattle.smq_present.specs.join.Facts.{fact_in_circumstances, facts_of, with_route, with_lapse};
ghost use Rattle.smq_present.specs.join.Keyed.{accepted_key, grouping_of, receipt_key};
ghost use Rattle.smq_group.specs.Matching.{Grouping};
ghost use Rattle.smq_present.specs.join.Moves.{IsMove, changes_of, standings_of, put_message, take_message, put_receipt, take_receipt, receipt_standings_of, receipt_changes_of};
ghost use Rattle.smq_present.specs.join.Outcomes.{outcome_table, last_outcome};
ghost use Rattle.smq_kit.specs.declared.names.LinkId.{LinkId};
ghost use Rattle.smq_kit.specs.declared.place.Place.{Place};
ghost use Rattle.smq_frame.specs.Stream.{values};
ghost use Rattle.smq_present.specs.join.Listings.{notes_of, receipt_listings};

use crate::{Fact, Outcome};
use smq_kit::{LinkId, Place};

/// The key with which a message is accepted, and that of a receipt, is of its own link: ids of two links never meet.
pub fn keys_are_of_their_link()
    ensures messages { (s : SettingsValue) (m : Message) (key : LinkKey)
        → accepted_key s m ≡ Some key → key.link ≡ m.link }
    ensures receipts { (s : SettingsValue) (r : ReceivedReceipt) → (receipt_key s r).link ≡ r.link }
{}

/// There is a fact of each message and of nothing else, and it stands at its message's place.
pub fn each_message_has_its_fact()
    ensures each { (s : SettingsValue) (t : TrafficValue) (place : Place)
        → fin.get (facts_of s t) place
        ≡ option_map (λ m. fact_in_circumstances place m (circumstances s t m)) (fin.get t.messages place) }
    ensures place { (s : SettingsValue) (t : TrafficValue) (place : Place) (fact : Fact)
        → fin.get (facts_of s t) place ≡ Some fact → fact.place ≡ place }
{}

/// The same message in the same circumstances gives the same fact, whatever else is set or present.
pub fn facts_rest_on_circumstances()
    ensures { (s z : SettingsValue) (t u : TrafficValue) (place : Place)
        → fin.get t.messages place ≡ fin.get u.messages place
        → ((m : Message) → fin.get t.messages place ≡ Some m
        → circumstances s t m ≡ circumstances z u m)
        → fin.get (facts_of s t) place ≡ fin.get (facts_of z u) place }
{}

/// Where one message or one receipt is put in or taken out, the facts of all other places stay but those of messages
/// whose standing it changes.
pub fn moves_leave_other_facts()
    ensures moves { (s : SettingsValue) (q : Place) (t u : TrafficValue) (places : List Place)
        → IsMove q t u
        → SameOutside places (standings_of (grouping_of s t)) (standings_of (grouping_of s u))
        → patched (facts_of s t) (fin.get (facts_of s u)) (q ∷ places) ≡ facts_of s u }
    ensures changes { (g h : Grouping)
        → SameOutside (changes_of g h) (standings_of g) (standings_of h) }
    ensures put_message { (q : Place) (m : Message) (t : TrafficValue)
        → fin.get t.receipts q ≡ None → IsMove q t (put_message q m t) }
    ensures take_message { (q : Place) (t : TrafficValue)
        → fin.get t.receipts q ≡ None → IsMove q t (take_message q t) }
    ensures put_receipt { (q : Place) (r : ReceivedReceipt) (t : TrafficValue)
        → fin.get t.receipts q ≡ None → IsMove q t (put_receipt q r t) }
    ensures take_receipt { (q : Place) (t : TrafficValue) → IsMove q t (take_receipt q t) }
{}

/// The forms of a link alone change no fact where none of its messages and receipts is present.
pub fn forms_of_other_links_are_idle()
    ensures { (s z : SettingsValue) (t : TrafficValue) (link : LinkId)
        → s.windows ≡ z.windows → s.versions ≡ z.versions → s.clock ≡ z.clock
        → ((other : LinkId) → other ≢ link → forms_of s other ≡ forms_of z other)
        → ((q : Place) (m : Message) → fin.get t.messages q ≡ Some m → m.link ≢ link)
        → ((q : Place) (r : ReceivedReceipt) → fin.get t.receipts q ≡ Some r → r.link ≢ link)
        → facts_of s t ≡ facts_of z t }
{}

/// The versions of routes change a fact by its route and network alone, and not at all where the number of its message has
/// the same route and network at the message's moment.
pub fn versions_change_routes_alone()
    ensures routed { (s : SettingsValue) (versions : Versions) (t : TrafficValue) (place : Place)
        → fin.get (facts_of (with_versions s versions) t) place
        ≡ option_map (λ m. with_route (route_in versions m) (fact_in_circumstances place m (circumstances s t m)))
        (fin.get t.messages place) }
    ensures rest { (s : SettingsValue) (versions : Versions) (t : TrafficValue) (place : Place)
        → option_map (with_route None) (fin.get (facts_of (with_versions s versions) t) place)
        ≡ option_map (with_route None) (fin.get (facts_of s t) place) }
    ensures same { (s : SettingsValue) (versions : Versions) (t : TrafficValue) (place : Place)
        → ((m : Message) → fin.get t.messages place ≡ Some m
        → route_in versions m ≡ route_in s.versions m)
        → fin.get (facts_of (with_versions s versions) t) place ≡ fin.get (facts_of s t) place }
{}

/// The clock changes open and lapsed messages alone, and their outcomes alone: such a message is lapsed where the clock is
/// at the end of its window or past it, and open before. No fact changes between clocks that are past the same ends.
pub fn clock_lapses_open_messages_alone()
    ensures lapsed { (s : SettingsValue) (clock : ℕ) (t : TrafficValue) (place : Place)
        → fin.get (facts_of (with_clock s clock) t) place
        ≡ option_map (λ m. with_lapse (nat_le (m.moment + window_of s m.link) clock)
        (fact_in_circumstances place m (circumstances s t m))) (fin.get t.messages place) }
    ensures others { (s : SettingsValue) (clock : ℕ) (t : TrafficValue) (place : Place)
        (fact : Fact)
        → fin.get (facts_of s t) place ≡ Some fact
        → fact.outcome ≢ Outcome.Open → fact.outcome ≢ Outcome.Lapsed
        → fin.get (facts_of (with_clock s clock) t) place ≡ Some fact }
    ensures same { (s : SettingsValue) (clock : ℕ) (t : TrafficValue) (place : Place)
        → ((m : Message) → fin.get t.messages place ≡ Some m
        → nat_le (m.moment + window_of s m.link) clock
        ≡ nat_le (m.moment + window_of s m.link) s.clock)
        → fin.get (facts_of (with_clock s clock) t) place ≡ fin.get (facts_of s t) place }
{}

/// A lapsed message has come to the end of its window, and an open one hasn't.
pub fn messages_lapse_at_the_end_of_their_window()
    ensures lapsed { (s : SettingsValue) (t : TrafficValue) (place : Place) (m : Message)
        (fact : Fact)
        → fin.get t.messages place ≡ Some m → fin.get (facts_of s t) place ≡ Some fact
        → fact.outcome ≡ Outcome.Lapsed → m.moment + window_of s m.link ≤ s.clock }
    ensures is_open { (s : SettingsValue) (t : TrafficValue) (place : Place) (m : Message)
        (fact : Fact)
        → fin.get t.messages place ≡ Some m → fin.get (facts_of s t) place ≡ Some fact
        → fact.outcome ≡ Outcome.Open → s.clock < m.moment + window_of s m.link }
{}

/// A message has a delay on its link exactly where it was delivered or failed: the band of the ms from its moment to that
/// of the receipt that decides. It has a delay at the centre there alone, exactly where that receipt gives one: its band.
pub fn delays_are_of_decided_messages()
    ensures exactly { (place : Place) (m : Message) (c : Circumstances)
        → IsTrue (is_some (fact_in_circumstances place m c).link_delay)
        ↔ (((fact_in_circumstances place m c).outcome ≡ Outcome.Delivered)
        ⊎ ((fact_in_circumstances place m c).outcome ≡ Outcome.Failed)) }
    ensures values { (place : Place) (m : Message) (c : Circumstances) (r : ReceivedReceipt)
        → c.decider ≡ Some r → IsTrue (is_some (fact_in_circumstances place m c).link_delay)
        → ((fact_in_circumstances place m c).link_delay ≡ Some (band_of (pos r.moment -ℤ pos m.moment)))
        × ((fact_in_circumstances place m c).centre_delay ≡ option_map band_of r.receipt.centre_delay) }
    ensures centre { (place : Place) (m : Message) (c : Circumstances)
        → IsTrue (is_some (fact_in_circumstances place m c).centre_delay)
        → IsTrue (is_some (fact_in_circumstances place m c).link_delay) }
{}

/// A message without a number has neither route nor network, and one with a number those that it has at the moment of the
/// message.
pub fn routes_are_of_the_moment()
    ensures no_number { (versions : Versions) (m : Message)
        → m.number ≡ None → route_in versions m ≡ None }
    ensures number { (versions : Versions) (m : Message) (number : List ℕ) → m.number ≡ Some number
        → route_in versions m ≡ route_at versions number m.moment }
    ensures fact { (s : SettingsValue) (t : TrafficValue) (place : Place) (m : Message) (fact : Fact)
        → fin.get t.messages place ≡ Some m → fin.get (facts_of s t) place ≡ Some fact
        → fact.route ≡ route_in s.versions m }
{}

/// The outcomes stand in the order of their table, in which reports print them.
pub fn outcomes_are_in_order()
    ensures { (m : Message) (c : Circumstances)
        → map (λ row. outcome_rank row.1) (outcome_table m c) ++ outcome_rank last_outcome ∷ []
        ≡ 0 ∷ 1 ∷ 2 ∷ 3 ∷ 4 ∷ 5 ∷ 6 ∷ 7 ∷ 8 ∷ 9 ∷ [] }
{}

/// What became of messages that are written out.
#[tactic(auto, unfolding(smq_pdu::specs::Pairing::nth_index), using(crate::proofs::lemmas::join::KnownFacts::known))]
pub fn outcomes_of_known_submits()
    ensures { KnownOutcomes }
{}

/// When messages that are written out lapse, by a window of their own link, and by one of another.
#[tactic(auto, unfolding(smq_pdu::specs::Pairing::nth_index), using(crate::proofs::lemmas::join::KnownFacts::known))]
pub fn known_submits_lapse_by_their_windows()
    ensures { KnownLapses }
{}

/// What receipts that are written out make of messages. Each receipt is of the id `1`, which `accepted` gives, but for those
/// under forms.
#[tactic(auto, unfolding(smq_pdu::specs::Pairing::nth_index), using(crate::proofs::lemmas::join::KnownFacts::known))]
pub fn receipts_decide_known_submits()
    ensures { KnownReceipts }
{}

/// Where the traffic notes the same, the notes are one but for those of the receipts whose standings differ, in the three
/// lists of receipts. A receipt that is put in or taken out is one of these.
pub fn notes_follow_the_standings_of_receipts()
    ensures outside { (s z : SettingsValue) (t u : TrafficValue) (places : List Place)
        → t.notes ≡ u.notes
        → SameOutside places (receipt_standings_of (grouping_of s t))
        (receipt_standings_of (grouping_of z u))
        → SameOutside (receipt_listings places) (notes_of s t) (notes_of z u) }
    ensures patched { (s z : SettingsValue) (t u : TrafficValue) (places : List Place)
        → t.notes ≡ u.notes
        → SameOutside places (receipt_standings_of (grouping_of s t))
        (receipt_standings_of (grouping_of z u))
        → patched (notes_of s t) (fin.get (notes_of z u)) (receipt_listings places)
        ≡ notes_of z u }
    ensures changes { (g h : Grouping)
        → SameOutside (receipt_changes_of g h) (receipt_standings_of g) (receipt_standings_of h) }
{}
