//! Laws of the whole: two statements of the same figures, the delivery receipts that are listed, and a known book.
ghost use Rattle.std.specs.Prelude.{◌≡◌, ◌+◌, ◌↔◌, ◌⊎◌, Bool, Contains, filter, length};
ghost use Rattle.std.specs.FinMap as fin;
ghost use Rattle.smq_present.specs.known.Dealt.{KnownParts};
ghost use Rattle.smq_present.specs.known.Join.{KnownListings};
ghost use Rattle.smq_present.specs.known.Whole.{KnownFigures};
ghost use Rattle.smq_present.specs.present.Present.{PresentValue};
ghost use Rattle.smq_present.specs.present.Settings.{SettingsValue};
ghost use Rattle.smq_present.specs.pairing.Traffic.{TrafficValue, traffic_of};
ghost use Rattle.smq_tally.specs.Lists.{listed};
ghost use Rattle.smq_tally.specs.Tables.{count_at, listed_in};
ghost use Rattle.smq_present.specs.join.Facts.{facts_of};
ghost use Rattle.smq_present.specs.join.Keyed.{grouping_of};
ghost use Rattle.smq_present.specs.join.Listings.{receipt_notes};
ghost use Rattle.smq_group.specs.Matching.{Grouping, IsStray, HasSharedKey, IsExtra};
ghost use Rattle.smq_present.specs.whole.Dealt.{tables_from, dealt, other_places, KeepsKeysTogether};
ghost use Rattle.smq_present.specs.whole.Links.{of_links, other_links};
ghost use Rattle.smq_present.specs.whole.Scratch.{scratch};
ghost use Rattle.smq_present.specs.within.Lists.{facts_listed, receipt_notes_listed, tables_listed};

use crate::{List, Outcome, Value, View};
use smq_kit::{LinkId, Place};

/// What is known of messages by place is what lists over all sessions say, which are stated apart: of responses by their
/// places in a direction, of single keys by counting in a list, of deciding receipts by the least of a list. So are the
/// delivery receipts that are listed, and the tables.
pub fn lists_say_the_same()
    ensures facts { (p : PresentValue)
        → fin.values (facts_of p.settings (traffic_of p.sessions)) ≡ facts_listed p }
    ensures receipts { (p : PresentValue)
        → receipt_notes (grouping_of p.settings (traffic_of p.sessions)) ≡ receipt_notes_listed p }
    ensures tables { (p : PresentValue) → scratch p ≡ tables_listed p }
{}

/// A delivery receipt is listed as a stray exactly where no message is accepted with its key, as ambiguous exactly where
/// messages at two places are, and as extra exactly where one message alone is, it can decide and another one does.
pub fn receipts_are_listed_by_their_matches()
    ensures stray { (g : Grouping) (place : Place)
        → Contains (receipt_notes g) (listed List.StrayReceipts place) ↔ IsStray g place }
    ensures ambiguous { (g : Grouping) (place : Place)
        → Contains (receipt_notes g) (listed List.AmbiguousReceipts place)
        ↔ HasSharedKey g place }
    ensures extra { (g : Grouping) (place : Place)
        → Contains (receipt_notes g) (listed List.ExtraReceipts place) ↔ IsExtra g place }
{}

/// The tables of what is present show in the lists of receipts exactly these receipts.
pub fn tables_list_receipts_by_their_matches()
    ensures stray { (p : PresentValue) (place : Place)
        → Contains (listed_in (scratch p) List.StrayReceipts) place
        ↔ IsStray (grouping_of p.settings (traffic_of p.sessions)) place }
    ensures ambiguous { (p : PresentValue) (place : Place)
        → Contains (listed_in (scratch p) List.AmbiguousReceipts) place
        ↔ HasSharedKey (grouping_of p.settings (traffic_of p.sessions)) place }
    ensures extra { (p : PresentValue) (place : Place)
        → Contains (listed_in (scratch p) List.ExtraReceipts) place
        ↔ IsExtra (grouping_of p.settings (traffic_of p.sessions)) place }
{}

/// Messages of different links never meet: however the links are split in two, each count is the sum of the counts of both
/// parts, each with all sessions of its links, under the same settings.
pub fn counts_split_by_link()
    ensures { (p : PresentValue) (here : LinkId → Bool)
        (view : View) (value : Value) (outcome : Outcome)
        → count_at (scratch p) view value outcome
        ≡ count_at (scratch (of_links here p)) view value outcome
        + count_at (scratch (of_links (other_links here) p)) view value outcome }
{}

/// Likewise a place is in a list exactly where it is in that of one part or of the other.
pub fn lists_split_by_link()
    ensures { (p : PresentValue) (here : LinkId → Bool) (list : List) (place : Place)
        → Contains (listed_in (scratch p) list) place
        ↔ (Contains (listed_in (scratch (of_links here p)) list) place
        ⊎ Contains (listed_in (scratch (of_links (other_links here) p)) list) place) }
{}

/// The tables of what is present are those of its traffic, under what is set.
pub fn present_tables_are_of_traffic()
    ensures { (p : PresentValue) → scratch p ≡ tables_from p.settings (traffic_of p.sessions) }
{}

/// Messages meet delivery receipts by key alone: however traffic is dealt to two parts by place, if no accepted message and
/// no receipt is parted from another with its key, each count is the sum of the counts of both parts, under the same
/// settings. A part that is dealt in the same way is two parts again (`parts_keep_keys_together`), so the law holds of any
/// number of them.
pub fn counts_deal_by_key()
    ensures { (s : SettingsValue) (t : TrafficValue) (here : Place → Bool)
        → KeepsKeysTogether s t here
        → (view : View) (value : Value) (outcome : Outcome)
        → count_at (tables_from s t) view value outcome
        ≡ count_at (tables_from s (dealt here t)) view value outcome
        + count_at (tables_from s (dealt (other_places here) t)) view value outcome }
{}

/// Likewise each list of a part is that of the whole, less the places of the other part: a place is in a list exactly where
/// it is in that of one part or of the other, and the list is as long as these together.
pub fn lists_deal_by_key()
    ensures parts { (s : SettingsValue) (t : TrafficValue) (here : Place → Bool)
        → KeepsKeysTogether s t here → (list : List)
        → listed_in (tables_from s (dealt here t)) list
        ≡ filter here (listed_in (tables_from s t) list) }
    ensures places { (s : SettingsValue) (t : TrafficValue) (here : Place → Bool)
        → KeepsKeysTogether s t here → (list : List) (place : Place)
        → Contains (listed_in (tables_from s t) list) place
        ↔ (Contains (listed_in (tables_from s (dealt here t)) list) place
        ⊎ Contains (listed_in (tables_from s (dealt (other_places here) t)) list) place) }
    ensures lengths { (s : SettingsValue) (t : TrafficValue) (here : Place → Bool)
        → KeepsKeysTogether s t here → (list : List)
        → length (listed_in (tables_from s t) list)
        ≡ length (listed_in (tables_from s (dealt here t)) list)
        + length (listed_in (tables_from s (dealt (other_places here) t)) list) }
{}

/// A test that keeps the keys of traffic together keeps those of each part together, so a part may be dealt again.
pub fn parts_keep_keys_together()
    ensures { (s : SettingsValue) (t : TrafficValue) (here there : Place → Bool)
        → KeepsKeysTogether s t there → KeepsKeysTogether s (dealt here t) there }
{}

/// What is counted of traffic that is written out, two messages and a receipt of the first, and of its parts: by key their
/// counts add, and where the receipt is parted from its message they don't.
pub fn parts_of_known_traffic()
    ensures { KnownParts }
{}

/// Delivery receipts that are written out, in their lists. Each is of the id `1`, but for those under forms.
#[tactic(auto, unfolding(smq_pdu::specs::Pairing::nth_index), using(crate::proofs::lemmas::join::KnownListings::listings_known))]
pub fn known_receipts_are_listed()
    ensures { KnownListings }
{}

/// What is known and counted of a book whose octets are written out: a message whose two receipts of one moment stand in
/// two sessions is decided by the earlier place; one is decided by a receipt of another session; two of another link, whose
/// ids are taken verbatim, share an id; one lapses at the clock. Of two messages to one number the first has a route at its
/// moment, at which it begins, and the second none, at whose moment it has ended; the others have no number.
pub fn figures_of_a_known_book()
    ensures { KnownFigures }
{}
