//! Laws of edits: outside which places an edit changes nothing, and what it takes out and puts in there.
ghost use Rattle.std.specs.Prelude.{◌≡◌, ◌≢◌, ◌+◌, ◌*◌, ◌≤◌, ℕ, false, not, List, [], ◌∷◌, ◌||◌, if◌then◌else◌, length, Some, None, option_map, ◌<◌, nat_le};
ghost use Rattle.std.specs.FinMap as fin;
ghost use Rattle.std.specs.List.{list_any};
ghost use Rattle.std.specs.Ordering.{nat_cmp, eq_by_cmp};
ghost use Rattle.smq_kit.specs.Maps.{SameOutside, patched};
ghost use Rattle.smq_kit.specs.declared.message_id.Form.{Form};
ghost use Rattle.smq_kit.specs.declared.link_key.LinkKey.{LinkKey};
ghost use Rattle.smq_kit.specs.declared.names.LinkId.{LinkId};
ghost use Rattle.smq_kit.specs.declared.names.RouteId.{RouteId};
ghost use Rattle.smq_kit.specs.declared.place.Place.{Place};
ghost use Rattle.smq_kit.specs.Orders.{place_cmp};
ghost use Rattle.smq_group.specs.declared.change.Change.{Change};
ghost use Rattle.smq_group.specs.declared.change.Standing.{Standing};
ghost use Rattle.smq_group.specs.Changes.{TellsChanges, told_at};
ghost use Rattle.smq_pair.specs.declared.pairing.Pair.{Pair};
ghost use Rattle.smq_pair.specs.Growth.{AreInOrder, is_among};
ghost use Rattle.smq_pair.specs.Pairing.{PairingValue, pair_at};
ghost use Rattle.smq_tally.specs.declared.list.List as l;
ghost use Rattle.smq_tally.specs.declared.list.Listed.{Listed};
ghost use Rattle.smq_tally.specs.Lists.{listed};
ghost use Rattle.smq_frame.specs.Stream.{Octet, values};
ghost use Rattle.smq_frame.specs.Tail.{tail_of};
ghost use Rattle.smq_route.specs.Edits.{added, changed};
ghost use Rattle.smq_route.specs.Versions.{Versions};
ghost use Rattle.smq_route.specs.declared.version.Version.{Version};
ghost use Rattle.smq_present.specs.declared.present.session.Session.{Session as SessionValue};
ghost use Rattle.smq_present.specs.declared.present.edit.Edit.TheVariants.{Append, Withdraw, SetForm, SetWindow, AddRoute, EndRoute, CorrectRoute, Advance};
ghost use Rattle.smq_present.specs.declared.present.kept.StoredPdu.{StoredPdu};
ghost use Rattle.smq_present.specs.present.Kept.{kept_pdus};
ghost use Rattle.smq_present.specs.present.Batch.{BatchValue};
ghost use Rattle.smq_present.specs.present.Present.{PresentValue, octets_in, session_of};
ghost use Rattle.smq_present.specs.present.Replies.{reply};
ghost use Rattle.smq_present.specs.present.Settings.{SettingsValue, opening_window, forms_of, window_if_set, window_in, with_versions, with_clock, with_windows};
ghost use Rattle.smq_present.specs.present.Steps.{session_after, step, with_window};
ghost use Rattle.smq_present.specs.pairing.Traffic.{Message, Origin, ReceivedReceipt, TrafficValue, mismatched, session_messages, session_receipts, traffic_of};
ghost use Rattle.smq_present.specs.join.Circumstances.{window_of, circumstances};
ghost use Rattle.smq_present.specs.join.Facts.{fact_in_circumstances, facts_of, with_lapse};
ghost use Rattle.smq_present.specs.join.Keyed.{grouping_of};
ghost use Rattle.smq_present.specs.join.Listings.{notes_of, receipt_listings};
ghost use Rattle.smq_group.specs.Matching.{Grouping};
ghost use Rattle.smq_present.specs.join.Moves.{IsMove, Move, standings_of, receipt_standings_of, moved_by};
ghost use Rattle.smq_book.specs.edits.Reached.{link_messages, link_receipts, link_takes, link_puts, without_link, key_submits, key_receipts, IsMoveOf, IsOfKey, messages_under, messages_due_on, due_by, lapsing, is_due};
ghost use Rattle.smq_book.specs.edits.Appended.{answered, append_moves, append_places};
ghost use Rattle.smq_book.specs.edits.AppendedNotes.{append_notes};
ghost use Rattle.smq_book.specs.edits.InTurn.{AreFree, facts_changed, notes_changed};
ghost use Rattle.smq_book.specs.edits.Told.{circumstances_told, is_list_told, told_places};
ghost use Rattle.smq_book.specs.edits.Withdrawn.{withdrawal_moves};
ghost use Rattle.smq_book.specs.known.Appended.{KnownAppendNotes};
ghost use Rattle.smq_book.specs.known.Reach.{KnownReach};
ghost use Rattle.smq_book.specs.known.Touches.{KnownTouches};
ghost use Rattle.smq_book.specs.edits.Reach.{link_places, members, reach};

use crate::{Fact, Outcome};

/// An edit of routes changes no fact but those of messages whose numbers its prefix begins, and no note.
pub fn edits_of_routes_stay_under_their_prefix()
    ensures added { (s : SettingsValue) (t : TrafficValue) (prefix : List ℕ) (from : ℕ)
        (route : RouteId) (network : List ℕ)
        → SameOutside (fin.keys (messages_under prefix t)) (facts_of s t)
        (facts_of (with_versions s (added s.versions prefix from route network)) t) }
    ensures changed { (s : SettingsValue) (t : TrafficValue) (prefix : List ℕ) (from : ℕ)
        (f : Version → Version)
        → SameOutside (fin.keys (messages_under prefix t)) (facts_of s t)
        (facts_of (with_versions s (changed s.versions prefix from f)) t) }
    ensures notes { (s : SettingsValue) (t : TrafficValue) (versions : Versions)
        → notes_of (with_versions s versions) t ≡ notes_of s t }
{}

/// A clock that goes on changes no fact but those of open messages whose windows have ended by it: where there are none, no
/// fact at all. These are the messages that lapse. It changes no note.
pub fn advances_change_due_messages_alone()
    ensures due { (s : SettingsValue) (t : TrafficValue) (clock : ℕ) → s.clock ≤ clock
        → SameOutside (fin.keys (due_by s t clock)) (facts_of s t)
        (facts_of (with_clock s clock) t) }
    ensures none { (s : SettingsValue) (t : TrafficValue) (clock : ℕ) → s.clock ≤ clock
        → fin.keys (due_by s t clock) ≡ [] → facts_of (with_clock s clock) t ≡ facts_of s t }
    ensures lapse { (s : SettingsValue) (t : TrafficValue) (clock : ℕ)
        → lapsing s (with_clock s clock) t ≡ due_by s t clock }
    ensures notes { (s : SettingsValue) (t : TrafficValue) (clock : ℕ)
        → notes_of (with_clock s clock) t ≡ notes_of s t }
{}

/// A window of a link changes no fact but those of the link's messages whose receipts are due, the open and the lapsed ones:
/// where there are none, no fact at all. It changes no note, and the same messages' receipts are due, as they are at any clock.
pub fn window_edits_stay_on_their_link()
    ensures facts { (s : SettingsValue) (windows : fin.FinMap nat_cmp ℕ) (link : LinkId)
        (t : TrafficValue)
        → ((other : LinkId) → other ≢ link → window_in windows other ≡ window_in s.windows other)
        → SameOutside (fin.keys (messages_due_on link s t)) (facts_of s t)
        (facts_of (with_windows s windows) t) }
    ensures inserted { (s : SettingsValue) (link : LinkId) (window : ℕ) (t : TrafficValue)
        → SameOutside (fin.keys (messages_due_on link s t)) (facts_of s t)
        (facts_of (with_window s link window) t) }
    ensures none { (s : SettingsValue) (link : LinkId) (window : ℕ) (t : TrafficValue)
        → fin.keys (messages_due_on link s t) ≡ []
        → facts_of (with_window s link window) t ≡ facts_of s t }
    ensures other_links { (s : SettingsValue) (link : LinkId) (window : ℕ) (t : TrafficValue)
        (place : Place) (m : Message)
        → fin.get t.messages place ≡ Some m → m.link ≢ link
        → fin.get (facts_of (with_window s link window) t) place ≡ fin.get (facts_of s t) place }
    ensures notes { (s : SettingsValue) (windows : fin.FinMap nat_cmp ℕ) (t : TrafficValue)
        → notes_of (with_windows s windows) t ≡ notes_of s t }
    ensures due { (s : SettingsValue) (windows : fin.FinMap nat_cmp ℕ) (clock : ℕ) (link : LinkId)
        (t : TrafficValue)
        → messages_due_on link (with_clock (with_windows s windows) clock) t
        ≡ messages_due_on link s t }
{}

/// A window of a link that is set back leaves everything as it was. Where one was set before, that one set back leaves what
/// was set. Where none was, the opening window leaves the window of each link, and all facts.
pub fn windows_set_back_leave_all_as_it_was()
    ensures settings { (s : SettingsValue) (link : LinkId) (window before : ℕ)
        → window_if_set s link.0 ≡ Some before
        → with_window (with_window s link window) link before ≡ s }
    ensures windows { (s : SettingsValue) (link : LinkId) (window : ℕ) (other : LinkId)
        → window_of (with_window (with_window s link window) link (window_of s link)) other
        ≡ window_of s other }
    ensures facts { (s : SettingsValue) (link : LinkId) (window : ℕ) (t : TrafficValue)
        → facts_of (with_window (with_window s link window) link (window_of s link)) t
        ≡ facts_of s t }
    ensures opening { (s : SettingsValue) (link : LinkId) (window : ℕ) (t : TrafficValue)
        → window_if_set s link.0 ≡ None
        → facts_of (with_window (with_window s link window) link opening_window) t ≡ facts_of s t }
{}

/// A window and a clock leave the same, whichever is set first, and the clock is answered alike. So do windows of two links;
/// of two windows of one link the later holds.
pub fn clocks_and_windows_commute()
    ensures settings { (s : SettingsValue) (windows : fin.FinMap nat_cmp ℕ) (clock : ℕ)
        → with_clock (with_windows s windows) clock ≡ with_windows (with_clock s clock) windows }
    ensures facts { (s : SettingsValue) (windows : fin.FinMap nat_cmp ℕ) (clock : ℕ)
        (t : TrafficValue)
        → facts_of (with_clock (with_windows s windows) clock) t
        ≡ facts_of (with_windows (with_clock s clock) windows) t }
    ensures replies { (p : PresentValue) (link : LinkId) (window clock : ℕ)
        → reply (step p (SetWindow link window)) (Advance clock) ≡ reply p (Advance clock) }
    ensures advances { (p : PresentValue) (link : LinkId) (window clock : ℕ)
        → step (step p (SetWindow link window)) (Advance clock)
        ≡ step (step p (Advance clock)) (SetWindow link window) }
    ensures links { (p : PresentValue) (one two : LinkId) (v w : ℕ) → one ≢ two
        → step (step p (SetWindow one v)) (SetWindow two w)
        ≡ step (step p (SetWindow two w)) (SetWindow one v) }
    ensures last { (p : PresentValue) (link : LinkId) (v w : ℕ)
        → step (step p (SetWindow link v)) (SetWindow link w) ≡ step p (SetWindow link w) }
{}

/// The forms of a link change no fact but those of its messages, and no note but those of its delivery receipts.
pub fn forms_change_their_link_alone()
    ensures facts { (s z : SettingsValue) (t : TrafficValue) (link : LinkId)
        → s.windows ≡ z.windows → s.versions ≡ z.versions → s.clock ≡ z.clock
        → ((other : LinkId) → other ≢ link → forms_of s other ≡ forms_of z other)
        → SameOutside (fin.keys (link_messages link t)) (facts_of s t) (facts_of z t) }
    ensures notes { (s z : SettingsValue) (t : TrafficValue) (link : LinkId)
        → s.windows ≡ z.windows → s.versions ≡ z.versions → s.clock ≡ z.clock
        → ((other : LinkId) → other ≢ link → forms_of s other ≡ forms_of z other)
        → SameOutside (receipt_listings (fin.keys (link_receipts link t))) (notes_of s t)
        (notes_of z t) }
{}

/// Where all of a link is taken out, nothing of it is left, and its forms change no fact, no key and no note. Put in again,
/// the traffic is as it was.
pub fn forms_are_set_while_their_link_is_out()
    ensures taken { (link : LinkId) (t : TrafficValue)
        → moved_by t (link_takes link t) ≡ without_link link t }
    ensures no_message { (link : LinkId) (t : TrafficValue) (q : Place) (m : Message)
        → fin.get (without_link link t).messages q ≡ Some m → m.link ≢ link }
    ensures no_receipt { (link : LinkId) (t : TrafficValue) (q : Place) (r : ReceivedReceipt)
        → fin.get (without_link link t).receipts q ≡ Some r → r.link ≢ link }
    ensures idle { (link : LinkId) (t : TrafficValue) (s z : SettingsValue)
        → s.windows ≡ z.windows → s.versions ≡ z.versions → s.clock ≡ z.clock
        → ((other : LinkId) → other ≢ link → forms_of s other ≡ forms_of z other)
        → (facts_of s (without_link link t) ≡ facts_of z (without_link link t))
        × (grouping_of s (without_link link t) ≡ grouping_of z (without_link link t))
        × (notes_of s (without_link link t) ≡ notes_of z (without_link link t)) }
    ensures again { (link : LinkId) (t : TrafficValue)
        → moved_by (without_link link t) (link_puts link t) ≡ t }
{}

/// What is put in or taken out at one place changes the standings of its own key alone: but for that place, the facts of
/// the messages that are accepted with the key, and the notes of its delivery receipts.
pub fn moves_change_their_key_alone()
    ensures messages { (key : LinkKey) (q : Place) (g h : Grouping) → IsMoveOf key q g h
        → SameOutside (q ∷ fin.keys (key_submits g key)) (standings_of g) (standings_of h) }
    ensures receipts { (key : LinkKey) (q : Place) (g h : Grouping) → IsMoveOf key q g h
        → SameOutside (q ∷ fin.keys (key_receipts g key)) (receipt_standings_of g)
        (receipt_standings_of h) }
    ensures moves { (s : SettingsValue) (q : Place) (t u : TrafficValue) (key : LinkKey)
        → IsMove q t u → IsOfKey s key t q → IsOfKey s key u q
        → IsMoveOf key q (grouping_of s t) (grouping_of s u) }
    ensures facts { (s : SettingsValue) (q : Place) (t u : TrafficValue) (key : LinkKey)
        → IsMove q t u → IsOfKey s key t q → IsOfKey s key u q
        → SameOutside (q ∷ fin.keys (key_submits (grouping_of s t) key)) (facts_of s t)
        (facts_of s u) }
    ensures notes { (s : SettingsValue) (q : Place) (t u : TrafficValue) (key : LinkKey)
        → IsMove q t u → IsOfKey s key t q → IsOfKey s key u q → t.notes ≡ u.notes
        → SameOutside (receipt_listings (q ∷ fin.keys (key_receipts (grouping_of s t) key)))
        (notes_of s t) (notes_of s u) }
{}

/// A PDU of the centre is the response to one message at most.
pub fn responses_answer_one_message()
    ensures { (origin : Origin) (client : List Octet) (centre : List StoredPdu) (next : StoredPdu)
        → length (answered origin (kept_pdus client) centre next) ≤ 1 }
{}

/// What a withdrawal leaves of the traffic is what it leaves where the messages, the delivery receipts and the notes of
/// its session are taken out.
pub fn withdrawals_take_what_their_session_says()
    ensures { (sessions : fin.FinMap nat_cmp SessionValue) (number : ℕ) (session : SessionValue)
        → fin.get sessions number ≡ Some session
        → moved_by (traffic_of sessions) (withdrawal_moves (number, session))
        ≡ traffic_of (fin.remove sessions number) }
{}

/// What the PDUs of a batch leave of the messages and the delivery receipts is what they leave where each PDU in turn puts
/// in its own, and takes out and puts in anew the messages to which it is the response.
pub fn appends_put_in_what_their_pdus_say()
    ensures { (sessions : fin.FinMap nat_cmp SessionValue) (batch : BatchValue)
        → batch.tail
        ≡ tail_of (values (octets_in batch.dir (fin.get sessions batch.session.0)))
        → record (traffic_of (fin.insert sessions batch.session.0
        (session_after (fin.get sessions batch.session.0) batch))) {
          notes = (traffic_of sessions).notes;
        }
        ≡ moved_by (traffic_of sessions)
        (append_moves (fin.get sessions batch.session.0) batch) }
{}

/// What the PDUs of a batch leave of the notes is what they leave where each PDU in turn puts in its own, and takes out that of
/// the PDU with which it makes a pair, and where at last the bad length is put in at which it leaves its direction broken.
pub fn appends_put_in_the_notes_of_their_pdus()
    ensures { (sessions : fin.FinMap nat_cmp SessionValue) (batch : BatchValue)
        → batch.tail
        ≡ tail_of (values (octets_in batch.dir (fin.get sessions batch.session.0)))
        → (traffic_of (fin.insert sessions batch.session.0
        (session_after (fin.get sessions batch.session.0) batch))).notes
        ≡ (moved_by (traffic_of sessions)
        (append_notes (fin.get sessions batch.session.0) batch)).notes }
{}

/// An append changes no note but at the places of the PDUs that its batch completes, at those of the PDUs with which they
/// are pairs, and at that of the bad length at which it leaves its direction broken.
pub fn appends_note_few_places()
    ensures { (sessions : fin.FinMap nat_cmp SessionValue) (batch : BatchValue) (note : Listed)
        → batch.tail
        ≡ tail_of (values (octets_in batch.dir (fin.get sessions batch.session.0)))
        → list_any (eq_by_cmp place_cmp note.place)
        (append_places (fin.get sessions batch.session.0) batch) ≡ false
        → fin.get (traffic_of sessions).notes note
        ≡ fin.get (traffic_of (fin.insert sessions batch.session.0
        (session_after (fin.get sessions batch.session.0) batch))).notes note }
{}

/// Moves in turn change the facts and the notes that each of them changes, and no other: of facts where no receipt stands at
/// the place of a message, or of a receipt that is put in.
pub fn moves_in_turn_change_what_each_changes()
    ensures facts { (s : SettingsValue) (t : TrafficValue) (moves : List Move) → AreFree t moves
        → SameOutside (facts_changed s t moves) (facts_of s t) (facts_of s (moved_by t moves)) }
    ensures notes { (s : SettingsValue) (t : TrafficValue) (moves : List Move)
        → SameOutside (notes_changed s t moves) (notes_of s t) (notes_of s (moved_by t moves)) }
{}

/// What groups tell of one place that is put in or taken out covers what it changes: facts stay but at that place and at
/// those of the submits that are told, and notes but for the lists of receipts there and at those of the receipts that are
/// told. So what stands there then makes the new facts and the new notes of the old ones.
pub fn told_changes_cover()
    ensures facts { (s : SettingsValue) (q : Place) (t u : TrafficValue) (changes : List Change)
        (tells : TellsChanges (grouping_of s t) (grouping_of s u) changes) → IsMove q t u
        → SameOutside (told_places q tells.submits) (facts_of s t) (facts_of s u) }
    ensures facts_patched { (s : SettingsValue) (q : Place) (t u : TrafficValue)
        (changes : List Change)
        (tells : TellsChanges (grouping_of s t) (grouping_of s u) changes) → IsMove q t u
        → patched (facts_of s t) (fin.get (facts_of s u)) (told_places q tells.submits)
        ≡ facts_of s u }
    ensures notes { (s : SettingsValue) (q : Place) (t u : TrafficValue) (changes : List Change)
        (tells : TellsChanges (grouping_of s t) (grouping_of s u) changes) → IsMove q t u
        → t.notes ≡ u.notes
        → SameOutside (receipt_listings (told_places q tells.receipts)) (notes_of s t)
        (notes_of s u) }
    ensures notes_patched { (s : SettingsValue) (q : Place) (t u : TrafficValue)
        (changes : List Change)
        (tells : TellsChanges (grouping_of s t) (grouping_of s u) changes) → IsMove q t u
        → t.notes ≡ u.notes
        → patched (notes_of s t) (fin.get (notes_of s u))
        (receipt_listings (told_places q tells.receipts)) ≡ notes_of s u }
{}

/// The standing that is told of a submit gives the fact at its place, with the receipt at the place that is told. That of a
/// receipt gives its notes: the list that is told, and those that the traffic notes there. Where no receipt stands, there
/// are no others.
pub fn told_standings_give_facts()
    ensures facts { (s : SettingsValue) (g : Grouping) (u : TrafficValue) (changes : List Change)
        (tells : TellsChanges g (grouping_of s u) changes) (place : Place) (standing : Standing)
        → told_at place tells.submits ≡ Some standing
        → fin.get (facts_of s u) place
        ≡ option_map (λ m. fact_in_circumstances place m (circumstances_told s u m standing))
        (fin.get u.messages place) }
    ensures notes { (s : SettingsValue) (g : Grouping) (u : TrafficValue) (changes : List Change)
        (tells : TellsChanges g (grouping_of s u) changes) (place : Place) (standing : Standing)
        (list : l.List)
        → told_at place tells.receipts ≡ Some standing
        → fin.get (notes_of s u) (listed list place)
        ≡ (if fin.contains_key u.notes (listed list place) || is_list_told standing list
        then Some tt else None) }
    ensures no_receipt { (s : SettingsValue) (u : TrafficValue) (place : Place) (list : l.List)
        → fin.get u.receipts place ≡ None
        → fin.get (notes_of s u) (listed list place) ≡ fin.get u.notes (listed list place) }
{}

/// A pair is noted as mismatched at its request exactly where it disagrees, and nowhere else; what stands in no pair isn't.
pub fn mismatched_pairs_are_noted_at_their_request()
    ensures request { (v : PairingValue) (place : Place) (pair : Pair) → AreInOrder v
        → pair_at v place ≡ Some pair → is_among pair.request (mismatched v) ≡ not pair.agrees }
    ensures elsewhere { (v : PairingValue) (place : Place) (pair : Pair) → AreInOrder v
        → pair_at v place ≡ Some pair → place ≢ pair.request → is_among place (mismatched v) ≡ false }
    ensures alone { (v : PairingValue) (place : Place) → pair_at v place ≡ None
        → is_among place (mismatched v) ≡ false }
{}

/// How many places an edit changes, against how much it reaches: an append the notes of twice as many at most, and of one
/// more; a withdrawal takes out as many messages and delivery receipts at most; forms change as many at most; a window, edits of
/// routes and a clock set exactly as many anew. What stands at one place changes the members of its key at most.
pub fn changed_places_are_bounded_by_reach()
    ensures appends { (p : PresentValue) (batch : BatchValue)
        → length (append_places (session_of p batch.session.0) batch)
        ≤ 2 * reach p (Append batch) + 1 }
    ensures withdraws { (p : PresentValue) (number : ℕ) (session : SessionValue)
        → session_of p number ≡ Some session
        → length (session_messages (number, session)) + length (session_receipts (number, session))
        ≤ reach p (Withdraw (record { 0 = number })) }
    ensures forms { (p : PresentValue) (link : LinkId) (response receipt : Form)
        → length (link_places link (traffic_of p.sessions))
        ≤ reach p (SetForm link response receipt) }
    ensures windows { (p : PresentValue) (link : LinkId) (window : ℕ)
        → length (fin.keys (messages_due_on link p.settings (traffic_of p.sessions)))
        ≡ reach p (SetWindow link window) }
    ensures adds { (p : PresentValue) (prefix : List ℕ) (from : ℕ) (route : RouteId)
        (network : List ℕ)
        → length (fin.keys (messages_under prefix (traffic_of p.sessions)))
        ≡ reach p (AddRoute prefix from route network) }
    ensures ends { (p : PresentValue) (prefix : List ℕ) (from until : ℕ)
        → length (fin.keys (messages_under prefix (traffic_of p.sessions)))
        ≡ reach p (EndRoute prefix from until) }
    ensures corrects { (p : PresentValue) (prefix : List ℕ) (from : ℕ) (route : RouteId)
        (network : List ℕ)
        → length (fin.keys (messages_under prefix (traffic_of p.sessions)))
        ≡ reach p (CorrectRoute prefix from route network) }
    ensures advances { (p : PresentValue) (clock : ℕ) → reply p (Advance clock) ≡ None
        → length (fin.keys (due_by p.settings (traffic_of p.sessions) clock))
        ≡ reach p (Advance clock) }
    ensures keys { (g : Grouping) (key : LinkKey)
        → length (fin.keys (key_submits g key)) + length (fin.keys (key_receipts g key))
        ≡ members g key }
{}

/// How much edits reach of a book of one message: its submit_sm, its response, a withdrawal of both, windows, routes and a
/// clock; and what is of its link.
pub fn known_edits_reach_so_much()
    ensures { KnownReach }
{}

/// How many touches edits of a book of one message add at most: its submit_sm, its response, a clock before its window ends and
/// one at the end, a window, and a withdrawal.
pub fn known_edits_touch_so_often()
    ensures { KnownTouches }
{}

/// What batches put into the notes and take out: a submit_sm, its response, one as another command, a stray, a response before
/// its request, and octets that can't all be read.
pub fn notes_of_known_appends()
    ensures { KnownAppendNotes }
{}

/// Windows change open and lapsed messages alone, and their outcomes alone: such a message is lapsed where the clock is at the
/// end of its link's window or past it, and open before. So a greater window opens a lapsed message again.
pub fn windows_lapse_and_open_messages_alone()
    ensures windowed { (s : SettingsValue) (windows : fin.FinMap nat_cmp ℕ) (t : TrafficValue)
        (place : Place)
        → fin.get (facts_of (with_windows s windows) t) place
        ≡ option_map (λ m. with_lapse (nat_le (m.moment + window_in windows m.link) s.clock)
        (fact_in_circumstances place m (circumstances s t m))) (fin.get t.messages place) }
    ensures others { (s : SettingsValue) (windows : fin.FinMap nat_cmp ℕ) (t : TrafficValue)
        (place : Place) (fact : Fact)
        → fin.get (facts_of s t) place ≡ Some fact → is_due fact.outcome ≡ false
        → fin.get (facts_of (with_windows s windows) t) place ≡ Some fact }
    ensures lapse { (s : SettingsValue) (windows : fin.FinMap nat_cmp ℕ) (t : TrafficValue)
        (place : Place) (m : Message) (fact : Fact)
        → fin.get t.messages place ≡ Some m → fin.get (facts_of s t) place ≡ Some fact
        → fact.outcome ≡ Outcome.Open → m.moment + window_in windows m.link ≤ s.clock
        → fin.get (facts_of (with_windows s windows) t) place
        ≡ Some (record fact { outcome = Outcome.Lapsed }) }
    ensures open_again { (s : SettingsValue) (windows : fin.FinMap nat_cmp ℕ) (t : TrafficValue)
        (place : Place) (m : Message) (fact : Fact)
        → fin.get t.messages place ≡ Some m → fin.get (facts_of s t) place ≡ Some fact
        → fact.outcome ≡ Outcome.Lapsed → s.clock < m.moment + window_in windows m.link
        → fin.get (facts_of (with_windows s windows) t) place
        ≡ Some (record fact { outcome = Outcome.Open }) }
{}
