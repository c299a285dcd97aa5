//! Laws of messages and delivery receipts by place: what each PDU says, and what one more changes.
ghost use Rattle.std.specs.Prelude.{◌≡◌, ◌↔◌, ◌⊎◌, ◌++◌, ◌∷◌, [], ℕ, Bool, true, IsTrue, List, Some, filter, length, slice_get, option_map, option_to_list, ◌+◌, None};
ghost use Rattle.std.specs.List.{flat_map};
ghost use Rattle.std.specs.FinMap as map;
ghost use Rattle.std.specs.Ordering.{nat_cmp};
ghost use Rattle.smq_kit.specs.Maps.{SameOutside};
ghost use Rattle.smq_kit.specs.declared.place.Dir.TheVariants.{FromClient, FromCentre};
ghost use Rattle.smq_kit.specs.Orders.{place_cmp};
ghost use Rattle.smq_frame.specs.Stream.{Octet, values, handed_in};
ghost use Rattle.smq_frame.specs.Tail.{tail_of};
ghost use Rattle.smq_pair.specs.Pairing.{pair_at, pair_of};
ghost use Rattle.smq_pdu.specs.Header.{Header};
ghost use Rattle.smq_pdu.specs.Pairing.{IsPair, is_request};
ghost use Rattle.smq_pdu.specs.declared.body.Submit.{Submit};
ghost use Rattle.smq_tally.specs.declared.list.List.TheVariants as list;
ghost use Rattle.smq_tally.specs.Lists.{listed};
ghost use Rattle.smq_present.specs.declared.present.session.Session.{Session as SessionValue};
ghost use Rattle.smq_present.specs.known.Pairing.{InTurn, KnownNotes};
ghost use Rattle.smq_present.specs.present.Content as Content;
ghost use Rattle.smq_present.specs.present.Kept.{header_of, headers_of, kept_pdus, submit_in};
ghost use Rattle.smq_present.specs.pairing.Dealt.{KeepsPairsTogether, pdus_taken, traffic_among};
ghost use Rattle.smq_present.specs.pairing.Places.{octets_at, StandsAt, Says};
ghost use Rattle.smq_present.specs.pairing.Pushes.{requests_of};
ghost use Rattle.smq_present.specs.pairing.Traffic.{Origin, place_of, placed, pairing_among, response_to, message_at, messages_among, notes_among, receipts_among, session_messages, session_receipts, traffic_of};
ghost use Rattle.smq_present.specs.whole.Dealt.{dealt};
ghost use Rattle.smq_present.specs.within.Pairs.{SubmitsAreRequests};
ghost use Rattle.smq_kit.specs.declared.place.Place.{Place};
ghost use Rattle.smq_present.specs.declared.present.kept.StoredPdu.{StoredPdu};

use crate::StoredPdu;
use smq_kit::Place;
use smq_receipt::Reading;

/// The response to a PDU of the client is that of its pair, by sequence number and rank, and that of each pair is found.
pub fn responses_are_those_of_pairs()
    ensures each { (before after centre : List StoredPdu) (p : StoredPdu) (j : ℕ) (response : Header)
        → IsPair (headers_of (before ++ p ∷ after)) (headers_of centre) (length before) j
        (header_of p) response
        → response_to centre before p ≡ slice_get centre j }
    ensures found { (before after centre : List StoredPdu) (p r : StoredPdu)
        → is_request (header_of p) ≡ true → response_to centre before p ≡ Some r
        → (j : ℕ) × (slice_get centre j ≡ Some r)
        × IsPair (headers_of (before ++ p ∷ after)) (headers_of centre) (length before) j
        (header_of p) (header_of r) }
{}

/// At the place of each submit_sm and data_sm of a client the pairs of its session have the one with the response of its
/// message, and none where that has none.
pub fn responses_stand_in_pairs()
    ensures { (origin : Origin) (client centre : List Octet) (before after : List StoredPdu)
        (p : StoredPdu) (submit : Submit)
        → kept_pdus client ≡ before ++ p ∷ after → submit_in p.content ≡ Some submit
        → pair_at (pairing_among origin (kept_pdus client) (kept_pdus centre))
        (place_of origin FromClient p)
        ≡ option_map (λ r. pair_of (placed origin FromClient p) (placed origin FromCentre r))
        (response_to (kept_pdus centre) before p) }
{}

/// Two requests of one sequence number have the two responses of it in turn, whatever their commands.
pub fn responses_come_in_turn()
    ensures first { (one two response later : StoredPdu) → InTurn one two response later
        → response_to (response ∷ later ∷ []) [] one ≡ Some response }
    ensures second { (one two response later : StoredPdu) → InTurn one two response later
        → response_to (response ∷ later ∷ []) (one ∷ []) two ≡ Some later }
{}

/// No message and no receipt shares its place with another, so none of a session is lost.
pub fn each_message_has_its_place()
    ensures messages { (sessions : map.FinMap nat_cmp SessionValue)
        → map.entries (traffic_of sessions).messages
        ≡ flat_map session_messages (map.entries sessions) }
    ensures receipts { (sessions : map.FinMap nat_cmp SessionValue)
        → map.entries (traffic_of sessions).receipts
        ≡ flat_map session_receipts (map.entries sessions) }
{}

/// One PDU more of the client is one message more at most, and leaves the others. One more of the
/// centre changes the messages to which it is the response, and no other.
pub fn pushes_change_few_messages()
    ensures client { (origin : Origin) (client centre : List StoredPdu) (next : StoredPdu)
        → messages_among origin (client ++ next ∷ []) centre
        ≡ messages_among origin client centre
        ++ option_to_list (message_at origin centre client next) }
    ensures centre { (origin : Origin) (client centre : List StoredPdu) (next : StoredPdu)
        → SameOutside {R = place_cmp} (requests_of origin client centre next)
        (map.from_entries (messages_among origin client centre))
        (map.from_entries (messages_among origin client (centre ++ next ∷ []))) }
{}

/// Where whole pairs are taken out of a session, what is taken says what it said: the messages of the PDUs that a test of
/// places takes, with their responses, are those of the whole at these places, and so are the delivery receipts and the
/// notes. So their traffic is that of the whole as it is dealt. That each submit_sm and data_sm is a request holds of any
/// stream.
pub fn pairs_stay_in_parts()
    ensures messages { (here : Place → Bool) (origin : Origin) (client centre : List StoredPdu)
        → SubmitsAreRequests client → KeepsPairsTogether here origin client centre
        → messages_among origin (pdus_taken here origin FromClient client)
        (pdus_taken here origin FromCentre centre)
        ≡ filter (λ e. here e.0) (messages_among origin client centre) }
    ensures receipts { (here : Place → Bool) (origin : Origin) (centre : List StoredPdu)
        → receipts_among origin (pdus_taken here origin FromCentre centre)
        ≡ filter (λ e. here e.0) (receipts_among origin centre) }
    ensures notes { (here : Place → Bool) (origin : Origin) (client centre : List StoredPdu)
        → KeepsPairsTogether here origin client centre
        → notes_among origin (pdus_taken here origin FromClient client)
        (pdus_taken here origin FromCentre centre)
        ≡ filter (λ note. here note.place) (notes_among origin client centre) }
    ensures traffic { (here : Place → Bool) (origin : Origin) (client centre : List StoredPdu)
        → SubmitsAreRequests client → KeepsPairsTogether here origin client centre
        → traffic_among origin (pdus_taken here origin FromClient client)
        (pdus_taken here origin FromCentre centre)
        ≡ dealt here (traffic_among origin client centre) }
    ensures requests { (stream : List Octet) → SubmitsAreRequests (kept_pdus stream) }
{}

/// Exactly these places are noted: as unreadable those of the centre's delivery receipts without a usable id or a usable
/// state, as undecodable those of the PDUs whose body can't be read, and as broken that of the bad length at which a
/// direction is broken, where it stays broken whatever comes after it.
pub fn unread_places_are_noted()
    ensures unreadable { (sessions : map.FinMap nat_cmp SessionValue) (place : Place)
        → IsTrue (map.contains_key (traffic_of sessions).notes (listed list.Unreadable place))
        ↔ ((p : StoredPdu) × StandsAt sessions place p × (place.dir ≡ FromCentre)
        × (Says p.content Reading.NoId ⊎ Says p.content Reading.NoState)) }
    ensures undecodable { (sessions : map.FinMap nat_cmp SessionValue) (place : Place)
        → IsTrue (map.contains_key (traffic_of sessions).notes (listed list.Undecodable place))
        ↔ ((p : StoredPdu) × StandsAt sessions place p × (p.content ≡ Content.Undecodable)) }
    ensures broken { (sessions : map.FinMap nat_cmp SessionValue) (place : Place)
        → IsTrue (map.contains_key (traffic_of sessions).notes (listed list.Broken place))
        ↔ ((tail_of (values (octets_at sessions place))).broken ≡ Some place.offset) }
    ensures stays { (stream : List Octet) (moment : ℕ) (piece : List ℕ) (offset : ℕ)
        → (tail_of (values stream)).broken ≡ Some offset
        → (tail_of (values (stream ++ handed_in moment piece))).broken ≡ Some offset }
{}

/// The notes of sessions that are written out: in each list, those of its client, then those of its centre.
pub fn notes_of_a_known_session()
    ensures { KnownNotes }
{}

/// Messages stand in the client's direction and delivery receipts in the centre's, so none stands at the other's place.
pub fn messages_and_receipts_stand_apart()
    ensures messages { (sessions : map.FinMap nat_cmp SessionValue) (place : Place)
        → place.dir ≡ FromCentre → map.get (traffic_of sessions).messages place ≡ None }
    ensures receipts { (sessions : map.FinMap nat_cmp SessionValue) (place : Place)
        → place.dir ≡ FromClient → map.get (traffic_of sessions).receipts place ≡ None }
{}
