//! Laws of the definitions that the contracts cite. No code calls these functions.
ghost use Rattle.std.specs.Prelude.{◌≡◌, ◌∷◌, [], Some, None, true, false};
ghost use Rattle.smq_pair.specs.Growth.{GrowsByOnePair, OrderIsIdle, pushed};
ghost use Rattle.smq_pair.specs.Laws.{FindsPairs, FindsEachPair, HasTwoPlaces};
ghost use Rattle.smq_pair.specs.Pairing.{pair_at, strays, waiting};
ghost use Rattle.smq_pair.specs.Known.{client_at, centre_at, pair_at_places, submit, two_requests, early_response, two_sides, notices, refused, other_command, other_number, both_ways, elsewhere};

/// The pair that is found at a place is one by sequence number and rank, and each such pair is found at both of its
/// places.
pub fn pairs_are_by_rank()
    ensures found { FindsPairs }
    ensures each { FindsEachPair }
{}

/// A pair that is found at a place is found at the place of its request and at that of its response, and at no other.
pub fn pairs_have_two_places()
    ensures { HasTwoPlaces }
{}

/// One PDU more makes one pair at most, and changes no other.
pub fn pairs_grow_by_one()
    ensures { GrowsByOnePair }
{}

/// It doesn't matter which of the two directions is read first.
pub fn order_of_directions_is_idle()
    ensures { OrderIsIdle }
{}

/// The pairs of sessions that are written out.
pub fn known_pairings()
    // The first of two requests of one number gets the response, and the second waits.
    ensures first { pair_at two_requests (client_at 0)
        ≡ Some (pair_at_places (client_at 0) (centre_at 0) true 0x45) }
    ensures second { pair_at two_requests (client_at 16) ≡ None }
    ensures second_waits { waiting two_requests ≡ client_at 16 ∷ [] }

    // A response may be read before its request.
    ensures early { strays early_response ≡ centre_at 0 ∷ [] }
    ensures late { pair_at (pushed early_response (submit (client_at 0) 7)) (centre_at 0)
        ≡ Some (pair_at_places (client_at 0) (centre_at 0) true 0x45) }
    ensures answered { strays (pushed early_response (submit (client_at 0) 7)) ≡ [] }

    // Requests of opposite directions are no pair: both wait, also an enquire_link.
    ensures no_pair { pair_at two_sides (client_at 0) ≡ None }
    ensures both_wait { waiting two_sides ≡ client_at 0 ∷ centre_at 0 ∷ [] }

    // outbind and alert_notification are neither requests nor responses.
    ensures none_waits { waiting notices ≡ [] }
    ensures no_stray { strays notices ≡ [] }

    // generic_nack is the response to a request of its number, and agrees with it; another command doesn't.
    ensures nack { pair_at refused (centre_at 0)
        ≡ Some (pair_at_places (client_at 0) (centre_at 0) true 3) }
    ensures disagrees { pair_at other_command (client_at 0)
        ≡ Some (pair_at_places (client_at 0) (centre_at 0) false 0) }

    // A response of another number is a stray.
    ensures stray { strays other_number ≡ centre_at 0 ∷ [] }
    ensures unanswered { waiting other_number ≡ client_at 0 ∷ [] }

    // Requests and responses of a direction are ranked apart.
    ensures ranked_apart { pair_at both_ways (client_at 32)
        ≡ Some (pair_at_places (client_at 32) (centre_at 16) true 0x45) }
    ensures own_stray { strays both_ways ≡ client_at 16 ∷ [] }

    // Nothing stands at a place that is no PDU's, or of another session.
    ensures between { pair_at two_requests (client_at 8) ≡ None }
    ensures elsewhere { pair_at two_requests elsewhere ≡ None }
{}
