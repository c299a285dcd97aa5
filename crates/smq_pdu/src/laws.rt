//! Laws of the definitions that the contracts cite. No code calls these functions.
ghost use Rattle.std.specs.Prelude.{◌≡◌, ◌≢◌, ◌↔◌, ◌⊎◌, ◌+◌, ◌^◌, ◌<◌, ◌≤◌, ◌++◌, ◌∷◌, [], List, ℕ, codes, Some, None, true, false, IsTrue};
ghost use Rattle.smq_kit.specs.Known.{numbers_from};
ghost use Rattle.smq_pdu.specs.Fields.{Address, Mandatory, DataSmFields, BeginsWith, BeginsWithDataSm};
ghost use Rattle.smq_pdu.specs.Numbers.{IsNumberOf, number_of};
ghost use Rattle.smq_pdu.specs.Sources.{source_in};
ghost use Rattle.smq_pdu.specs.Parameters.{Tlv, AreParameters, BeginsWithNoTlv, IsTlv, tlv_spelling, first_value, receipted_message_id_tag, network_error_code_tag, message_payload_tag, message_state_tag};
ghost use Rattle.smq_pdu.specs.Bodies.{SubmitValue, DeliverValue, DataSmValue, SubmitBody, SubmitAnswerBody, DeliverBody, DataSmBody, OtherBody, UndecodableBody, IsBody, IsDataSmBody, IsFirstText, submit_of_data_sm, deliver_of_data_sm};
ghost use Rattle.smq_pdu.specs.Readers.{mandatory_at, data_sm_fields_at, tlvs_of, rest_of};
ghost use Rattle.smq_pdu.specs.Pdu.{before_zero, id_of, pdu_of};
ghost use Rattle.smq_pdu.specs.Laws.{said, IsSubmit, IsDeliver, IsDataSm, IsUndecodable, IsSubmitResponse, IsSubmitResponseWithoutId, IsOther};
ghost use Rattle.smq_pdu.specs.Pairing.{FindsPairs, FindsEachPair, HasOneRequest, FindsInTurn, agrees, is_request, is_response, request_rank, response_rank, response_index};
ghost use Rattle.smq_pdu.specs.Header.{Header, header_with};
ghost use Rattle.smq_pdu.specs.Known.{submit_octets, submit_pdu, plus_octets, plus_pdu, national_octets, national_pdu, too_long_octets, too_long_pdu, alphanumeric_octets, alphanumeric_pdu, other_octets, address_with, response_octets, response_pdu, receipt_octets, receipt_pdu, all_parameters_octets, all_parameters_pdu, cut_octets, cut_pdu, nack_octets, nack_pdu, words_octets, words_pdu, id_of_64, parameter_octets, parameter_tlvs, parameter_rest, IsRequestCommand, IsResponseCommand, IsNeitherCommand, short_requests, short_responses};
ghost use Rattle.smq_pdu.specs.KnownDataSms.{data_sm_octets, data_sm_pdu, data_sm_resp_octets, data_sm_resp_pdu, data_sm_receipt_octets, data_sm_receipt_pdu, cut_data_sm_octets, cut_data_sm_pdu, full_data_sm_octets, full_data_sm, full_data_sm_pdu, full_submit, full_deliver};
ghost use Rattle.smq_pdu.specs.Decoded.{submit_view, deliver_view, data_sm_view, pdu_view};
ghost use Rattle.smq_pdu.specs.Equalities.{is_same_submit, is_same_deliver, is_same_data_sm, is_same_pdu};
ghost use Rattle.smq_pdu.specs.declared.body.Submit.{Submit};
ghost use Rattle.smq_pdu.specs.declared.body.Deliver.{Deliver};
ghost use Rattle.smq_pdu.specs.declared.data_sm.DataSm.{DataSm};
ghost use Rattle.smq_pdu.specs.declared.pdu.Pdu.{Pdu};

/// The fields that are read at the front of a body are the ones that it begins with, and no others.
pub fn fields_are_read()
    ensures found { (octets rest : List ℕ) (fields : Mandatory)
        → mandatory_at octets ≡ Some (fields, rest) → BeginsWith octets fields rest }
    ensures again { (octets rest : List ℕ) (fields : Mandatory)
        → BeginsWith octets fields rest → mandatory_at octets ≡ Some (fields, rest) }
    ensures data_sm_found { (octets rest : List ℕ) (fields : DataSmFields)
        → data_sm_fields_at octets ≡ Some (fields, rest) → BeginsWithDataSm octets fields rest }
    ensures data_sm_again { (octets rest : List ℕ) (fields : DataSmFields)
        → BeginsWithDataSm octets fields rest → data_sm_fields_at octets ≡ Some (fields, rest) }
{}

/// Any octets are one list of parameters and one rest, those that are read.
pub fn parameters_are_read(octets: &[u8])
    ensures found { AreParameters octets.now (tlvs_of octets.now) (rest_of octets.now) }
    ensures unique { (all rest : List ℕ) (tlvs : List Tlv) → AreParameters all tlvs rest
        → (tlvs ≡ tlvs_of all) × (rest ≡ rest_of all) }

    // Octets begin with no whole parameter where they are not one and what follows it.
    ensures none { BeginsWithNoTlv octets.now
        ↔ ((tlv : Tlv) (rest : List ℕ) → IsTlv tlv → octets.now ≡ tlv_spelling tlv ++ rest → ⊥) }
{}

/// An address has the number that its text is, with or without a `+` before it, where its type
/// says so, or none; and one at most.
pub fn numbers_are_read()
    ensures number { (address : Address) (number : List ℕ)
        → (number_of address ≡ Some number) ↔ IsNumberOf address number }
    ensures none { (address : Address)
        → (number_of address ≡ None) ↔ ((number : List ℕ) → IsNumberOf address number → ⊥) }
    ensures unique { (address : Address) (number other : List ℕ)
        → IsNumberOf address number → IsNumberOf address other → number ≡ other }
{}

/// A PDU of these octets says what the relation of its body says, and nothing else.
pub fn bodies_are_read(octets: &[u8])
    ensures submit { (submit : SubmitValue)
        → (said octets.now ≡ SubmitBody submit) ↔ IsSubmit octets.now submit }
    ensures deliver { (deliver : DeliverValue)
        → (said octets.now ≡ DeliverBody deliver) ↔ IsDeliver octets.now deliver }
    ensures data_sm { (message : DataSmValue)
        → (said octets.now ≡ DataSmBody message) ↔ IsDataSm octets.now message }
    ensures undecodable { (said octets.now ≡ UndecodableBody) ↔ IsUndecodable octets.now }
    ensures other { (all : List ℕ) → (said all ≡ OtherBody) ↔ IsOther all }

    // A body is one list of fields, parameters and rest at most.
    ensures unique { (body : List ℕ) (fields others : Mandatory) (tlvs more : List Tlv)
        (rest left : List ℕ) → IsBody body fields tlvs rest → IsBody body others more left
        → (fields ≡ others) × (tlvs ≡ more) × (rest ≡ left) }
    ensures data_sm_unique { (body : List ℕ) (fields others : DataSmFields) (tlvs more : List Tlv)
        (rest left : List ℕ) → IsDataSmBody body fields tlvs rest
        → IsDataSmBody body others more left → (fields ≡ others) × (tlvs ≡ more) × (rest ≡ left) }
{}

/// A submit_sm_resp or data_sm_resp has the id that its body begins with, where that has 1 to 64 octets, or none.
pub fn responses_are_read()
    ensures id { (octets id : List ℕ)
        → (said octets ≡ SubmitAnswerBody (Some id)) ↔ IsSubmitResponse octets id }
    ensures no_id { (octets : List ℕ)
        → (said octets ≡ SubmitAnswerBody None) ↔ IsSubmitResponseWithoutId octets }

    // Any octets have one first text.
    ensures text { (octets : List ℕ) → IsFirstText octets (before_zero octets) }
    ensures unique { (octets text : List ℕ) → IsFirstText octets text → text ≡ before_zero octets }
{}

/// The response that is found by a request's rank is that of a pair, and every pair is found so.
pub fn pairs_are_found()
    ensures found { FindsPairs }
    ensures each { FindsEachPair }
    ensures one { HasOneRequest }
    ensures in_turn { FindsInTurn }
{}

/// Two PDUs, two submit_sm, two deliver_sm or two data_sm are equal by `==` exactly where they say the same.
pub fn pdus_are_told_apart()
    ensures submits { (a b : Submit) →
        IsTrue (is_same_submit a b) ↔ (submit_view a ≡ submit_view b) }
    ensures delivers { (a b : Deliver) →
        IsTrue (is_same_deliver a b) ↔ (deliver_view a ≡ deliver_view b) }
    ensures data_sms { (a b : DataSm) →
        IsTrue (is_same_data_sm a b) ↔ (data_sm_view a ≡ data_sm_view b) }
    ensures pdus { (a b : Pdu) → IsTrue (is_same_pdu a b) ↔ (pdu_view a ≡ pdu_view b) }
{}

/// What the command_id of any header says (SMPP 3.4, 5.1.2.1): requests are below 2 to the power
/// 31, without outbind (11) and alert_notification (258), and responses are from there on. The
/// response that agrees with a request has its command_id with bit 31 set, or is generic_nack.
pub fn commands_are_told_apart()
    ensures request { (header : Header) → IsTrue (is_request header)
        ↔ ((header.command < 2 ^ 31) × (header.command ≢ 11) × (header.command ≢ 258)) }
    ensures response { (header : Header) → IsTrue (is_response header)
        ↔ (2 ^ 31 ≤ header.command) }
    ensures agrees { (request response : Header) → IsTrue (agrees request response)
        ↔ ((response.command ≡ request.command + 2 ^ 31) ⊎ (response.command ≡ 2 ^ 31)) }
{}

/// What some PDUs say.
pub fn known_pdus()
    ensures submit { pdu_of submit_octets ≡ submit_pdu }
    ensures plus { pdu_of plus_octets ≡ plus_pdu }
    ensures national { pdu_of national_octets ≡ national_pdu }
    ensures too_long { pdu_of too_long_octets ≡ too_long_pdu }
    ensures alphanumeric { pdu_of alphanumeric_octets ≡ alphanumeric_pdu }

    // These two differ in the last digit of destination_addr alone.
    ensures apart { pdu_of submit_octets ≢ pdu_of other_octets }
    ensures response { pdu_of response_octets ≡ response_pdu }
    ensures receipt { pdu_of receipt_octets ≡ receipt_pdu }
    ensures parameters { pdu_of all_parameters_octets ≡ all_parameters_pdu }
    ensures cut { pdu_of cut_octets ≡ cut_pdu }
    ensures nack { pdu_of nack_octets ≡ nack_pdu }
    ensures words { pdu_of words_octets ≡ words_pdu }
{}

/// What some data_sm and a data_sm_resp say (SMPP 3.4, 4.7.1 and 4.7.2).
pub fn known_data_sms()
    ensures message { pdu_of data_sm_octets ≡ data_sm_pdu }
    ensures response { pdu_of data_sm_resp_octets ≡ data_sm_resp_pdu }
    ensures receipt { pdu_of data_sm_receipt_octets ≡ data_sm_receipt_pdu }
    ensures cut { pdu_of cut_data_sm_octets ≡ cut_data_sm_pdu }
    ensures each_field { pdu_of full_data_sm_octets ≡ full_data_sm_pdu }
    ensures as_submit { submit_of_data_sm full_data_sm ≡ full_submit }
    ensures as_deliver { deliver_of_data_sm full_data_sm ≡ full_deliver }

    // Whatever its other fields are, esm_class and registered_delivery say what they said.
    ensures no_receipt { (message : DataSmValue) → message.esm_class ≡ 0
        → (deliver_of_data_sm message).esm_class ≡ 0 }
    ensures asks { (message : DataSmValue) → message.registered_delivery ≡ 1
        → (submit_of_data_sm message).registered_delivery ≡ 1 }
    ensures asks_not { (message : DataSmValue) → message.registered_delivery ≡ 0
        → (submit_of_data_sm message).registered_delivery ≡ 0 }
{}

/// The message ids of some bodies of submit_sm_resp and data_sm_resp, at their limits and just past them (SMPP 3.4, 5.2.23).
pub fn known_ids()
    ensures longest { id_of (id_of_64 ++ 0 ∷ []) ≡ Some id_of_64 }
    ensures too_long { id_of (id_of_64 ++ 52 ∷ 0 ∷ []) ≡ None }
    ensures no_zero { id_of (codes "abc") ≡ Some (codes "abc") }
    ensures to_the_first_zero { id_of (codes "a" ++ 0 ∷ codes "b" ++ 0 ∷ []) ≡ Some (codes "a") }
    ensures zero_first { id_of (0 ∷ codes "abc") ≡ None }
    ensures no_body { id_of [] ≡ None }
{}

/// The numbers of some addresses, by their type of number and their text.
pub fn known_numbers()
    ensures unknown { number_of (address_with 0 (codes "447700900123"))
        ≡ Some (codes "447700900123") }
    ensures unknown_with_plus { number_of (address_with 0 (codes "+447700900123"))
        ≡ Some (codes "447700900123") }
    ensures international { number_of (address_with 1 (codes "447700900123"))
        ≡ Some (codes "447700900123") }
    ensures international_with_plus { number_of (address_with 1 (codes "+447700900123"))
        ≡ Some (codes "447700900123") }

    // National, network specific, subscriber number, alphanumeric, abbreviated.
    ensures national { number_of (address_with 2 (codes "447700900123")) ≡ None }
    ensures network_specific { number_of (address_with 3 (codes "447700900123")) ≡ None }
    ensures subscriber { number_of (address_with 4 (codes "447700900123")) ≡ None }
    ensures alphanumeric { number_of (address_with 5 (codes "447700900123")) ≡ None }
    ensures abbreviated { number_of (address_with 6 (codes "447700900123")) ≡ None }
    ensures empty { number_of (address_with 1 []) ≡ None }
    ensures plus_alone { number_of (address_with 1 (codes "+")) ≡ None }
    ensures two_plus { number_of (address_with 1 (codes "++447700900123")) ≡ None }
    ensures plus_within { number_of (address_with 1 (codes "44+7700900123")) ≡ None }
    ensures before_the_digits { number_of (address_with 1 (codes "/")) ≡ None }
    ensures first_digit { number_of (address_with 1 (codes "0")) ≡ Some (codes "0") }
    ensures last_digit { number_of (address_with 1 (codes "9")) ≡ Some (codes "9") }
    ensures after_the_digits { number_of (address_with 1 (codes ":")) ≡ None }
    ensures longest { number_of (address_with 1 (codes "+123456789012345"))
        ≡ Some (codes "123456789012345") }
    ensures too_long { number_of (address_with 1 (codes "1234567890123456")) ≡ None }
{}

/// The sources of some addresses, at their limits and just past them (SMPP 3.4, 5.2.8).
pub fn known_sources()
    ensures shortest { source_in (0 ∷ []) ≡ Some (0 ∷ []) }
    ensures empty { source_in [] ≡ None }
    ensures longest { source_in (codes "+1234567890123456789") ≡ Some (codes "+1234567890123456789") }
    ensures too_long { source_in (codes "+12345678901234567890") ≡ None }
{}

/// The parameters of octets with one tag twice and an end that cuts a parameter off.
pub fn known_parameters()
    ensures tlvs { tlvs_of parameter_octets ≡ parameter_tlvs }
    ensures rest { rest_of parameter_octets ≡ parameter_rest }
    ensures first { first_value 0x0427 parameter_tlvs ≡ Some (2 ∷ []) }
    ensures other { first_value 0x0423 parameter_tlvs ≡ Some (3 ∷ 0 ∷ 27 ∷ []) }
    ensures none { first_value 0x0424 parameter_tlvs ≡ None }
    ensures long { tlvs_of (0x04 ∷ 0x24 ∷ 0x01 ∷ 0x00 ∷ numbers_from 0 256)
        ≡ (record { tag = 0x0424; value = numbers_from 0 256 }) ∷ [] }
{}

/// The tags of the parameters that are read (SMPP 3.4, 5.3.2).
pub fn known_tags()
    ensures receipted_message_id { receipted_message_id_tag ≡ 0x001e }
    ensures network_error_code { network_error_code_tag ≡ 0x0423 }
    ensures message_payload { message_payload_tag ≡ 0x0424 }
    ensures message_state { message_state_tag ≡ 0x0427 }
{}

/// Which commands are requests and which are responses.
pub fn known_commands()
    ensures bind_receiver { IsRequestCommand 0x0000_0001 }
    ensures submit_sm { IsRequestCommand 0x0000_0004 }
    ensures data_sm { IsRequestCommand 0x0000_0103 }
    ensures last_request { IsRequestCommand 0x7fff_ffff }
    ensures outbind { IsNeitherCommand 0x0000_000b }
    ensures alert_notification { IsNeitherCommand 0x0000_0102 }
    ensures generic_nack { IsResponseCommand 0x8000_0000 }
    ensures data_sm_resp { IsResponseCommand 0x8000_0103 }
    ensures outbind_with_bit_31 { IsResponseCommand 0x8000_000b }
    ensures last_response { IsResponseCommand 0xffff_ffff }
{}

/// Ranks and responses where two requests of different commands have one sequence number.
pub fn known_pairs()
    ensures first_rank { request_rank short_requests 0 7 ≡ 0 }
    ensures second_rank { request_rank short_requests 2 7 ≡ 1 }
    ensures other_rank { request_rank short_requests 3 8 ≡ 0 }
    ensures response_rank { response_rank short_responses 2 7 ≡ 1 }
    ensures first_response { response_index short_responses 7 0 ≡ Some 1 }
    ensures second_response { response_index short_responses 7 1 ≡ Some 2 }
    ensures no_third_response { response_index short_responses 7 2 ≡ None }
    ensures nack { response_index short_responses 8 0 ≡ Some 3 }

    // Pairs are made by rank alone, so these two disagree.
    ensures disagrees { agrees (header_with 0x0000_0004) (header_with 0x8000_0015) ≡ false }
    ensures agrees { agrees (header_with 0x0000_0004) (header_with 0x8000_0004) ≡ true }
    ensures data_sm_agrees { agrees (header_with 0x0000_0103) (header_with 0x8000_0103) ≡ true }
    ensures data_sm_of_submit { agrees (header_with 0x0000_0103) (header_with 0x8000_0004) ≡ false }
    ensures submit_of_data_sm { agrees (header_with 0x0000_0004) (header_with 0x8000_0103) ≡ false }
    ensures nack_agrees { agrees (header_with 0x0000_0004) (header_with 0x8000_0000) ≡ true }
{}
