//! What the octets of a PDU say, and which response belongs to which request (SMPP 3.4).
#![tactic(auto)]

mod body;
mod data_sm;
mod fields;
mod laws;
mod pdu;
mod source;

pub use body::{Body, Deliver, Submit, SubmitAnswer};
pub use data_sm::DataSm;
pub use laws::{
    bodies_are_read, commands_are_told_apart, fields_are_read, known_commands, known_data_sms,
    known_ids, known_numbers, known_pairs, known_parameters, known_pdus, known_sources, known_tags,
    numbers_are_read, pairs_are_found, parameters_are_read, pdus_are_told_apart,
    responses_are_read,
};
pub use pdu::{Pdu, agrees, decode, is_request, is_response};
pub use source::{LONGEST_SOURCE, SourceAddress};
