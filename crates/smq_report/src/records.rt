//! The fields of lines, in the order of their columns.
ghost use Rattle.std.specs.Prelude.{◌≡◌, ◌++◌, ◌∷◌, [], OnOk, unwrap_or, option_copied};
ghost use Rattle.std.specs.Fmt.{decimal, signed_decimal};
ghost use Rattle.std.specs.Option.{option_and_then};
ghost use Rattle.smq_tally.specs.Rows.{network_value, route_value};
ghost use Rattle.smq_report.specs.Values.{error_text, value_text};
ghost use Rattle.smq_report.specs.Words as names;
ghost use Rattle.smq_report.specs.Lines.{key_text, message_fields, receipt_fields, text_or_empty};

use crate::fields::Fields;
use smq_kit::{Digits, Key, MessageId, Network, Place, RouteId};
use smq_pdu::SourceAddress;
use smq_present::{DecidingReceipt, MessageLine, ReceiptLine};
use smq_receipt::MessageState;
use smq_tally::SubmitError;
use std::alloc::AllocError;

/// The columns of lines for messages.
pub(crate) const MESSAGE_COLUMNS: [&[u8]; 19] = [
    b"link",
    b"session",
    b"offset",
    b"moment",
    b"number",
    b"route",
    b"network",
    b"outcome",
    b"error",
    b"id",
    b"response_offset",
    b"receipt_session",
    b"receipt_offset",
    b"receipt_moment",
    b"centre_delay",
    b"key",
    b"command",
    b"source",
    b"ton",
];

/// The columns of lines for delivery receipts.
pub(crate) const RECEIPT_COLUMNS: [&[u8]; 13] = [
    b"link",
    b"session",
    b"offset",
    b"moment",
    b"id",
    b"state",
    b"interim",
    b"error",
    b"standing",
    b"message_session",
    b"message_offset",
    b"key",
    b"command",
];

/// Puts the fields of a line for a message after the others.
pub(crate) fn put_message(fields: &mut Fields, line: &MessageLine<'_>) -> Result<(), AllocError>
    ensures { OnOk result (fields.new ≡ fields.old ++ message_fields line.now) }
{
    fields.put_number(line.fact.link.0 as u64)?;
    put_place(fields, line.fact.place)?;
    fields.put_number(line.moment.milliseconds())?;
    put_number(fields, line.number)?;
    put_route(fields, line.fact.route.as_ref())?;
    fields.put_octets(line.fact.outcome.name().as_bytes())?;
    put_error(fields, line.fact.error.as_ref())?;
    put_id(fields, line.id)?;
    put_offset(fields, line.response)?;
    put_deciding(fields, line.receipt)?;
    put_key(fields, line.key().as_ref())?;
    put_command(fields, line.command)?;
    put_source(fields, line.source)?;
    fields.put_number(line.source_ton as u64)
}

/// Puts the fields of a line for a delivery receipt after the others.
pub(crate) fn put_receipt(fields: &mut Fields, line: &ReceiptLine<'_>) -> Result<(), AllocError>
    ensures { OnOk result (fields.new ≡ fields.old ++ receipt_fields line.now) }
{
    let receipt = line.receipt;
    fields.put_number(line.link.0 as u64)?;
    put_place(fields, line.place)?;
    fields.put_number(line.moment.milliseconds())?;
    fields.put_octets(receipt.id.as_slice())?;
    fields.put_octets(state_name(receipt.state).as_bytes())?;
    fields.put_octets(yes_or_no(receipt.interim).as_bytes())?;
    fields.put_code(&receipt.error)?;
    fields.put_octets(line.standing.name().as_bytes())?;
    put_matched(fields, line.message)?;
    fields.put_key(&line.key())?;
    put_command(fields, line.command)
}

/// Puts the session and the offset of a place.
fn put_place(fields: &mut Fields, place: Place) -> Result<(), AllocError>
    ensures { OnOk result (fields.new
        ≡ fields.old ++ decimal place.session.0 ∷ decimal place.offset ∷ []) }
{
    fields.put_number(place.session.0)?;
    fields.put_number(place.offset)
}

/// Puts the digits of a number.
fn put_number(fields: &mut Fields, number: Option<&Digits>) -> Result<(), AllocError>
    ensures { OnOk result (fields.new ≡ fields.old ++ unwrap_or (option_copied number.entry) [] ∷ []) }
{
    match number {
        Some(number) => fields.put_octets(number.as_slice()),
        None => fields.put_octets(b""),
    }
}

/// Puts the octets of an id.
fn put_id(fields: &mut Fields, id: Option<&MessageId>) -> Result<(), AllocError>
    ensures { OnOk result (fields.new ≡ fields.old ++ unwrap_or (option_copied id.entry) [] ∷ []) }
{
    match id {
        Some(id) => fields.put_octets(id.as_slice()),
        None => fields.put_octets(b""),
    }
}

/// Puts the octets of a source address.
fn put_source(fields: &mut Fields, source: Option<&SourceAddress>) -> Result<(), AllocError>
    ensures { OnOk result (fields.new ≡ fields.old ++ unwrap_or (option_copied source.entry) [] ∷ []) }
{
    match source {
        Some(source) => fields.put_octets(source.as_slice()),
        None => fields.put_octets(b""),
    }
}

/// Puts a route and a network, as the views of a report print them.
fn put_route(fields: &mut Fields, route: Option<&(RouteId, Network)>) -> Result<(), AllocError>
    ensures { OnOk result (fields.new ≡ fields.old
        ++ value_text (route_value (option_copied route.entry))
        ∷ value_text (network_value (option_copied route.entry)) ∷ []) }
{
    match route {
        Some((route, network)) => {
            fields.put_number(route.0 as u64)?;
            fields.put_octets(network.as_slice())
        }
        None => {
            fields.put_octets(b"none")?;
            fields.put_octets(b"none")
        }
    }
}

/// Puts an error of a message.
fn put_error(fields: &mut Fields, error: Option<&SubmitError>) -> Result<(), AllocError>
    ensures { OnOk result (fields.new
        ≡ fields.old ++ text_or_empty error_text (option_copied error.entry) ∷ []) }
{
    match error {
        Some(error) => fields.put_error(error),
        None => fields.put_octets(b""),
    }
}

/// Puts an offset.
fn put_offset(fields: &mut Fields, offset: Option<u64>) -> Result<(), AllocError>
    ensures { OnOk result (fields.new ≡ fields.old ++ text_or_empty decimal offset ∷ []) }
{
    match offset {
        Some(offset) => fields.put_number(offset),
        None => fields.put_octets(b""),
    }
}

/// Puts the session, the offset and the moment of a deciding receipt, and the centre's delay.
fn put_deciding(fields: &mut Fields, receipt: Option<DecidingReceipt>) -> Result<(), AllocError>
    ensures { OnOk result (fields.new ≡ fields.old
        ++ text_or_empty (λ receipt. decimal receipt.place.session.0) receipt
        ∷ text_or_empty (λ receipt. decimal receipt.place.offset) receipt
        ∷ text_or_empty (λ receipt. decimal receipt.moment) receipt
        ∷ text_or_empty signed_decimal (option_and_then (λ receipt. receipt.centre_delay) receipt)
        ∷ []) }
{
    match receipt {
        Some(receipt) => {
            put_place(fields, receipt.place)?;
            fields.put_number(receipt.moment.milliseconds())?;
            put_delay(fields, receipt.centre_delay)
        }
        None => {
            fields.put_octets(b"")?;
            fields.put_octets(b"")?;
            fields.put_octets(b"")?;
            fields.put_octets(b"")
        }
    }
}

/// Puts a centre's delay.
fn put_delay(fields: &mut Fields, delay: Option<i64>) -> Result<(), AllocError>
    ensures { OnOk result (fields.new ≡ fields.old ++ text_or_empty signed_decimal delay ∷ []) }
{
    match delay {
        Some(delay) => fields.put_signed(delay),
        None => fields.put_octets(b""),
    }
}

/// Puts the session and the offset of a message that a receipt matches.
fn put_matched(fields: &mut Fields, message: Option<Place>) -> Result<(), AllocError>
    ensures { OnOk result (fields.new ≡ fields.old
        ++ text_or_empty (λ message. decimal message.session.0) message
        ∷ text_or_empty (λ message. decimal message.offset) message ∷ []) }
{
    match message {
        Some(message) => put_place(fields, message),
        None => {
            fields.put_octets(b"")?;
            fields.put_octets(b"")
        }
    }
}

/// Puts the key of an id.
fn put_key(fields: &mut Fields, key: Option<&Key>) -> Result<(), AllocError>
    ensures { OnOk result (fields.new
        ≡ fields.old ++ text_or_empty key_text (option_copied key.entry) ∷ []) }
{
    match key {
        Some(key) => fields.put_key(key),
        None => fields.put_octets(b""),
    }
}

/// Puts the name of a command_id.
fn put_command(fields: &mut Fields, command: u32) -> Result<(), AllocError>
    ensures { OnOk result (fields.new ≡ fields.old ++ names.command_name command ∷ []) }
{
    fields.put_octets(command_name(command).as_bytes())
}

/// The name of the command_id of a message or a delivery receipt (SMPP 3.4, 5.1.2.1).
fn command_name(command: u32) -> &'static str
    ensures { result.now ≡ names.command_name command }
{
    match command {
        0x0000_0004 => "submit_sm",
        0x0000_0005 => "deliver_sm",
        0x0000_0103 => "data_sm",
        _ => "",
    }
}

/// The name of a state.
fn state_name(state: MessageState) -> &'static str
    ensures { result.now ≡ names.state_name state }
{
    match state {
        MessageState::Enroute => "enroute",
        MessageState::Delivered => "delivered",
        MessageState::Expired => "expired",
        MessageState::Deleted => "deleted",
        MessageState::Undeliverable => "undeliverable",
        MessageState::Accepted => "accepted",
        MessageState::Unknown => "unknown",
        MessageState::Rejected => "rejected",
    }
}

/// The word for what is so, or isn't.
fn yes_or_no(is_so: bool) -> &'static str
    ensures { result.now ≡ names.yes_or_no is_so }
{
    if is_so { "yes" } else { "no" }
}
