//! The id that a message centre gave a message (SMPP 3.4, 5.2.23), how a link's centre writes ids, and the key of an id under such a
//! form.
ghost use Rattle.std.specs.Prelude.{◌≡◌, ◌≤◌, ◌↔◌, length, IsOk, IfOk, IfErr, ◌⊎◌, ◌+◌, ◌*◌, ◌^◌};
ghost use Rattle.smq_kit.specs.Orders.{MessageIdsAreOrdered, KeysAreOrdered};
ghost use Rattle.smq_kit.specs.Keys.{key_under, number_below, number_in, value_in};

use crate::Refusal;
use arrayvec::ArrayVec;
use std::marker::Model;

/// How many octets a message id may have: 64, with its closing NUL 65 (SMPP 3.4, 5.2.23).
pub const LONGEST_ID: usize = 64;

/// A message id of 1 to `LONGEST_ID` octets. A contract sees the octets. Ids are ordered by their octets.
#[derive(Clone, Debug, PartialEq, Eq, PartialOrd, Ord, Drop)]
pub struct MessageId {
    octets: ArrayVec<u8, 64>,
}

impl Model for MessageId {
    ghost use Rattle.std.specs.Prelude.{ℕ, ◌≤◌, List, length};

    ghost Value = { List ℕ };

    ghost view = { λ id. id.octets.items };

    ghost invariant = { λ id. (1 ≤ length id.octets.items) × (length id.octets.items ≤ 64) };

    ghost inverse = { λ octets. record { octets = record { items = octets } } };
}

impl MessageId {
    /// Takes the octets of an id. None, or more than `LONGEST_ID`, are a `BadId`.
    pub fn new(octets: &[u8]) -> Result<MessageId, Refusal>
        ensures in_range { IsOk result
            ↔ ((1 ≤ length octets.now) × (length octets.now ≤ LONGEST_ID)) }
        ensures value { IfOk result (λ id. id ≡ octets.now) }
        ensures refused { IfErr result (λ refusal. refusal ≡ Refusal.BadId) }
    {
        let mut kept = ArrayVec::new();
        if octets.is_empty() || kept.try_extend_from_slice(octets).is_err() {
            return Err(Refusal::BadId);
        }
        Ok(MessageId { octets: kept })
    }

    /// The octets.
    pub fn as_slice(&self) -> &[u8]
        ensures value { result.now ≡ self.now }
        ensures not_empty { 1 ≤ length self.now }
        ensures in_range { length self.now ≤ LONGEST_ID }
    {
        self.octets.as_slice()
    }

    /// An equal id. It takes no memory.
    pub fn copy(&self) -> MessageId
        ensures { result ≡ self.now }
    {
        let mut kept = ArrayVec::new();
        let _ = kept.try_extend_from_slice(self.octets.as_slice());
        MessageId { octets: kept }
    }
}

/// Ids are ordered by their octets, and equal exactly where their octets are.
pub fn message_ids_are_ordered()
    ensures { MessageIdsAreOrdered }
{}

/// How ids are written: as texts, or as numbers in decimal or hexadecimal digits. A centre may write an id in one form
/// in submit_sm_resp and data_sm_resp, and in another in delivery receipts.
#[derive(Clone, Copy, Debug, PartialEq, Eq, PartialOrd, Ord)]
pub enum Form {
    Verbatim,
    Decimal,
    Hexadecimal,
}

/// What two writings of one id share. Numbers come before texts, numbers by value and texts by octets.
#[derive(Clone, Debug, PartialEq, Eq, PartialOrd, Ord, Drop)]
pub enum Key {
    Number(u128),
    Text(MessageId),
}

impl Key {
    /// An equal key. It takes no memory.
    pub fn copy(&self) -> Key
        ensures { result ≡ self.now }
    {
        match self {
            Key::Number(number) => Key::Number(*number),
            Key::Text(id) => Key::Text(id.copy()),
        }
    }
}

/// The key of an id under a form: its number where all its octets are digits of the form and their value is below
/// 2^128, and else its text.
pub fn key_of(form: Form, id: &MessageId) -> Key
    ensures { result ≡ key_under form id.now }
{
    let number = match form {
        Form::Verbatim => None,
        Form::Decimal => number_of(id.as_slice(), 10),
        Form::Hexadecimal => number_of(id.as_slice(), 16),
    };
    match number {
        Some(value) => Key::Number(value),
        None => Key::Text(id.copy()),
    }
}

/// The value of a digit of a base of at most 16, in either case.
fn digit_value(octet: u8, base: u8) -> Option<u8>
    ensures { result ≡ value_in base octet }
{
    let value = match octet {
        b'0'..=b'9' => octet - b'0',
        b'a'..=b'f' => octet - b'a' + 10,
        b'A'..=b'F' => octet - b'A' + 10,
        _ => return None,
    };
    if value < base { Some(value) } else { None }
}

/// The value with one digit more, where that is below 2^128.
fn with_digit(value: u128, base: u8, digit: u8) -> Option<u128>
    ensures { result ≡ number_below (2 ^ 128) (value * base + digit) }
{
    value.checked_mul(base as u128)?.checked_add(digit as u128)
}

/// The value of the digits, where all octets are digits and it is below 2^128.
fn number_of(octets: &[u8], base: u8) -> Option<u128>
    requires { (base ≡ 10) ⊎ (base ≡ 16) }
    ensures { result ≡ number_in base octets.now }
{
    let mut value = 0u128;
    for octet in octets {
        let digit = digit_value(*octet, base)?;
        value = with_digit(value, base, digit)?;
    }
    Some(value)
}

/// Keys are ordered: numbers first, by value, then texts, by octets. They are equal exactly where they are one.
pub fn keys_are_ordered()
    ensures { KeysAreOrdered }
{}
