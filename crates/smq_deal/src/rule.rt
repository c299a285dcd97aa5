//! Rules by which PDUs are dealt.
ghost use Rattle.std.specs.Prelude.{◌≡◌, ◌%◌, max};
ghost use Rattle.smq_deal.specs.Parts.{by_key, key_number, text_number};

use smq_kit::{Key, LinkKey};
use smq_present::{SessionForms, StoredPdu};
use std::cmp::max;

/// To which part a PDU goes.
pub(crate) trait Rule {
    ghost use Rattle.std.specs.Prelude.{◌≡◌};
    ghost use Rattle.smq_deal.specs.Parts.{RuleValue};

    /// What it says of each.
    ghost rule: { Self → RuleValue };

    /// The part of what has a key.
    fn keyed(&self, key: &LinkKey) -> u32
        ensures { result ≡ (rule self.now).keyed key.now };

    /// That of a request and its response without a key, by their sequence number.
    fn paired(&self, seq: u32) -> u32
        ensures { result ≡ (rule self.now).paired seq };

    /// That of a PDU without a key that has no other.
    fn lone(&self, source: SessionForms, pdu: &StoredPdu) -> u32
        ensures { result ≡ (rule self.now).lone source pdu.now };
}

/// So many parts by key, one at least; what has no key goes by its sequence number.
#[derive(Clone, Copy)]
pub(crate) struct ByKey {
    pub parts: u32,
}

impl Rule for ByKey {
    ghost rule = { λ r. by_key r.parts };

    fn keyed(&self, key: &LinkKey) -> u32 {
        part_of_key(key, self.parts)
    }

    fn paired(&self, seq: u32) -> u32 {
        seq % max(1, self.parts)
    }

    fn lone(&self, _source: SessionForms, pdu: &StoredPdu) -> u32 {
        pdu.seq % max(1, self.parts)
    }
}

/// The part of a key, of so many: by its number, or by the octets of its text.
fn part_of_key(key: &LinkKey, parts: u32) -> u32
    ensures { result ≡ key_number key.now.key % max 1 parts }
{
    let parts = max(1, parts);
    match &key.key {
        Key::Number(number) => (*number % u128::from(parts)) as u32,
        Key::Text(id) => text_number(id.as_slice()) % parts,
    }
}

/// A number of a text, by all its octets.
fn text_number(text: &[u8]) -> u32
    ensures { result ≡ text_number text.now }
{
    let mut number = 0u64;
    for octet in text {
        number = (number * 31 + u64::from(*octet)) % 4_294_967_291;
    }
    number as u32
}
