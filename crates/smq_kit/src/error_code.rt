//! Why a message failed, as its receipt says (SMPP 3.4, 5.3.2.31 and appendix B).
ghost use Rattle.std.specs.Prelude.{◌≡◌, ◌↔◌, IsTrue, IsSome, IfSome};
ghost use Rattle.std.specs.List.{list_all};
ghost use Rattle.smq_kit.specs.ErrorTexts.{is_error_octet, is_error_text};
ghost use Rattle.smq_kit.specs.Orders.{ErrorCodesAreOrdered};

use arrayvec::ArrayVec;
use std::marker::Model;

/// The value of `err` in a receipt's text: 1 to 16 octets, all ASCII letters, digits, `-`, `_` or `.`. A contract sees
/// the octets, by which error texts are ordered.
#[derive(Clone, Debug, PartialEq, Eq, PartialOrd, Ord, Drop)]
pub struct ErrorText {
    octets: ArrayVec<u8, 16>,
}

impl Model for ErrorText {
    ghost use Rattle.std.specs.Prelude.{ℕ, List, IsTrue};
    ghost use Rattle.smq_kit.specs.ErrorTexts.{is_error_text};

    ghost Value = { List ℕ };

    ghost view = { λ text. text.octets.items };

    ghost invariant = { λ text. IsTrue (is_error_text text.octets.items) };

    ghost inverse = { λ octets. record { octets = record { items = octets } } };
}

impl ErrorText {
    /// Takes the octets of an error text, where they are one.
    pub fn new(octets: &[u8]) -> Option<ErrorText>
        ensures found { IsSome result ↔ IsTrue (is_error_text octets.now) }
        ensures value { IfSome result (λ text. text ≡ octets.now) }
    {
        let mut kept = ArrayVec::new();
        if octets.is_empty()
            || !are_error_octets(octets)
            || kept.try_extend_from_slice(octets).is_err()
        {
            return None;
        }
        Some(ErrorText { octets: kept })
    }

    /// The octets, in ASCII.
    pub fn as_slice(&self) -> &[u8]
        ensures value { result.now ≡ self.now }
        ensures allowed { IsTrue (is_error_text self.now) }
    {
        self.octets.as_slice()
    }

    /// An equal text. It takes no memory.
    pub fn copy(&self) -> ErrorText
        ensures { result ≡ self.now }
    {
        let mut kept = ArrayVec::new();
        let _ = kept.try_extend_from_slice(self.octets.as_slice());
        ErrorText { octets: kept }
    }
}

fn are_error_octets(octets: &[u8]) -> bool
    ensures { result ≡ list_all is_error_octet octets.now }
{
    octets.iter().all(|octet| octet.is_ascii_alphanumeric()
        || *octet == b'-'
        || *octet == b'_'
        || *octet == b'.')
}

/// The error of a receipt. Codes of networks come first in order, by kind, then by code; then texts, by octets; then
/// `Unstated`.
#[derive(Clone, Debug, PartialEq, Eq, PartialOrd, Ord, Drop)]
pub enum ErrorCode {
    /// The network type and the code in network_error_code (SMPP 3.4, 5.3.2.31).
    Network { kind: u8, code: u16 },
    /// The value of `err` in the text.
    Text(ErrorText),
    /// Neither is usable.
    Unstated,
}

impl ErrorCode {
    /// An equal code. It takes no memory.
    pub fn copy(&self) -> ErrorCode
        ensures { result ≡ self.now }
    {
        match self {
            ErrorCode::Network { kind, code } => ErrorCode::Network {
                kind: *kind,
                code: *code,
            },
            ErrorCode::Text(text) => ErrorCode::Text(text.copy()),
            ErrorCode::Unstated => ErrorCode::Unstated,
        }
    }
}

/// Error codes are ordered: networks' first, by kind, then code; then texts, by octets; then unstated. They are equal
/// exactly where they are one.
pub fn error_codes_are_ordered()
    ensures { ErrorCodesAreOrdered }
{}
