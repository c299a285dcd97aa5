//! Prefixes and numbers of E.164, and network codes of E.212.
ghost use Rattle.std.specs.Prelude.{◌≡◌, ◌↔◌, IsOk, IfOk, IfErr, IsTrue};
ghost use Rattle.std.specs.List.{AllPass};
ghost use Rattle.std.specs.Char.{is_ascii_digit};
ghost use Rattle.smq_kit.specs.Numbers.{IsDigits, IsNetwork};
ghost use Rattle.smq_kit.specs.Orders.{DigitsAreOrdered, NetworksAreOrdered};

use crate::Refusal;
use arrayvec::ArrayVec;
use std::marker::Model;

/// A number or a prefix of one: 1 to 15 decimal digits (E.164, section 6). A contract sees their ASCII octets, by
/// which they are ordered.
#[derive(Clone, Debug, PartialEq, Eq, PartialOrd, Ord, Drop)]
pub struct Digits {
    octets: ArrayVec<u8, 15>,
}

impl Model for Digits {
    ghost use Rattle.std.specs.Prelude.{ℕ, List};
    ghost use Rattle.smq_kit.specs.Numbers.{IsDigits};

    ghost Value = { List ℕ };

    ghost view = { λ digits. digits.octets.items };

    ghost invariant = { λ digits. IsDigits digits.octets.items };

    ghost inverse = { λ octets. record { octets = record { items = octets } } };
}

impl Digits {
    /// Takes 1 to 15 decimal digits. Any other text is a `BadPrefix`.
    pub fn parse(text: &[u8]) -> Result<Digits, Refusal>
        ensures in_range { IsOk result ↔ IsDigits text.now }
        ensures value { IfOk result (λ digits. digits ≡ text.now) }
        ensures refused { IfErr result (λ refusal. refusal ≡ Refusal.BadPrefix) }
    {
        let mut kept = ArrayVec::new();
        if text.is_empty() || !are_digits(text) || kept.try_extend_from_slice(text).is_err() {
            return Err(Refusal::BadPrefix);
        }
        Ok(Digits { octets: kept })
    }

    /// The digits in ASCII.
    pub fn as_slice(&self) -> &[u8]
        ensures value { result.now ≡ self.now }
        ensures digits { IsDigits self.now }
    {
        self.octets.as_slice()
    }

    /// Equal digits. It takes no memory.
    pub fn copy(&self) -> Digits
        ensures value { result ≡ self.now }
        ensures digits { IsDigits result }
    {
        let mut digits = ArrayVec::new();
        let _ = digits.try_extend_from_slice(self.as_slice());
        Digits { octets: digits }
    }
}

/// A mobile network: a country code of 3 digits and a network code of 2 or 3 (E.212, section 4). A contract sees their
/// ASCII octets, by which they are ordered.
#[derive(Clone, Debug, PartialEq, Eq, PartialOrd, Ord, Drop)]
pub struct Network {
    digits: ArrayVec<u8, 6>,
}

impl Model for Network {
    ghost use Rattle.std.specs.Prelude.{ℕ, List};
    ghost use Rattle.smq_kit.specs.Numbers.{IsNetwork};

    ghost Value = { List ℕ };

    ghost view = { λ network. network.digits.items };

    ghost invariant = { λ network. IsNetwork network.digits.items };

    ghost inverse = { λ octets. record { digits = record { items = octets } } };
}

impl Network {
    /// Takes 5 or 6 decimal digits. Any other text is a `BadNetwork`.
    pub fn parse(text: &[u8]) -> Result<Network, Refusal>
        ensures in_range { IsOk result ↔ IsNetwork text.now }
        ensures value { IfOk result (λ network. network ≡ text.now) }
        ensures refused { IfErr result (λ refusal. refusal ≡ Refusal.BadNetwork) }
    {
        let mut kept = ArrayVec::new();
        if text.len() < 5 || !are_digits(text) || kept.try_extend_from_slice(text).is_err() {
            return Err(Refusal::BadNetwork);
        }
        Ok(Network { digits: kept })
    }

    /// The digits in ASCII.
    pub fn as_slice(&self) -> &[u8]
        ensures value { result.now ≡ self.now }
        ensures digits { IsNetwork self.now }
    {
        self.digits.as_slice()
    }

    /// An equal network. It takes no memory.
    pub fn copy(&self) -> Network
        ensures { result ≡ self.now }
    {
        let mut network = ArrayVec::new();
        let _ = network.try_extend_from_slice(self.as_slice());
        Network { digits: network }
    }
}

/// Whether all octets are decimal digits.
fn are_digits(text: &[u8]) -> bool
    ensures { IsTrue result ↔ AllPass is_ascii_digit text.now }
{
    text.iter().all(|octet| octet.is_ascii_digit())
}

/// Digits are ordered by their octets, and equal exactly where their octets are.
pub fn digits_are_ordered()
    ensures { DigitsAreOrdered }
{}

/// Networks are ordered by their octets, and equal exactly where their octets are.
pub fn networks_are_ordered()
    ensures { NetworksAreOrdered }
{}
