//! Parts of texts, and numbers in decimal.
ghost use Rattle.std.specs.Prelude.{◌≡◌, ◌≢◌, ◌<◌, ◌^◌, ◌++◌, ◌∷◌, All, IfNone, IfSome, List, ℕ};
ghost use Rattle.std.specs.Fmt.{decimal};
ghost use Rattle.smq_add.specs.Numbers.{begins_as_number};

use std::str;

/// The parts of a text before and behind the first of an octet.
pub(crate) fn split_at(text: &[u8], octet: u8) -> Option<(&[u8], &[u8])>
    ensures found { IfSome result (λ parts. text.now ≡ parts.0.now ++ octet ∷ parts.1.now) }
    ensures first { IfSome result (λ parts. All (λ other. other ≢ octet) parts.0.now) }
    ensures none { IfNone result (All (λ other. other ≢ octet) text.now) }
{
    for at in 0..text.len() {
        if text[at] == octet {
            return Some((&text[..at], &text[at + 1..]));
        }
    }
    None
}

/// What follows a beginning of a text.
pub(crate) fn behind<'a>(text: &'a [u8], beginning: &[u8]) -> Option<&'a [u8]>
    ensures found { IfSome result (λ rest. text.now ≡ beginning.now ++ rest.now) }
    ensures none { IfNone result ((rest : List ℕ) → text.now ≡ beginning.now ++ rest → ⊥) }
{
    if text.len() < beginning.len() {
        return None;
    }
    let (first, rest) = text.split_at(beginning.len());
    if first == beginning { Some(rest) } else { None }
}

/// The number that a text is in decimal, without leading zeros.
pub(crate) fn number_of(text: &[u8]) -> Option<u64>
    ensures found { IfSome result (λ number. text.now ≡ decimal number) }
    ensures none { IfNone result ((number : ℕ) → number < 2 ^ 64 → text.now ≡ decimal number → ⊥) }
{
    if !begins_as_number(text) {
        return None;
    }
    let Ok(digits) = str::from_utf8(text) else {
        return None;
    };
    let Ok(number) = digits.parse::<u64>() else {
        return None;
    };
    Some(number)
}

/// Whether a text has no sign and no leading zero.
fn begins_as_number(text: &[u8]) -> bool
    ensures { result ≡ begins_as_number text.now }
{
    match text.split_first() {
        Some((first, rest)) => *first != b'+' && (*first != b'0' || rest.is_empty()),
        None => false,
    }
}

/// The same up to 2^32.
pub(crate) fn number_of_32_bits(text: &[u8]) -> Option<u32>
    ensures found { IfSome result (λ number. text.now ≡ decimal number) }
    ensures none { IfNone result ((number : ℕ) → number < 2 ^ 32 → text.now ≡ decimal number → ⊥) }
{
    let number = number_of(text)?;
    if number <= u32::MAX as u64 {
        Some(number as u32)
    } else {
        None
    }
}

/// The same up to 2^16.
pub(crate) fn number_of_16_bits(text: &[u8]) -> Option<u16>
    ensures found { IfSome result (λ number. text.now ≡ decimal number) }
    ensures none { IfNone result ((number : ℕ) → number < 2 ^ 16 → text.now ≡ decimal number → ⊥) }
{
    let number = number_of(text)?;
    if number <= u16::MAX as u64 {
        Some(number as u16)
    } else {
        None
    }
}

/// The same up to 2^8.
pub(crate) fn number_of_8_bits(text: &[u8]) -> Option<u8>
    ensures found { IfSome result (λ number. text.now ≡ decimal number) }
    ensures none { IfNone result ((number : ℕ) → number < 2 ^ 8 → text.now ≡ decimal number → ⊥) }
{
    let number = number_of(text)?;
    if number <= u8::MAX as u64 {
        Some(number as u8)
    } else {
        None
    }
}
