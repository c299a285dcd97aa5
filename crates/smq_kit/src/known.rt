//! What the definitions say of values that are written out, so that none of them is right by itself alone.
ghost use Rattle.std.specs.Prelude.{◌≡◌, ◌-◌, ◌<◌, ℕ, List, [], true, false, map, filter, codes, is_some};
ghost use Rattle.std.specs.Ordering.{nat_cmp};
ghost use Rattle.std.specs.declared.cmp.Ordering.TheVariants.{Less};
ghost use Rattle.smq_kit.specs.declared.error_code.ErrorCode.TheVariants as e;
ghost use Rattle.smq_kit.specs.ErrorTexts.{is_error_octet, is_error_text};
ghost use Rattle.smq_kit.specs.Keys.{value_in};
ghost use Rattle.smq_kit.specs.Known.{KnownKeys, numbers_from, every_refusal, printed_refusals};
ghost use Rattle.smq_kit.specs.LinkKeys.{link_key_cmp};
ghost use Rattle.smq_kit.specs.Numbers.{IsDigits, IsNetwork};
ghost use Rattle.smq_kit.specs.Orders.{place_cmp, octets_cmp, key_cmp, error_cmp};
ghost use Rattle.smq_kit.specs.Refusals.{number_of, text_of};

use crate::{Dir, Key, LAST_MOMENT, LONGEST_ID, LinkKey, OPENING_WINDOW, Place};

/// The last moment, the window that no one set, and the lengths of ids, numbers and networks.
pub fn known_limits()
    ensures last_moment { LAST_MOMENT ≡ 4102444800000 }
    ensures opening_window { OPENING_WINDOW ≡ 172800000 }
    ensures longest_id { LONGEST_ID ≡ 64 }
    ensures one_digit { IsDigits (codes "4") }
    ensures digits_15 { IsDigits (codes "447700900123456") }
    ensures digits_16 { IsDigits (codes "4477009001234567") → ⊥ }
    ensures no_digits { IsDigits [] → ⊥ }
    ensures a_sign { IsDigits (codes "+44") → ⊥ }
    ensures network_4 { IsNetwork (codes "2341") → ⊥ }
    ensures network_5 { IsNetwork (codes "23415") }
    ensures network_6 { IsNetwork (codes "234150") }
    ensures network_7 { IsNetwork (codes "2341500") → ⊥ }
    ensures a_letter { IsNetwork (codes "2341x") → ⊥ }
{}

/// The octets that an error text may have, of all 256, and its lengths.
pub fn known_error_texts()
    ensures octets { filter is_error_octet (numbers_from 0 256)
        ≡ codes "-.0123456789ABCDEFGHIJKLMNOPQRSTUVWXYZ_abcdefghijklmnopqrstuvwxyz" }
    ensures no_octets { is_error_text [] ≡ false }
    ensures one_octet { is_error_text (codes "0") ≡ true }
    ensures octets_16 { is_error_text (codes "1234567890123456") ≡ true }
    ensures octets_17 { is_error_text (codes "12345678901234567") ≡ false }
{}

/// The keys of some ids: leading zeros don't count, hexadecimal digits have either case, 2^128 is no number, and an id
/// with any other octet is a text. Of all 256 octets, those that are digits.
pub fn known_keys()
    ensures keys { KnownKeys }
    ensures decimal { filter (λ octet. is_some (value_in 10 octet)) (numbers_from 0 256)
        ≡ codes "0123456789" }
    ensures hexadecimal { filter (λ octet. is_some (value_in 16 octet)) (numbers_from 0 256)
        ≡ codes "0123456789ABCDEFabcdef" }
{}

/// What comes first in each order: of two places the lower session, then the client's direction, then the lower offset;
/// of keys a number before a text; of errors a network's code before a text, and a text before `Unstated`.
pub fn known_orders()
    ensures session { (a b : Place) → a.session.0 < b.session.0 → place_cmp a b ≡ Less }
    ensures dir { (a b : Place) → a.session ≡ b.session → a.dir ≡ Dir.FromClient
        → b.dir ≡ Dir.FromCentre → place_cmp a b ≡ Less }
    ensures offset { (a b : Place) → a.session ≡ b.session → a.dir ≡ b.dir
        → place_cmp a b ≡ nat_cmp a.offset b.offset }
    ensures octets { octets_cmp (codes "10") (codes "9") ≡ Less }
    ensures shorter { octets_cmp (codes "1") (codes "10") ≡ Less }
    ensures numbers { (a b : ℕ) → key_cmp (Key.Number a) (Key.Number b) ≡ nat_cmp a b }
    ensures numbers_first { (a : ℕ) (b : List ℕ) → key_cmp (Key.Number a) (Key.Text b) ≡ Less }
    ensures texts { (a b : List ℕ) → key_cmp (Key.Text a) (Key.Text b) ≡ octets_cmp a b }
    ensures links { (a b : LinkKey) → a.link.0 < b.link.0 → link_key_cmp a b ≡ Less }
    ensures keys_of_links { (a b : LinkKey) → a.link ≡ b.link
        → link_key_cmp a b ≡ key_cmp a.key b.key }
    ensures kinds { (a b c d : ℕ) → a < b → error_cmp (e.Network a c) (e.Network b d) ≡ Less }
    ensures codes { (a b c : ℕ) → error_cmp (e.Network a b) (e.Network a c) ≡ nat_cmp b c }
    ensures networks_first { (a b : ℕ) (c : List ℕ) → error_cmp (e.Network a b) (e.Text c) ≡ Less }
    ensures error_texts { (a b : List ℕ) → error_cmp (e.Text a) (e.Text b) ≡ octets_cmp a b }
    ensures unstated_last { (a : List ℕ) → error_cmp (e.Text a) e.Unstated ≡ Less }
{}

/// The number and the printed text of each refusal.
pub fn known_refusals()
    ensures { map (λ r. (number_of r, text_of r)) every_refusal ≡ printed_refusals }
{}
