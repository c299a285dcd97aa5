//! What holds of several types alike.
ghost use Rattle.std.specs.Prelude.{◌≡◌};
ghost use Rattle.smq_kit.specs.Clones.{id_is_clone, digits_is_clone, network_is_clone, key_is_clone, link_key_is_clone, error_text_is_clone, error_is_clone};

use crate::{Digits, ErrorCode, ErrorText, Key, LinkKey, MessageId, Network};

/// A clone is the same.
pub fn clone_is_equal()
    ensures ids { (x y : MessageId) → id_is_clone x y → y ≡ x }
    ensures digits { (x y : Digits) → digits_is_clone x y → y ≡ x }
    ensures networks { (x y : Network) → network_is_clone x y → y ≡ x }
    ensures keys { (x y : Key) → key_is_clone x y → y ≡ x }
    ensures link_keys { (x y : LinkKey) → link_key_is_clone x y → y ≡ x }
    ensures error_texts { (x y : ErrorText) → error_text_is_clone x y → y ≡ x }
    ensures errors { (x y : ErrorCode) → error_is_clone x y → y ≡ x }
{}
