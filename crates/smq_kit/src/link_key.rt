//! The key of a message id on its link.
ghost use Rattle.std.specs.Prelude.{◌≡◌, ◌↔◌, IsTrue};
ghost use Rattle.smq_kit.specs.LinkKeys.{link_key as key_on_link, link_key_cmp, kept_key_cmp, same_key};

use crate::{Form, Key, LinkId, MessageId, key_of};

/// The key of a message id on its link: ids of two links are never one. Keys are ordered by link, then by key.
#[derive(Clone, Debug, PartialEq, Eq, PartialOrd, Ord, Drop)]
pub struct LinkKey {
    pub link: LinkId,
    pub key: Key,
}

impl LinkKey {
    /// The key of an id of a link, which is written in this form.
    pub fn of(link: LinkId, form: Form, id: &MessageId) -> LinkKey
        ensures { result ≡ key_on_link link form id.now }
    {
        LinkKey {
            link,
            key: key_of(form, id),
        }
    }
}

/// Two keys match exactly where they are one: that of one link, equal as numbers or as texts.
pub fn link_keys_match_where_they_are_one()
    ensures same { (a b : LinkKey) → IsTrue (same_key a b) ↔ (a ≡ b) }
    ensures order { (a b : LinkKey) → kept_key_cmp a b ≡ link_key_cmp a b }
{}
