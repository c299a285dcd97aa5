//! The key of a message id on its link as maps keep it: with a hash of it, by which nearly all keys differ.
ghost use Rattle.std.specs.Prelude.{◌≡◌};
ghost use Rattle.smq_kit.specs.Hashes.{hash_of, hash_of_text, spread};
ghost use Rattle.smq_kit.specs.LinkKeys.{link_key};

use crate::{Form, Key, LinkId, MessageId, key_of};
use std::marker::Model;

/// A key of a link with a hash of what it is on its link. It is ordered by link, then by hash, then by key, so that a map
/// compares two texts only where their hashes are equal. A contract sees the key.
#[derive(Debug, PartialEq, Eq, PartialOrd, Ord, Drop)]
pub struct HashedKey {
    link: LinkId,
    hash: u64,
    key: Key,
}

impl Model for HashedKey {
    ghost use Rattle.std.specs.Prelude.{◌≡◌};
    ghost use Rattle.smq_kit.specs.declared.link_key.LinkKey.{LinkKey};
    ghost use Rattle.smq_kit.specs.Hashes.{hash_of};

    ghost Value = { LinkKey };

    ghost view = { λ k. record { link = k.link; key = k.key } };

    ghost invariant = { λ k. k.hash ≡ hash_of k.key };

    ghost inverse = { λ k. record { link = k.link; hash = hash_of k.key; key = k.key } };
}

impl HashedKey {
    /// A key of a link.
    pub fn new(link: LinkId, key: Key) -> HashedKey
        ensures { result ≡ record { link = link; key = key } }
    {
        HashedKey {
            link,
            hash: hash_of(&key),
            key,
        }
    }

    /// The key of an id of a link, which is written in this form.
    pub fn of(link: LinkId, form: Form, id: &MessageId) -> HashedKey
        ensures { result ≡ link_key link form id.now }
    {
        HashedKey::new(link, key_of(form, id))
    }

    /// Its link.
    pub fn link(&self) -> LinkId
        ensures { result ≡ self.now.link }
    {
        self.link
    }

    /// The hash of what it is on its link.
    pub fn hash(&self) -> u64
        ensures { result ≡ hash_of self.now.key }
    {
        self.hash
    }

    /// An equal key. It takes no memory.
    pub fn copy(&self) -> HashedKey
        ensures { result ≡ self.now }
    {
        HashedKey {
            link: self.link,
            hash: self.hash,
            key: self.key.copy(),
        }
    }
}

/// How many hashes that follow each other are spread among themselves.
const BLOCK: u64 = 1024;

/// How far apart two that follow each other come: an odd number near a block by the golden ratio.
const STEP: u64 = 633;

/// The hash of what a key is on its link: of a number its last 64 bits, of a text that of its octets, each spread.
fn hash_of(key: &Key) -> u64
    ensures { result ≡ hash_of key.now }
{
    match key {
        Key::Number(number) => spread((*number % (1 << 64)) as u64),
        Key::Text(id) => spread(hash_of_text(id.as_slice())),
    }
}

/// A hash with its last ten bits spread. Ids are often given in a row: in order they would leave the nodes of a map half
/// empty, and spread over all 64 bits each would stand where no look-up came lately. So they stay near each other, out of
/// order.
fn spread(hash: u64) -> u64
    ensures { result ≡ spread hash }
{
    hash / BLOCK * BLOCK + hash % BLOCK * STEP % BLOCK
}

/// The hash of a text: as each octet comes, 31 times the hash so far and the octet, of which the last 64 bits count.
fn hash_of_text(octets: &[u8]) -> u64
    ensures { result ≡ hash_of_text 0 octets.now }
{
    let mut hash = 0u64;
    for octet in octets {
        hash = hash.wrapping_mul(31).wrapping_add(*octet as u64);
    }
    hash
}
