//! Keys of links and their numbers.
ghost use Rattle.std.specs.Prelude.{◌≡◌, IfOk, OnOk, slice_get};
ghost use Rattle.smq_scratch.specs.within.KeyNumbers.{AreNumbered, NoKeys, has, index_of, number_by, slot_of, with_key};

use smq_kit::HashedKey;
use std::alloc::{AllocError, Global};
use std::collections::BTreeMap;

/// Keys with their numbers: 0, 1 and so on, as they come first.
#[derive(Drop)]
pub(crate) struct KeyNumbers {
    /// The keys by their numbers.
    pub keys: Vec<HashedKey>,
    /// Of a slot the number of the first key that has it.
    pub firsts: BTreeMap<u64, usize>,
    /// The numbers of the other keys that have it: hardly any, but for ids that are chosen to share one.
    pub others: BTreeMap<HashedKey, usize>,
}

impl KeyNumbers {
    /// Those of no keys.
    pub(crate) fn new(alloc: Global) -> KeyNumbers
        ensures { NoKeys result }
    {
        KeyNumbers {
            keys: Vec::new(alloc),
            firsts: BTreeMap::new(alloc),
            others: BTreeMap::new(alloc),
        }
    }

    /// The number of a key, which takes the next one where it is new.
    pub(crate) fn number_of(&mut self, key: HashedKey) -> Result<usize, AllocError>
        requires { AreNumbered self.old }
        ensures number { IfOk result (λ number. index_of key self.new.keys.items ≡ Some number) }
        ensures keys { OnOk result (self.new.keys.items ≡ with_key key self.old.keys.items) }
        ensures numbered { OnOk result (AreNumbered self.new) }
    {
        let slot = slot_of(&key);
        let first = self.firsts.get(&slot).copied();
        if let Some(number) = self.known(first, &key) {
            return Ok(number);
        }
        let number = self.keys.len();
        if first.is_none() {
            self.firsts.insert(slot, number)?;
        } else {
            self.others.insert(key.copy(), number)?;
        }
        self.keys.push(key)?;
        Ok(number)
    }

    /// The number of a key that has one, where this is the number of the first of its slot.
    fn known(&self, first: Option<usize>, key: &HashedKey) -> Option<usize>
        ensures { result ≡ number_by first self.now key.now }
    {
        match first {
            Some(number) if self.has(number, key) => Some(number),
            _ => self.others.get(key).copied(),
        }
    }

    /// Whether a number is that of a key.
    fn has(&self, number: usize, key: &HashedKey) -> bool
        ensures { result ≡ has key.now (slice_get self.now.keys.items number) }
    {
        match self.keys.get(number) {
            Some(other) => key.cmp(other).is_eq(),
            None => false,
        }
    }
}

/// By which slots of links are moved: an odd number, 2^64 by the golden ratio.
const LINK_STEP: u64 = 0x9E37_79B9_7F4A_7C15;

/// The slot of a key: hardly any two share one.
fn slot_of(key: &HashedKey) -> u64
    ensures { result ≡ slot_of key.now }
{
    let moved = (key.link().0 as u64).wrapping_mul(LINK_STEP);
    key.hash().wrapping_add(moved)
}
