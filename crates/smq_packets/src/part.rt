//! Fragments that are kept.
ghost use Rattle.std.specs.Prelude.{◌+◌, ◌≤◌, vec_len};

use crate::datagram::Fragment;
use crate::layer::Address;

/// A fragment that is kept.
#[derive(Drop)]
pub(crate) struct Part {
    pub source: Address,
    pub destination: Address,
    pub protocol: u8,
    pub identification: u32,
    pub moment: u64,
    pub offset: usize,
    pub is_followed: bool,
    /// Whether it overlapped another of its datagram as it came.
    pub is_overlapping: bool,
    pub octets: Vec<u8>,
    ghost within: { offset + vec_len octets ≤ 65535 },
}

impl Part {
    ghost use Rattle.std.specs.Prelude.{◌≡◌};
    ghost use Rattle.smq_packets.specs.Fragments.{belongs};

    /// Whether it is of the datagram that a fragment is of.
    pub fn is_of(&self, fragment: Fragment) -> bool
        ensures { result ≡ belongs self.now fragment }
    {
        self.source.is(fragment.source)
            && self.destination.is(fragment.destination)
            && self.identification == fragment.identification
            && self.protocol == fragment.protocol
    }
}
