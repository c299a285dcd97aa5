//! Octets of a direction, as they are given.

/// Octets that follow one another, as one packet brought them: the place of the first in the direction.
#[derive(Drop)]
pub struct Given {
    pub place: u64,
    pub number: u64,
    pub moment: u64,
    /// Whether the first of them is the first of its segment.
    pub begins: bool,
    pub octets: Vec<u8>,
}
