//! Frames of an SMPP stream that comes in pieces, with a carried rest.
#![tactic(auto)]

mod framing;
mod laws;
mod tail;

pub use framing::{Frame, LONGEST_PDU, SHORTEST_PDU, frames};
pub use laws::{
    frames_are_octets, frames_give_the_tail, frames_lie_in_their_stream, known_frames,
    known_limits, offsets_ascend, one_split, pieces_join, stream_grows,
};
pub use tail::{LONGEST_STREAM, Tail};
