//! One direction of a connection: its octets in order, gaps that are given up, and where PDUs of SMPP begin.
#![tactic(auto)]

mod acknowledged;
mod extent;
mod fit;
mod framer;
mod given;
mod headers;
mod laws;
mod seeker;
mod stream;

pub use fit::Fit;
pub use framer::Framer;
pub use given::Given;
pub use headers::{LONGEST_PDU, SHORTEST_PDU};
pub use laws::{known_calls, known_octets, one_framer, parts_are_streams};
pub use seeker::Seeker;
pub use stream::{Found, Missing, Stream, Why};
