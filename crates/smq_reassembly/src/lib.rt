//! The octets of one direction of a TCP connection, in order, as its segments come: of octets that come twice the first copy counts.
#![tactic(auto)]

mod capture;
mod laws;
mod packet;
mod reassembly;
mod sequence;
mod waiting;

pub use capture::{Segment, parts_of};
pub use laws::{given_at_completion, known_streams, one_given, one_place, one_stream};
pub use packet::Packet;
pub use reassembly::{LONGEST, Next, Part, Reassembly, Taken, WINDOW};
pub use sequence::{Place, place_of};
