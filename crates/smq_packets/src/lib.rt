//! Packets of a capture: the records of a file, and the TCP segment in each frame.
#![tactic(auto)]

mod block;
mod datagram;
mod file;
mod fragments;
mod interface;
mod laws;
mod layer;
mod link;
mod octets;
mod options;
mod part;
mod segment;
mod tunnel;

pub use block::{Block, MOST_IN_BLOCK, MOST_INTERFACES, NoBlock, Section};
pub use datagram::Fragment;
pub use file::{
    FileHead, HeadFault, MOST_CAPTURED, RecordHead, read_file_head, read_record, read_record_head,
};
pub use fragments::{Fragments, MOST_PARTS, MOST_WAITING, Whole};
pub use laws::{
    known_blocks, known_bounds, known_flags, known_fragments, known_records, known_refusals,
    known_segments, one_reading,
};
pub use layer::{Address, Unread};
pub use link::LinkType;
pub use segment::{ACK, End, FIN, MOST_HEADS, RST, SYN, Segment, read_segment};
