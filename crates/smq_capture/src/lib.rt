//! Packet captures as the octets of SMPP sessions: pieces of each direction in order, each with the moment at which all before it had
//! come.
#![tactic(auto)]

mod capture;
mod clock;
mod connection;
mod direction;
mod ended;
mod ending;
mod ends;
mod fault;
mod flow;
mod half_open;
mod laws;
mod least;
mod links;
mod notice;
mod numbers;
mod output;
mod probe;
mod queues;
mod reading;
mod room;
mod row;
mod rows;
mod sessions;
mod side;
mod signs;
mod sink;
mod split;
mod strays;
mod ticks;
mod tops;
mod waiting;

pub use capture::{Capture, Options};
pub use fault::Fault;
pub use laws::{
    known_connections, known_flow, known_moments, known_rows, known_tops, rows_come_once, tops_tell,
};
pub use links::Link;
pub use notice::{About, Behind, Busy, Noted, Notice, Sender};
pub use reading::{Reading, Step};
pub use row::put_row;
pub use side::Side;
pub use sink::{Loss, Piece, SessionLine, Sink, Texts};
pub use split::SplitTexts;
