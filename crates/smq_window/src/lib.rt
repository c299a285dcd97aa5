//! A window of the last minutes: PDUs dealt to a session for each period, and withdrawn with it.
#![tactic(auto)]

mod balance;
mod belief;
mod connection;
mod direction;
mod exchange;
mod laws;
mod length;
mod made;
mod periods;
mod row;
mod session;
mod window;

pub use belief::Belief;
pub use connection::Origin;
pub use direction::Direction;
pub use exchange::{Exchange, Half, exchange_of};
pub use laws::{known_windows, octets_are_conserved, pairs_are_not_cut, sessions_are_recent};
pub use length::{Length, MOST_STEPS};
pub use made::Made;
pub use periods::Span;
pub use row::{Piece, Row};
pub use session::{LAST_SESSION, Session};
pub use window::{Taken, Window};
