//! The rows that are made.
use bytes::Bytes;
use smq_kit::{Dir, LinkId, Moment, SessionId};

/// A row of a script.
#[derive(Drop)]
pub enum Row {
    /// Octets come.
    Piece(Piece),
    /// A session is taken back.
    Withdraw(SessionId),
}

/// Octets of a direction of a session of a link, and their moment.
#[derive(Drop)]
pub struct Piece {
    pub link: LinkId,
    pub session: SessionId,
    pub sender: Dir,
    pub moment: Moment,
    pub octets: Bytes,
}
