//! Jobs: rows that one worker does from a seat.
use crate::Seat;
use smq_kit::Refusal;
use smq_present::PieceRow;

/// Rows that one worker does from a seat, in their order.
#[derive(Drop)]
pub struct LinkJob {
    pub seat: Seat,
    pub rows: Vec<PieceRow>,
    /// How many rows are done, those that were refused among them. It is the place of the next row, from 0.
    pub next: u64,
    /// How many of the rows that are done were refused: they couldn't be prepared, or the book refused them.
    pub refused: u64,
    /// Why the next row isn't done: lack of memory (`Memory`), a history at its limit (`HistoryFull`) or a thread that the system
    /// refused to start (`NoThread`). None where all rows are done.
    pub stop: Option<Refusal>,
}

/// What became of a row that a worker came to.
#[derive(Clone, Copy)]
pub(crate) enum RowEnd {
    Done,
    Refused,
    Stopped(Refusal),
}
