//! Copies of rows.
ghost use Rattle.std.specs.Prelude.{◌≡◌, IfOk};

use smq_load::Row;
use smq_present::PieceRow;
use std::alloc::{AllocError, Global};

/// Equal rows. Pieces share their octets.
pub(crate) fn copy_rows(alloc: Global, rows: &[Row]) -> Result<Vec<Row>, AllocError>
    ensures { IfOk result (λ copies. copies.items ≡ rows.now) }
{
    let mut copies = Vec::with_capacity(alloc, rows.len())?;
    for row in rows {
        copies.push(copy_row(row)?)?;
    }
    Ok(copies)
}

/// An equal row.
fn copy_row(row: &Row) -> Result<Row, AllocError>
    ensures { IfOk result (λ copy. copy ≡ row.now) }
{
    match row {
        Row::Piece(piece) => Ok(Row::Piece(copy_piece(piece)?)),
        Row::Plain(edit) => Ok(Row::Plain(edit.copy()?)),
    }
}

/// An equal piece, which shares the octets.
fn copy_piece(piece: &PieceRow) -> Result<PieceRow, AllocError>
    ensures { IfOk result (λ copy. copy ≡ piece.now) }
{
    Ok(PieceRow {
        link: piece.link,
        session: piece.session,
        dir: piece.dir,
        moment: piece.moment,
        octets: piece.octets.clone()?,
    })
}
