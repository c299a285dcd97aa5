//! A report as it is read: its rows, whose keys rise.
ghost use Rattle.std.specs.Prelude.{◌≡◌, ◌++◌, ◌∷◌, [], IfOk, IsTrue};
ghost use Rattle.smq_add.specs.Rows.{AreRows, Rise, rows_text};

use crate::line::row_of;
use crate::row::Row;
use crate::text::split_at;
use std::alloc::Global;
use std::cmp::Ord;

/// Why a report wasn't read.
#[derive(Clone, Copy, Debug, PartialEq, Eq)]
pub enum ReadFault {
    /// The line of this number, from 1, is none of a report, or isn't in its order.
    Line(u64),
    /// Memory ran out.
    Memory,
}

/// The rows of a report as CSV. Lengths of lists are rows where they may stand.
pub fn read_report(alloc: Global, text: &[u8], with_lengths: bool) -> Result<Vec<Row>, ReadFault>
    ensures text { IfOk result (λ rows. text.now ≡ rows_text rows.items) }
    ensures rows { IfOk result (λ rows. AreRows with_lengths rows.items) }
{
    let mut rows: Vec<Row> = Vec::new(alloc);
    let mut left = text;
    let mut number = 0;
    while !left.is_empty() {
        number += 1;
        let Some((line, rest)) = split_at(left, b'\n') else {
            return Err(ReadFault::Line(number));
        };
        let Some(row) = row_of(line, with_lengths) else {
            return Err(ReadFault::Line(number));
        };
        if !comes_after(&row, rows.as_slice()) {
            return Err(ReadFault::Line(number));
        }
        let Ok(()) = rows.push(row) else {
            return Err(ReadFault::Memory);
        };
        left = rest;
    }
    Ok(rows)
}

/// Whether a row comes after all of these, whose keys rise.
fn comes_after(row: &Row, rows: &[Row]) -> bool
    ensures { IsTrue result → Rise rows.now → Rise (rows.now ++ row.now ∷ []) }
{
    let Some((last, _)) = rows.split_last() else {
        return true;
    };
    last.key.cmp(&row.key).is_lt()
}
