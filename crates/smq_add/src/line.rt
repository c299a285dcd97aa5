//! A line of a report as a row.
ghost use Rattle.std.specs.Prelude.{◌≡◌, ◌<◌, ◌++◌, ◌∷◌, [], IfSome, codes, true};
ghost use Rattle.smq_report.specs.Csv.{csv_place, csv_row};
ghost use Rattle.smq_add.specs.Rows.{MayStand, is_of_view, row_line};

use crate::field::{dir_named, list_named, outcome_named, value_of, view_named};
use crate::row::{Key, Row};
use crate::text::{behind, number_of, split_at};
use smq_kit::{Place, SessionId};
use smq_tally::{CountKey, Listed};

/// The row of a line, without its line feed. Lengths of lists are rows where they may stand.
pub fn row_of(line: &[u8], with_lengths: bool) -> Option<Row>
    ensures line { IfSome result (λ row. line.now ++ 10 ∷ [] ≡ row_line row) }
    ensures stands { IfSome result (λ row. MayStand with_lengths row.key row.count) }
{
    if let Some(fields) = behind(line, "view,".as_bytes()) {
        let (at, count) = count_in(fields)?;
        return Some(Row {
            key: Key::Counted(at),
            count,
        });
    }
    if let Some(fields) = behind(line, "list,".as_bytes()) {
        let listed = place_in(fields)?;
        return Some(Row {
            key: Key::Listed(listed.list, Some(listed.place)),
            count: 1,
        });
    }
    if with_lengths {
        return length_in(line);
    }
    None
}

/// The count that is told by the fields of a row of a view.
fn count_in(fields: &[u8]) -> Option<(CountKey, u64)>
    ensures line { IfSome result (λ row. codes "view," ++ fields.now ++ 10 ∷ []
        ≡ csv_row row.0.view (row.0.value, row.0.outcome, row.1)) }
    ensures in_view { IfSome result (λ row. is_of_view row.0.view row.0.value ≡ true) }
    ensures some { IfSome result (λ row. 0 < row.1) }
{
    let (name, fields) = split_at(fields, b',')?;
    let view = view_named(name)?;
    let (value, fields) = split_at(fields, b',')?;
    let value = value_of(view, value)?;
    let (outcome, count) = split_at(fields, b',')?;
    let outcome = outcome_named(outcome)?;
    let count = number_of(count)?;
    if count == 0 {
        return None;
    }
    let at = CountKey {
        view,
        value,
        outcome,
    };
    Some((at, count))
}

/// The place that is told by the fields of a place of a list.
fn place_in(fields: &[u8]) -> Option<Listed>
    ensures { IfSome result (λ listed. codes "list," ++ fields.now ++ 10 ∷ []
        ≡ csv_place listed.list listed.place) }
{
    let (name, fields) = split_at(fields, b',')?;
    let list = list_named(name)?;
    let (session, fields) = split_at(fields, b',')?;
    let session = SessionId(number_of(session)?);
    let (dir, offset) = split_at(fields, b',')?;
    let dir = dir_named(dir)?;
    let offset = number_of(offset)?;
    let place = Place {
        session,
        dir,
        offset,
    };
    Some(Listed { list, place })
}

/// The length of a list that a line tells.
fn length_in(line: &[u8]) -> Option<Row>
    ensures line { IfSome result (λ row. line.now ++ 10 ∷ [] ≡ row_line row) }
    ensures stands { IfSome result (λ row. MayStand true row.key row.count) }
{
    let fields = behind(line, "count,".as_bytes())?;
    let (name, count) = split_at(fields, b',')?;
    let list = list_named(name)?;
    let count = number_of(count)?;
    if count == 0 {
        return None;
    }
    Some(Row {
        key: Key::Listed(list, None),
        count,
    })
}
