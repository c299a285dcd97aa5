//! The lines of a report as CSV. No field needs quotes.
ghost use Rattle.std.specs.Prelude.{◌≡◌, ◌++◌, OnOk, string_bytes};
ghost use Rattle.smq_report.specs.Csv.{csv_place, csv_row};

use crate::value::{dir_name, push_value};
use smq_kit::Place;
use smq_tally::{List, Outcome, Value, View};
use std::alloc::AllocError;

/// Puts a row of a view after the page.
pub(crate) fn push_row(
    page: &mut String,
    view: View,
    value: &Value,
    outcome: Outcome,
    count: u64,
) -> Result<(), AllocError>
    ensures { OnOk result (string_bytes page.new
        ≡ string_bytes page.old ++ csv_row view (value.now, outcome, count)) }
{
    let view = view.name();
    write!(page, "view,{view},")?;
    push_value(page, value)?;
    let outcome = outcome.name();
    writeln!(page, ",{outcome},{count}")
}

/// Puts a place of a list after the page.
pub(crate) fn push_place(page: &mut String, list: List, place: Place) -> Result<(), AllocError>
    ensures { OnOk result (string_bytes page.new ≡ string_bytes page.old ++ csv_place list place) }
{
    let list = list.name();
    let session = place.session.0;
    let dir = dir_name(place.dir);
    let offset = place.offset;
    writeln!(page, "list,{list},{session},{dir},{offset}")
}
