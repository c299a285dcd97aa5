//! The lines of a report as tables to read.
ghost use Rattle.std.specs.Prelude.{◌≡◌, ◌++◌, ◌≤◌, ◌-◌, OnOk, replicate, string_bytes, string_len};
ghost use Rattle.smq_report.specs.Table.{section_line, table_place, table_row};

use crate::pick::Section;
use crate::value::{dir_name, push_value};
use smq_kit::Place;
use smq_tally::{Outcome, Value};
use std::alloc::AllocError;

/// Puts a section's own line after the page.
pub(crate) fn push_head(page: &mut String, section: Section) -> Result<(), AllocError>
    ensures { OnOk result (string_bytes page.new ≡ string_bytes page.old ++ section_line section) }
{
    match section {
        Section::View(view) => {
            let name = view.name();
            writeln!(page, "view {name}")
        }
        Section::List(list) => {
            let name = list.name();
            writeln!(page, "list {name}")
        }
    }
}

/// Puts a row of a view after the page.
pub(crate) fn push_row(
    page: &mut String,
    value: &Value,
    outcome: Outcome,
    count: u64,
) -> Result<(), AllocError>
    ensures { OnOk result (string_bytes page.new
        ≡ string_bytes page.old ++ table_row (value.now, outcome, count)) }
{
    page.push_str("  ")?;
    let start = page.len();
    push_value(page, value)?;
    fill(page, start, 24)?;
    let name = outcome.name();
    writeln!(page, " {name:<10} {count:>10}")
}

/// Puts a place of a list after the page.
pub(crate) fn push_place(page: &mut String, place: Place) -> Result<(), AllocError>
    ensures { OnOk result (string_bytes page.new ≡ string_bytes page.old ++ table_place place) }
{
    let session = place.session.0;
    let dir = dir_name(place.dir);
    let offset = place.offset;
    writeln!(page, "  {session:>20} {dir:<6} {offset:>16}")
}

/// Puts spaces after the page, up to so many places from the start of a column.
fn fill(page: &mut String, start: usize, places: usize) -> Result<(), AllocError>
    requires { start ≤ string_len page.old }
    ensures { OnOk result (string_bytes page.new
        ≡ string_bytes page.old ++ replicate (places - (string_len page.old - start)) 32) }
{
    let missing = places.saturating_sub(page.len() - start);
    for filled in 0..missing {
        page.push(' ')?;
    }
    Ok(())
}
