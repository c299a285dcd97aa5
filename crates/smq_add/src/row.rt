//! The rows of a report as CSV: each a key and a count, in the order of keys.
ghost use Rattle.std.specs.Prelude.{◌≡◌, ◌++◌, OnOk, string_bytes};
ghost use Rattle.smq_report.specs.Csv.{csv_place, csv_row};
ghost use Rattle.smq_report.specs.Values.{dir_text};
ghost use Rattle.smq_add.specs.Rows.{length_line, line_of, row_line};

use smq_kit::{Dir, Place};
use smq_report::push_value;
use smq_tally::{CountKey, List};
use std::alloc::AllocError;

/// What a row of a report is of.
#[derive(Debug, PartialEq, Eq, PartialOrd, Ord, Drop)]
pub enum Key {
    /// The messages that have this value in this view, and this outcome.
    Counted(CountKey),
    /// A place of a list; none: the list, of which its length alone is told.
    Listed(List, Option<Place>),
}

/// A row of a report: what it is of, and how many.
#[derive(Debug, PartialEq, Eq, Drop)]
pub struct Row {
    pub key: Key,
    /// How many messages, or how many places: 1, where it is a place.
    pub count: u64,
}

impl Row {
    /// Puts its line after the text.
    pub fn push(&self, text: &mut String) -> Result<(), AllocError>
        ensures { OnOk result (string_bytes text.new ≡ string_bytes text.old ++ row_line self.now) }
    {
        push_line(text, &self.key, self.count)
    }
}

/// Puts the line of a key with a count after the text.
pub(crate) fn push_line(text: &mut String, key: &Key, count: u64) -> Result<(), AllocError>
    ensures { OnOk result (string_bytes text.new ≡ string_bytes text.old ++ line_of key.now count) }
{
    match key {
        Key::Counted(at) => push_count(text, at, count),
        Key::Listed(list, place) => match place {
            Some(place) => push_place(text, *list, *place),
            None => push_length(text, *list, count),
        },
    }
}

fn push_count(text: &mut String, at: &CountKey, count: u64) -> Result<(), AllocError>
    ensures { OnOk result (string_bytes text.new
        ≡ string_bytes text.old ++ csv_row at.now.view (at.now.value, at.now.outcome, count)) }
{
    let view = at.view.name();
    write!(text, "view,{view},")?;
    push_value(text, &at.value)?;
    let outcome = at.outcome.name();
    writeln!(text, ",{outcome},{count}")
}

fn push_place(text: &mut String, list: List, place: Place) -> Result<(), AllocError>
    ensures { OnOk result (string_bytes text.new ≡ string_bytes text.old ++ csv_place list place) }
{
    let list = list.name();
    let session = place.session.0;
    let dir = dir_name(place.dir);
    let offset = place.offset;
    writeln!(text, "list,{list},{session},{dir},{offset}")
}

fn push_length(text: &mut String, list: List, count: u64) -> Result<(), AllocError>
    ensures { OnOk result (string_bytes text.new ≡ string_bytes text.old ++ length_line list count) }
{
    let list = list.name();
    writeln!(text, "count,{list},{count}")
}

/// The word for a direction.
fn dir_name(dir: Dir) -> &'static str
    ensures { result.now ≡ dir_text dir }
{
    match dir {
        Dir::FromClient => "client",
        Dir::FromCentre => "centre",
    }
}
