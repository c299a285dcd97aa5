//! The columns that messages are counted by.
ghost use Rattle.std.specs.Prelude.{◌≡◌, ◌++◌, IfOk, IfSome, OnOk, find, string_bytes};
ghost use Rattle.smq_count.specs.Columns.{column_name, columns, is_named, period_name};

use smq_tally::View;
use std::alloc::{AllocError, Global};

/// A stretch of time, in UTC or in local time.
#[derive(Clone, Copy, Debug, PartialEq, Eq, PartialOrd, Ord)]
pub enum Period {
    Minute,
    Hour,
    Day,
    /// Of the Gregorian calendar.
    Month,
}

impl Period {
    /// The name of its column.
    pub fn name(self) -> &'static str
        ensures { result.now ≡ period_name self }
    {
        match self {
            Period::Minute => "minute",
            Period::Hour => "hour",
            Period::Day => "day",
            Period::Month => "month",
        }
    }
}

/// What messages are counted by.
#[derive(Clone, Copy, Debug, PartialEq, Eq)]
pub enum Column {
    /// What a view counts by.
    View(View),
    /// The session of its submit_sm or data_sm (SMPP 3.4, 4.4.1 and 4.7.1), by number.
    Session,
    /// What became of it.
    Outcome,
    /// The period in which that came.
    Period(Period),
    /// The address that it comes from, as `Submit` has it (5.2.8).
    Source,
    /// The type of that address's number (5.2.5).
    SourceTon,
    /// The first so many digits of the number that it is sent to (5.2.9), or all where it has fewer.
    Prefix(u8),
}

/// All columns.
const COLUMNS: [Column; 29] = [
    Column::View(View::Link),
    Column::Session,
    Column::View(View::Route),
    Column::View(View::Network),
    Column::Outcome,
    Column::View(View::Error),
    Column::View(View::LinkDelay),
    Column::View(View::CentreDelay),
    Column::Period(Period::Minute),
    Column::Period(Period::Hour),
    Column::Period(Period::Day),
    Column::Period(Period::Month),
    Column::Source,
    Column::SourceTon,
    Column::Prefix(1),
    Column::Prefix(2),
    Column::Prefix(3),
    Column::Prefix(4),
    Column::Prefix(5),
    Column::Prefix(6),
    Column::Prefix(7),
    Column::Prefix(8),
    Column::Prefix(9),
    Column::Prefix(10),
    Column::Prefix(11),
    Column::Prefix(12),
    Column::Prefix(13),
    Column::Prefix(14),
    Column::Prefix(15),
];

impl Column {
    /// Puts its name after the text.
    pub fn push_name(self, text: &mut String) -> Result<(), AllocError>
        ensures { OnOk result (string_bytes text.new ≡ string_bytes text.old ++ column_name self) }
    {
        match self {
            Column::View(view) => text.push_str(view.name()),
            Column::Session => text.push_str("session"),
            Column::Outcome => text.push_str("outcome"),
            Column::Period(period) => text.push_str(period.name()),
            Column::Source => text.push_str("source"),
            Column::SourceTon => text.push_str("ton"),
            Column::Prefix(digits) => write!(text, "prefix:{digits}"),
        }
    }

    /// The column of a name.
    pub fn named(alloc: Global, name: &[u8]) -> Result<Option<Column>, AllocError>
        ensures value { IfOk result (λ found. found ≡ find (is_named name.now) columns) }
        ensures named { IfOk result (λ found. IfSome found (λ column. column_name column ≡ name.now)) }
    {
        named_among(alloc, COLUMNS.as_slice(), name)
    }
}

/// The first of some columns that has a name.
fn named_among(alloc: Global, columns: &[Column], name: &[u8]) -> Result<Option<Column>, AllocError>
    ensures value { IfOk result (λ found. found ≡ find (is_named name.now) columns.now) }
    ensures named { IfOk result (λ found. IfSome found (λ column. column_name column ≡ name.now)) }
{
    let mut text = String::new(alloc);
    for column in columns {
        text.clear();
        column.push_name(&mut text)?;
        if text.as_bytes() == name {
            return Ok(Some(*column));
        }
    }
    Ok(None)
}
