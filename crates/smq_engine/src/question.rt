//! A question about what rows leave, and its name.
ghost use Rattle.std.specs.Prelude.{◌≡◌, IfOk, drop, option_map, string_bytes};
ghost use Rattle.csv.specs.Records.{fields_of};
ghost use Rattle.smq_engine.specs.Record.{AsksReport, ask_name, asked_by, columns_of, count_name, pick_of, question_name, question_of};

use crate::record::field;
use csv::ByteRecord;
use smq_count::Column;
use smq_load::is_word;
use smq_report::Pick;
use std::alloc::{AllocError, Global};

/// What is asked about what rows leave.
#[derive(Drop)]
pub enum Question {
    /// What is picked of the report.
    Report(Pick),
    /// How many messages have the same in columns.
    Count(Vec<Column>),
}

impl Question {
    /// The question that the fields of a record after its first say, where they say one.
    pub(crate) fn read(alloc: Global, fields: &ByteRecord) -> Result<Option<Question>, AllocError>
        ensures { IfOk result (λ found. option_map asked_by found ≡ question_of (drop 1 (fields_of fields.now))) }
    {
        if fields.len() < 2 {
            return Ok(None);
        }
        if fields.len() == 2 {
            return Ok(read_pick(field(fields, 1)));
        }
        if !is_word(field(fields, 1), "count") {
            return Ok(None);
        }
        match read_columns(alloc, fields)? {
            Some(columns) => Ok(Some(Question::Count(columns))),
            None => Ok(None),
        }
    }

    /// Its name, by which the line that ends its answer tells what was asked.
    pub(crate) fn name(&self, alloc: Global) -> Result<String, AllocError>
        ensures { IfOk result (λ name. string_bytes name ≡ question_name self.now) }
    {
        match self {
            Question::Report(pick) => String::from_str(alloc, name_of(*pick)),
            Question::Count(columns) => count_name(alloc, columns.as_slice()),
        }
    }
}

/// The question about what is picked of the report by a name.
fn read_pick(name: &[u8]) -> Option<Question>
    ensures { option_map asked_by result ≡ option_map AsksReport (pick_of name.now) }
{
    Some(Question::Report(pick_named(name)?))
}

/// What is asked of the report by a name.
fn pick_named(name: &[u8]) -> Option<Pick>
    ensures { result ≡ pick_of name.now }
{
    if is_word(name, "report") {
        return Some(Pick::All);
    }
    Pick::named(name)
}

/// The columns that the fields after the second name, where each names one.
fn read_columns(alloc: Global, fields: &ByteRecord) -> Result<Option<Vec<Column>>, AllocError>
    ensures { IfOk result (λ found.
        option_map (λ columns. columns.items) found ≡ columns_of (drop 2 (fields_of fields.now))) }
{
    let mut columns = Vec::new(alloc);
    for place in 2..fields.len() {
        match Column::named(alloc, field(fields, place))? {
            Some(column) => columns.push(column)?,
            None => return Ok(None),
        }
    }
    Ok(Some(columns))
}

/// The name by which a pick is asked.
fn name_of(pick: Pick) -> &'static str
    ensures { result.now ≡ ask_name pick }
{
    match pick {
        Pick::All => "report",
        Pick::View(view) => view.name(),
        Pick::List(list) => list.name(),
    }
}

/// The name of a question `count`.
fn count_name(alloc: Global, columns: &[Column]) -> Result<String, AllocError>
    ensures { IfOk result (λ name. string_bytes name ≡ count_name columns.now) }
{
    let mut name = String::from_str(alloc, "count")?;
    for column in columns {
        name.push(' ')?;
        column.push_name(&mut name)?;
    }
    Ok(name)
}
