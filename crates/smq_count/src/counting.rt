//! What is counted, and by what.
ghost use Rattle.std.specs.Prelude.{◌≡◌, ◌++◌, ◌∷◌, [], IfOk, IfSome, OnOk, map, string_bytes};
ghost use Rattle.smq_count.specs.Cells.{tuple_by};
ghost use Rattle.smq_count.specs.Columns.{column_name};
ghost use Rattle.smq_count.specs.Counts.{condition_text, has_text, is_counted, with_commas};

use crate::cell::Cell;
use crate::column::Column;
use crate::local::Zone;
use smq_present::MessageLine;
use std::alloc::{AllocError, Global};

/// A message is counted only where it has this text in this column.
#[derive(Debug, Drop)]
pub struct Condition {
    pub column: Column,
    pub value: Vec<u8>,
}

/// Columns to count by, conditions, and the time by which periods are.
#[derive(Debug, Drop)]
pub struct Counting {
    pub columns: Vec<Column>,
    pub conditions: Vec<Condition>,
    pub zone: Zone,
}

impl Counting {
    /// The columns whose names stand in a text, with commas between, and conditions, each as COLUMN=VALUE, in UTC. None where a name
    /// is no column's.
    pub fn parse(
        alloc: Global,
        columns: &[u8],
        conditions: &[String],
    ) -> Result<Option<Counting>, AllocError>
        ensures columns { IfOk result (λ found. IfSome found (λ counting.
            with_commas counting.columns.items ≡ columns.now ++ 44 ∷ [])) }
        ensures conditions { IfOk result (λ found. IfSome found (λ counting.
            map condition_text counting.conditions.items ≡ map string_bytes conditions.now)) }
        ensures utc { IfOk result (λ found. IfSome found (λ counting. counting.zone ≡ Zone.Utc)) }
    {
        let Some(columns) = columns_in(alloc, columns)? else {
            return Ok(None);
        };
        let Some(conditions) = conditions_in(alloc, conditions)? else {
            return Ok(None);
        };
        Ok(Some(Counting {
            columns,
            conditions,
            zone: Zone::Utc,
        }))
    }

    /// Whether a message is counted.
    pub(crate) fn is_counted(
        &self,
        alloc: Global,
        line: &MessageLine<'_>,
    ) -> Result<bool, AllocError>
        ensures { IfOk result (λ is_counted_. is_counted_ ≡ is_counted self.now line.now) }
    {
        for condition in self.conditions.as_slice() {
            if !condition.is_met(alloc, &self.zone, line)? {
                return Ok(false);
            }
        }
        Ok(true)
    }

    /// What a message has in the columns.
    pub(crate) fn tuple(
        &self,
        alloc: Global,
        line: &MessageLine<'_>,
    ) -> Result<Vec<Cell>, AllocError>
        ensures { IfOk result (λ tuple. tuple.items ≡ tuple_by self.now.zone self.now.columns.items line.now) }
    {
        let mut tuple = Vec::with_capacity(alloc, self.columns.len())?;
        for column in self.columns.as_slice() {
            tuple.push(Cell::of(&self.zone, *column, line))?;
        }
        Ok(tuple)
    }
}

impl Condition {
    /// Whether a message has its text in its column.
    fn is_met(&self, alloc: Global, zone: &Zone, line: &MessageLine<'_>) -> Result<bool, AllocError>
        ensures { IfOk result (λ is_met. is_met ≡ has_text zone.now line.now self.now) }
    {
        let text = Cell::of(zone, self.column, line).text(alloc)?;
        Ok(text.as_slice() == self.value.as_slice())
    }
}

/// The columns whose names stand in a text, with commas between.
fn columns_in(alloc: Global, text: &[u8]) -> Result<Option<Vec<Column>>, AllocError>
    ensures { IfOk result (λ found. IfSome found (λ columns. with_commas columns.items ≡ text.now ++ 44 ∷ [])) }
{
    let mut columns = Vec::new(alloc);
    let mut rest = text;
    while let Some((name, after)) = split_once(rest, b',') {
        let Some(column) = Column::named(alloc, name)? else {
            return Ok(None);
        };
        columns.push(column)?;
        rest = after;
    }
    match Column::named(alloc, rest)? {
        Some(column) => {
            columns.push(column)?;
            Ok(Some(columns))
        }
        None => Ok(None),
    }
}

/// The conditions that texts are.
fn conditions_in(alloc: Global, texts: &[String]) -> Result<Option<Vec<Condition>>, AllocError>
    ensures { IfOk result (λ found. IfSome found (λ conditions.
        map condition_text conditions.items ≡ map string_bytes texts.now)) }
{
    let mut conditions = Vec::new(alloc);
    for text in texts {
        match condition_in(alloc, text.as_bytes())? {
            Some(condition) => conditions.push(condition)?,
            None => return Ok(None),
        }
    }
    Ok(Some(conditions))
}

/// The condition that a text is.
fn condition_in(alloc: Global, text: &[u8]) -> Result<Option<Condition>, AllocError>
    ensures { IfOk result (λ found. IfSome found (λ condition. condition_text condition ≡ text.now)) }
{
    let Some((name, value)) = split_once(text, b'=') else {
        return Ok(None);
    };
    let Some(column) = Column::named(alloc, name)? else {
        return Ok(None);
    };
    let mut octets = Vec::new(alloc);
    octets.extend_from_slice(value)?;
    Ok(Some(Condition {
        column,
        value: octets,
    }))
}

/// What stands before the first such octet, and behind it.
fn split_once(text: &[u8], mark: u8) -> Option<(&[u8], &[u8])>
    ensures { IfSome result (λ parts. text.now ≡ parts.0.now ++ mark ∷ parts.1.now) }
{
    for index in 0..text.len() {
        if text[index] == mark {
            return Some((&text[..index], &text[index + 1..]));
        }
    }
    None
}
