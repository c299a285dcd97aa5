//! Counts of messages by tuples, and their text.
ghost use Rattle.std.specs.Prelude.{◌≡◌, ◌+◌, ◌<◌, ◌^◌, ◌++◌, ◌∷◌, [], IfErr, IfOk, List, OnErr, OnOk, codes, length, map, string_bytes};
ghost use Rattle.std.specs.FinMap.{put};
ghost use Rattle.std.specs.Io.KnownBytes.{Appends};
ghost use Rattle.smq_present.specs.join.Lines.{MessageLineValue};
ghost use Rattle.smq_report.specs.Beginnings.{AppendsBeginning};
ghost use Rattle.smq_count.specs.Cells.{cell_text, tuple_cmp};
ghost use Rattle.smq_count.specs.Columns.{column_name};
ghost use Rattle.smq_count.specs.Counts.{count_fields, counted_fields, counts_of, counts_text};
ghost use Rattle.smq_count.specs.within.Kept.{kept, number_kept};

use crate::cell::Cell;
use crate::column::Column;
use crate::counting::Counting;
use smq_present::MessageLine;
use smq_report::{Fields, Line, ReportFault, write_lines};
use std::alloc::{AllocError, Global};
use std::collections::BTreeMap;
use std::io::Write;
use std::marker::Model;

/// A combination of what messages have in columns, as it is written, and how many messages have it.
#[derive(Drop)]
pub struct Counted {
    pub texts: Vec<Vec<u8>>,
    pub messages: u64,
}

impl Line for Counted {
    ghost fields = { counted_fields };

    fn put(&self, into: &mut Fields) -> Result<(), AllocError> {
        for text in self.texts.as_slice() {
            into.put_octets(text.as_slice())?;
        }
        into.put_number(self.messages)
    }
}

/// Counts of messages by tuples, as they come to be, a message at a time. A contract sees each tuple that one has, in order, with how many
/// have it.
#[derive(Drop)]
pub struct Counts {
    numbers: BTreeMap<Vec<Cell>, u64>,
}

impl Model for Counts {
    ghost use Rattle.std.specs.Prelude.{ℕ, List};
    ghost use Rattle.smq_count.specs.Cells.{Tuple};
    ghost use Rattle.smq_count.specs.within.Kept.{kept};

    ghost Value = { List (Tuple × ℕ) };

    ghost view = { λ c. kept c.numbers.entries };
}

impl Counts {
    /// Those of no message.
    pub fn new(alloc: Global) -> Counts
        ensures { (counting : Counting) → result ≡ counts_of counting [] }
    {
        Counts {
            numbers: BTreeMap::new(alloc),
        }
    }

    /// Counts one more message, by its line. On an error they stay as they are.
    pub fn add(
        &mut self,
        alloc: Global,
        counting: &Counting,
        line: &MessageLine<'_>,
    ) -> Result<(), AllocError>
        requires few { (lines : List MessageLineValue) × (self.old ≡ counts_of counting.now lines) × (length lines < 2 ^ 63) }
        ensures ok { (lines : List MessageLineValue) → self.old ≡ counts_of counting.now lines
            → OnOk result (self.new ≡ counts_of counting.now (lines ++ line.now ∷ [])) }
        ensures err { OnErr result (self.new ≡ self.old) }
    {
        if counting.is_counted(alloc, line)? {
            let tuple = counting.tuple(alloc, line)?;
            count_one(&mut self.numbers, tuple)?;
        }
        Ok(())
    }

    /// Each tuple as it is written, in order, with how many messages have it.
    pub fn counted(self, alloc: Global) -> Result<Vec<Counted>, AllocError>
        ensures { IfOk result (λ counted. map counted_fields counted.items ≡ map count_fields self) }
    {
        let mut counted = Vec::with_capacity(alloc, self.numbers.len())?;
        for (tuple, messages) in self.numbers {
            let texts = texts_of(alloc, tuple.as_slice())?;
            counted.push(Counted { texts, messages })?;
        }
        Ok(counted)
    }
}

/// Writes counts as CSV: a record of columns, and a record for each tuple that a message has, in order. `Write` comes only where the
/// writer failed in this call. On an error a beginning of the text has gone out, or nothing.
pub fn write_counts<W: Write>(
    alloc: Global,
    counting: &Counting,
    counts: Counts,
    writer: &mut W,
) -> Result<(), ReportFault>
    ensures ok { (lines : List MessageLineValue) → counts ≡ counts_of counting.now lines
        → OnOk result (Appends (W.contents writer.old) (W.contents writer.new)
        (counts_text counting.now lines)) }
    ensures begun { (lines : List MessageLineValue) → counts ≡ counts_of counting.now lines
        → IfErr result (λ fault. AppendsBeginning (W.contents writer.old) (W.contents writer.new)
        (counts_text counting.now lines)) }
{
    let names = names_of(alloc, counting.columns.as_slice())?;
    let names = octets_of(alloc, names.as_slice())?;
    let counted = counts.counted(alloc)?;
    write_lines(alloc, names.as_slice(), counted.as_slice(), writer)
}

/// Counts one more of a tuple.
fn count_one(counts: &mut BTreeMap<Vec<Cell>, u64>, tuple: Vec<Cell>) -> Result<(), AllocError>
    requires { number_kept counts.old.entries tuple.items < 2 ^ 63 }
    ensures ok { OnOk result (kept counts.new.entries
        ≡ put tuple_cmp tuple.items (number_kept counts.old.entries tuple.items + 1) (kept counts.old.entries)) }
    ensures err { OnErr result (kept counts.new.entries ≡ kept counts.old.entries) }
{
    let number = counts.get(&tuple).copied().unwrap_or(0);
    counts.insert(tuple, number + 1)?;
    Ok(())
}

/// How the cells of a tuple are written.
fn texts_of(alloc: Global, tuple: &[Cell]) -> Result<Vec<Vec<u8>>, AllocError>
    ensures { IfOk result (λ texts. map (λ text. text.items) texts.items ≡ map cell_text tuple.now) }
{
    let mut texts = Vec::with_capacity(alloc, tuple.len())?;
    for cell in tuple {
        texts.push(cell.text(alloc)?)?;
    }
    Ok(texts)
}

/// The names of the columns of counts.
fn names_of(alloc: Global, columns: &[Column]) -> Result<Vec<String>, AllocError>
    ensures { IfOk result (λ names. map string_bytes names.items ≡ map column_name columns.now ++ codes "messages" ∷ []) }
{
    let mut names = Vec::with_capacity(alloc, columns.len())?;
    for column in columns {
        let mut name = String::new(alloc);
        column.push_name(&mut name)?;
        names.push(name)?;
    }
    names.push(String::from_str(alloc, "messages")?)?;
    Ok(names)
}

/// The octets of names.
fn octets_of(alloc: Global, names: &[String]) -> Result<Vec<&[u8]>, AllocError>
    ensures { IfOk result (λ octets. map (λ name. name.now) octets.items ≡ map string_bytes names.now) }
{
    let mut octets = Vec::with_capacity(alloc, names.len())?;
    for name in names {
        octets.push(name.as_bytes())?;
    }
    Ok(octets)
}
