//! The sum of rows.
ghost use Rattle.std.specs.Prelude.{◌≡◌, ◌<◌, ◌≤◌, ◌^◌, ◌++◌, ◌∷◌, [], IfErr, List, OnErr, OnOk, map, string_bytes, string_len};
ghost use Rattle.std.specs.Io.KnownBytes.{Appends};
ghost use Rattle.smq_report.specs.Beginnings.{AppendsBeginning};
ghost use Rattle.smq_report.specs.within.Pages.{AppendsAllBut};
ghost use Rattle.smq_add.specs.Rows.{counts_text};
ghost use Rattle.smq_add.specs.Sums.{as_added, sum_of, total_at};

use crate::row::{Key, Row, push_line};
use smq_report::{ReportFault, write_octets};
use std::alloc::Global;
use std::collections::BTreeMap;
use std::io::Write;
use std::marker::Model;

/// From how many octets on a page is written.
const FULL: usize = 65_536;

/// Why a row wasn't added.
#[derive(Clone, Copy, Debug, PartialEq, Eq)]
pub enum AddFault {
    /// The sum of its counts is 2^64 or more.
    TooMany,
    /// Memory ran out.
    Memory,
}

/// The sum of rows, as they come. A contract sees each key once, in order, with the sum of its counts.
#[derive(Drop)]
pub struct Sum {
    counts: BTreeMap<Key, u64>,
}

impl Model for Sum {
    ghost use Rattle.std.specs.Prelude.{ℕ, List};
    ghost use Rattle.smq_add.specs.declared.row.Key.{Key};

    ghost Value = { List (Key × ℕ) };

    ghost view = { λ sum. sum.counts.entries };
}

impl Sum {
    /// That of no row.
    pub fn new(alloc: Global) -> Sum
        ensures { result ≡ sum_of [] }
    {
        Sum {
            counts: BTreeMap::new(alloc),
        }
    }

    /// Adds a row. On an error the sum stays as it is.
    pub fn add(&mut self, row: Row) -> Result<(), AddFault>
        ensures ok { (rows : List Row) → self.old ≡ sum_of rows
            → OnOk result (self.new ≡ sum_of (rows ++ row ∷ [])) }
        ensures too_many { (rows : List Row) → self.old ≡ sum_of rows
            → IfErr result (λ fault. fault ≡ AddFault.TooMany → 2 ^ 64 ≤ total_at row.key (rows ++ row ∷ [])) }
        ensures err { OnErr result (self.new ≡ self.old) }
    {
        let before = self.counts.get(&row.key).copied().unwrap_or(0);
        let Some(count) = before.checked_add(row.count) else {
            return Err(AddFault::TooMany);
        };
        let Ok(_) = self.counts.insert(row.key, count) else {
            return Err(AddFault::Memory);
        };
        Ok(())
    }

    /// Adds the rows of a report; of periods with the lengths of lists in the place of their places. After an error the sum is of no use.
    pub fn add_report(&mut self, report: Vec<Row>, of_periods: bool) -> Result<(), AddFault>
        ensures { (rows : List Row) → self.old ≡ sum_of rows
            → OnOk result (self.new ≡ sum_of (rows ++ map (as_added of_periods) report.items)) }
    {
        for row in report {
            self.add(as_added(of_periods, row))?;
        }
        Ok(())
    }

    /// Writes the line of each key with its count, in order. `Write` comes only where the writer failed in this call. On an error a
    /// beginning of the text has gone out, or nothing.
    pub fn write<W: Write>(self, alloc: Global, writer: &mut W) -> Result<(), ReportFault>
        ensures ok { OnOk result (Appends (W.contents writer.old) (W.contents writer.new) (counts_text self)) }
        ensures begun { IfErr result (λ fault.
            AppendsBeginning (W.contents writer.old) (W.contents writer.new) (counts_text self)) }
    {
        let mut page = String::new(alloc);
        for (key, count) in self.counts {
            push_line(&mut page, &key, count)?;
            send_full(&mut page, writer)?;
        }
        send(&mut page, writer)?;
        writer.flush()?;
        Ok(())
    }
}

/// A row as it is added: of periods the length of a list stands in the place of its places.
fn as_added(of_periods: bool, row: Row) -> Row
    ensures { result ≡ as_added of_periods row }
{
    let Row { key, count } = row;
    match key {
        Key::Listed(list, place) => Row {
            key: Key::Listed(list, if of_periods { None } else { place }),
            count,
        },
        Key::Counted(at) => Row {
            key: Key::Counted(at),
            count,
        },
    }
}

/// Writes the page if it is full, so that it isn't full then.
fn send_full<W: Write>(page: &mut String, writer: &mut W) -> Result<(), ReportFault>
    ensures ok { OnOk result
        (AppendsAllBut (W.contents writer.old) (W.contents writer.new) (string_bytes page.new) (string_bytes page.old)) }
    ensures room { OnOk result (string_len page.new < FULL) }
    ensures begun { IfErr result (λ fault.
        AppendsBeginning (W.contents writer.old) (W.contents writer.new) (string_bytes page.old)) }
{
    if page.len() < FULL {
        return Ok(());
    }
    send(page, writer)
}

/// Writes the page, which is empty then.
fn send<W: Write>(page: &mut String, writer: &mut W) -> Result<(), ReportFault>
    ensures written { OnOk result
        (Appends (W.contents writer.old) (W.contents writer.new) (string_bytes page.old)) }
    ensures empty { OnOk result (string_bytes page.new ≡ []) }
    ensures begun { IfErr result (λ fault.
        AppendsBeginning (W.contents writer.old) (W.contents writer.new) (string_bytes page.old)) }
{
    write_octets(writer, page.as_bytes())?;
    page.clear();
    Ok(())
}
