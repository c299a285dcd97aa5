//! A page of CSV: records that wait to be written, gathered by `csv` in memory that is used again.
ghost use Rattle.std.specs.Prelude.{◌≡◌, ◌++◌, ◌<◌, [], OnOk, IfErr, IfOk, length, map, nat_le};
ghost use Rattle.std.specs.Io.KnownBytes.{Appends};
ghost use Rattle.smq_report.specs.Beginnings.{AppendsBeginning};
ghost use Rattle.smq_report.specs.within.Pages.{AppendsAllBut, IsAtStart, gathered, waiting};
ghost use Rattle.smq_report.specs.Lines.{csv_record};

use crate::fields::Fields;
use crate::lines::Line;
use crate::pick::ReportFault;
use crate::report::{FULL, write_octets};
use csv::Writer;
use std::alloc::Global;
use std::io::Write;
use std::mem::replace;

/// Records that wait to be written, and room for the fields of the next.
#[derive(Drop)]
pub(crate) struct Page {
    pub(crate) records: Writer<Vec<u8>>,
    fields: Fields,
}

impl Page {
    /// An empty page.
    pub(crate) fn new(alloc: Global) -> Page
        ensures start { IsAtStart result.records }
        ensures empty { waiting result.records ≡ [] }
    {
        Page {
            records: Writer::from_writer(Vec::new(alloc)),
            fields: Fields::new(alloc),
        }
    }

    /// Puts columns after what waits.
    pub(crate) fn put_columns(&mut self, columns: &[&[u8]]) -> Result<(), ReportFault>
        requires { IsAtStart self.old.records }
        ensures start { OnOk result (IsAtStart self.new.records) }
        ensures ok { OnOk result (waiting self.new.records
            ≡ waiting self.old.records ++ csv_record (map (λ column. column.now) columns.now)) }
        ensures memory { IfErr result (λ fault. fault ≡ ReportFault.Memory) }
    {
        match self.records.write_fields(columns) {
            Ok(()) => Ok(()),
            Err(_) => Err(ReportFault::Memory),
        }
    }

    /// Puts a line after what waits.
    pub(crate) fn put_line<L: Line>(&mut self, line: &L) -> Result<(), ReportFault>
        requires { IsAtStart self.old.records }
        ensures start { OnOk result (IsAtStart self.new.records) }
        ensures ok { OnOk result (waiting self.new.records
            ≡ waiting self.old.records ++ csv_record (L.fields line.now)) }
        ensures memory { IfErr result (λ fault. fault ≡ ReportFault.Memory) }
    {
        self.fields.clear();
        line.put(&mut self.fields)?;
        put_record(&mut self.records, &self.fields)
    }

    /// Whether it is to be written before more is put on it.
    fn is_full(&self) -> bool
        ensures { result ≡ nat_le FULL (length (gathered self.now.records)) }
    {
        self.records.get_ref().len() >= FULL
    }

    /// Writes what waits if the page is full, so that it isn't full then.
    pub(crate) fn send_full<W: Write>(
        &mut self,
        alloc: Global,
        writer: &mut W,
    ) -> Result<(), ReportFault>
        requires { IsAtStart self.old.records }
        ensures start { OnOk result (IsAtStart self.new.records) }
        ensures ok { OnOk result (AppendsAllBut (W.contents writer.old) (W.contents writer.new)
            (waiting self.new.records) (waiting self.old.records)) }
        ensures room { OnOk result (length (gathered self.new.records) < FULL) }
        ensures begun { IfErr result (λ fault.
            AppendsBeginning (W.contents writer.old) (W.contents writer.new) (waiting self.old.records)) }
    {
        if !self.is_full() {
            return Ok(());
        }
        let full = replace(self, Page::new(alloc));
        *self = full.send(writer)?;
        Ok(())
    }

    /// Writes what waits, and gives the page, which is empty then.
    pub(crate) fn send<W: Write>(self, writer: &mut W) -> Result<Page, ReportFault>
        ensures start { IfOk result (λ page. IsAtStart page.records) }
        ensures empty { IfOk result (λ page. waiting page.records ≡ []) }
        ensures written { OnOk result
            (Appends (W.contents writer.old) (W.contents writer.new) (waiting self.records)) }
        ensures begun { IfErr result (λ fault.
            AppendsBeginning (W.contents writer.old) (W.contents writer.new) (waiting self.records)) }
    {
        let Page { records, fields } = self;
        let Ok(mut octets) = records.into_inner() else {
            return Err(ReportFault::Memory);
        };
        write_octets(writer, octets.as_slice())?;
        octets.clear();
        Ok(Page {
            records: Writer::from_writer(octets),
            fields,
        })
    }
}

/// Puts fields as a record after the records.
fn put_record(records: &mut Writer<Vec<u8>>, fields: &Fields) -> Result<(), ReportFault>
    requires { IsAtStart records.old }
    ensures start { OnOk result (IsAtStart records.new) }
    ensures ok { OnOk result (waiting records.new ≡ waiting records.old ++ csv_record fields.now) }
    ensures memory { IfErr result (λ fault. fault ≡ ReportFault.Memory) }
{
    match records.write_byte_record(fields.record()) {
        Ok(()) => Ok(()),
        Err(_) => Err(ReportFault::Memory),
    }
}
