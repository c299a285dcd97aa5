//! Lines for messages and for delivery receipts as CSV: records are gathered on a page, and a full page is written.
ghost use Rattle.std.specs.Prelude.{◌≡◌, ◌++◌, ℕ, List, OnOk, IfErr, IfOk, map};
ghost use Rattle.std.specs.List.{flat_map};
ghost use Rattle.std.specs.Io.KnownBytes.{Appends};
ghost use Rattle.smq_report.specs.Beginnings.{AppendsBeginning};
ghost use Rattle.smq_report.specs.within.Pages.{AppendsAllBut, IsAtStart, waiting};
ghost use Rattle.smq_report.specs.Lines.{csv_record, message_fields, messages_text, receipt_fields, receipts_text};

use crate::fields::Fields;
use crate::page::Page;
use crate::pick::ReportFault;
use crate::records::{MESSAGE_COLUMNS, RECEIPT_COLUMNS, put_message, put_receipt};
use smq_present::{MessageLine, ReceiptLine};
use std::alloc::{AllocError, Global};
use std::io::Write;

/// A line that is written as a record of CSV.
pub trait Line {
    ghost use Rattle.std.specs.Prelude.{◌≡◌, ◌++◌, ℕ, List, OnOk};

    /// Its fields, one for each column.
    ghost fields: { Self → List (List ℕ) };

    /// Puts its fields after the others.
    fn put(&self, into: &mut Fields) -> Result<(), AllocError>
        ensures { OnOk result (into.new ≡ into.old ++ fields self.now) };
}

impl Line for MessageLine<'_> {
    ghost fields = { λ line. message_fields line };

    fn put(&self, into: &mut Fields) -> Result<(), AllocError> {
        put_message(into, self)
    }
}

impl Line for ReceiptLine<'_> {
    ghost fields = { λ line. receipt_fields line };

    fn put(&self, into: &mut Fields) -> Result<(), AllocError> {
        put_receipt(into, self)
    }
}

/// Writes lines for messages as CSV: a record of columns, and a record for each line. It holds about 64 KiB of them at a time.
/// `Write` comes only where the writer failed in this call. On an error a beginning of the text has gone out, or nothing.
pub fn write_messages<W: Write>(
    alloc: Global,
    lines: &[MessageLine<'_>],
    writer: &mut W,
) -> Result<(), ReportFault>
    ensures ok { OnOk result
        (Appends (W.contents writer.old) (W.contents writer.new) (messages_text lines.now)) }
    ensures begun { IfErr result (λ fault.
        AppendsBeginning (W.contents writer.old) (W.contents writer.new) (messages_text lines.now)) }
{
    write_lines(alloc, &MESSAGE_COLUMNS, lines, writer)
}

/// Writes lines for delivery receipts as CSV: a record of columns, and a record for each line. It holds about 64 KiB of them at
/// a time. `Write` comes only where the writer failed in this call. On an error a beginning of the text has gone out, or nothing.
pub fn write_receipts<W: Write>(
    alloc: Global,
    lines: &[ReceiptLine<'_>],
    writer: &mut W,
) -> Result<(), ReportFault>
    ensures ok { OnOk result
        (Appends (W.contents writer.old) (W.contents writer.new) (receipts_text lines.now)) }
    ensures begun { IfErr result (λ fault.
        AppendsBeginning (W.contents writer.old) (W.contents writer.new) (receipts_text lines.now)) }
{
    write_lines(alloc, &RECEIPT_COLUMNS, lines, writer)
}

/// Writes lines as CSV: a record of columns, and a record for each line. It holds about 64 KiB of them at a time. `Write` comes only where
/// the writer failed in this call. On an error a beginning of the text has gone out, or nothing.
pub fn write_lines<L: Line, W: Write>(
    alloc: Global,
    columns: &[&[u8]],
    lines: &[L],
    writer: &mut W,
) -> Result<(), ReportFault>
    ensures ok { OnOk result (Appends (W.contents writer.old) (W.contents writer.new)
        (csv_record (map (λ column. column.now) columns.now) ++ flat_map (λ line. csv_record (L.fields line)) lines.now)) }
    ensures begun { IfErr result (λ fault. AppendsBeginning (W.contents writer.old) (W.contents writer.new)
        (csv_record (map (λ column. column.now) columns.now) ++ flat_map (λ line. csv_record (L.fields line)) lines.now)) }
{
    let mut page = Page::new(alloc);
    page.put_columns(columns)?;
    let page = put_lines(alloc, lines, page, writer)?;
    page.send(writer)?;
    writer.flush()?;
    Ok(())
}

/// Puts lines after the page, and writes each page that is full.
fn put_lines<L: Line, W: Write>(
    alloc: Global,
    lines: &[L],
    mut page: Page,
    writer: &mut W,
) -> Result<Page, ReportFault>
    requires { IsAtStart page.records }
    ensures ok { IfOk result (λ after.
        AppendsAllBut (W.contents writer.old) (W.contents writer.new) (waiting after.records)
        (waiting page.records ++ flat_map (λ line. csv_record (L.fields line)) lines.now)) }
    ensures begun { IfErr result (λ fault. AppendsBeginning (W.contents writer.old) (W.contents writer.new)
        (waiting page.records ++ flat_map (λ line. csv_record (L.fields line)) lines.now)) }
{
    for line in lines {
        page.put_line(line)?;
        page.send_full(alloc, writer)?;
    }
    Ok(page)
}
