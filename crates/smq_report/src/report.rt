//! A report in either format: lines are gathered on a page, and a full page is written.
ghost use Rattle.std.specs.Prelude.{◌≡◌, ◌++◌, ◌<◌, [], IfErr, OnOk, string_bytes, string_len};
ghost use Rattle.std.specs.List.{flat_map};
ghost use Rattle.std.specs.Io.KnownBytes.{Appends};
ghost use Rattle.smq_report.specs.Beginnings.{AppendsBeginning};
ghost use Rattle.smq_report.specs.Csv.{csv_text};
ghost use Rattle.smq_report.specs.Report.{report_text};
ghost use Rattle.smq_report.specs.Table.{table_text};
ghost use Rattle.smq_report.specs.within.Layouts.{head_line, place_line, row_line, section_text};
ghost use Rattle.smq_report.specs.within.Pages.{AppendsAllBut};

use crate::pick::{Format, Pick, ReportFault, Section, sections_of};
use crate::{csv_layout, table_layout};
use smq_kit::Place;
use smq_tally::{List, Outcome, Tables, Value, View};
use std::alloc::{AllocError, Global};
use std::io::{ErrorKind, Write};

/// From how many octets on a page is written.
pub(crate) const FULL: usize = 65_536;

/// Writes what is picked of the tables in a format. `Write` comes only where the writer failed in this call. On
/// an error a beginning of the text has gone out, or nothing.
pub fn write_report<W: Write>(
    alloc: Global,
    tables: &Tables,
    pick: Pick,
    format: Format,
    writer: &mut W,
) -> Result<(), ReportFault>
    ensures ok { OnOk result (Appends (W.contents writer.old) (W.contents writer.new)
        (report_text pick format tables.now.shown)) }
    ensures begun { IfErr result (λ fault. AppendsBeginning (W.contents writer.old) (W.contents writer.new)
        (report_text pick format tables.now.shown)) }
{
    let sections = sections_of(alloc, pick)?;
    let mut page = String::new(alloc);
    put_sections(tables, sections.as_slice(), format, &mut page, writer)?;
    send(&mut page, writer)?;
    writer.flush()?;
    Ok(())
}

/// Writes what is picked of the tables as CSV, without a header line: a record for each row and each place. `Write` comes
/// only where the writer failed in this call. On an error a beginning of the text has gone out, or nothing.
pub fn write_csv<W: Write>(
    alloc: Global,
    tables: &Tables,
    pick: Pick,
    writer: &mut W,
) -> Result<(), ReportFault>
    ensures ok { OnOk result
        (Appends (W.contents writer.old) (W.contents writer.new) (csv_text tables.now.shown pick)) }
    ensures begun { IfErr result (λ fault.
        AppendsBeginning (W.contents writer.old) (W.contents writer.new) (csv_text tables.now.shown pick)) }
{
    write_report(alloc, tables, pick, Format::Csv, writer)
}

/// Writes what is picked of the tables, as tables to read: a line for each view and list, also where it has no rows, and
/// under it a line of columns for each row or place. `Write` comes only where the writer failed in this call. On an error a
/// beginning of the text has gone out, or nothing.
pub fn write_table<W: Write>(
    alloc: Global,
    tables: &Tables,
    pick: Pick,
    writer: &mut W,
) -> Result<(), ReportFault>
    ensures ok { OnOk result
        (Appends (W.contents writer.old) (W.contents writer.new) (table_text tables.now.shown pick)) }
    ensures begun { IfErr result (λ fault.
        AppendsBeginning (W.contents writer.old) (W.contents writer.new) (table_text tables.now.shown pick)) }
{
    write_report(alloc, tables, pick, Format::Table, writer)
}

/// Puts sections after the page, one after the other, and writes each page that is full.
fn put_sections<W: Write>(
    tables: &Tables,
    sections: &[Section],
    format: Format,
    page: &mut String,
    writer: &mut W,
) -> Result<(), ReportFault>
    ensures ok { OnOk result
        (AppendsAllBut (W.contents writer.old) (W.contents writer.new) (string_bytes page.new)
        (string_bytes page.old ++ flat_map (section_text format tables.now.shown) sections.now)) }
    ensures begun { IfErr result (λ fault. AppendsBeginning (W.contents writer.old) (W.contents writer.new)
        (string_bytes page.old ++ flat_map (section_text format tables.now.shown) sections.now)) }
{
    for section in sections {
        put_section(tables, *section, format, page, writer)?;
    }
    Ok(())
}

/// Puts a section after the page, and writes each page that is full.
fn put_section<W: Write>(
    tables: &Tables,
    section: Section,
    format: Format,
    page: &mut String,
    writer: &mut W,
) -> Result<(), ReportFault>
    ensures ok { OnOk result
        (AppendsAllBut (W.contents writer.old) (W.contents writer.new) (string_bytes page.new)
        (string_bytes page.old ++ section_text format tables.now.shown section)) }
    ensures begun { IfErr result (λ fault. AppendsBeginning (W.contents writer.old) (W.contents writer.new)
        (string_bytes page.old ++ section_text format tables.now.shown section)) }
{
    push_head(page, format, section)?;
    match section {
        Section::View(view) => {
            for (value, outcome, count) in tables.rows(view) {
                push_row(page, format, view, value, outcome, count)?;
                send_full(page, writer)?;
            }
        }
        Section::List(list) => {
            for place in tables.list(list) {
                push_place(page, format, list, place)?;
                send_full(page, writer)?;
            }
        }
    }
    Ok(())
}

/// Writes the page if it is full, so that it isn't full then.
fn send_full<W: Write>(page: &mut String, writer: &mut W) -> Result<(), ReportFault>
    ensures ok { OnOk result
        (AppendsAllBut (W.contents writer.old) (W.contents writer.new) (string_bytes page.new) (string_bytes page.old)) }
    ensures room { OnOk result (string_len page.new < FULL) }
    ensures begun { IfErr result (λ fault.
        AppendsBeginning (W.contents writer.old) (W.contents writer.new) (string_bytes page.old)) }
{
    if page.len() < FULL {
        return Ok(());
    }
    send(page, writer)
}

/// Writes the page, which is empty then.
fn send<W: Write>(page: &mut String, writer: &mut W) -> Result<(), ReportFault>
    ensures written { OnOk result
        (Appends (W.contents writer.old) (W.contents writer.new) (string_bytes page.old)) }
    ensures empty { OnOk result (string_bytes page.new ≡ []) }
    ensures begun { IfErr result (λ fault.
        AppendsBeginning (W.contents writer.old) (W.contents writer.new) (string_bytes page.old)) }
{
    write_octets(writer, page.as_bytes())?;
    page.clear();
    Ok(())
}

/// Puts a section's own line after the page, where the format has one.
fn push_head(page: &mut String, format: Format, section: Section) -> Result<(), AllocError>
    ensures { OnOk result (string_bytes page.new ≡ string_bytes page.old ++ head_line format section) }
{
    match format {
        Format::Csv => Ok(()),
        Format::Table => table_layout::push_head(page, section),
    }
}

/// Puts a row of a view after the page.
fn push_row(
    page: &mut String,
    format: Format,
    view: View,
    value: &Value,
    outcome: Outcome,
    count: u64,
) -> Result<(), AllocError>
    ensures { OnOk result (string_bytes page.new
        ≡ string_bytes page.old ++ row_line format view (value.now, outcome, count)) }
{
    match format {
        Format::Csv => csv_layout::push_row(page, view, value, outcome, count),
        Format::Table => table_layout::push_row(page, value, outcome, count),
    }
}

/// Puts a place of a list after the page.
fn push_place(page: &mut String, format: Format, list: List, place: Place) -> Result<(), AllocError>
    ensures { OnOk result (string_bytes page.new
        ≡ string_bytes page.old ++ place_line format list place) }
{
    match format {
        Format::Csv => csv_layout::push_place(page, list, place),
        Format::Table => table_layout::push_place(page, place),
    }
}

/// Writes octets. A write that is interrupted is tried again. `Write` where the writer fails or takes no octet; a beginning of the
/// octets may have gone out then.
pub fn write_octets<W: Write>(writer: &mut W, octets: &[u8]) -> Result<(), ReportFault>
    ensures ok { OnOk result (Appends (W.contents writer.old) (W.contents writer.new) octets.now) }
    ensures begun { IfErr result (λ fault.
        AppendsBeginning (W.contents writer.old) (W.contents writer.new) octets.now) }
    ensures fault { IfErr result (λ fault. fault ≡ ReportFault.Write) }
{
    let mut count = 0;
    for _ in 0..u64::MAX {
        if count >= octets.len() {
            return Ok(());
        }
        match writer.write(&octets[count..]) {
            Ok(0) => return Err(ReportFault::Write),
            Ok(more) => count += more,
            Err(error) if error.kind() == ErrorKind::Interrupted => {}
            Err(_) => return Err(ReportFault::Write),
        }
    }
    Err(ReportFault::Write)
}
