//! A script: CSV records, each of which says a row.
ghost use Rattle.std.specs.Prelude.{◌≡◌, ◌≢◌, ◌+◌, ◌<◌, ◌≤◌, ◌∷◌, ◌++◌, [], List, Some, ℕ, true, false, IfOk, IfErr, IfSome, OnOk, length, vec_len};
ghost use Rattle.std.specs.Borrow.{Bor};
ghost use Rattle.std.specs.Io.KnownBytes.{IsAtEnd};
ghost use Rattle.csv.specs.Reading.{error_kind, is_flexible};
ghost use Rattle.csv.specs.Records.{fields_of};
ghost use Rattle.smq_load.specs.Script.{AreRecordsOf, IfJudged, IsScript, Tells, may_have};
ghost use Rattle.smq_load.specs.NextRecord.{AddsRow, HasGiven, HasRead, IsUnread, TellsNext};

use crate::input::{InputFault, read_whole};
use crate::load_fault::LoadFault;
use crate::record::{Row, read_row};
use csv::{ByteRecord, Error, ErrorKind, Reader, ReaderBuilder};
use std::alloc::Global;
use std::io::Read;

/// How many records a script may have.
pub const MOST_RECORDS: u64 = 1_000_000;

/// The rows of a script, which is read to its end before any of them is judged. Errors: `Read` where the reader fails, gives
/// more than 268,435,456 octets or is read more than 16,777,216 times; `BadRow` at the first record that says no row, or
/// at record 1,000,001; `Memory`.
pub fn read_script<R: Read>(alloc: Global, reader: &mut R) -> Result<Vec<Row>, LoadFault>
    ensures ok { IfOk result (λ rows.
        IfSome (R.remaining reader.old) (λ text. IsScript text rows.items)) }
    ensures bad_row { IfErr result (λ fault. IfSome (R.remaining reader.old) (Tells fault)) }
    ensures no_settings { IfErr result (λ fault. fault ≢ LoadFault.BadSettings) }
    ensures whole { IfJudged result (IsAtEnd (R.remaining reader.new)) }
    ensures in_range { IfJudged result
        (IfSome (R.remaining reader.old) (λ text. may_have (length text) ≡ true)) }
{
    match read_whole(alloc, reader) {
        Ok(text) => rows_of(alloc, text.as_slice()),
        Err(InputFault::Read) => Err(LoadFault::Read),
        Err(InputFault::Memory) => Err(LoadFault::Memory),
    }
}

/// The rows of the text of a script.
fn rows_of(alloc: Global, text: &[u8]) -> Result<Vec<Row>, LoadFault>
    ensures ok { IfOk result (λ rows. IsScript text.now rows.items) }
    ensures bad_row { IfErr result (λ fault. Tells fault text.now) }
{
    let mut reader = reader_of(alloc, text);
    let mut fields = ByteRecord::new(alloc);
    read_rows(alloc, &mut reader, &mut fields)
}

/// A reader of the records of a text.
fn reader_of(alloc: Global, text: &[u8]) -> Reader<&[u8]>
    ensures { HasRead (λ (octets : Bor (List ℕ)). Some octets.now) result text.now [] }
{
    record_reader(alloc, text)
}

/// A reader of the records of what a source gives, the first of which is no header. Records may have any number of fields.
/// Each is given as soon as its last octet was read.
pub fn record_reader<R: Read>(alloc: Global, source: R) -> Reader<R>
    ensures start { (text : List ℕ) → R.remaining source ≡ Some text
        → HasGiven R.remaining result text [] }
    ensures any_length { is_flexible result ≡ true }
{
    ReaderBuilder::new()
        .has_headers(false)
        .flexible(true)
        .from_reader(alloc, source)
}

/// The rows of a reader's records, each of which is read into the same fields.
fn read_rows<R: Read>(
    alloc: Global,
    reader: &mut Reader<R>,
    fields: &mut ByteRecord,
) -> Result<Vec<Row>, LoadFault>
    ensures ok { (text : List ℕ) → HasRead R.remaining reader.old text []
        → IfOk result (λ rows. IsScript text rows.items) }
    ensures bad_row { (text : List ℕ) → HasRead R.remaining reader.old text []
        → IfErr result (λ fault. Tells fault text) }
{
    let mut rows = Vec::new(alloc);
    for _ in 0..MOST_RECORDS {
        if !read_next(alloc, reader, fields, &mut rows)? {
            return Ok(rows);
        }
    }
    expect_end(reader, fields)?;
    Ok(rows)
}

/// Puts the row of the next record after those of the records before it, and tells whether there is such a record.
fn read_next<R: Read>(
    alloc: Global,
    reader: &mut Reader<R>,
    fields: &mut ByteRecord,
    rows: &mut Vec<Row>,
) -> Result<bool, LoadFault>
    requires { length rows.old.items < MOST_RECORDS }
    ensures more { (text : List ℕ) → HasRead R.remaining reader.old text rows.old.items
        → IfOk result (λ found. found ≡ true
        → HasRead R.remaining reader.new text rows.new.items) }
    ensures counted { IfOk result (λ found. found ≡ true
        → length rows.new.items ≡ length rows.old.items + 1) }
    ensures none { (text : List ℕ) → HasRead R.remaining reader.old text rows.old.items
        → IfOk result (λ found. found ≡ false → IsScript text rows.new.items) }
    ensures err { (text : List ℕ) → HasRead R.remaining reader.old text rows.old.items
        → IfErr result (λ fault. Tells fault text) }
{
    if !read_record(reader, fields)? {
        return Ok(false);
    }
    push_row(alloc, rows, fields)?;
    Ok(true)
}

/// Nothing, where as many records as a script may have were all.
fn expect_end<R: Read>(reader: &mut Reader<R>, fields: &mut ByteRecord) -> Result<(), LoadFault>
    ensures ok { (text : List ℕ) → (rows : List Row) → HasRead R.remaining reader.old text rows
        → length rows ≡ MOST_RECORDS → OnOk result (IsScript text rows) }
    ensures bad_row { (text : List ℕ) → (rows : List Row)
        → HasRead R.remaining reader.old text rows → length rows ≡ MOST_RECORDS
        → IfErr result (λ fault. Tells fault text) }
{
    if read_record(reader, fields)? {
        return Err(LoadFault::BadRow {
            row: MOST_RECORDS + 1,
        });
    }
    Ok(())
}

/// The next record of a text, and whether there is one. Errors: `Read` where the source fails; `Memory`.
pub fn read_record<R: Read>(
    reader: &mut Reader<R>,
    fields: &mut ByteRecord,
) -> Result<bool, LoadFault>
    ensures found { (text : List ℕ) → (records : List (List (List ℕ)))
        → HasGiven R.remaining reader.old text records → IfOk result (λ found. found ≡ true
        → HasGiven R.remaining reader.new text (records ++ fields_of fields.new ∷ [])) }
    ensures none { (text : List ℕ) → (records : List (List (List ℕ)))
        → HasGiven R.remaining reader.old text records → IfOk result (λ found. found ≡ false
        → AreRecordsOf text records) }
    ensures err { IfErr result (λ fault. (text : List ℕ) → Tells fault text) }
    ensures unread { IfErr result IsUnread }
{
    match reader.read_byte_record(fields) {
        Ok(found) => Ok(found),
        Err(error) => Err(fault_of(&error)),
    }
}

/// Want of memory, or a failed read.
fn fault_of(error: &Error) -> LoadFault
    ensures memory { error_kind error.now ≡ ErrorKind.OutOfMemory → result ≡ LoadFault.Memory }
    ensures read { error_kind error.now ≢ ErrorKind.OutOfMemory → result ≡ LoadFault.Read }
    ensures err { (text : List ℕ) → Tells result text }
    ensures unread { IsUnread result }
{
    match error.kind() {
        ErrorKind::OutOfMemory => LoadFault::Memory,
        _ => LoadFault::Read,
    }
}

/// Puts the row of the next record after the rows of those before it.
fn push_row(alloc: Global, rows: &mut Vec<Row>, fields: &ByteRecord) -> Result<(), LoadFault>
    requires { length rows.old.items < MOST_RECORDS }
    ensures ok { OnOk result (AddsRow rows.old.items rows.new.items (fields_of fields.now)) }
    ensures bad_row { IfErr result (λ fault.
        TellsNext fault rows.old.items (fields_of fields.now)) }
{
    let number = rows.len() as u64 + 1;
    match read_row(alloc, fields) {
        Ok(Some(row)) => match rows.push(row) {
            Ok(()) => Ok(()),
            Err(_) => Err(LoadFault::Memory),
        },
        Ok(None) => Err(LoadFault::BadRow { row: number }),
        Err(_) => Err(LoadFault::Memory),
    }
}
