//! Settings and then the rows of a reader are played on a book that stores no tables. A row is played before the next is read, and
//! isn't kept.
ghost use Rattle.std.specs.Prelude.{◌≡◌, ◌≢◌, ◌⊎◌, ◌+◌, ◌++◌, ◌∷◌, [], IfErr, IfOk, IfSome, IsErrAnd, List, None, length, ℕ};
ghost use Rattle.smq_present.specs.present.Present.{empty};
ghost use Rattle.smq_engine.specs.Play.{after_rows};
ghost use Rattle.smq_load.specs.NextRecord.{HasGiven, HasRead};
ghost use Rattle.smq_load.specs.Settings.{settings_of};
ghost use Rattle.smq_engine.specs.IsRun.{AreRowsOf, TellsRead, TellsRow, WerePlayed};
ghost use Rattle.smq_engine.specs.within.Plays.{ArePlayedFrom};

use crate::RunFault;
use crate::play::{play_next, play_rows};
use crate::retrying_reader::RetryingReader;
use crate::runs::Limit;
use csv::{ByteRecord, Reader};
use smq_kit::Refusal;
use smq_load::{Row, read_record, read_row, read_settings, record_reader};
use smq_present::PlainBook;
use std::alloc::{AllocError, Global};
use std::io::Read;

/// The book that settings and then all rows of a reader leave, and the rows of the reader that are refused, each with its number, from
/// 1. A read that is interrupted is tried again. Errors: `BadSettings`; `BadRow` at the first record that says no row, with its number
/// from 1; `Read` where the reader fails, or gives 18,446,744,073,709,551,614 records; `Memory`.
pub(crate) fn play_stream<R: Read>(
    alloc: Global,
    reader: &mut R,
    settings: &[u8],
) -> Result<(Box<PlainBook>, Vec<(u64, Refusal)>), RunFault>
    ensures ok { IfOk result (λ made. IfSome (R.remaining reader.old)
        (WerePlayed Limit.Unlimited settings.now made.0.value.present made.1.items)) }
    ensures fault { IfErr result (λ fault. TellsRead Limit.Unlimited fault settings.now
        (R.remaining reader.old) (R.remaining reader.new)) }
    ensures no_settings { settings_of settings.now ≡ None → IsErrAnd result (λ fault.
        (fault ≡ RunFault.BadSettings) ⊎ (fault ≡ RunFault.Memory)) }
    ensures unwritten { IfErr result (λ fault. fault ≢ RunFault.Write) }
{
    let settings_rows = read_settings(alloc, settings)?;
    let mut book = book_of(alloc, settings_rows)?;
    let mut records = record_reader(alloc, RetryingReader::new(reader));
    let refused = play_records(alloc, &mut records, &mut book)?;
    Ok((book, refused))
}

/// A new book with the rows of settings, on the heap: who owns it owns an address.
fn book_of(alloc: Global, settings_rows: Vec<Row>) -> Result<Box<PlainBook>, AllocError>
    ensures { IfOk result (λ book. book.value.present ≡ after_rows empty settings_rows.items) }
{
    let mut book = PlainBook::new(alloc);
    play_rows(alloc, &mut book, settings_rows)?;
    Ok(Box::new(alloc, book)?)
}

/// Plays all rows of a reader, and gives the refused ones, each with its number, from 1.
fn play_records<R: Read>(
    alloc: Global,
    reader: &mut Reader<R>,
    book: &mut PlainBook,
) -> Result<Vec<(u64, Refusal)>, RunFault>
    ensures ok { (text : List ℕ) → HasGiven R.remaining reader.old text []
        → IfOk result (λ refused.
        ArePlayedFrom book.old.present book.new.present refused.items text) }
    ensures bad_row { (text : List ℕ) → HasGiven R.remaining reader.old text []
        → IfErr result (λ fault. TellsRow Limit.Unlimited fault text) }
    ensures set { IfErr result (λ fault. fault ≢ RunFault.BadSettings) }
    ensures unwritten { IfErr result (λ fault. fault ≢ RunFault.Write) }
{
    let mut fields = ByteRecord::new(alloc);
    let mut refused = Vec::new(alloc);
    for number in 1..u64::MAX {
        match read_next_row(alloc, reader, &mut fields, number)? {
            Some(row) => play_next(alloc, book, &mut refused, number, row)?,
            None => return Ok(refused),
        }
    }
    Err(RunFault::Read)
}

/// The row of the next record of a reader, of this number, where there is one. Errors: `BadRow` where it says no row, with its number; `Read`;
/// `Memory`.
pub fn read_next_row<R: Read>(
    alloc: Global,
    reader: &mut Reader<R>,
    fields: &mut ByteRecord,
    number: u64,
) -> Result<Option<Row>, RunFault>
    ensures some { (text : List ℕ) → (rows : List Row) → HasRead R.remaining reader.old text rows
        → IfOk result (λ next. IfSome next (λ row.
        HasRead R.remaining reader.new text (rows ++ row ∷ []))) }
    ensures none { (text : List ℕ) → (rows : List Row) → HasRead R.remaining reader.old text rows
        → IfOk result (λ next. next ≡ None → AreRowsOf text rows) }
    ensures bad_row { (text : List ℕ) → (rows : List Row)
        → HasRead R.remaining reader.old text rows → number ≡ length rows + 1
        → IfErr result (λ fault. TellsRow Limit.Unlimited fault text) }
    ensures set { IfErr result (λ fault. fault ≢ RunFault.BadSettings) }
    ensures unwritten { IfErr result (λ fault. fault ≢ RunFault.Write) }
{
    if !read_record(reader, fields)? {
        return Ok(None);
    }
    match read_row(alloc, fields)? {
        Some(row) => Ok(Some(row)),
        None => Err(RunFault::BadRow { row: number }),
    }
}
