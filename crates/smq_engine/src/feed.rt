//! Rows and questions are read one by one. A row is played at once, and a question answered at once.
ghost use Rattle.std.specs.Prelude.{◌≡◌, ◌≢◌, ◌⊎◌, ◌≤◌, ◌<◌, ◌+◌, ◌-◌, ◌^◌, ◌++◌, ◌∷◌, [], ℕ, List, IfErr, IfOk, IfSome, IsErrAnd, None, OnOk, length};
ghost use Rattle.std.specs.Io.KnownBytes.{Appends};
ghost use Rattle.smq_present.specs.present.Present.{empty};
ghost use Rattle.smq_load.specs.declared.record.Row as rows;
ghost use Rattle.smq_load.specs.NextRecord.{HasGiven};
ghost use Rattle.smq_load.specs.Settings.{settings_of};
ghost use Rattle.smq_engine.specs.Play.{after_rows};
ghost use Rattle.smq_engine.specs.Answers.{answer_text, answer_to, refusal_line, refusal_to};
ghost use Rattle.smq_engine.specs.Followed.{AreWritten, EndsBy, IsFollowed, held};
ghost use Rattle.smq_engine.specs.within.Steps.{AreBelow, ArePlayed, EndsPlay, EndsSaying, EndsStep, IsPlayed};

use crate::RunFault;
use crate::answer::{answer, line_of, send};
use crate::play::{play_row, play_rows};
use crate::question::Question;
use crate::record::Record;
use crate::record_stream::read_next;
use crate::retrying_reader::RetryingReader;
use crate::totals::Totals;
use csv::{ByteRecord, Reader};
use smq_book::Book;
use smq_kit::Refusal;
use smq_load::{read_settings, record_reader};
use smq_report::Format;
use std::alloc::{AllocError, Global};
use std::io::{Read, Write};
use std::mem::forget;

/// What records came to.
#[derive(Clone, Copy, Debug, PartialEq, Eq)]
pub struct Followed {
    /// How many rows were refused.
    pub refused: u64,
}

/// Checks settings and plays them on a new book, and then reads records, one by one: a row is played before the next record is
/// read, and a question answered. The answer is what is asked of the report of what is present, or counts of its messages, and a
/// line that ends it, which also has how much is missing by the records so far. A refused row is told on `errors`, and skipped.
/// Whatever ends it, all was said of the records before; only where a writer failed, the last of them may have part of its answer
/// or line. A read or a write that is interrupted is tried again. Errors: `BadSettings`; `BadRow` at the first record that says
/// neither a row nor a question nor a gap, with its number from 1; `Read` where the reader fails, or gives
/// 18,446,744,073,709,551,614 records; `Write` where a writer fails; `Memory`. The process ends after it, which gives the book's
/// memory back: it isn't taken apart piece by piece.
pub fn follow<RT: AllocGlobal, R: Read, W: Write, E: Write>(
    rt: &RT,
    reader: &mut R,
    settings: &[u8],
    format: Format,
    writer: &mut W,
    errors: &mut E,
) -> Result<Followed, RunFault>
    ensures ok { IfOk result (λ followed. IfSome (R.remaining reader.old)
        (IsFollowed format settings.now followed.refused
        (held (W.contents writer.old) (W.contents writer.new) (E.contents errors.old) (E.contents errors.new)))) }
    ensures fault { IfErr result (λ fault. IfSome (R.remaining reader.old)
        (EndsBy fault format settings.now
        (held (W.contents writer.old) (W.contents writer.new) (E.contents errors.old) (E.contents errors.new)))) }
    ensures bad_settings { IfErr result (λ fault.
        fault ≡ RunFault.BadSettings → settings_of settings.now ≡ None) }
    ensures unread { IfErr result (λ fault. fault ≡ RunFault.BadSettings
        → R.remaining reader.new ≡ R.remaining reader.old) }
    ensures no_settings { settings_of settings.now ≡ None → IsErrAnd result (λ fault.
        (fault ≡ RunFault.BadSettings) ⊎ (fault ≡ RunFault.Memory)) }
{
    let settings_rows = read_settings(rt.alloc(), settings)?;
    let mut book = Book::new(rt.alloc());
    play_rows(rt.alloc(), &mut book, settings_rows)?;
    let mut records = record_reader(rt.alloc(), RetryingReader::new(reader));
    let followed = follow_records(rt.alloc(), &mut records, format, &mut book, writer, errors);
    forget(book);
    followed
}

/// Plays and answers all records of a reader on the book of settings.
fn follow_records<R: Read, W: Write, E: Write>(
    alloc: Global,
    reader: &mut Reader<R>,
    format: Format,
    book: &mut Book,
    writer: &mut W,
    errors: &mut E,
) -> Result<Followed, RunFault>
    ensures ok { (text : List ℕ) → (settings_rows : List rows.Row)
        → HasGiven R.remaining reader.old text []
        → book.old.present ≡ after_rows empty settings_rows
        → IfOk result (λ followed. IsPlayed format settings_rows followed.refused
        (held (W.contents writer.old) (W.contents writer.new) (E.contents errors.old) (E.contents errors.new)) text) }
    ensures fault { (text : List ℕ) → (settings_rows : List rows.Row)
        → HasGiven R.remaining reader.old text []
        → book.old.present ≡ after_rows empty settings_rows
        → IfErr result (λ fault. EndsPlay fault format settings_rows
        (held (W.contents writer.old) (W.contents writer.new) (E.contents errors.old) (E.contents errors.new)) text) }
    ensures set { IfErr result (λ fault. fault ≢ RunFault.BadSettings) }
{
    let mut fields = ByteRecord::new(alloc);
    let mut totals = Totals::none();
    for number in 1..u64::MAX {
        match read_next(alloc, reader, &mut fields, number)? {
            Some(said) => {
                totals = obey(alloc, format, book, number, totals, said, writer, errors)?
            }
            None => {
                let refused = totals.refused;
                return Ok(Followed { refused });
            }
        }
    }
    Err(RunFault::Read)
}

/// Plays, answers or counts the record of a number, where those before it came to these totals, and gives the totals then.
fn obey<W: Write, E: Write>(
    alloc: Global,
    format: Format,
    book: &mut Book,
    number: u64,
    totals: Totals,
    said: Record,
    writer: &mut W,
    errors: &mut E,
) -> Result<Totals, RunFault>
    requires { AreBelow number totals }
    ensures counted { IfOk result (AreBelow (number + 1)) }
    ensures played { (settings_rows : List rows.Row) → (before : List Record)
        → number ≡ length before + 1 → ArePlayed settings_rows before book.old.present totals
        → IfOk result (ArePlayed settings_rows (before ++ said ∷ []) book.new.present) }
    ensures said { (settings_rows : List rows.Row) → (before : List Record)
        → number ≡ length before + 1 → ArePlayed settings_rows before book.old.present totals
        → OnOk result (AreWritten
        (held (W.contents writer.old) (W.contents writer.new) (E.contents errors.old) (E.contents errors.new))
        (answer_to format settings_rows before said) (refusal_to settings_rows before said)) }
    ensures fault { (settings_rows : List rows.Row) → (before : List Record)
        → number ≡ length before + 1 → ArePlayed settings_rows before book.old.present totals
        → IfErr result (λ fault. EndsStep fault format settings_rows before said
        (held (W.contents writer.old) (W.contents writer.new) (E.contents errors.old) (E.contents errors.new))) }
    ensures set { IfErr result (λ fault. fault ≢ RunFault.BadSettings) }
{
    match said {
        Record::Row(row) => {
            let refusal = play_row(alloc, book, row)?;
            let totals = totals.with_row(&refusal);
            tell(alloc, number, refusal, errors)?;
            Ok(totals)
        }
        Record::Ask(question) => {
            say(alloc, format, book, number, &question, totals, writer)?;
            Ok(totals)
        }
        Record::Lost(loss) => Ok(totals.with_loss(loss)),
    }
}

/// Answers the question of a number, where the records before came to these totals.
fn say<W: Write>(
    alloc: Global,
    format: Format,
    book: &Book,
    number: u64,
    question: &Question,
    totals: Totals,
    writer: &mut W,
) -> Result<(), RunFault>
    ensures ok { OnOk result (Appends (W.contents writer.old) (W.contents writer.new)
        (answer_text format number question.now book.now.present totals)) }
    ensures fault { IfErr result (λ fault.
        EndsSaying fault (W.contents writer.old) (W.contents writer.new)
        (answer_text format number question.now book.now.present totals)) }
{
    let text = answer(alloc, book, format, number, question, totals)?;
    send(writer, text.as_slice())
}

/// Tells the refusal of the row of a number, if it was refused.
fn tell<E: Write>(
    alloc: Global,
    number: u64,
    refusal: Option<Refusal>,
    errors: &mut E,
) -> Result<(), RunFault>
    ensures ok { OnOk result (Appends (E.contents errors.old) (E.contents errors.new)
        (refusal_line number refusal)) }
    ensures fault { IfErr result (λ fault.
        EndsSaying fault (E.contents errors.old) (E.contents errors.new)
        (refusal_line number refusal)) }
{
    let Some(refusal) = refusal else {
        return Ok(());
    };
    let line = line_of(alloc, number, refusal)?;
    send(errors, line.as_bytes())
}
