//! The answer to a question, and the line of a refusal. Each is made whole in memory before the first octet of it is written.
ghost use Rattle.std.specs.Prelude.{◌≡◌, [], IfErr, IfOk, OnOk, Some, string_bytes};
ghost use Rattle.std.specs.Io.KnownBytes.{Appends};
ghost use Rattle.smq_present.specs.whole.Scratch.{scratch};
ghost use Rattle.smq_report.specs.Report.{report_text};
ghost use Rattle.smq_scratch.specs.Lines.{message_lines};
ghost use Rattle.smq_count.specs.Counts.{counts_text};
ghost use Rattle.smq_engine.specs.Answers.{answer_text, asked_text, columns_text, refusal_line, told_line, totals_text};
ghost use Rattle.smq_engine.specs.within.Steps.{EndsSaying};

use crate::RunFault;
use crate::output::Text;
use crate::question::Question;
use crate::totals::Totals;
use smq_book::Book;
use smq_count::{Column, Counting, Zone};
use smq_kit::{Moment, Refusal};
use smq_present::Present;
use smq_report::{Format, Pick, write_octets, write_report};
use std::alloc::{AllocError, Global};
use std::io::Write;

/// The answer to the question of a number, where the records before came to these totals.
pub fn answer(
    alloc: Global,
    book: &Book,
    format: Format,
    number: u64,
    question: &Question,
    totals: Totals,
) -> Result<Vec<u8>, RunFault>
    ensures ok { IfOk result (λ text.
        text.items ≡ answer_text format number question.now book.now.present totals) }
    ensures memory { IfErr result (λ fault. fault ≡ RunFault.Memory) }
{
    let mut text = asked(alloc, book, format, question)?;
    let line = told_line(alloc, number, question, book.present().clock(), totals)?;
    text.extend_from_slice(line.as_bytes())?;
    Ok(text)
}

/// What is asked.
fn asked(
    alloc: Global,
    book: &Book,
    format: Format,
    question: &Question,
) -> Result<Vec<u8>, RunFault>
    ensures ok { IfOk result (λ text. text.items ≡ asked_text format question.now book.now.present) }
    ensures memory { IfErr result (λ fault. fault ≡ RunFault.Memory) }
{
    match question {
        Question::Report(pick) => report_of(alloc, book, format, *pick),
        Question::Count(columns) => counts_of(alloc, book, columns.as_slice()),
    }
}

/// What is picked of the report.
fn report_of(alloc: Global, book: &Book, format: Format, pick: Pick) -> Result<Vec<u8>, RunFault>
    ensures ok { IfOk result (λ text. text.items ≡ report_text pick format (scratch book.now.present)) }
    ensures memory { IfErr result (λ fault. fault ≡ RunFault.Memory) }
{
    let mut text = Vec::new(alloc);
    if write_report(alloc, book.tables(), pick, format, &mut text).is_err() {
        return Err(RunFault::Memory);
    }
    Ok(text)
}

/// How many of the messages that are present have the same in columns.
fn counts_of(alloc: Global, book: &Book, columns: &[Column]) -> Result<Vec<u8>, RunFault>
    ensures ok { IfOk result (λ text. text.items ≡ columns_text columns.now (message_lines book.now.present)) }
    ensures memory { IfErr result (λ fault. fault ≡ RunFault.Memory) }
{
    let counting = counting_by(alloc, columns)?;
    let text = counted(alloc, &counting, book.present())?;
    Ok(text)
}

/// How many of the messages that are present have the same in the columns of a counting.
fn counted(alloc: Global, counting: &Counting, present: &Present) -> Result<Vec<u8>, RunFault>
    ensures ok { IfOk result (λ text. text.items ≡ counts_text counting.now (message_lines present.now)) }
    ensures memory { IfErr result (λ fault. fault ≡ RunFault.Memory) }
{
    let mut text = Vec::new(alloc);
    if counting.write(alloc, present, &mut text).is_err() {
        return Err(RunFault::Memory);
    }
    Ok(text)
}

/// Counts of all messages by columns, in UTC.
fn counting_by(alloc: Global, columns: &[Column]) -> Result<Counting, AllocError>
    ensures columns { IfOk result (λ counting. counting.columns.items ≡ columns.now) }
    ensures all { IfOk result (λ counting. counting.conditions.items ≡ []) }
    ensures utc { IfOk result (λ counting. counting.zone ≡ Zone.Utc) }
{
    let mut copies = Vec::new(alloc);
    copies.extend_from_slice(columns)?;
    Ok(Counting {
        columns: copies,
        conditions: Vec::new(alloc),
        zone: Zone::Utc,
    })
}

/// The line that ends an answer.
fn told_line(
    alloc: Global,
    number: u64,
    question: &Question,
    clock: Moment,
    totals: Totals,
) -> Result<String, AllocError>
    ensures { IfOk result (λ line. string_bytes line ≡ told_line number question.now clock totals) }
{
    let name = question.name(alloc)?;
    let clock = clock.milliseconds();
    let totals = totals_text(alloc, totals)?;
    format!(in alloc; "told,{number},{name},{clock},{totals}\n")
}

/// Totals as a line has them.
fn totals_text(alloc: Global, totals: Totals) -> Result<String, AllocError>
    ensures { IfOk result (λ text. string_bytes text ≡ totals_text totals) }
{
    let refused = totals.refused;
    let gaps = totals.gaps;
    let octets = totals.octets;
    format!(in alloc; "{refused},{gaps},{octets}")
}

/// The line that tells a refusal of the row of a number.
pub fn line_of(alloc: Global, number: u64, refusal: Refusal) -> Result<String, AllocError>
    ensures { IfOk result (λ line. string_bytes line ≡ refusal_line number (Some refusal)) }
{
    format!(in alloc; "row {number}: {refusal}\n")
}

/// Writes a text, and passes it on. Where the writer fails, some of it may have gone out.
pub fn send<W: Write>(writer: &mut W, text: &[u8]) -> Result<(), RunFault>
    ensures ok { OnOk result (Appends (W.contents writer.old) (W.contents writer.new) text.now) }
    ensures fault { IfErr result (λ fault.
        EndsSaying fault (W.contents writer.old) (W.contents writer.new) text.now) }
{
    write_octets(writer, text)?;
    if writer.flush().is_err() {
        return Err(RunFault::Write);
    }
    Ok(())
}
