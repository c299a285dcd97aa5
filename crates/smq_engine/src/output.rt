//! The texts that are written of what is present: each by its definition.
ghost use Rattle.std.specs.Prelude.{◌≡◌, ◌⊎◌, IfErr, IfOk, OnOk};
ghost use Rattle.std.specs.Io.KnownBytes.{Appends};
ghost use Rattle.smq_report.specs.Beginnings.{AppendsBeginning};
ghost use Rattle.smq_scratch.specs.Lines.{message_lines};
ghost use Rattle.smq_count.specs.Counts.{counts_of};
ghost use Rattle.smq_engine.specs.IsRun.{count_text, output_text};

use crate::RunFault;
use smq_count::{Counting, Counts, write_counts};
use smq_present::{PlainBook, Present};
use smq_report::{Output, Query, write_messages, write_receipts, write_report};
use smq_scratch::{MessageLines, message_lines, receipt_lines, tables_from_nothing};
use std::alloc::{AllocError, Global};
use std::io::Write;
use std::mem::forget;

/// What is written of what is present, as a text.
pub(crate) trait Text {
    ghost use Rattle.std.specs.Prelude.{◌≡◌, ◌⊎◌, ℕ, IfErr, List, OnOk};
    ghost use Rattle.std.specs.Io.KnownBytes.{Appends};
    ghost use Rattle.smq_present.specs.present.Present.{PresentValue};
    ghost use Rattle.smq_report.specs.Beginnings.{AppendsBeginning};

    /// The text of what is present.
    ghost made: { Self → PresentValue → List ℕ };

    /// Writes the text of what is present.
    fn write<W: Write>(
        &self,
        alloc: Global,
        present: &Present,
        writer: &mut W,
    ) -> Result<(), RunFault>
        ensures ok { OnOk result
            (Appends (W.contents writer.old) (W.contents writer.new) (made self.now present.now)) }
        ensures begun { IfErr result (λ fault.
            AppendsBeginning (W.contents writer.old) (W.contents writer.new) (made self.now present.now)) }
        ensures fault { IfErr result (λ fault. (fault ≡ RunFault.Write) ⊎ (fault ≡ RunFault.Memory)) };
}

impl Text for Output {
    ghost made = { output_text };

    fn write<W: Write>(
        &self,
        alloc: Global,
        present: &Present,
        writer: &mut W,
    ) -> Result<(), RunFault> {
        match *self {
            Output::Report(query) => write_query(alloc, present, query, writer),
            Output::Messages => put_messages(alloc, present, writer),
            Output::Receipts => put_receipts(alloc, present, writer),
        }
    }
}

impl Text for Counting {
    ghost made = { count_text };

    fn write<W: Write>(
        &self,
        alloc: Global,
        present: &Present,
        writer: &mut W,
    ) -> Result<(), RunFault> {
        let Ok(counts) = counts_of(alloc, present, self) else {
            return Err(RunFault::Memory);
        };
        write_counts(alloc, self, counts, writer)?;
        Ok(())
    }
}

/// Counts of the messages that are present. Each is counted as its line is made, so that the lines take no memory.
fn counts_of(alloc: Global, present: &Present, counting: &Counting) -> Result<Counts, AllocError>
    ensures { IfOk result (λ counts. counts ≡ counts_of counting.now (message_lines present.now)) }
{
    let lines = MessageLines::of(alloc, present)?;
    let mut counts = Counts::new(alloc);
    for line in lines {
        counts.add(alloc, counting, &line)?;
    }
    Ok(counts)
}

/// Writes a text of what is present in a book, and leaves the book to the system: its memory isn't given back before the process
/// ends. Errors: `Write` where the writer fails; `Memory`. A beginning of the text may have gone out then.
pub(crate) fn write_text<T: Text, W: Write>(
    alloc: Global,
    book: Box<PlainBook>,
    text: &T,
    writer: &mut W,
) -> Result<(), RunFault>
    ensures ok { OnOk result (Appends (W.contents writer.old) (W.contents writer.new)
        (T.made text.now book.value.present)) }
    ensures begun { IfErr result (λ fault. AppendsBeginning (W.contents writer.old) (W.contents writer.new)
        (T.made text.now book.value.present)) }
    ensures fault { IfErr result (λ fault. (fault ≡ RunFault.Write) ⊎ (fault ≡ RunFault.Memory)) }
{
    let written = text.write(alloc, book.present(), writer);
    forget(book);
    written
}

/// Writes what a query asks of the report, whose tables are counted here.
fn write_query<W: Write>(
    alloc: Global,
    present: &Present,
    query: Query,
    writer: &mut W,
) -> Result<(), RunFault>
    ensures ok { OnOk result (Appends (W.contents writer.old) (W.contents writer.new)
        (output_text (Output.Report query) present.now)) }
    ensures begun { IfErr result (λ fault. AppendsBeginning (W.contents writer.old) (W.contents writer.new)
        (output_text (Output.Report query) present.now)) }
    ensures fault { IfErr result (λ fault. (fault ≡ RunFault.Write) ⊎ (fault ≡ RunFault.Memory)) }
{
    let Ok(tables) = tables_from_nothing(alloc, present) else {
        return Err(RunFault::Memory);
    };
    write_report(alloc, &tables, query.pick, query.format, writer)?;
    forget(tables);
    Ok(())
}

/// Writes a line for each message.
fn put_messages<W: Write>(alloc: Global, present: &Present, writer: &mut W) -> Result<(), RunFault>
    ensures ok { OnOk result (Appends (W.contents writer.old) (W.contents writer.new)
        (output_text Output.Messages present.now)) }
    ensures begun { IfErr result (λ fault. AppendsBeginning (W.contents writer.old) (W.contents writer.new)
        (output_text Output.Messages present.now)) }
    ensures fault { IfErr result (λ fault. (fault ≡ RunFault.Write) ⊎ (fault ≡ RunFault.Memory)) }
{
    let Ok(lines) = message_lines(alloc, present) else {
        return Err(RunFault::Memory);
    };
    write_messages(alloc, lines.as_slice(), writer)?;
    Ok(())
}

/// Writes a line for each delivery receipt.
fn put_receipts<W: Write>(alloc: Global, present: &Present, writer: &mut W) -> Result<(), RunFault>
    ensures ok { OnOk result (Appends (W.contents writer.old) (W.contents writer.new)
        (output_text Output.Receipts present.now)) }
    ensures begun { IfErr result (λ fault. AppendsBeginning (W.contents writer.old) (W.contents writer.new)
        (output_text Output.Receipts present.now)) }
    ensures fault { IfErr result (λ fault. (fault ≡ RunFault.Write) ⊎ (fault ≡ RunFault.Memory)) }
{
    let Ok(lines) = receipt_lines(alloc, present) else {
        return Err(RunFault::Memory);
    };
    write_receipts(alloc, lines.as_slice(), writer)?;
    Ok(())
}
