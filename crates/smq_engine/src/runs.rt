//! Runs: settings and rows are read, checked and played, and a text of what they leave is written. Nothing is written before all
//! rows were read and played.
ghost use Rattle.std.specs.Prelude.{◌≡◌, ◌≢◌, ◌⊎◌, IfOk, IfErr, IfSome, IsErrAnd, None};
ghost use Rattle.smq_load.specs.Settings.{settings_of};
ghost use Rattle.smq_engine.specs.IsRun.{EndsRun, IsRun, TellsRead, WerePlayed, count_text, output_text};

use crate::RunFault;
use crate::output::{Text, write_text};
use crate::row_stream::play_stream;
use crate::scripts::play_script;
use smq_count::Counting;
use smq_kit::Refusal;
use smq_present::PlainBook;
use smq_report::{Output, Query};
use std::alloc::Global;
use std::io::{Read, Write};

/// How many rows there may be.
#[derive(Clone, Copy, Debug, PartialEq, Eq)]
pub enum Limit {
    /// As many as a script has: 1,000,000 records, of 268,435,456 octets.
    Script,
    /// Any number: a row is played before the next is read, and isn't kept.
    Unlimited,
}

/// What rows came to.
#[derive(Drop)]
pub struct Ran {
    /// The refused rows, each with its number, from 1, and its refusal.
    pub refused: Vec<(u64, Refusal)>,
}

/// Checks settings, then reads a script and checks all its rows, plays both in order on a new book, and writes what the
/// query asks of the report. A refused row is skipped. Nothing is written before all rows were read and played; a beginning of
/// the report may have gone out where the writer failed, or memory ran out, while it was written. After a run that is done the
/// process ends, which gives the memory of its book and tables back at once: they are not taken apart piece by piece.
pub fn run<RT: AllocGlobal, R: Read, W: Write>(
    rt: &RT,
    reader: &mut R,
    settings: &[u8],
    query: Query,
    writer: &mut W,
) -> Result<Ran, RunFault>
    ensures ok { IfOk result (λ ran. IfSome (R.remaining reader.old) (IsRun Limit.Script (output_text (Output.Report query))
        settings.now ran.refused.items (W.contents writer.old) (W.contents writer.new))) }
    ensures fault { IfErr result (λ fault. EndsRun Limit.Script (output_text (Output.Report query)) fault settings.now
        (R.remaining reader.old) (R.remaining reader.new) (W.contents writer.old) (W.contents writer.new)) }
    ensures no_settings { settings_of settings.now ≡ None → IsErrAnd result (λ fault.
        (fault ≡ RunFault.BadSettings) ⊎ (fault ≡ RunFault.Memory)) }
{
    let output = Output::Report(query);
    write_played(rt.alloc(), reader, settings, Limit::Script, &output, writer)
}

/// Checks settings and plays them on a new book, then reads rows, one by one, of which each is played before the next is read and none
/// is kept, and writes an output of what they leave, as `run` does of a script. A refused row is skipped. There is no limit of rows or
/// octets; a read that is interrupted is tried again. Nothing is written before all rows were played; a beginning of the output may have
/// gone out where the writer failed, or memory ran out, while it was written. Errors: `BadSettings`; `BadRow` at the first record that
/// says no row, with its number from 1; `Read` where the reader fails, or gives 18,446,744,073,709,551,614 records; `Write`; `Memory`.
/// After a total that is done the process ends, which gives the memory of its book and tables back.
pub fn total<RT: AllocGlobal, R: Read, W: Write>(
    rt: &RT,
    reader: &mut R,
    settings: &[u8],
    output: Output,
    writer: &mut W,
) -> Result<Ran, RunFault>
    ensures ok { IfOk result (λ ran. IfSome (R.remaining reader.old) (IsRun Limit.Unlimited (output_text output)
        settings.now ran.refused.items (W.contents writer.old) (W.contents writer.new))) }
    ensures fault { IfErr result (λ fault. EndsRun Limit.Unlimited (output_text output) fault settings.now
        (R.remaining reader.old) (R.remaining reader.new) (W.contents writer.old) (W.contents writer.new)) }
    ensures no_settings { settings_of settings.now ≡ None → IsErrAnd result (λ fault.
        (fault ≡ RunFault.BadSettings) ⊎ (fault ≡ RunFault.Memory)) }
{
    let limit = Limit::Unlimited;
    write_played(rt.alloc(), reader, settings, limit, &output, writer)
}

/// Plays settings and rows as `total` does, and writes how many of the messages that they leave have the same in the columns of a
/// counting, as CSV. Errors as those of `total`.
pub fn count<RT: AllocGlobal, R: Read, W: Write>(
    rt: &RT,
    reader: &mut R,
    settings: &[u8],
    counting: &Counting,
    writer: &mut W,
) -> Result<Ran, RunFault>
    ensures ok { IfOk result (λ ran. IfSome (R.remaining reader.old) (IsRun Limit.Unlimited (count_text counting.now)
        settings.now ran.refused.items (W.contents writer.old) (W.contents writer.new))) }
    ensures fault { IfErr result (λ fault. EndsRun Limit.Unlimited (count_text counting.now) fault settings.now
        (R.remaining reader.old) (R.remaining reader.new) (W.contents writer.old) (W.contents writer.new)) }
    ensures no_settings { settings_of settings.now ≡ None → IsErrAnd result (λ fault.
        (fault ≡ RunFault.BadSettings) ⊎ (fault ≡ RunFault.Memory)) }
{
    let limit = Limit::Unlimited;
    write_played(rt.alloc(), reader, settings, limit, counting, writer)
}

/// Plays settings and rows within a limit, and writes a text of what they leave.
fn write_played<R: Read, T: Text, W: Write>(
    alloc: Global,
    reader: &mut R,
    settings: &[u8],
    limit: Limit,
    text: &T,
    writer: &mut W,
) -> Result<Ran, RunFault>
    ensures ok { IfOk result (λ ran. IfSome (R.remaining reader.old) (IsRun limit (T.made text.now)
        settings.now ran.refused.items (W.contents writer.old) (W.contents writer.new))) }
    ensures fault { IfErr result (λ fault. EndsRun limit (T.made text.now) fault settings.now
        (R.remaining reader.old) (R.remaining reader.new) (W.contents writer.old) (W.contents writer.new)) }
    ensures no_settings { settings_of settings.now ≡ None → IsErrAnd result (λ fault.
        (fault ≡ RunFault.BadSettings) ⊎ (fault ≡ RunFault.Memory)) }
{
    let (book, refused) = play_within(alloc, reader, settings, limit)?;
    write_text(alloc, book, text, writer)?;
    Ok(Ran { refused })
}

/// The book that settings and rows within a limit leave, and the rows that are refused, each with its number, from 1.
fn play_within<R: Read>(
    alloc: Global,
    reader: &mut R,
    settings: &[u8],
    limit: Limit,
) -> Result<(Box<PlainBook>, Vec<(u64, Refusal)>), RunFault>
    ensures ok { IfOk result (λ made. IfSome (R.remaining reader.old)
        (WerePlayed limit settings.now made.0.value.present made.1.items)) }
    ensures fault { IfErr result (λ fault. TellsRead limit fault settings.now
        (R.remaining reader.old) (R.remaining reader.new)) }
    ensures no_settings { settings_of settings.now ≡ None → IsErrAnd result (λ fault.
        (fault ≡ RunFault.BadSettings) ⊎ (fault ≡ RunFault.Memory)) }
    ensures unwritten { IfErr result (λ fault. fault ≢ RunFault.Write) }
{
    match limit {
        Limit::Script => play_script(alloc, reader, settings),
        Limit::Unlimited => play_stream(alloc, reader, settings),
    }
}
