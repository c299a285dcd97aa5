//! A check: settings and a script are played on one book, and made by workers at a desk, and what both leave is compared. Nothing
//! is written before that.
ghost use Rattle.std.specs.Prelude.{◌≡◌, ◌⊎◌, IfOk, IfErr, IfSome, IsErrAnd, ◌++◌, List, None, OnOk, string_bytes};
ghost use Rattle.std.specs.Io.KnownBytes.{Appends, Keeps};
ghost use Rattle.smq_load.specs.Settings.{settings_of};
ghost use Rattle.smq_load.specs.declared.record.Row.{Row as RowOf};
ghost use Rattle.smq_engine.specs.IsCheck.{Compares, EndsCheck, IsCheck, check_text, word_of};
ghost use Rattle.smq_engine.specs.Workers.{HaveMadeRows};
ghost use Rattle.smq_engine.specs.within.Jobs.{IsDeskFault, IsPlay};

use crate::RunFault;
use crate::desk_play::{close_desk, end_desk, make_at_desk};
use crate::row_copies::copy_rows;
use crate::scripts::{play_all, read_rows};
use smq_desk::{Desk, Gate, Seat};
use smq_load::Row;
use smq_present::Tables;
use smq_scratch::audit;
use std::alloc::{AllocError, Global};
use std::io::{Read, Write};
use std::mem::forget;
use std::sync::Wait;
use std::thread;
use std::thread::Threads;

/// What a check found.
#[derive(Clone, Copy, Debug, PartialEq, Eq)]
pub struct Checked {
    /// Whether the desk's tables are those that are counted from nothing of the one book.
    pub same: bool,
    /// How many entries the desk's history has.
    pub entries: u64,
    /// How many rows of the script were refused on the one book.
    pub refused: u64,
}

/// Checks settings, then reads a script and checks all its rows, as `run` does. Both are then played in order on one book, whose
/// tables are counted from nothing; and made at a desk beside it, by eight workers in threads of their own: each run of pieces between
/// two other rows is shared out by sessions, and the gate stands round each piece. Whether the desk's tables are the book's, how many
/// entries its history has, and how many rows of the script the book refused is written in one line and answered. After a check that is
/// done the process ends, which gives the memory of the book back at once: it isn't taken apart piece by piece.
///
/// Errors, beside those of `run`: `NoThread` where the system refuses a worker its thread, `Desk` where the desk doesn't take an edit or
/// doesn't close. Nothing was written then, nor where memory ran out. Where the system refuses the thread that plays beside the desk, the
/// play comes after it.
pub fn check<RT: AllocGlobal + Threads + Wait + Sync, R: Read, W: Write, G: Gate + Sync>(
    rt: &RT,
    reader: &mut R,
    settings: &[u8],
    writer: &mut W,
    gate: &G,
) -> Result<Checked, RunFault>
    ensures ok { IfOk result (λ checked. IfSome (R.remaining reader.old)
        (IsCheck settings.now checked (W.contents writer.old) (W.contents writer.new))) }
    ensures fault { IfErr result (λ fault. EndsCheck fault settings.now
        (R.remaining reader.old) (R.remaining reader.new) (W.contents writer.old) (W.contents writer.new)) }
    ensures no_settings { settings_of settings.now ≡ None → IsErrAnd result (λ fault.
        (fault ≡ RunFault.BadSettings) ⊎ (fault ≡ RunFault.Memory)) }
{
    let (settings_rows, rows) = read_rows(rt.alloc(), reader, settings)?;
    let checked = compare(rt, settings_rows, rows, gate)?;
    write_checked(rt.alloc(), checked, writer)?;
    Ok(checked)
}

/// Plays the rows of settings and a script on one book, makes them at a desk, both at once, and compares what they leave.
fn compare<RT: AllocGlobal + Threads + Wait + Sync, G: Gate + Sync>(
    rt: &RT,
    settings_rows: Vec<Row>,
    rows: Vec<Row>,
    gate: &G,
) -> Result<Checked, RunFault>
    ensures ok { IfOk result (Compares settings_rows.items rows.items) }
    ensures err { IfErr result IsDeskFault }
{
    let same_settings = copy_rows(rt.alloc(), &settings_rows)?;
    let same_rows = copy_rows(rt.alloc(), &rows)?;
    let (played, made) = thread::join(
        rt,
        move || -> Result<(Tables, u64), AllocError>
            ensures { IfOk result (IsPlay same_settings.items same_rows.items) }
        { play_alone(rt, same_settings, same_rows) },
        move || -> Result<(Box<Desk>, Vec<Seat>), RunFault>
            ensures ok { IfOk result (λ made. HaveMadeRows (settings_rows.items ++ rows.items) made.1.items) }
            ensures err { IfErr result IsDeskFault }
        { make_at_desk(rt, settings_rows, rows, gate) },
    );
    match made {
        Ok((desk, seats)) => close_and_compare(rt, desk, seats, played),
        Err(fault) => Err(fault),
    }
}

/// The tables of what settings and a script leave on one book, counted from nothing, and how many rows of the script are refused.
/// The book is left to the system.
fn play_alone<RT: AllocGlobal + Threads + Sync>(
    rt: &RT,
    settings_rows: Vec<Row>,
    rows: Vec<Row>,
) -> Result<(Tables, u64), AllocError>
    ensures { IfOk result (IsPlay settings_rows.items rows.items) }
{
    let (book, refused) = play_all(rt.alloc(), settings_rows, rows)?;
    let tables = audit(rt, rt.alloc(), book.present())?;
    forget(book);
    Ok((tables, refused.len() as u64))
}

/// Closes a desk for its seats, and compares its tables with those of a play.
fn close_and_compare<RT: Wait>(
    rt: &RT,
    desk: Box<Desk>,
    seats: Vec<Seat>,
    played: Result<(Tables, u64), AllocError>,
) -> Result<Checked, RunFault>
    ensures ok { (settings_rows rows : List RowOf) → HaveMadeRows (settings_rows ++ rows) seats.items
        → IfOk played (IsPlay settings_rows rows) → IfOk result (Compares settings_rows rows) }
    ensures err { IfErr result IsDeskFault }
{
    match played {
        Ok((tables, refused)) => {
            let (same, entries) = close_desk(rt, desk, seats, &tables)?;
            forget(tables);
            Ok(Checked {
                same,
                entries,
                refused,
            })
        }
        Err(_) => {
            end_desk(rt, desk);
            Err(RunFault::Memory)
        }
    }
}

/// Writes the line that tells what a check found. Memory runs out only before anything is written.
fn write_checked<W: Write>(alloc: Global, checked: Checked, writer: &mut W) -> Result<(), RunFault>
    ensures ok { OnOk result
        (Appends (W.contents writer.old) (W.contents writer.new) (check_text checked)) }
    ensures fault { IfErr result (λ fault. (fault ≡ RunFault.Write)
        ⊎ ((fault ≡ RunFault.Memory) × Keeps (W.contents writer.old) (W.contents writer.new))) }
{
    let Ok(line) = line_of(alloc, checked) else {
        return Err(RunFault::Memory);
    };
    write_line(line.as_bytes(), writer)
}

/// The line that tells what a check found.
fn line_of(alloc: Global, checked: Checked) -> Result<String, AllocError>
    ensures { IfOk result (λ line. string_bytes line ≡ check_text checked) }
{
    let word = word_of(checked.same);
    let entries = checked.entries;
    let refused = checked.refused;
    format!(in alloc; "{word} entries {entries} refused {refused}\n")
}

/// Whether tables are the same, in a word.
fn word_of(same: bool) -> &'static str
    ensures { result.now ≡ word_of same }
{
    if same { "same" } else { "different" }
}

/// Writes octets, and passes them on.
fn write_line<W: Write>(line: &[u8], writer: &mut W) -> Result<(), RunFault>
    ensures ok { OnOk result (Appends (W.contents writer.old) (W.contents writer.new) line.now) }
    ensures fault { IfErr result (λ fault. fault ≡ RunFault.Write) }
{
    if writer.write_all(line).is_err() || writer.flush().is_err() {
        return Err(RunFault::Write);
    }
    Ok(())
}
