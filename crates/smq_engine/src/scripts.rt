//! Settings and a script are read whole, checked, and then played on a book that stores no tables.
ghost use Rattle.std.specs.Prelude.{◌≡◌, ◌≢◌, ◌⊎◌, IfOk, IfErr, IfSome, IsErrAnd, None, OnOk, Some};
ghost use Rattle.smq_present.specs.present.Present.{empty};
ghost use Rattle.smq_load.specs.Script.{IsScript};
ghost use Rattle.smq_load.specs.Settings.{settings_of};
ghost use Rattle.smq_engine.specs.IsRun.{TellsRead, WerePlayed};
ghost use Rattle.smq_engine.specs.Play.{present_of, refused_of};

use crate::RunFault;
use crate::play::play_rows;
use crate::runs::Limit;
use smq_kit::Refusal;
use smq_load::{Row, read_script, read_settings};
use smq_present::PlainBook;
use std::alloc::{AllocError, Global};
use std::io::Read;

/// The book that settings and a script leave, and the rows of the script that are refused, each with its number, from 1.
pub(crate) fn play_script<R: Read>(
    alloc: Global,
    reader: &mut R,
    settings: &[u8],
) -> Result<(Box<PlainBook>, Vec<(u64, Refusal)>), RunFault>
    ensures ok { IfOk result (λ made. IfSome (R.remaining reader.old)
        (WerePlayed Limit.Script settings.now made.0.value.present made.1.items)) }
    ensures fault { IfErr result (λ fault. TellsRead Limit.Script fault settings.now
        (R.remaining reader.old) (R.remaining reader.new)) }
    ensures no_settings { settings_of settings.now ≡ None → IsErrAnd result (λ fault.
        (fault ≡ RunFault.BadSettings) ⊎ (fault ≡ RunFault.Memory)) }
    ensures unwritten { IfErr result (λ fault. fault ≢ RunFault.Write) }
{
    let (settings_rows, rows) = read_rows(alloc, reader, settings)?;
    let Ok(played) = play_all(alloc, settings_rows, rows) else {
        return Err(RunFault::Memory);
    };
    Ok(played)
}

/// The rows of settings and those of a script, which is read and checked whole after the settings.
pub(crate) fn read_rows<R: Read>(
    alloc: Global,
    reader: &mut R,
    settings: &[u8],
) -> Result<(Vec<Row>, Vec<Row>), RunFault>
    ensures settings { IfOk result (λ rows. settings_of settings.now ≡ Some rows.0.items) }
    ensures script { IfOk result (λ rows. IfSome (R.remaining reader.old) (λ text. IsScript text rows.1.items)) }
    ensures fault { IfErr result (λ fault. TellsRead Limit.Script fault settings.now
        (R.remaining reader.old) (R.remaining reader.new)) }
    ensures no_settings { settings_of settings.now ≡ None → IsErrAnd result (λ fault.
        (fault ≡ RunFault.BadSettings) ⊎ (fault ≡ RunFault.Memory)) }
    ensures unwritten { IfErr result (λ fault. fault ≢ RunFault.Write) }
{
    let settings_rows = read_settings(alloc, settings)?;
    let rows = read_script(alloc, reader)?;
    Ok((settings_rows, rows))
}

/// The book that settings and a script leave, and the rows of the script that are refused.
pub(crate) fn play_all(
    alloc: Global,
    settings_rows: Vec<Row>,
    rows: Vec<Row>,
) -> Result<(Box<PlainBook>, Vec<(u64, Refusal)>), AllocError>
    ensures present { IfOk result (λ made. made.0.value.present
        ≡ present_of settings_rows.items rows.items) }
    ensures refused { IfOk result (λ made.
        made.1.items ≡ refused_of settings_rows.items rows.items) }
{
    let mut book = new_book(alloc)?;
    let refused = play_both(alloc, &mut book, settings_rows, rows)?;
    Ok((book, refused))
}

/// Plays settings and then a script on a book of nothing, and gives the rows of the script that are refused.
fn play_both(
    alloc: Global,
    book: &mut PlainBook,
    settings_rows: Vec<Row>,
    rows: Vec<Row>,
) -> Result<Vec<(u64, Refusal)>, AllocError>
    requires { book.old.present ≡ empty }
    ensures present { OnOk result
        (book.new.present ≡ present_of settings_rows.items rows.items) }
    ensures refused { IfOk result (λ refused.
        refused.items ≡ refused_of settings_rows.items rows.items) }
{
    play_rows(alloc, book, settings_rows)?;
    let refused = play_rows(alloc, book, rows)?;
    Ok(refused)
}

/// A new book, on the heap: who owns it owns an address.
fn new_book(alloc: Global) -> Result<Box<PlainBook>, AllocError>
    ensures { IfOk result (λ book. book.value.present ≡ empty) }
{
    Ok(Box::new(alloc, PlainBook::new(alloc))?)
}
