//! Scripts that are dealt.
use crate::played::Played;
use crate::progress::{CountedRows, Progress};
use crate::status::fault_status;
use crate::told::{print_bad_words, print_fault, print_refused};
use smq_deal::{Dealt, MOST_PARTS};
use smq_engine::RunFault;
use smq_report::ReportFault;
use smq_words::Dealing;
use std::alloc::{AllocError, Global};
use std::io::{BufWriter, ErrorKind, Read, Write};
use std::os::unix::fs::MetadataExt;
use std::rt::Files;
use std::time::Clock;
use std::{fs, io};

/// What stands behind the path of a script until it is whole.
const UNFINISHED: &str = ".part";

/// So many octets are written at once.
const BUFFERED: usize = 65_536;

/// Where a script is dealt to.
#[derive(Drop)]
enum Aim {
    /// What is settled, and the rest, at these paths.
    Settled { done: String, rest: String },
    /// So many parts, in this folder.
    Parts { count: u32, folder: String },
}

/// What is said of words that name no such scripts.
const BAD_DEALING: &str =
    "it takes --settled and --rest, which are two paths, or --parts, a number from 1 to 9999, and --into";

impl Aim {
    /// Where the words say. None where they don't.
    fn of(dealing: Dealing) -> Option<Aim> {
        let Dealing {
            settled,
            rest,
            parts,
            into,
        } = dealing;
        match (settled, rest, parts, into) {
            (Some(done), Some(rest), None, None) => at_paths(done, rest),
            (None, None, Some(parts), Some(folder)) => Some(Aim::Parts {
                count: count_of(parts.as_str())?,
                folder,
            }),
            _ => None,
        }
    }

    /// So many parts there are.
    fn count(&self) -> u32 {
        match self {
            Aim::Settled { done: _, rest: _ } => 2,
            Aim::Parts { count, folder: _ } => *count,
        }
    }

    /// The path of a part, from 0.
    fn path(&self, alloc: Global, part: u32) -> Result<String, AllocError> {
        match self {
            Aim::Settled { done, rest: _ } if part == 0 => String::from_str(alloc, done.as_str()),
            Aim::Settled { done: _, rest } => String::from_str(alloc, rest.as_str()),
            Aim::Parts { count: _, folder } => {
                let folder = folder.as_str();
                let number = part.saturating_add(1);
                format!(in alloc; "{folder}/part-{number}.csv")
            }
        }
    }
}

/// What is settled, and the rest, at two paths.
fn at_paths(done: String, rest: String) -> Option<Aim> {
    if done.as_str() == rest.as_str() {
        return None;
    }
    Some(Aim::Settled { done, rest })
}

/// The number of parts that a text says.
fn count_of(text: &str) -> Option<u32> {
    let count = text.parse::<u32>().ok()?;
    if count >= 1 && count <= MOST_PARTS {
        Some(count)
    } else {
        None
    }
}

/// Why nothing was dealt.
#[derive(Drop)]
enum Stopped {
    Fault(RunFault),
    /// This path couldn't be made, written or renamed.
    Unwritten(String, io::Error),
    /// What is settled and the rest go to one file.
    OneFile,
}

impl From<AllocError> for Stopped {
    fn from(_: AllocError) -> Stopped {
        Stopped::Fault(RunFault::Memory)
    }
}

/// Plays settings and rows, writes the scripts to which they are dealt, and gives the status. Nothing is written before all rows were played, and no
/// script has its name before all are written. Rows that are refused, and a fault, are told on standard error.
pub(crate) fn run_deal<R, I>(
    rt: &R,
    dealing: Dealing,
    settings: &[u8],
    rows: &mut I,
    progress: Progress,
) -> u8
where
    R: Files + Print + Eprint + AllocGlobal + Clock,
    I: Read,
{
    let Some(aim) = Aim::of(dealing) else {
        return print_bad_words(rt, BAD_DEALING);
    };
    let mut counted = CountedRows::new(rt, progress, rows);
    let dealt = deal(rt, &aim, settings, &mut counted);
    progress.take_away(rt);
    match dealt {
        Ok(played) => print_refused(rt, played.refused()),
        Err(Stopped::Fault(fault)) => print_fault(rt, fault),
        Err(Stopped::Unwritten(path, error)) => {
            let _ = eprintln!(rt; "{}: {error}", path.as_str());
            fault_status(RunFault::Write)
        }
        Err(Stopped::OneFile) => print_bad_words(rt, BAD_DEALING),
    }
}

/// Plays settings and rows, and writes the scripts to which they are dealt.
fn deal<R, I>(rt: &R, aim: &Aim, settings: &[u8], rows: &mut I) -> Result<Played, Stopped>
where
    R: Files + AllocGlobal,
    I: Read,
{
    let alloc = rt.alloc();
    let played = match Played::read(alloc, rows, settings) {
        Ok(played) => played,
        Err(fault) => return Err(Stopped::Fault(fault)),
    };
    make_folder(rt, aim)?;
    let dealt = dealt_to(alloc, aim, &played)?;
    let count = aim.count();
    for part in 0..count {
        let path = aim.path(alloc, part)?;
        if let Err(error) = write_script(rt, &played, &dealt, part, path.as_str()) {
            return Err(unwritten(alloc, path.as_str(), error));
        }
    }
    if goes_to_one_file(rt, aim) {
        return Err(Stopped::OneFile);
    }
    finish_all(rt, aim, count)?;
    Ok(played)
}

/// Makes the folder that parts go to.
fn make_folder<R: Files + AllocGlobal>(rt: &R, aim: &Aim) -> Result<(), Stopped> {
    if let Aim::Parts { count: _, folder } = aim {
        if let Err(error) = fs::create_dir_all(rt, folder.as_str()) {
            return Err(unwritten(rt.alloc(), folder.as_str(), error));
        }
    }
    Ok(())
}

/// Deals what is present. What smq_deal promises of it ends here, so that the callers are proved over little.
fn dealt_to(alloc: Global, aim: &Aim, played: &Played) -> Result<Dealt, AllocError> {
    match aim {
        Aim::Settled { done: _, rest: _ } => Dealt::by_settled(alloc, played.present()),
        Aim::Parts { count, folder: _ } => Dealt::by_key(alloc, played.present(), *count),
    }
}

/// Gives each script its name.
fn finish_all<R: Files + AllocGlobal>(rt: &R, aim: &Aim, count: u32) -> Result<(), Stopped> {
    let alloc = rt.alloc();
    for part in 0..count {
        let path = aim.path(alloc, part)?;
        if let Err(error) = finish(rt, path.as_str()) {
            return Err(unwritten(alloc, path.as_str(), error));
        }
    }
    Ok(())
}

/// Whether what is settled and the rest were written to one file, by two paths; it is removed then.
fn goes_to_one_file<R: Files + AllocGlobal>(rt: &R, aim: &Aim) -> bool {
    match aim {
        Aim::Settled { done, rest } => remove_one(rt, done.as_str(), rest.as_str()).unwrap_or(
            false,
        ),
        Aim::Parts {
            count: _,
            folder: _,
        } => false,
    }
}

/// Removes what was written where two paths are of one file; whether they are.
fn remove_one<R: Files + AllocGlobal>(rt: &R, done: &str, rest: &str) -> io::Result<bool> {
    let done = unfinished_path(rt.alloc(), done)?;
    let rest = unfinished_path(rt.alloc(), rest)?;
    let (one, other) = (
        fs::metadata(rt, done.as_str())?,
        fs::metadata(rt, rest.as_str())?,
    );
    let is_one = one.dev() == other.dev() && one.ino() == other.ino();
    if is_one {
        fs::remove_file(rt, done.as_str())?;
    }
    Ok(is_one)
}

/// A path that couldn't be written.
fn unwritten(alloc: Global, path: &str, error: io::Error) -> Stopped {
    if error.kind() == ErrorKind::OutOfMemory {
        return Stopped::Fault(RunFault::Memory);
    }
    match String::from_str(alloc, path) {
        Ok(path) => Stopped::Unwritten(path, error),
        Err(_) => Stopped::Fault(RunFault::Memory),
    }
}

/// Writes the script of a part, under another name where it is to be a file.
fn write_script<R: Files + AllocGlobal>(
    rt: &R,
    played: &Played,
    dealt: &Dealt,
    part: u32,
    path: &str,
) -> io::Result<()> {
    let alloc = rt.alloc();
    let file = if is_device(rt, path) {
        fs::create(rt, path)?
    } else {
        fs::create(rt, unfinished_path(alloc, path)?.as_str())?
    };
    let mut writer = BufWriter::with_capacity(alloc, BUFFERED, file)?;
    match write_part(alloc, played, dealt, part, &mut writer) {
        Ok(()) => writer.flush(),
        Err(ReportFault::Memory) => Err(io::Error::from(ErrorKind::OutOfMemory)),
        Err(ReportFault::Write) => match writer.flush() {
            // (a write that failed fails again, and says why)
            Ok(()) => Err(io::Error::from(ErrorKind::Other)),
            Err(error) => Err(error),
        },
    }
}

/// Writes the rows of a part. What smq_deal promises of them ends here, as above.
fn write_part<W: Write>(
    alloc: Global,
    played: &Played,
    dealt: &Dealt,
    part: u32,
    writer: &mut W,
) -> Result<(), ReportFault> {
    dealt.write(alloc, played.present(), played.head(), part, writer)
}

/// Gives a script its name: it is whole.
fn finish<R: Files + AllocGlobal>(rt: &R, path: &str) -> io::Result<()> {
    if is_device(rt, path) {
        return Ok(());
    }
    fs::rename(rt, unfinished_path(rt.alloc(), path)?.as_str(), path)
}

/// Whether there is something at a path that is neither a file nor a folder, as /dev/null and a pipe are.
fn is_device<R: Files>(rt: &R, path: &str) -> bool {
    match fs::metadata(rt, path) {
        Ok(found) => !found.is_file() && !found.is_dir(),
        Err(_) => false,
    }
}

/// The path of a script until it is whole.
fn unfinished_path(alloc: Global, path: &str) -> Result<String, AllocError> {
    format!(in alloc; "{path}{UNFINISHED}")
}
