//! Packet captures: their script, or what is done with their rows behind those of standard input.
use crate::capture_rows::{CaptureRows, RowTexts};
use crate::capture_words::{by_of, options_of};
use crate::error_lines::ErrorLines;
use crate::progress::{Progress, StandardOutput};
use crate::questions::questions_of;
use crate::scripts::Scripts;
use crate::sources::Sources;
use crate::status::{BAD_INPUT, DONE, FAULT, NO_MEMORY, REFUSED};
use crate::tasks::{Wanted, run_task};
use crate::timed_input::{Blocks, TimedInput};
use crate::told::print_words_error;
use smq_capture::{Capture, Fault, Options, Sink, SplitTexts, Texts};
use smq_parts::{By, Gathered};
use smq_report::Output;
use smq_words::{Captures, Task};
use std::io::{ErrorKind, IsTerminal, Read, Write};
use std::rt::Files;
use std::sync::Wait;
use std::thread::Threads;
use std::time::Clock;
use std::{fs, io};

/// Where the rows of captures go that are split, and what is told of them.
type Split<'a, R> = SplitTexts<
    Gathered<Scripts<'a, R>>,
    Vec<u8>,
    ErrorLines<'a, R>,
    <R as Files>::File,
    <R as Files>::File,
>;

/// Does a task with settings and captures, and gives the status. Where standard input is a capture, and rows of the clock are wanted while
/// nothing comes, `start` starts what reads it.
pub(crate) fn run_with_captures<R, F>(
    rt: &R,
    wanted: Wanted,
    settings: &[u8],
    captures: Captures,
    start: F,
) -> u8
where
    R: Files + Input + Print + Eprint + AllocGlobal + Threads + Wait + Clock + Sync,
    R::Reader: IsTerminal,
    F: FnOnce() -> io::Result<Blocks>,
    requires { F.IsAlwaysCallable start }
{
    let is_script = wanted.task == Task::Capture;
    let options = match options_of(
        rt.alloc(),
        &captures,
        is_script && captures.questions.is_empty() && captures.into.is_none(),
    ) {
        Ok(options) => options,
        Err(error) => return print_words_error(rt, &error),
    };
    let by = match by_of(rt.alloc(), &captures) {
        Ok(by) => by,
        Err(error) => return print_words_error(rt, &error),
    };
    let mut captures = captures;
    captures.questions = match questions_of(rt.alloc(), captures.questions.as_slice()) {
        Ok(questions) => questions,
        Err(error) => return print_words_error(rt, &error),
    };
    if options.every.is_none() || !reads_input(captures.paths.as_slice()) {
        return run_reading(rt, wanted, settings, captures, options, by, rt.reader());
    }
    match start() {
        Ok(blocks) => {
            let input = TimedInput::new(rt, blocks);
            run_reading(rt, wanted, settings, captures, options, by, input)
        }
        Err(_) => print_fault(rt, None, &Fault::Memory),
    }
}

/// Whether a capture is read from standard input.
fn reads_input(paths: &[String]) -> bool {
    paths.is_empty() || paths.iter().any(|path| path.as_str() == "-")
}

/// The same, where standard input is read by this, if it is a capture.
fn run_reading<R, I>(
    rt: &R,
    wanted: Wanted,
    settings: &[u8],
    captures: Captures,
    options: Options,
    by: Option<By>,
    input: I,
) -> u8
where
    R: Files + Input + Print + Eprint + AllocGlobal + Threads + Wait + Clock + Sync,
    R::Reader: IsTerminal,
    I: Read + Drop,
{
    let Captures {
        paths,
        index,
        losses,
        questions,
        into,
        ..
    } = captures;
    let index = match create(rt, &index) {
        Ok(index) => index,
        Err(fault) => return print_fault(rt, Some("--index"), &fault),
    };
    let losses = match create(rt, &losses) {
        Ok(losses) => losses,
        Err(fault) => return print_fault(rt, Some("--losses"), &fault),
    };
    let sources = Sources::new(rt, input, paths.as_slice());
    let alloc = rt.alloc();
    let progress = wanted.progress;
    let notices = ErrorLines::new(rt, progress);
    // (only what is followed has records of what is missing)
    let tells_losses = matches!(wanted.task, Task::Follow(_)) || !questions.is_empty();
    if let (Some(by), Some(folder)) = (by, &into) {
        let writer = Vec::new(alloc);
        let texts = Texts::new(
            alloc,
            questions,
            tells_losses,
            writer,
            notices,
            index,
            losses,
        );
        let scripts = Scripts::new(rt, folder.as_str(), by);
        let folder = Gathered::new(alloc, scripts);
        let split = SplitTexts::new(by, folder, Vec::new(alloc), texts);
        return write_scripts(rt, progress, sources, Capture::new(alloc, options, split));
    }
    if wanted.task == Task::Capture {
        let writer = StandardOutput::new(rt, progress);
        let texts = Texts::new(
            alloc,
            questions,
            tells_losses,
            writer,
            notices,
            index,
            losses,
        );
        return write_script(rt, progress, sources, Capture::new(alloc, options, texts));
    }
    let writer = Vec::new(alloc);
    let texts = Texts::new(
        alloc,
        questions,
        tells_losses,
        writer,
        notices,
        index,
        losses,
    );
    let rows = CaptureRows::new(sources, Capture::new(alloc, options, texts));
    let is_alone = reads_input(paths.as_slice()) || rt.reader().is_terminal();
    let wanted = Wanted {
        task: played(wanted.task),
        ..wanted
    };
    run_with_rows(rt, &wanted, settings, rows, is_alone)
}

/// The task that does the same with rows as they are read, however many there are.
fn played(task: Task) -> Task {
    match task {
        Task::Run(query) => Task::Total(Output::Report(query)),
        other => other,
    }
}

/// Does a task with rows of captures, behind those of standard input unless they are alone, and gives the status.
fn run_with_rows<R, I>(
    rt: &R,
    wanted: &Wanted,
    settings: &[u8],
    rows: CaptureRows<'_, R, I>,
    is_alone: bool,
) -> u8
where
    R: Files + Input + Print + Eprint + AllocGlobal + Threads + Wait + Clock + Sync,
    I: Read + Drop,
{
    let mut rows = rows;
    let mut status = DONE;
    if is_alone {
        status = run_task(rt, wanted, settings, &mut rows);
    } else {
        // (the last row of standard input may have no end of line)
        let mut all = rt.reader().chain(b"\n".as_slice()).chain(rows);
        status = run_task(rt, wanted, settings, &mut all);
        rows = all.into_inner().1;
    }
    match rows.fault() {
        Some((path, fault)) => print_fault(rt, path_of(path, fault), fault),
        None if status == DONE && rows.has_loss() => REFUSED,
        None => status,
    }
}

/// Writes the script of captures, and gives the status.
fn write_script<R, I, W>(
    rt: &R,
    progress: Progress,
    sources: Sources<'_, R, I>,
    capture: Capture<Texts<W, ErrorLines<'_, R>, R::File, R::File>>,
) -> u8
where
    R: Files + Eprint + AllocGlobal + Clock,
    I: Read + Drop,
    W: Write + Drop,
{
    let mut sources = sources;
    let mut capture = capture;
    if let Err(fault) = read_all(rt, progress, &mut sources, &mut capture) {
        let status = print_fault(rt, path_of(sources.path(), &fault), &fault);
        let _ = capture.break_off();
        return status;
    }
    match capture.end() {
        Ok(true) => REFUSED,
        Ok(false) => DONE,
        Err(fault) => print_fault(rt, None, &fault),
    }
}

/// Reads captures to their end.
fn read_all<R, I, S>(
    rt: &R,
    progress: Progress,
    sources: &mut Sources<'_, R, I>,
    capture: &mut Capture<S>,
) -> Result<(), Fault>
where
    R: Files + Eprint + AllocGlobal + Clock,
    I: Read + Drop,
    S: Sink + Drop,
{
    let mut meter = progress.meter();
    for _ in 0..u64::MAX {
        match sources.read_on(capture) {
            Ok(true) => meter.tell(rt, capture.packets(), "packets"),
            Ok(false) => break,
            Err(fault) => {
                progress.take_away(rt);
                return Err(fault);
            }
        }
    }
    progress.take_away(rt);
    Ok(())
}

/// Writes the scripts of links and days of captures, and gives the status. Where all were read and written, each has its name.
fn write_scripts<R, I>(
    rt: &R,
    progress: Progress,
    sources: Sources<'_, R, I>,
    capture: Capture<Split<'_, R>>,
) -> u8
where
    R: Files + Eprint + AllocGlobal + Clock,
    I: Read + Drop,
{
    let mut sources = sources;
    let mut capture = capture;
    if let Err(error) = capture.sink().folder().folder().make_folder() {
        return print_script_fault(rt, &mut capture, &Fault::Write(error));
    }
    if let Err(fault) = read_all(rt, progress, &mut sources, &mut capture) {
        let status = match path_of(sources.path(), &fault) {
            None => print_script_fault(rt, &mut capture, &fault),
            path => print_fault(rt, path, &fault),
        };
        let _ = capture.break_off();
        let _ = capture.sink().folder().write_out();
        return status;
    }
    match end_scripts(&mut capture) {
        Ok(true) => REFUSED,
        Ok(false) => DONE,
        Err(fault) => print_script_fault(rt, &mut capture, &fault),
    }
}

/// Ends captures, and gives their scripts their names; whether something is missing.
fn end_scripts<R>(capture: &mut Capture<Split<'_, R>>) -> Result<bool, Fault>
where
    R: Files + Eprint + AllocGlobal + Clock,
{
    let has_loss = capture.end()?;
    let folder = capture.sink().folder();
    folder.write_out().map_err(Fault::Write)?;
    folder.folder().finish().map_err(Fault::Write)?;
    Ok(has_loss)
}

/// Prints a fault, with the path of the script that couldn't be written where it is of one, and gives the status.
fn print_script_fault<R>(rt: &R, capture: &mut Capture<Split<'_, R>>, fault: &Fault) -> u8
where
    R: Files + Eprint + AllocGlobal + Clock,
{
    print_fault(rt, capture.sink().folder().folder().failed(), fault)
}

/// The file that is to be written, if one is named.
fn create<R: Files>(rt: &R, path: &Option<String>) -> Result<Option<R::File>, Fault> {
    match path {
        None => Ok(None),
        Some(path) => match fs::create(rt, path.as_str()) {
            Ok(file) => Ok(Some(file)),
            Err(error) => Err(Fault::Write(error)),
        },
    }
}

/// The path of the capture that is read, where a fault is of it.
fn path_of<'a>(path: &'a str, fault: &Fault) -> Option<&'a str> {
    match fault {
        Fault::Write(_) | Fault::Memory => None,
        _ => Some(path),
    }
}

/// Prints a fault, of a file where it is of one, and gives the status.
fn print_fault<R: Eprint>(rt: &R, path: Option<&str>, fault: &Fault) -> u8 {
    let _ = match path {
        Some(path) => eprintln!(rt; "smq: {path}: {fault}"),
        None => eprintln!(rt; "smq: {fault}"),
    };
    match fault {
        Fault::Memory => NO_MEMORY,
        Fault::Read(error) | Fault::Write(error) => {
            if error.kind() == ErrorKind::OutOfMemory {
                NO_MEMORY
            } else {
                FAULT
            }
        }
        _ => BAD_INPUT,
    }
}
