//! What the program's words ask for: reads the settings that they name, and does the task with rows or captures.
use crate::add::run_add;
use crate::capture::run_with_captures;
use crate::capture_words::has_words;
use crate::deal::run_deal;
use crate::first_octets::FirstOctets;
use crate::live::{run_follow, run_window};
use crate::progress::{CountedRows, Progress, StandardOutput, Terminals};
use crate::status::{BAD_INPUT, check_status};
use crate::timed_input::Blocks;
use crate::told::{
    print_bad_words, print_fault, print_mark, print_ran, print_unread_settings, print_unread_zone,
    print_words_error, words_unreadable,
};
use crate::window_length::length_of;
use smq_count::{Counting, MOST_ZONE, Zone};
use smq_desk::NoGate;
use smq_engine::{Checked, Ran, RunFault, check, count, run, total};
use smq_load::MOST_SETTINGS;
use smq_report::{Output, Query};
use smq_window::Length;
use smq_words::{Captures, Dealing, Order, Task, order, own_words};
use std::io::{IsTerminal, Read, Write};
use std::rt::{Env, Files};
use std::sync::Wait;
use std::thread::Threads;
use std::time::Clock;
use std::{fs, io};

/// What is said of words that name no column.
const BAD_COLUMNS: &str =
    "--by and --where want columns: link, session, route, network, outcome, error, link-delay, centre-delay, minute, hour, day, month, source, ton, prefix:N (N from 1 to 15)";

/// What is said of a window that is none.
const BAD_LENGTH: &str = "a window is as long as 90s, 15m or 6h: from 1s to 999999h";

/// Does what the program's words ask for, and gives the status. Where a terminal shows standard error, it tells how far it is. A message that
/// can't be told changes no status.
pub fn obey<R, F>(rt: &R, terminals: Terminals, start: F) -> u8
where
    R: Env + Files + Input + Print + Eprint + AllocGlobal + Threads + Wait + Clock + Sync,
    R::Reader: IsTerminal,
    F: FnOnce() -> io::Result<Blocks>,
    requires { F.IsAlwaysCallable start }
{
    let words = match own_words(rt) {
        Ok(words) => words,
        Err(error) => return words_unreadable(rt, &error),
    };
    match order(rt.alloc(), words.as_slice()) {
        Ok(order) => run_order(rt, order, terminals, start),
        Err(error) => print_words_error(rt, &error),
    }
}

/// Reads the settings that an order names, does its task, and gives the status.
fn run_order<R, F>(rt: &R, order: Order, terminals: Terminals, start: F) -> u8
where
    R: Files + Input + Print + Eprint + AllocGlobal + Threads + Wait + Clock + Sync,
    R::Reader: IsTerminal,
    F: FnOnce() -> io::Result<Blocks>,
    requires { F.IsAlwaysCallable start }
{
    let Order {
        task,
        settings,
        counting,
        window,
        dealing,
        captures,
    } = order;
    if let Task::Add { of_periods } = task {
        return run_add(rt, of_periods, captures.paths.as_slice());
    }
    let progress = if terminals.errors && tells_progress(task) && !captures.is_quiet {
        Progress::begin(rt, terminals.output)
    } else {
        Progress::none()
    };
    if task == Task::Deal {
        return read_and_deal(rt, dealing, &settings, progress);
    }
    let wanted = match wanted_of(rt, task, &counting, &window, progress) {
        Ok(wanted) => wanted,
        Err(status) => return status,
    };
    let Some(path) = settings else {
        return run_reading(rt, wanted, &[], captures, start);
    };
    match read_start(rt, path.as_str(), MOST_SETTINGS) {
        Ok(octets) => run_reading(rt, wanted, octets.as_slice(), captures, start),
        Err(error) => print_unread_settings(rt, path.as_str(), &error),
    }
}

/// Reads settings, deals the rows of standard input, and gives the status.
fn read_and_deal<R>(rt: &R, dealing: Dealing, settings: &Option<String>, progress: Progress) -> u8
where
    R: Files + Input + Print + Eprint + AllocGlobal + Clock,
{
    let mut octets = Vec::new(rt.alloc());
    if let Some(path) = settings {
        octets = match read_start(rt, path.as_str(), MOST_SETTINGS) {
            Ok(octets) => octets,
            Err(error) => return print_unread_settings(rt, path.as_str(), &error),
        };
    }
    let mut rows = FirstOctets::new(rt.reader());
    let status = run_deal(rt, dealing, octets.as_slice(), &mut rows, progress);
    print_mark(rt, status, rows.mark())
}

/// What is to be done: a task, what is counted by, and how long what came is kept.
#[derive(Drop)]
pub(crate) struct Wanted {
    pub task: Task,
    /// Nothing where the task doesn't count.
    pub counting: Counting,
    /// None: for ever.
    pub length: Option<Length>,
    pub progress: Progress,
}

/// Whether it is told how far a task is: what is asked among rows, and windows of them, tell that by what they write.
fn tells_progress(task: Task) -> bool {
    !matches!(task, Task::Follow(_) | Task::Window)
}

/// What is to be done, by its words. The status where they name no column, no time zone, or no length.
fn wanted_of<R: Files + Print + Eprint + AllocGlobal>(
    rt: &R,
    task: Task,
    counting: &smq_words::Counting,
    window: &Option<String>,
    progress: Progress,
) -> Result<Wanted, u8> {
    let counting = counting_of(rt, counting)?;
    let length = match window {
        Some(text) => match length_of(text.as_str()) {
            Some(length) => Some(length),
            None => return Err(print_bad_words(rt, BAD_LENGTH)),
        },
        None => None,
    };
    Ok(Wanted {
        task,
        counting,
        length,
        progress,
    })
}

/// What is counted, by the words for it; nothing where these are of another task. The status where they name no column, or no time zone.
fn counting_of<R: Files + Print + Eprint + AllocGlobal>(
    rt: &R,
    words: &smq_words::Counting,
) -> Result<Counting, u8> {
    let alloc = rt.alloc();
    let Some(columns) = &words.columns else {
        return Ok(Counting {
            columns: Vec::new(alloc),
            conditions: Vec::new(alloc),
            zone: Zone::Utc,
        });
    };
    let counting = match Counting::parse(alloc, columns.as_bytes(), words.conditions.as_slice()) {
        Ok(Some(counting)) => counting,
        Ok(None) => return Err(print_bad_words(rt, BAD_COLUMNS)),
        Err(_) => return Err(print_fault(rt, RunFault::Memory)),
    };
    let Some(path) = &words.zone else {
        return Ok(counting);
    };
    let Counting {
        columns,
        conditions,
        zone: _,
    } = counting;
    Ok(Counting {
        columns,
        conditions,
        zone: zone_at(rt, path.as_str())?,
    })
}

/// The time zone of a file. The status where it can't be read or is no such file, which is told in a line.
fn zone_at<R: Files + Eprint + AllocGlobal>(rt: &R, path: &str) -> Result<Zone, u8> {
    let octets = match read_start(rt, path, MOST_ZONE) {
        Ok(octets) => octets,
        Err(error) => return Err(print_unread_zone(rt, path, &error)),
    };
    match Zone::read(rt.alloc(), octets.as_slice()) {
        Ok(Some(zone)) => Ok(zone),
        Ok(None) => {
            let _ = eprintln!(rt; "time zone {path}: no TZif file of at most {MOST_ZONE} octets");
            Err(BAD_INPUT)
        }
        Err(_) => Err(print_fault(rt, RunFault::Memory)),
    }
}

/// Does a task with settings, and with captures where some are named, and gives the status.
fn run_reading<R, F>(rt: &R, wanted: Wanted, settings: &[u8], captures: Captures, start: F) -> u8
where
    R: Files + Input + Print + Eprint + AllocGlobal + Threads + Wait + Clock + Sync,
    R::Reader: IsTerminal,
    F: FnOnce() -> io::Result<Blocks>,
    requires { F.IsAlwaysCallable start }
{
    if wanted.task == Task::Capture || !captures.paths.is_empty() {
        return run_with_captures(rt, wanted, settings, captures, start);
    }
    if !has_words(&captures) {
        let mut rows = FirstOctets::new(rt.reader());
        let status = run_task(rt, &wanted, settings, &mut rows);
        return print_mark(rt, status, rows.mark());
    }
    print_bad_words(
        rt,
        "--link, --strict, --every and what else is of captures want --capture",
    )
}

/// The octets of a file, at most one more than such a file may have.
fn read_start<R: Files + AllocGlobal>(rt: &R, path: &str, most: usize) -> io::Result<Vec<u8>> {
    let mut octets = Vec::new(rt.alloc());
    let file = fs::open(rt, path)?;
    file.take((most as u64).saturating_add(1))
        .read_to_end(&mut octets)?;
    Ok(octets)
}

/// Does a task with settings and rows, and gives the status. Rows that are refused, and a fault, are told on standard error.
pub(crate) fn run_task<R, I>(rt: &R, wanted: &Wanted, settings: &[u8], rows: &mut I) -> u8
where
    R: Print + Eprint + AllocGlobal + Threads + Wait + Clock + Sync,
    I: Read,
{
    let progress = wanted.progress;
    let mut counted = CountedRows::new(rt, progress, rows);
    let mut writer = StandardOutput::new(rt, progress);
    let ran = match wanted.task {
        Task::Follow(format) => {
            return run_follow(rt, format, wanted.length, settings, &mut counted);
        }
        Task::Window => {
            return match wanted.length {
                Some(length) => run_window(rt, length, &mut counted),
                None => BAD_INPUT,
            };
        }
        Task::Add { of_periods: _ } | Task::Capture | Task::Deal => return BAD_INPUT,
        Task::Check => {
            let checked = write_check(rt, settings, &mut counted, &mut writer);
            progress.take_away(rt);
            return match checked {
                Ok(checked) => check_status(checked),
                Err(fault) => print_fault(rt, fault),
            };
        }
        Task::Run(query) => write_run(rt, query, settings, &mut counted, &mut writer),
        Task::Total(output) => write_total(rt, output, settings, &mut counted, &mut writer),
        Task::Count => write_counts(rt, &wanted.counting, settings, &mut counted, &mut writer),
    };
    progress.take_away(rt);
    print_ran(rt, ran)
}

/// Plays the script after the settings, and writes what the query asks for. What `run` promises ends here, so that the callers are
/// proved over little; and so do the promises of the four below.
fn write_run<R: AllocGlobal, I: Read, W: Write>(
    rt: &R,
    query: Query,
    settings: &[u8],
    rows: &mut I,
    writer: &mut W,
) -> Result<Ran, RunFault> {
    run(rt, rows, settings, query, writer)
}

/// Plays rows after the settings as they are read, and writes an output of what they leave.
fn write_total<R: AllocGlobal, I: Read, W: Write>(
    rt: &R,
    output: Output,
    settings: &[u8],
    rows: &mut I,
    writer: &mut W,
) -> Result<Ran, RunFault> {
    total(rt, rows, settings, output, writer)
}

/// Plays rows after the settings as they are read, and writes counts of the messages that they leave.
fn write_counts<R: AllocGlobal, I: Read, W: Write>(
    rt: &R,
    counting: &Counting,
    settings: &[u8],
    rows: &mut I,
    writer: &mut W,
) -> Result<Ran, RunFault> {
    count(rt, rows, settings, counting, writer)
}

/// Checks the script after the settings, and writes what was found.
fn write_check<R: AllocGlobal + Threads + Wait + Sync, I: Read, W: Write>(
    rt: &R,
    settings: &[u8],
    rows: &mut I,
    writer: &mut W,
) -> Result<Checked, RunFault> {
    check(rt, rows, settings, writer, &NoGate)
}
