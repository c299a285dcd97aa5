//! Rows that are followed as they come, all or those of the last minutes.
use crate::error_lines::ErrorLines;
use crate::progress::Progress;
use crate::status::{DONE, REFUSED, followed_status};
use crate::told::print_fault;
use crate::window_rows::WindowRows;
use smq_engine::{Followed, RunFault, follow};
use smq_report::Format;
use smq_window::Length;
use std::io;
use std::io::Read;
use std::time::Clock;

/// Answers what is asked among rows, of which those of the last minutes are kept where a length is given, and gives the status.
pub(crate) fn run_follow<R: Print + Eprint + AllocGlobal + Clock, I: Read>(
    rt: &R,
    format: Format,
    length: Option<Length>,
    settings: &[u8],
    rows: &mut I,
) -> u8 {
    let Some(length) = length else {
        return print_followed(rt, write_answers(rt, format, settings, rows));
    };
    let mut kept = WindowRows::new(
        rt.alloc(),
        length,
        rows,
        ErrorLines::new(rt, Progress::none()),
    );
    let followed = write_answers(rt, format, settings, &mut kept);
    match kept.fault() {
        Some(fault) => print_fault(rt, fault),
        None => with_refused(print_followed(rt, followed), kept.is_refused()),
    }
}

/// Writes the rows of the last minutes, each as soon as it is made, and gives the status.
pub(crate) fn run_window<R: Print + Eprint + AllocGlobal + Clock, I: Read>(
    rt: &R,
    length: Length,
    rows: &mut I,
) -> u8 {
    let mut kept = WindowRows::new(
        rt.alloc(),
        length,
        rows,
        ErrorLines::new(rt, Progress::none()),
    );
    match kept.write_all(&mut io::writer(rt)) {
        Ok(()) => with_refused(DONE, kept.is_refused()),
        Err(fault) => print_fault(rt, fault),
    }
}

/// The status where rows may have been refused before.
fn with_refused(status: u8, is_refused: bool) -> u8 {
    if status == DONE && is_refused {
        REFUSED
    } else {
        status
    }
}

/// Prints the fault of records that were followed, if any, and gives the status.
fn print_followed<R: Eprint>(rt: &R, followed: Result<Followed, RunFault>) -> u8 {
    match followed {
        Ok(followed) => followed_status(followed),
        Err(fault) => print_fault(rt, fault),
    }
}

/// Plays rows after the settings as they come, and writes the answers to what is asked among them. A refused row is told at once.
fn write_answers<R: Print + Eprint + AllocGlobal + Clock, I: Read>(
    rt: &R,
    format: Format,
    settings: &[u8],
    rows: &mut I,
) -> Result<Followed, RunFault> {
    follow(
        rt,
        rows,
        settings,
        format,
        &mut io::writer(rt),
        &mut ErrorLines::new(rt, Progress::none()),
    )
}
