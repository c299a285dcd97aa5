//! Reports that are added.
use crate::progress::{Progress, StandardOutput};
use crate::status::{BAD_INPUT, DONE, REFUSED, fault_status};
use smq_add::{AddFault, Apart, Checks, Owner, ReadFault, Row, Shared, Sum, read_report};
use smq_engine::RunFault;
use smq_report::ReportFault;
use std::io::Read;
use std::rt::Files;
use std::time::Clock;
use std::{fs, io};

/// Adds the reports at these paths, writes their sum, and gives the status. Why they can't be added is told in a line.
pub(crate) fn run_add<R>(rt: &R, of_periods: bool, paths: &[String]) -> u8
where
    R: Files + Print + Eprint + AllocGlobal + Clock,
{
    let alloc = rt.alloc();
    let mut sum = Sum::new(alloc);
    let mut checks = Checks::new(alloc, of_periods);
    for path in paths {
        let rows = match rows_at(rt, path.as_str(), of_periods) {
            Ok(rows) => rows,
            Err(status) => return status,
        };
        if checks.see(rows.as_slice()).is_err() {
            return print_fault(rt, RunFault::Memory);
        }
        match sum.add_report(rows, of_periods) {
            Ok(()) => {}
            Err(AddFault::TooMany) => return print_too_many(rt),
            Err(AddFault::Memory) => return print_fault(rt, RunFault::Memory),
        }
    }
    match checks.apart() {
        Some(apart) => print_apart(rt, apart, paths),
        None => write_sum(rt, sum),
    }
}

/// The rows of the report at a path. The status where it can't be read or is no report, which is told in a line.
fn rows_at<R: Files + Eprint + AllocGlobal>(
    rt: &R,
    path: &str,
    of_periods: bool,
) -> Result<Vec<Row>, u8> {
    let text = match read_whole(rt, path) {
        Ok(text) => text,
        Err(error) => return Err(print_unread(rt, path, &error)),
    };
    match read_report(rt.alloc(), text.as_slice(), of_periods) {
        Ok(rows) => Ok(rows),
        Err(ReadFault::Line(line)) => {
            let _ = eprintln!(rt;
                "add: {path}: line {line} is none of a report as CSV, or isn't in its order"
            );
            Err(BAD_INPUT)
        }
        Err(ReadFault::Memory) => Err(print_fault(rt, RunFault::Memory)),
    }
}

/// The octets of a file.
fn read_whole<R: Files + AllocGlobal>(rt: &R, path: &str) -> io::Result<Vec<u8>> {
    let mut text = Vec::new(rt.alloc());
    let mut file = fs::open(rt, path)?;
    file.read_to_end(&mut text)?;
    Ok(text)
}

/// Tells that a file can't be read, and gives the status.
fn print_unread<R: Eprint>(rt: &R, path: &str, error: &io::Error) -> u8 {
    if error.kind() == io::ErrorKind::OutOfMemory {
        return print_fault(rt, RunFault::Memory);
    }
    let _ = eprintln!(rt; "add: {path}: {error}");
    BAD_INPUT
}

/// Tells why reports can't be added, and gives the status.
fn print_apart<R: Eprint>(rt: &R, apart: Apart, paths: &[String]) -> u8 {
    let _ = match apart {
        Apart::Part(report) => {
            let path = path_of(paths, report);
            eprintln!(rt;
                "add: {path} isn't a whole report, and these aren't all of one view or list"
            )
        }
        Apart::Shared(shared) => print_shared(rt, shared, paths),
    };
    REFUSED
}

/// Tells that a sum is of more than 64 bits, and gives the status.
fn print_too_many<R: Eprint>(rt: &R) -> u8 {
    let _ = eprintln!(rt; "add: a sum of counts is 18446744073709551616 or more");
    REFUSED
}

/// Tells what two reports have.
fn print_shared<R: Eprint>(rt: &R, shared: Shared, paths: &[String]) -> io::Result<()> {
    let first = path_of(paths, shared.first);
    let second = path_of(paths, shared.second);
    match shared.owner {
        Owner::Link(link) => {
            let number = link.0;
            eprintln!(rt;
                "add: link {number} is in {first} and in {second}; a link has to be whole"
            )
        }
        Owner::Session(session) => {
            let number = session.0;
            eprintln!(rt;
                "add: session {number} is in {first} and in {second}; a session has to be whole"
            )
        }
    }
}

/// The path of a report, by its number.
fn path_of(paths: &[String], report: u64) -> &str {
    match paths.get(report as usize) {
        Some(path) => path.as_str(),
        None => "",
    }
}

/// Writes the sum, and gives the status.
fn write_sum<R: Print + Eprint + AllocGlobal + Clock>(rt: &R, sum: Sum) -> u8 {
    let mut writer = StandardOutput::new(rt, Progress::none());
    match sum.write(rt.alloc(), &mut writer) {
        Ok(()) => DONE,
        Err(ReportFault::Write) => print_fault(rt, RunFault::Write),
        Err(ReportFault::Memory) => print_fault(rt, RunFault::Memory),
    }
}

/// Tells a fault, and gives the status.
fn print_fault<R: Eprint>(rt: &R, fault: RunFault) -> u8 {
    let _ = eprintln!(rt; "{fault}");
    fault_status(fault)
}
