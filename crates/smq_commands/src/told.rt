//! What is told on standard error of words, files, rows and faults, with the status that follows.
ghost use Rattle.std.specs.IoError.{error_kind};
ghost use Rattle.std.specs.Prelude.{◌≡◌, ◌≢◌, ◌⊎◌};
ghost use Rattle.std.specs.declared.io.ErrorKind.TheVariants as io_kind;
ghost use Rattle.clap.specs.Words.{kind_of};
ghost use Rattle.smq_commands.specs.Statuses.{bad_words_status, fault_status, run_status};

use crate::first_octets::Mark;
use crate::status::{BAD_INPUT, DONE, FAULT, fault_status, ran_status};
use clap::error::ErrorKind;
use smq_engine::{Ran, RunFault};
use smq_kit::Refusal;
use smq_words::bad_words;
use std::io;

/// Tells why the program's words weren't read.
pub(crate) fn words_unreadable<R: Eprint>(rt: &R, error: &io::Error) -> u8
    ensures memory { error_kind error.now ≡ io_kind.OutOfMemory
        → result ≡ fault_status RunFault.Memory }
    ensures bad_words { error_kind error.now ≢ io_kind.OutOfMemory → result ≡ bad_words_status }
{
    if error.kind() == io::ErrorKind::OutOfMemory {
        return print_fault(rt, RunFault::Memory);
    }
    let _ = eprintln!(rt; "{error}");
    BAD_INPUT
}

/// Prints help or the version where the words ask for it, or why they are refused, and gives the status.
pub(crate) fn print_words_error<R: Print + Eprint>(rt: &R, error: &clap::Error) -> u8
    ensures help { kind_of error.now ≡ ErrorKind.DisplayHelp
        → (result ≡ DONE) ⊎ (result ≡ FAULT) }
    ensures version { kind_of error.now ≡ ErrorKind.DisplayVersion
        → (result ≡ DONE) ⊎ (result ≡ FAULT) }
    ensures memory { kind_of error.now ≡ ErrorKind.OutOfMemory
        → result ≡ fault_status RunFault.Memory }
    ensures bad_words { kind_of error.now ≢ ErrorKind.OutOfMemory
        → kind_of error.now ≢ ErrorKind.DisplayHelp
        → kind_of error.now ≢ ErrorKind.DisplayVersion → result ≡ bad_words_status }
{
    if error.kind() == ErrorKind::OutOfMemory {
        return print_fault(rt, RunFault::Memory);
    }
    let printed = error.print(rt);
    if error.use_stderr() {
        return BAD_INPUT;
    }
    match printed {
        Ok(()) => DONE,
        Err(_) => print_fault(rt, RunFault::Write),
    }
}

/// Prints why a time zone wasn't read, with its path, and gives the status.
pub(crate) fn print_unread_zone<R: Eprint>(rt: &R, path: &str, error: &io::Error) -> u8
    ensures memory { error_kind error.now ≡ io_kind.OutOfMemory
        → result ≡ fault_status RunFault.Memory }
    ensures unread { error_kind error.now ≢ io_kind.OutOfMemory
        → result ≡ fault_status RunFault.Read }
{
    if error.kind() == io::ErrorKind::OutOfMemory {
        return print_fault(rt, RunFault::Memory);
    }
    let _ = eprintln!(rt; "time zone {path}: {}", RunFault::Read);
    fault_status(RunFault::Read)
}

/// Prints why words are refused, and gives the status.
pub(crate) fn print_bad_words<R: Print + Eprint + AllocGlobal>(rt: &R, message: &str) -> u8 {
    match bad_words(rt.alloc(), message) {
        Ok(error) => print_words_error(rt, &error),
        Err(error) => print_words_error(rt, &error),
    }
}

/// Prints why settings weren't read, and in a second line their path, and gives the status.
pub(crate) fn print_unread_settings<R: Eprint>(rt: &R, path: &str, error: &io::Error) -> u8
    ensures memory { error_kind error.now ≡ io_kind.OutOfMemory
        → result ≡ fault_status RunFault.Memory }
    ensures unread { error_kind error.now ≢ io_kind.OutOfMemory
        → result ≡ fault_status RunFault.Read }
{
    if error.kind() == io::ErrorKind::OutOfMemory {
        return print_fault(rt, RunFault::Memory);
    }
    let status = print_fault(rt, RunFault::Read);
    let _ = eprintln!(rt; "settings: {path}");
    status
}

/// Prints what standard input is where it is bad and begins as a capture does, and gives the status.
pub(crate) fn print_mark<R: Eprint>(rt: &R, status: u8, mark: Mark) -> u8
    ensures { result ≡ status }
{
    if status == BAD_INPUT {
        let _ = match mark {
            Mark::Capture => {
                eprintln!(rt;
                    "standard input is a packet capture, which is read by --capture - --link PORT=LINK"
                )
            }
            Mark::Packed => eprintln!(rt; "standard input is packed by gzip: zcat FILE | smq .."),
            Mark::Other => Ok(()),
        };
    }
    status
}

/// Prints the rows that were refused, or the fault, and gives the status.
pub(crate) fn print_ran<R: Eprint>(rt: &R, ran: Result<Ran, RunFault>) -> u8 {
    match ran {
        Ok(ran) => print_refused(rt, ran.refused.as_slice()),
        Err(fault) => print_fault(rt, fault),
    }
}

/// Prints the rows that were refused, and gives the status.
pub(crate) fn print_refused<R: Eprint>(rt: &R, refused: &[(u64, Refusal)]) -> u8
    ensures { result ≡ run_status refused.now }
{
    for (row, refusal) in refused {
        let _ = eprintln!(rt; "row {row}: {refusal}");
    }
    ran_status(refused)
}

/// Prints why a task wasn't done, or that help couldn't be written, and gives the status.
pub(crate) fn print_fault<R: Eprint>(rt: &R, fault: RunFault) -> u8
    ensures { result ≡ fault_status fault }
{
    let _ = eprintln!(rt; "{fault}");
    fault_status(fault)
}
