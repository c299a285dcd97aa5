//! Plays the rows of a script on one book, and writes a line for each: the book's touches after it, and that it was made, or its
//! refusal. Then comes whether the book's tables are those that are counted from nothing, and their report. With a number as its word
//! it stops after that row.
//!
//! It is a program of the repository's checks, and not of its users: gate/check-touches compares what each edit adds
//! with what it reaches, and gate/check-out-of-memory refuses memory to one edit.
#![tactic(auto)]

use smq_book::Book;
use smq_kit::Refusal;
use smq_load::{LoadFault, Row, read_script};
use smq_present::{Edit, PieceRow, prepare};
use smq_report::{Format, Pick, ReportFault, write_report};
use smq_scratch::tables_from_nothing;
use std::alloc::{AllocError, Global};
use std::mem::forget;
use std::rt::Env;
use std::{env, io};

fn main(rt: HostRuntime) -> io::Result<()> {
    let last = last_row(&rt)?;
    let rows = read_rows(&rt)?;
    let mut book = Box::new(rt.alloc(), Book::new(rt.alloc()))?;
    let told = tell(&rt, &mut book, rows, last);
    forget(book);
    told
}

/// The row to stop after: the program's word, or none that a script has.
fn last_row<R: Env + AllocGlobal>(rt: &R) -> io::Result<u64> {
    let words: Vec<String> = env::args(rt)?.collect(rt.alloc())?;
    match words.get(1) {
        Some(word) => match word.as_str().parse() {
            Ok(last) => Ok(last),
            Err(_) => Err(io::Error::from(io::ErrorKind::InvalidInput)),
        },
        None => Ok(u64::MAX),
    }
}

/// The rows of the script on standard input.
fn read_rows<R: Input + AllocGlobal>(rt: &R) -> io::Result<Vec<Row>> {
    match read_script(rt.alloc(), &mut rt.reader()) {
        Ok(rows) => Ok(rows),
        Err(LoadFault::Memory) => Err(io::Error::from(io::ErrorKind::OutOfMemory)),
        Err(_) => Err(io::Error::from(io::ErrorKind::InvalidData)),
    }
}

/// Plays rows, and tells what became of each up to the last; of all of them, then of the tables.
fn tell<R: Print + AllocGlobal>(
    rt: &R,
    book: &mut Book,
    rows: Vec<Row>,
    last: u64,
) -> io::Result<()> {
    let mut number = 0u64;
    for row in rows {
        number = number.saturating_add(1);
        let made = play(rt.alloc(), book, row);
        tell_row(rt, book.touches(), made)?;
        if number == last {
            return Ok(());
        }
    }
    tell_tables(rt, book)
}

/// Makes the edit of a row on a book, or refuses it.
fn play(alloc: Global, book: &mut Book, row: Row) -> Result<(), Refusal> {
    let edit = edit_of(alloc, book, row)?;
    book.apply(edit)
}

/// The edit of a row: a piece is prepared on the present tail of its direction.
fn edit_of(alloc: Global, book: &Book, row: Row) -> Result<Edit, Refusal> {
    let PieceRow {
        link,
        session,
        dir,
        moment,
        octets,
    } = match row {
        Row::Piece(piece) => piece,
        Row::Plain(edit) => return Ok(edit),
    };
    let tail = book.tail(session, dir);
    let batch = prepare(alloc, link, session, dir, tail, moment, octets)?;
    Ok(Edit::Append { batch })
}

/// Tells the touches after a row, and what became of it.
fn tell_row<R: Print>(rt: &R, touches: u64, made: Result<(), Refusal>) -> io::Result<()> {
    match made {
        Ok(()) => println!(rt; "{touches} made"),
        Err(refusal) => println!(rt; "{touches} refused {refusal}"),
    }
}

/// Tells whether the tables of a book are those that are counted from nothing, and then their report.
fn tell_tables<R: Print + AllocGlobal>(rt: &R, book: &Book) -> io::Result<()> {
    let word = if is_current(rt.alloc(), book)? {
        "same"
    } else {
        "different"
    };
    println!(rt; "{word}")?;
    match write_report(
        rt.alloc(),
        book.tables(),
        Pick::All,
        Format::Csv,
        &mut io::writer(rt),
    ) {
        Ok(()) => Ok(()),
        Err(ReportFault::Memory) => Err(io::Error::from(io::ErrorKind::OutOfMemory)),
        Err(ReportFault::Write) => Err(io::Error::from(io::ErrorKind::Other)),
    }
}

/// Whether the tables of a book are those that are counted from nothing of what is present.
fn is_current(alloc: Global, book: &Book) -> Result<bool, AllocError> {
    let tables = tables_from_nothing(alloc, book.present())?;
    let is_same = tables == *book.tables();
    forget(tables);
    Ok(is_same)
}
