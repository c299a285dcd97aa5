//! Rows that are played to their end, however many there are: refused ones are told by their numbers, and nothing is written where one
//! says no row or the settings say nothing.
use crate::tests::*;
use smq_engine::{Ran, total};
use smq_report::{Format, Output, Pick, Query};

/// Two rows that are refused, of four.
const ROWS: &[u8] = b"clock,5\nwithdraw,11\nclock,6\nclock,4\n";

/// The same, and a record that says no row.
const WITH_BAD_ROW: &[u8] = b"clock,5\nwithdraw,11\nclock,6\nclock,4\nask,link\n";

/// What rows after settings come to, and what is written.
fn totalled<RT: AllocGlobal>(
    rt: &RT,
    settings: &[u8],
    rows: &[u8],
    written: &mut Vec<u8>,
) -> Result<Ran, RunFault> {
    let query = Query {
        pick: Pick::All,
        format: Format::Csv,
    };
    let mut reader = rows;
    total(rt, &mut reader, settings, Output::Report(query), written)
}

/// Whether the rows of these numbers are refused after settings.
fn are_refused<RT: AllocGlobal>(rt: &RT, settings: &[u8], rows: &[u8], numbers: &[u64]) -> bool {
    match totalled(rt, settings, rows, &mut Vec::new(rt.alloc())) {
        Ok(ran) => {
            ran.refused.len() == numbers.len()
                && ran
                    .refused
                    .iter()
                    .zip(numbers)
                    .all(|(told, number)| told.0 == *number)
        }
        Err(_) => false,
    }
}

/// Whether rows after settings end with a fault, and nothing is written.
fn ends_by<RT: AllocGlobal>(rt: &RT, settings: &[u8], rows: &[u8], fault: RunFault) -> bool {
    let mut written = Vec::new(rt.alloc());
    totalled(rt, settings, rows, &mut written).err() == Some(fault) && written.is_empty()
}

#[test]
fn refused_rows_are_told_by_their_numbers_after_the_settings(rt: HostRuntime) {
    assert!(rt; are_refused(&rt, b"", ROWS, &[2, 4]));
    assert!(rt; are_refused(&rt, b"clock = 6", ROWS, &[1, 2, 4]));
}

#[test]
fn nothing_is_written_where_a_row_or_the_settings_are_bad(rt: HostRuntime) {
    assert!(rt; ends_by(&rt, b"", WITH_BAD_ROW, RunFault::BadRow { row: 5 }));
    assert!(rt; ends_by(&rt, b"clock = -1", ROWS, RunFault::BadSettings));
}
