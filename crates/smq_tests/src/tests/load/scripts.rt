//! Scripts, and the rows that they have or their first bad one.
use smq_load::{LoadFault, read_script};
use std::alloc::{AllocError, Global};
use std::process::Abort;

/// A script, how many rows it has or the number of its first bad one, and what it shows.
type Case = (&'static [u8], Result<usize, u64>, &'static str);

/// How records stand in a text.
const LAYOUTS: &[Case] = &[
    (b"", Ok(0), "no octets"),
    (b"\n\r\n\n", Ok(0), "empty lines"),
    (b"piece,1,10,client,0,", Ok(1), "no line feed at the end"),
    (
        b"piece,1,10,client,0,\r\nclock,1\r\n",
        Ok(2),
        "a line feed after each carriage return",
    ),
    (b"\n\nclock,1\n\n\nclock,1\n", Ok(2), "empty lines between"),
    (b"\xef\xbb\xbfwithdraw,1\n", Ok(1), "a byte order mark"),
    (b"\"piece\",\"1\",10,\"client\",0,\"00\"\n", Ok(1), "quotes"),
    (b"\"clo\"\"ck\",1\n", Err(1), "a quote inside a word"),
    (b"clock,\xff\n", Err(1), "an octet that is no text"),
    (
        b"clock,0\nclock,x\nclock,y\n",
        Err(2),
        "the second record is bad, and the third",
    ),
    (b"\n\nclock,x\n", Err(1), "a bad record after empty lines"),
    (b"clock,0\n\n \n", Err(2), "a blank is a record"),
];

/// Records of pieces.
const PIECES: &[Case] = &[
    (b"piece,1,10,client,0\n", Err(1), "five fields"),
    (b"piece,1,10,client,0,,\n", Err(1), "seven fields"),
    (b"Piece,1,10,client,0,\n", Err(1), "a word in another case"),
    (
        b" piece,1,10,client,0,\n",
        Err(1),
        "a blank before the word",
    ),
    (b"piece,1x,10,client,0,\n", Err(1), "a letter in the link"),
    (
        b"piece, 1,10,client,0,\n",
        Err(1),
        "a blank before the link",
    ),
    (b"piece,+1,10,client,0,\n", Err(1), "a sign"),
    (b"piece,,10,client,0,\n", Err(1), "an empty link"),
    (
        b"piece,4294967295,10,client,0,\n",
        Ok(1),
        "the greatest link",
    ),
    (b"piece,4294967296,10,client,0,\n", Err(1), "a link past it"),
    (
        b"piece,00000000000000000001,10,client,0,\n",
        Ok(1),
        "20 digits",
    ),
    (
        b"piece,000000000000000000001,10,client,0,\n",
        Err(1),
        "21 digits",
    ),
    (
        b"piece,1,10,Client,0,\n",
        Err(1),
        "a direction in another case",
    ),
    (b"piece,1,10,client,0,0\n", Err(1), "one hexadecimal digit"),
    (b"piece,1,10,client,0,0g\n", Err(1), "a letter past f"),
    (
        b"piece,1,10,client,0,00 \n",
        Err(1),
        "a blank after the octets",
    ),
];

/// Records of withdrawals, forms, windows and the clock.
const SETTINGS: &[Case] = &[
    (b"withdraw\n", Err(1), "no session"),
    (b"withdraw,1,1\n", Err(1), "two sessions"),
    (
        b"withdraw,18446744073709551615\n",
        Ok(1),
        "the greatest session",
    ),
    (
        b"withdraw,18446744073709551616\n",
        Err(1),
        "a session past it",
    ),
    (b"withdraw,99999999999999999999\n", Err(1), "20 nines"),
    (b"Withdraw,1\n", Err(1), "a word in another case"),
    (b"form,1,decimal\n", Err(1), "one form"),
    (b"form,1,decimal,decimal,\n", Err(1), "a fifth field"),
    (b"form,1,decimal,hex\n", Err(1), "a form cut short"),
    (b"form,1,,decimal\n", Err(1), "an empty form"),
    (b"window,1,1\n", Ok(1), "the least window"),
    (b"window,1,4102444800000\n", Ok(1), "the greatest window"),
    (b"window,1,4102444800001\n", Err(1), "a window past it"),
    (b"window,1,0\n", Err(1), "a window of 0"),
    (b"window,1,\n", Err(1), "an empty window"),
    (b"window,1,-1\n", Err(1), "a negative window"),
    (
        b"window,1,1970-01-03T00:00:00Z\n",
        Err(1),
        "an instant for a window",
    ),
    (b"window,1\n", Err(1), "no window"),
    (b"window,1,1,\n", Err(1), "a fourth field of a window"),
    (b"window,4294967296,1\n", Err(1), "a link past the greatest"),
    (b"windows,1,1\n", Err(1), "another word for it"),
    (b"clock\n", Err(1), "no moment"),
    (b"clock,1,\n", Err(1), "a third field"),
    (b"clock,4102444800000\n", Ok(1), "the last moment"),
    (b"clock,4102444800001\n", Err(1), "a moment past the last"),
    (b"clock,-1\n", Err(1), "a moment before 1970"),
    (b"clocks,1\n", Err(1), "another word"),
];

/// Records of routes.
const ROUTES: &[Case] = &[
    (b"route,44,0,7\n", Err(1), "no network"),
    (b"route,44,0,7,23410,\n", Err(1), "a sixth field"),
    (b"route,447700900123456,0,7,310026\n", Ok(1), "15 digits"),
    (b"route,4477009001234567,0,7,23410\n", Err(1), "16 digits"),
    (b"route,,0,7,23410\n", Err(1), "an empty prefix"),
    (b"route,+44,0,7,23410\n", Err(1), "a plus sign"),
    (
        b"route,44,0,4294967295,23410\n",
        Ok(1),
        "the greatest route",
    ),
    (b"route,44,0,4294967296,23410\n", Err(1), "a route past it"),
    (b"route,44,0,7,2341\n", Err(1), "a network of 4 digits"),
    (b"route,44,0,7,2341000\n", Err(1), "a network of 7 digits"),
    (b"end,44,0\n", Err(1), "no end"),
    (b"end,44,0,1,\n", Err(1), "a fifth field"),
    (
        b"end,44,0,4102444800001\n",
        Err(1),
        "an end past the last moment",
    ),
    (b"correct,44,0,7\n", Err(1), "no network"),
    (b"correct,44,0,7,23410,\n", Err(1), "a sixth field"),
    (b"correct,44,x,7,23410\n", Err(1), "a letter for the moment"),
];

/// Instants.
const INSTANTS: &[Case] = &[
    (b"clock,1970-01-01T00:00:00Z\n", Ok(1), "the first moment"),
    (b"clock,2000-02-29T23:59:59Z\n", Ok(1), "a leap day"),
    (b"clock,2100-01-01T00:00:00Z\n", Ok(1), "the last moment"),
    (b"clock,2100-01-01T00:00:01Z\n", Err(1), "a second past it"),
    (
        b"clock,1969-12-31T23:59:59Z\n",
        Err(1),
        "a second before 1970",
    ),
    (b"clock,1970-02-30T00:00:00Z\n", Err(1), "30 February"),
    (b"clock,2023-02-29T00:00:00Z\n", Err(1), "no leap day"),
    (b"clock,1970-01-01T24:00:00Z\n", Err(1), "hour 24"),
    (b"clock,1970-01-01T00:60:00Z\n", Err(1), "minute 60"),
    (b"clock,1998-12-31T23:59:60Z\n", Err(1), "a leap second"),
    (b"clock,1970-01-01T00:00:00.0Z\n", Err(1), "a fraction"),
    (b"clock,1970-01-01T00:00:00+00:00\n", Err(1), "an offset"),
    (b"clock,1970-01-01 00:00:00Z\n", Err(1), "a blank for the T"),
    (
        b"clock,1970-1-01T00:00:00Z\n",
        Err(1),
        "a month of one digit",
    ),
];

/// Whether a script has so many rows, or its first bad one has this number.
fn is_read(alloc: Global, text: &[u8], wanted: Result<usize, u64>) -> bool {
    let mut reader = text;
    match read_script(alloc, &mut reader) {
        Ok(rows) => has_rows(wanted, rows.len()),
        Err(fault) => is_told(wanted, fault),
    }
}

fn has_rows(wanted: Result<usize, u64>, rows: usize) -> bool {
    match wanted {
        Ok(wanted) => rows == wanted,
        Err(_) => false,
    }
}

fn is_told(wanted: Result<usize, u64>, fault: LoadFault) -> bool {
    match wanted {
        Ok(_) => false,
        Err(row) => fault == LoadFault::BadRow { row },
    }
}

fn assert_cases(rt: &impl Abort, alloc: Global, cases: &[Case]) {
    for (text, want, what) in cases {
        assert!(rt; is_read(alloc, text, *want), "{what}");
    }
}

#[test]
fn scripts_have_rows_or_a_first_bad_row(rt: HostRuntime) {
    assert_cases(&rt, rt.alloc(), LAYOUTS);
    assert_cases(&rt, rt.alloc(), PIECES);
    assert_cases(&rt, rt.alloc(), SETTINGS);
    assert_cases(&rt, rt.alloc(), ROUTES);
    assert_cases(&rt, rt.alloc(), INSTANTS);
}

fn push_pieces(text: &mut Vec<u8>) -> Result<(), AllocError> {
    for _ in 0..1_000 {
        text.extend_from_slice(b"piece,1,10,client,0,00\n")?;
    }
    Ok(())
}

#[test]
fn a_bad_row_is_told_after_1_000_good_ones(rt: HostRuntime) {
    let mut text = Vec::new(rt.alloc());
    push_pieces(&mut text).expect(&rt, "pieces");
    assert!(rt; is_read(rt.alloc(), text.as_slice(), Ok(1_000)));
    text.extend_from_slice(b"clock,x\n")
        .expect(&rt, "a bad row");
    assert!(rt; is_read(rt.alloc(), text.as_slice(), Err(1_001)));
}
