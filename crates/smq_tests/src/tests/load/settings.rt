//! Settings, and the rows that they have.
use smq_book::Edit;
use smq_kit::Form;
use smq_load::{LoadFault, Row, read_settings};
use std::alloc::Global;
use std::fmt;
use std::fmt::Write;
use std::process::Abort;

/// Settings, how many rows they have where they are any, and what they show.
type Case = (&'static [u8], Option<usize>, &'static str);

const LINKS: &[Case] = &[
    (b"[[link]]\nid = 1\n", Some(1), "a link alone"),
    (
        b"\xef\xbb\xbf[[link]]\r\nid = 1",
        Some(1),
        "a byte order mark",
    ),
    (b"link = []", Some(0), "no tables"),
    (b"[[link]]\nid = 4294967295\n", Some(1), "the greatest link"),
    (b"[[link]]\nid = 4294967296\n", None, "a link past it"),
    (b"[[link]]\nid = -1\n", None, "a negative link"),
    (b"[[link]]\nid = 1.0\n", None, "a float for a link"),
    (b"[[link]]\nid = '1'\n", None, "a text for a link"),
    (b"[[link]]\nresponse = 'decimal'\n", None, "no id"),
    (b"[[link]]\n", None, "an empty table"),
    (
        b"[[link]]\nid = 1\n[[link]]\nid = 2\n[[link]]\nid = 1\n",
        None,
        "an id twice",
    ),
    (
        b"[[link]]\nid = 1\nresponse = 'hex'\n",
        None,
        "a form cut short",
    ),
    (
        b"[[link]]\nid = 1\nreceipt = 'Decimal'\n",
        None,
        "a form in another case",
    ),
    (
        b"[[link]]\nid = 1\nforms = 'decimal'\n",
        None,
        "another key of a link",
    ),
    (
        b"[[link]]\nid = 1\nwindow = 1\n",
        Some(2),
        "the least window",
    ),
    (
        b"[[link]]\nwindow = 4102444800000\nid = 1\n",
        Some(2),
        "the greatest window",
    ),
    (
        b"[[link]]\nid = 1\nwindow = 4102444800001\n",
        None,
        "a window past it",
    ),
    (b"[[link]]\nid = 1\nwindow = 0\n", None, "a window of 0"),
    (
        b"[[link]]\nid = 1\nwindow = -1\n",
        None,
        "a negative window",
    ),
    (
        b"[[link]]\nid = 1\nwindow = 1.0\n",
        None,
        "a float for a window",
    ),
    (
        b"[[link]]\nid = 1\nwindow = '1'\n",
        None,
        "a text for a window",
    ),
    (b"[[link]]\nwindow = 1\n", None, "a window and no id"),
    (b"window = 1\n", None, "a window of no link"),
    (b"[link]\nid = 1\n", None, "one table and no array"),
    (b"link = [1]\n", None, "a number for a table"),
];

const DOCUMENTS: &[Case] = &[
    (b"", Some(0), "no octets"),
    (b"# nothing is set\n", Some(0), "a comment"),
    (b"clock = 0", Some(1), "the first moment"),
    (b"clock = 4_102_444_800_000\n", Some(1), "the last moment"),
    (b"clock = 4102444800001\n", None, "a moment past the last"),
    (b"clock = -1\n", None, "a negative moment"),
    (b"clock = 1.0\n", None, "a float"),
    (b"clock = 1970-01-03T00:00:01Z\n", None, "an instant"),
    (b"clock = '5'\n", None, "a text"),
    (b"clock = true\n", None, "a truth value"),
    (b"clock = 1\nclock = 1\n", None, "a key twice"),
    (b"x = 1\n", None, "another key"),
    (b"Clock = 1\n", None, "a key in another case"),
    (b"clock\n", None, "no TOML"),
    (b"clock = 1 # \xff\n", None, "no UTF-8"),
];

/// How many rows settings have, if they aren't bad: the greatest number at any other fault.
fn read(alloc: Global, text: &[u8]) -> Option<usize> {
    match read_settings(alloc, text) {
        Ok(rows) => Some(rows.len()),
        Err(LoadFault::BadSettings) => None,
        Err(_) => Some(usize::MAX),
    }
}

fn assert_cases(rt: &impl Abort, alloc: Global, cases: &[Case]) {
    for (text, want, what) in cases {
        assert!(rt; read(alloc, text) == *want, "{what}");
    }
}

#[test]
fn settings_have_rows_or_are_bad(rt: HostRuntime) {
    assert_cases(&rt, rt.alloc(), LINKS);
    assert_cases(&rt, rt.alloc(), DOCUMENTS);
}

/// Two links, one with a window, and the clock before them.
pub(crate) const EXAMPLE: &[u8] = b"clock = 172801000

[[link]]
id = 7
receipt = \"decimal\"
window = 86400000

[[link]]
id = 1
response = \"hexadecimal\"
receipt = \"decimal\"
";

/// Whether a row is the one at this place of `EXAMPLE`.
pub(crate) fn is_set(place: usize, row: &Row) -> bool {
    match row {
        Row::Plain(
            Edit::SetForm {
                link,
                response,
                receipt,
            },
        ) => {
            let (want, form) = if place == 0 {
                (7, Form::Verbatim)
            } else {
                (1, Form::Hexadecimal)
            };
            (place == 0 || place == 2)
                && link.0 == want
                && *response == form
                && *receipt == Form::Decimal
        }
        Row::Plain(Edit::SetWindow { link, window }) => {
            place == 1 && link.0 == 7 && window.milliseconds() == 86_400_000
        }
        Row::Plain(Edit::Advance { clock }) => { place == 3 && clock.milliseconds() == 172_801_000 }
        _ => false,
    }
}

fn assert_set(rt: &impl Abort, rows: &[Row]) {
    assert!(rt; rows.len() == 4);
    for (place, row) in rows.iter().enumerate() {
        assert!(rt; is_set(place, row), "row {place}");
    }
}

#[test]
fn links_are_set_in_order_and_then_the_clock(rt: HostRuntime) {
    let rows = read_settings(rt.alloc(), EXAMPLE).expect(&rt, "settings");
    assert_set(&rt, rows.as_slice());
}

fn push_links(text: &mut String) -> fmt::Result {
    for id in 0..4_096u32 {
        writeln!(text, "[[link]]\nid = {id}")?;
    }
    Ok(())
}

fn at_most_4_096_links_are_read(rt: &impl Abort, alloc: Global) {
    let mut text = String::new(alloc);
    push_links(&mut text).expect(rt, "links");
    assert!(rt; read(alloc, text.as_bytes()) == Some(4_096));
    text.push_str("[[link]]\nid = 4096\n").expect(rt, "a link");
    assert!(rt; read(alloc, text.as_bytes()).is_none());
}

fn at_most_1_048_576_octets_are_read(rt: &impl Abort, alloc: Global) {
    let mut blanks = vec![in alloc; b' '; 1_048_576].expect(rt, "blanks");
    assert!(rt; read(alloc, blanks.as_slice()) == Some(0));
    blanks.push(b' ').expect(rt, "a blank");
    assert!(rt; read(alloc, blanks.as_slice()).is_none());
}

#[test]
fn settings_have_at_most_4_096_links_and_1_048_576_octets(rt: HostRuntime) {
    at_most_4_096_links_are_read(&rt, rt.alloc());
    at_most_1_048_576_octets_are_read(&rt, rt.alloc());
}
