//! A script with a record of each kind, read field by field.
use smq_book::Edit;
use smq_kit::{Dir, Form};
use smq_load::{Row, read_script};
use std::process::Abort;

/// A record of each kind.
pub(crate) const EACH: &[u8] = b"piece,007,18446744073709551615,centre,4102444800000,00fF
withdraw,10
form,1,hexadecimal,decimal
window,4294967295,4102444800000
route,44,1970-01-03T00:00:01Z,7,23410
end,44,172801000,172802000
correct,447700,1970-01-01T00:00:00Z,8,310026
clock,2000-02-29T23:59:59Z";

/// Whether a row is the one at this place of `EACH`.
pub(crate) fn is_read(place: usize, row: &Row) -> bool {
    match row {
        Row::Piece(piece) => {
            place == 0
                && piece.link.0 == 7
                && piece.session.0 == 18_446_744_073_709_551_615
                && piece.dir == Dir::FromCentre
                && piece.moment.milliseconds() == 4_102_444_800_000
                && piece.octets.as_slice() == [0, 255].as_slice()
        }
        Row::Plain(edit) => is_edit(place, edit),
    }
}

/// Whether an edit is that of the record at this place of `EACH`.
fn is_edit(place: usize, edit: &Edit) -> bool {
    match edit {
        Edit::Append { .. } => false,
        Edit::Withdraw { session } => place == 1 && session.0 == 10,
        Edit::SetForm {
            link,
            response,
            receipt,
        } => {
            place == 2 && link.0 == 1 && *response == Form::Hexadecimal && *receipt == Form::Decimal
        }
        Edit::SetWindow { link, window } => {
            place == 3 && link.0 == u32::MAX && window.milliseconds() == 4_102_444_800_000
        }
        Edit::AddRoute {
            prefix,
            from,
            route,
            network,
        } => {
            place == 4
                && prefix.as_slice() == b"44".as_slice()
                && from.milliseconds() == 172_801_000
                && route.0 == 7
                && network.as_slice() == b"23410".as_slice()
        }
        Edit::EndRoute {
            prefix,
            from,
            until,
        } => {
            place == 5
                && prefix.as_slice() == b"44".as_slice()
                && from.milliseconds() == 172_801_000
                && until.milliseconds() == 172_802_000
        }
        Edit::CorrectRoute {
            prefix,
            from,
            route,
            network,
        } => {
            place == 6
                && prefix.as_slice() == b"447700".as_slice()
                && from.milliseconds() == 0
                && route.0 == 8
                && network.as_slice() == b"310026".as_slice()
        }
        Edit::Advance { clock } => place == 7 && clock.milliseconds() == 951_868_799_000,
    }
}

fn assert_read(rt: &impl Abort, rows: &[Row]) {
    assert!(rt; rows.len() == 8);
    for (place, row) in rows.iter().enumerate() {
        assert!(rt; is_read(place, row), "record {place}");
    }
}

#[test]
fn each_record_is_read_field_by_field(rt: HostRuntime) {
    let rows = read_script(rt.alloc(), &mut EACH).expect(&rt, "a script");
    assert_read(&rt, rows.as_slice());
}
