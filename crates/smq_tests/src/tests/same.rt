//! Whether the same is present in two books.
use smq_book::{Book, Direction, Piece, Present, Session, StoredPdu};

/// Whether two books have the same sessions and settings, and the same tables.
pub(crate) fn are_same(one: &Book, other: &Book) -> bool {
    have_same_sessions(one.present(), other.present())
        && have_same_settings(one.present(), other.present())
        && *one.tables() == *other.tables()
}

fn have_same_sessions(one: &Present, other: &Present) -> bool {
    let mut others = other.sessions();
    for (number, session) in one.sessions() {
        match others.next() {
            Some((its, there)) if *its == *number && is_same_session(session, there) => {}
            _ => return false,
        }
    }
    others.next().is_none()
}

fn is_same_session(one: &Session, other: &Session) -> bool {
    one.link == other.link
        && is_same_direction(&one.client, &other.client)
        && is_same_direction(&one.centre, &other.centre)
}

/// Whether two directions have the same octets at the same moments, and keep the same of them.
fn is_same_direction(one: &Direction, other: &Direction) -> bool {
    one.tail().is_same(other.tail())
        && one.last() == other.last()
        && are_same_pieces(one.pieces(), other.pieces())
        && are_same_pdus(one.pdus(), other.pdus())
}

fn are_same_pieces(one: &[Piece], other: &[Piece]) -> bool {
    one.len() == other.len()
        && one.iter().zip(other.iter()).all(|(it, its)| it.moment == its.moment
            && it.octets.as_slice() == its.octets.as_slice())
}

fn are_same_pdus(one: &[StoredPdu], other: &[StoredPdu]) -> bool {
    one.len() == other.len()
        && one.iter().zip(other.iter()).all(|(it, its)| it.offset == its.offset
            && it.moment == its.moment)
}

fn have_same_settings(one: &Present, other: &Present) -> bool {
    one.clock() == other.clock()
        && have_same_forms(one, other)
        && have_same_windows(one, other)
        && have_same_versions(one, other)
}

fn have_same_forms(one: &Present, other: &Present) -> bool {
    let mut others = other.forms();
    for (link, forms) in one.forms() {
        match others.next() {
            Some((its, there)) if *its == *link && *there == *forms => {}
            _ => return false,
        }
    }
    others.next().is_none()
}

fn have_same_windows(one: &Present, other: &Present) -> bool {
    let mut others = other.windows();
    for (link, window) in one.windows() {
        match others.next() {
            Some((its, there)) if *its == *link && *there == *window => {}
            _ => return false,
        }
    }
    others.next().is_none()
}

fn have_same_versions(one: &Present, other: &Present) -> bool {
    let mut others = other.versions();
    for (key, version) in one.versions() {
        match others.next() {
            Some((its, there)) if *its == *key && *there == *version => {}
            _ => return false,
        }
    }
    others.next().is_none()
}
