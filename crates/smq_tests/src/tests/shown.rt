//! What a book shows.
use crate::tests::scripts::*;
use smq_book::{Book, Outcome, Session, Settings, Value, View};
use smq_kit::{Digits, Dir, LinkId, Moment, Network, RouteId, SessionId};
use smq_route::{Version, VersionKey};

/// The first session, if that is session 10.
pub(crate) fn first_session(book: &Book) -> Option<&Session> {
    let mut sessions = book.present().sessions();
    match sessions.next() {
        Some((number, session)) if *number == 10 => Some(session),
        _ => None,
    }
}

/// Whether a session is of this link, and has so many PDUs from the client and from the centre.
pub(crate) fn has_pdus(session: &Session, link: u32, client: usize, centre: usize) -> bool {
    session.link.0 == link
        && session.client.pdus().len() == client
        && session.direction(Dir::FromCentre).pdus().len() == centre
}

/// The octets of session 10 from the client.
pub(crate) fn octets_from_client(book: &Book) -> u64 {
    book.tail(SessionId(10), Dir::FromClient).offset()
}

/// Whether so many pieces came from the client of a session, and this is its last moment.
fn has_pieces(session: &Session, pieces: usize, last: u64) -> bool {
    session.client.pieces().len() == pieces && session.client.last().milliseconds() == last
}

/// Whether a book shows all this.
pub(crate) fn shows_all(book: &Book, wanted: &[Shown]) -> bool {
    for shown in wanted {
        if !shows(book, *shown) {
            return false;
        }
    }
    true
}

fn shows(book: &Book, wanted: Shown) -> bool {
    match wanted {
        Shown::Session(wanted) => has_session(book, wanted),
        Shown::Versions(wanted) => has_versions(book, wanted),
        Shown::RouteAt(number, at, wanted) => goes_by(book, number, at, wanted),
        Shown::Windows(wanted) => has_windows(book, wanted),
        Shown::WindowOf(link, wanted) => window_of(book, link) == wanted,
        Shown::Due(link, open, lapsed) => {
            messages_of(book, link, Outcome::Open) == open
                && messages_of(book, link, Outcome::Lapsed) == lapsed
        }
    }
}

fn has_session(book: &Book, wanted: WantedSession) -> bool {
    let (link, client, centre, octets, pieces, last) = wanted;
    match first_session(book) {
        None => false,
        Some(session) => {
            has_pdus(session, link, client, centre)
                && octets_from_client(book) == octets
                && has_pieces(session, pieces, last)
        }
    }
}

/// The ms of a link's window.
fn window_of(book: &Book, link: u32) -> u64 {
    let window = book.present().settings().window_of(LinkId(link));
    window.milliseconds()
}

/// Whether the windows that were set are these, in order.
fn has_windows(book: &Book, wanted: &[(u32, u64)]) -> bool {
    let mut place = 0usize;
    for (link, window) in book.present().windows() {
        if !is_window(wanted.get(place), *link, window.milliseconds()) {
            return false;
        }
        place = place.saturating_add(1);
    }
    place == wanted.len()
}

fn is_window(wanted: Option<&(u32, u64)>, link: u32, window: u64) -> bool {
    match wanted {
        Some(wanted) => wanted.0 == link && wanted.1 == window,
        None => false,
    }
}

/// How many messages of a link have an outcome.
pub(crate) fn messages_of(book: &Book, link: u32, outcome: Outcome) -> u64 {
    book.tables()
        .count(View::Link, &Value::Link(LinkId(link)), outcome)
}

/// Whether the versions of routes are these, in order.
fn has_versions(book: &Book, wanted: &[WantedVersion]) -> bool {
    let mut place = 0usize;
    for (key, version) in book.present().versions() {
        if !is_version(key, version, wanted.get(place)) {
            return false;
        }
        place = place.saturating_add(1);
    }
    place == wanted.len() && count_of(book.present().settings()) == place
}

/// How many versions are set.
fn count_of(settings: &Settings) -> usize {
    let mut count = 0usize;
    for _ in settings.versions() {
        count = count.saturating_add(1);
    }
    count
}

fn is_version(key: &VersionKey, version: &Version, wanted: Option<&WantedVersion>) -> bool {
    match wanted {
        Some((prefix, from, until, route, network)) => {
            is_begun(key, *prefix, *from)
                && is_until(version.until, *until)
                && is_by(version, *route, *network)
        }
        None => false,
    }
}

fn is_begun(key: &VersionKey, prefix: &[u8], from: u64) -> bool {
    key.prefix.as_slice() == prefix && key.from.milliseconds() == from
}

fn is_until(found: Option<Moment>, wanted: Option<u64>) -> bool {
    match (found, wanted) {
        (None, None) => true,
        (Some(found), Some(wanted)) => found.milliseconds() == wanted,
        _ => false,
    }
}

fn is_by(version: &Version, route: u32, network: &[u8]) -> bool {
    version.route.0 == route && version.network.as_slice() == network
}

/// Whether a number has this route and network at a moment.
fn goes_by(book: &Book, number: &[u8], at: u64, wanted: Option<(u32, &[u8])>) -> bool {
    match (Digits::parse(number), Moment::new(at)) {
        (Ok(number), Ok(at)) => {
            let found = book.present().settings().route_at(&number, at);
            is_route(found.as_ref(), wanted)
        },
        _ => false,
    }
}

fn is_route(found: Option<&(RouteId, Network)>, wanted: Option<(u32, &[u8])>) -> bool {
    match (found, wanted) {
        (None, None) => true,
        (Some((route, network)), Some((number, code))) => {
            route.0 == number && network.as_slice() == code
        },
        _ => false,
    }
}
