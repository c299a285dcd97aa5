//! A record of a script, and the row that it says: its first field names its kind, and each of the others is read
//! whole, or the record says none. Whoever adds a kind writes it here and in specs/Row.antt, at the same place.
ghost use Rattle.std.specs.Prelude.{◌≡◌, ◌<◌, ◌∷◌, [], drop, length, option_and_then, IfOk, Some};
ghost use Rattle.csv.specs.Records.{field_at, fields_of};
ghost use Rattle.smq_load.specs.Row.{field_count_of, kind_of, piece_from, row_of, row_of_kind};

use crate::field::{
    is_word, read_dir, read_form, read_link, read_moment, read_network, read_octets, read_prefix,
    read_route, read_session, read_window,
};
use bytes::Bytes;
use csv::ByteRecord;
use smq_kit::{Dir, LinkId, Moment, SessionId};
use smq_present::{Edit, PieceRow};
use std::alloc::{AllocError, Global};

/// What a record of a script, or a setting, says: a piece, or an edit as it stands.
#[derive(Drop)]
pub enum Row {
    /// A piece. Its edit is made of it once the present tail of its direction is known.
    Piece(PieceRow),
    /// Any other edit.
    Plain(Edit),
}

/// What a record is about, as its first field names it.
#[derive(Clone, Copy, Debug, PartialEq, Eq)]
pub enum Kind {
    Piece,
    Withdraw,
    Form,
    Window,
    Route,
    End,
    Correct,
    Clock,
}

impl Kind {
    /// The kind that a field names.
    fn read(field: &[u8]) -> Option<Kind>
        ensures { result ≡ kind_of field.now }
    {
        if is_word(field, "piece") {
            Some(Kind::Piece)
        } else if is_word(field, "withdraw") {
            Some(Kind::Withdraw)
        } else if is_word(field, "form") {
            Some(Kind::Form)
        } else if is_word(field, "window") {
            Some(Kind::Window)
        } else if is_word(field, "route") {
            Some(Kind::Route)
        } else if is_word(field, "end") {
            Some(Kind::End)
        } else if is_word(field, "correct") {
            Some(Kind::Correct)
        } else if is_word(field, "clock") {
            Some(Kind::Clock)
        } else {
            None
        }
    }

    /// How many fields a record of this kind has, the first among them.
    fn field_count(self) -> usize
        ensures { result ≡ field_count_of self }
    {
        match self {
            Kind::Piece => 6,
            Kind::Withdraw => 2,
            Kind::Form => 4,
            Kind::Window => 3,
            Kind::Route => 5,
            Kind::End => 4,
            Kind::Correct => 5,
            Kind::Clock => 2,
        }
    }
}

/// The row that a record says, where it says one.
pub fn read_row(alloc: Global, fields: &ByteRecord) -> Result<Option<Row>, AllocError>
    ensures { IfOk result (λ row. row ≡ row_of (fields_of fields.now)) }
{
    let Some(kind) = read_kind(fields) else {
        return Ok(None);
    };
    if fields.len() != kind.field_count() {
        return Ok(None);
    }
    read_fields(alloc, kind, fields)
}

/// The kind that a record's first field names.
fn read_kind(fields: &ByteRecord) -> Option<Kind>
    ensures { result ≡ option_and_then kind_of (field_at (fields_of fields.now) 0) }
{
    Kind::read(fields.get(0)?)
}

/// The row of a record of a kind, which has as many fields.
fn read_fields(alloc: Global, kind: Kind, fields: &ByteRecord) -> Result<Option<Row>, AllocError>
    requires { length (fields_of fields.now) ≡ field_count_of kind }
    ensures { IfOk result (λ row. row ≡ row_of_kind kind (drop 1 (fields_of fields.now))) }
{
    match kind {
        Kind::Piece => read_piece(
            alloc,
            field(fields, 1),
            field(fields, 2),
            field(fields, 3),
            field(fields, 4),
            field(fields, 5),
        ),
        Kind::Withdraw => Ok(read_withdraw(field(fields, 1))),
        Kind::Form => Ok(read_forms(field(fields, 1), field(fields, 2), field(fields, 3))),
        Kind::Window => Ok(read_link_window(field(fields, 1), field(fields, 2))),
        Kind::Route => Ok(read_added(
            field(fields, 1),
            field(fields, 2),
            field(fields, 3),
            field(fields, 4),
        )),
        Kind::End => Ok(read_end(field(fields, 1), field(fields, 2), field(fields, 3))),
        Kind::Correct => Ok(read_corrected(
            field(fields, 1),
            field(fields, 2),
            field(fields, 3),
            field(fields, 4),
        )),
        Kind::Clock => Ok(read_clock(field(fields, 1))),
    }
}

/// The field at a place, from 0.
fn field(fields: &ByteRecord, place: usize) -> &[u8]
    requires { place < length (fields_of fields.now) }
    ensures { field_at (fields_of fields.now) place ≡ Some result.now }
{
    fields.get(place).unwrap()
}

/// The piece of a record `piece`.
fn read_piece(
    alloc: Global,
    link: &[u8],
    session: &[u8],
    dir: &[u8],
    moment: &[u8],
    octets: &[u8],
) -> Result<Option<Row>, AllocError>
    ensures { IfOk result (λ row. row ≡ row_of_kind Kind.Piece
        (link.now ∷ session.now ∷ dir.now ∷ moment.now ∷ octets.now ∷ [])) }
{
    let octets = read_octets(alloc, octets)?;
    Ok(join(
        read_link(link),
        read_session(session),
        read_dir(dir),
        read_moment(moment),
        octets,
    ))
}

/// A piece of its parts, where none is missing.
fn join(
    link: Option<LinkId>,
    session: Option<SessionId>,
    dir: Option<Dir>,
    moment: Option<Moment>,
    octets: Option<Bytes>,
) -> Option<Row>
    ensures { result ≡ piece_from link session dir moment octets }
{
    Some(Row::Piece(PieceRow {
        link: link?,
        session: session?,
        dir: dir?,
        moment: moment?,
        octets: octets?,
    }))
}

/// The edit of a record `withdraw`.
fn read_withdraw(session: &[u8]) -> Option<Row>
    ensures { result ≡ row_of_kind Kind.Withdraw (session.now ∷ []) }
{
    Some(Row::Plain(Edit::Withdraw {
        session: read_session(session)?,
    }))
}

/// The edit of a record `form`.
fn read_forms(link: &[u8], response: &[u8], receipt: &[u8]) -> Option<Row>
    ensures { result ≡ row_of_kind Kind.Form (link.now ∷ response.now ∷ receipt.now ∷ []) }
{
    Some(Row::Plain(Edit::SetForm {
        link: read_link(link)?,
        response: read_form(response)?,
        receipt: read_form(receipt)?,
    }))
}

/// The edit of a record `window`.
fn read_link_window(link: &[u8], window: &[u8]) -> Option<Row>
    ensures { result ≡ row_of_kind Kind.Window (link.now ∷ window.now ∷ []) }
{
    Some(Row::Plain(Edit::SetWindow {
        link: read_link(link)?,
        window: read_window(window)?,
    }))
}

/// The edit of a record `route`.
fn read_added(prefix: &[u8], from: &[u8], route: &[u8], network: &[u8]) -> Option<Row>
    ensures { result ≡ row_of_kind Kind.Route
        (prefix.now ∷ from.now ∷ route.now ∷ network.now ∷ []) }
{
    Some(Row::Plain(Edit::AddRoute {
        prefix: read_prefix(prefix)?,
        from: read_moment(from)?,
        route: read_route(route)?,
        network: read_network(network)?,
    }))
}

/// The edit of a record `end`.
fn read_end(prefix: &[u8], from: &[u8], until: &[u8]) -> Option<Row>
    ensures { result ≡ row_of_kind Kind.End (prefix.now ∷ from.now ∷ until.now ∷ []) }
{
    Some(Row::Plain(Edit::EndRoute {
        prefix: read_prefix(prefix)?,
        from: read_moment(from)?,
        until: read_moment(until)?,
    }))
}

/// The edit of a record `correct`.
fn read_corrected(prefix: &[u8], from: &[u8], route: &[u8], network: &[u8]) -> Option<Row>
    ensures { result ≡ row_of_kind Kind.Correct
        (prefix.now ∷ from.now ∷ route.now ∷ network.now ∷ []) }
{
    Some(Row::Plain(Edit::CorrectRoute {
        prefix: read_prefix(prefix)?,
        from: read_moment(from)?,
        route: read_route(route)?,
        network: read_network(network)?,
    }))
}

/// The edit of a record `clock`.
fn read_clock(clock: &[u8]) -> Option<Row>
    ensures { result ≡ row_of_kind Kind.Clock (clock.now ∷ []) }
{
    Some(Row::Plain(Edit::Advance {
        clock: read_moment(clock)?,
    }))
}
