//! Where a PDU may begin among octets (SMPP 3.4, 5.1.2.1; SMPP 5.0, 4.7.5).
ghost use Rattle.std.specs.Prelude.{◌≡◌, ◌+◌, ◌<◌, ◌≤◌, ◌↔◌, IsTrue, length};
ghost use Rattle.smq_streams.specs.Command.{HasResponse, IsCommand};
ghost use Rattle.smq_streams.specs.Header.{AreHeader, IsLength, MayBeHeaderAt, Stands, number_at};
ghost use Rattle.smq_streams.specs.Sight.{IsFirstPdu, LooksLike};

/// The fewest octets of a PDU, which are its header.
pub const SHORTEST_PDU: u32 = 16;

/// The most octets of a PDU.
pub const LONGEST_PDU: u32 = 131_072;

/// Bit 31 of the command_id of responses.
const RESPONSE: u32 = 0x8000_0000;

/// What the octets at a place look like.
#[derive(Clone, Copy, Debug, PartialEq, Eq)]
pub enum Sight {
    /// A PDU.
    Begins,
    /// Anything else.
    Other,
    /// A PDU as far as the octets go, which is not far enough.
    Unclear,
}

/// A header, as far as the octets go.
#[derive(Clone, Copy, Debug, PartialEq, Eq)]
enum Header {
    /// All of it, and the length of its PDU.
    Whole(u32),
    /// The first octets of one, or no octets at all.
    Part,
    /// No header.
    Other,
}

/// What the octets at a place look like, which is the first of a segment or not.
pub(crate) fn look_at(octets: &[u8], at: usize, is_start: bool) -> Sight
    ensures { LooksLike octets.now at is_start result }
{
    match header_at(octets, at) {
        Header::Whole(length) => match header_at(octets, at + length as usize) {
            Header::Whole(_) => Sight::Begins,
            Header::Part if is_start => Sight::Begins,
            Header::Part => Sight::Unclear,
            Header::Other => Sight::Other,
        },
        Header::Part => Sight::Unclear,
        Header::Other => Sight::Other,
    }
}

/// The place of the first PDU that is seen to begin in a segment, if any is.
pub(crate) fn first_pdu(octets: &[u8]) -> Option<usize>
    ensures { IsFirstPdu octets.now result }
{
    for at in 0..octets.len() {
        if look_at(octets, at, at == 0) == Sight::Begins {
            return Some(at);
        }
    }
    None
}

/// The header at a place.
fn header_at(octets: &[u8], at: usize) -> Header
    ensures { Stands octets.now at result }
{
    if octets.len() <= at {
        Header::Part
    } else if !may_be_header(octets, at) {
        Header::Other
    } else if octets.len() - at < 16 {
        Header::Part
    } else {
        Header::Whole(number(octets, at))
    }
}

/// Whether the numbers that are whole at a place may be those of a header.
fn may_be_header(octets: &[u8], at: usize) -> bool
    requires { at < length octets.now }
    ensures { IsTrue result ↔ MayBeHeaderAt octets.now at }
{
    let size = number_or(octets, at, SHORTEST_PDU);
    let command = number_or(octets, at + 4, RESPONSE);
    let status = number_or(octets, at + 8, 0);
    is_header(size, command, status)
}

/// The number at a place, or another where it isn't whole.
fn number_or(octets: &[u8], place: usize, other: u32) -> u32
    ensures whole { place + 4 ≤ length octets.now → result ≡ number_at place octets.now }
    ensures part { length octets.now < place + 4 → result ≡ other }
{
    if place < octets.len() && octets.len() - place >= 4 {
        number(octets, place)
    } else {
        other
    }
}

/// The number of the four octets at a place.
#[tactic(auto, unfolding(crate::specs::Header::number_at))]
fn number(octets: &[u8], place: usize) -> u32
    requires { place + 4 ≤ length octets.now }
    ensures { result ≡ number_at place octets.now }
{
    u32::from_be_bytes([
        octets[place],
        octets[place + 1],
        octets[place + 2],
        octets[place + 3],
    ])
}

/// Whether a PDU may begin with these numbers.
fn is_header(size: u32, command: u32, status: u32) -> bool
    ensures { IsTrue result ↔ AreHeader size command status }
{
    is_length(size) && is_command(command) && (command >= RESPONSE || status == 0)
}

/// Whether a length is that of a PDU.
pub(crate) fn is_length(length: u32) -> bool
    ensures { IsTrue result ↔ IsLength length }
{
    SHORTEST_PDU <= length && length <= LONGEST_PDU
}

/// Whether a number is a command_id.
fn is_command(number: u32) -> bool
    ensures { IsTrue result ↔ IsCommand number }
{
    if number < RESPONSE {
        number == 0x0B || number == 0x102 || has_response(number)
    } else {
        number == RESPONSE || has_response(number - RESPONSE)
    }
}

/// Whether a number is the command_id of a request that has a response.
fn has_response(number: u32) -> bool
    ensures { IsTrue result ↔ HasResponse number }
{
    matches!(
        number,
        1..=9 | 0x15 | 0x21 | 0x103 | 0x111..=0x113 | 0x1_0200..=0x1_02FF
    )
}
