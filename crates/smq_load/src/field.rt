//! What a field of a record says: a word, a number in decimal digits, or an instant `YYYY-MM-DDTHH:MM:SSZ` (RFC 3339, section 5.6), in
//! UTC, with no fraction of a second and no other offset.
ghost use Rattle.std.specs.Prelude.{◌≡◌, IfOk, ◌+◌, ◌-◌, ◌*◌, ◌^◌, ◌≤◌, ◌<◌, ◌↔◌, true, pos, IsTrue, IsSome, IfSome, length};
ghost use Rattle.std.specs.Str.{bytes_eq};
ghost use Rattle.std.specs.Char.{is_ascii_digit};
ghost use Rattle.std.specs.List.{list_all};
ghost use Rattle.smq_kit.specs.Keys.{number_below};
ghost use Rattle.smq_load.specs.Decimal.{decimal_to, is_decimal, sum_of};
ghost use Rattle.smq_load.specs.Fields.{dir_of, form_of, link_of, moment_of, network_of, octets_of, prefix_of, route_of, session_of, window_of};
ghost use Rattle.jiff.specs.Words.{IsEpochDay, IsWithin, IsYmd};
ghost use Rattle.smq_load.specs.Instant.{day_number_of, day_of, has_marks, instant_of, is_date, milliseconds_of, moment_at, second_of};

use bytes::Bytes;
use hex::FromHexError;
use jiff::civil::Date;
use smq_kit::{
    Digits, Dir, Form, LAST_MOMENT, LinkId, Moment, Network, RouteId, SessionId, Window,
};
use std::alloc::{AllocError, Global};

const MOST_DIGITS: usize = 20;

/// The link that a field names.
pub fn read_link(field: &[u8]) -> Option<LinkId>
    ensures { result ≡ link_of field.now }
{
    let number = read_decimal(field, u64::from(u32::MAX))?;
    Some(LinkId(number as u32))
}

/// The session that a field names.
pub fn read_session(field: &[u8]) -> Option<SessionId>
    ensures { result ≡ session_of field.now }
{
    Some(SessionId(read_decimal(field, u64::MAX)?))
}

/// The route that a field names.
pub fn read_route(field: &[u8]) -> Option<RouteId>
    ensures { result ≡ route_of field.now }
{
    let number = read_decimal(field, u64::from(u32::MAX))?;
    Some(RouteId(number as u32))
}

/// The direction that a field names.
pub fn read_dir(field: &[u8]) -> Option<Dir>
    ensures { result ≡ dir_of field.now }
{
    if is_word(field, "client") {
        Some(Dir::FromClient)
    } else if is_word(field, "centre") {
        Some(Dir::FromCentre)
    } else {
        None
    }
}

/// A moment by its number of ms, or as an instant.
pub fn read_moment(field: &[u8]) -> Option<Moment>
    ensures { result ≡ moment_of field.now }
{
    match read_milliseconds(field) {
        Some(moment) => Some(moment),
        None => read_instant(field),
    }
}

fn read_milliseconds(field: &[u8]) -> Option<Moment>
    ensures { result ≡ decimal_to LAST_MOMENT field.now }
{
    Moment::new(read_decimal(field, LAST_MOMENT)?).ok()
}

/// The window that a field says in ms.
pub fn read_window(field: &[u8]) -> Option<Window>
    ensures { result ≡ window_of field.now }
{
    Window::new(read_decimal(field, LAST_MOMENT)?).ok()
}

/// The form of message ids that a text names.
pub fn read_form(field: &[u8]) -> Option<Form>
    ensures { result ≡ form_of field.now }
{
    if is_word(field, "verbatim") {
        Some(Form::Verbatim)
    } else if is_word(field, "decimal") {
        Some(Form::Decimal)
    } else if is_word(field, "hexadecimal") {
        Some(Form::Hexadecimal)
    } else {
        None
    }
}

/// The prefix that a field is.
pub fn read_prefix(field: &[u8]) -> Option<Digits>
    ensures { result ≡ prefix_of field.now }
{
    Digits::parse(field).ok()
}

/// The network that a field is.
pub fn read_network(field: &[u8]) -> Option<Network>
    ensures { result ≡ network_of field.now }
{
    Network::parse(field).ok()
}

/// Whether a text is a word.
pub fn is_word(text: &[u8], word: &str) -> bool
    ensures { result ≡ bytes_eq text.now word.now }
{
    text == word.as_bytes()
}

/// The octets that a field says in hexadecimal digits.
pub fn read_octets(alloc: Global, field: &[u8]) -> Result<Option<Bytes>, AllocError>
    ensures { IfOk result (λ octets. octets ≡ octets_of field.now) }
{
    match hex::decode(alloc, field) {
        Ok(octets) => Ok(Some(Bytes::from_vec(octets)?)),
        Err(FromHexError::OutOfMemory) => Err(AllocError),
        Err(_) => Ok(None),
    }
}

/// The number that 1 to 20 decimal digits say, where it is not above `greatest`. Leading zeros are allowed.
pub fn read_decimal(text: &[u8], greatest: u64) -> Option<u64>
    ensures { result ≡ decimal_to greatest text.now }
{
    if !has_digits(text) {
        return None;
    }
    let number = number_of(text)?;
    if number <= greatest {
        Some(number)
    } else {
        None
    }
}

/// The number that decimal digits say, where it is below 2^64.
fn number_of(digits: &[u8]) -> Option<u64>
    requires { list_all is_ascii_digit digits.now ≡ true }
    ensures { result ≡ number_below (2 ^ 64) (sum_of digits.now) }
{
    let mut number = 0u64;
    for digit in digits {
        number = with_digit(number, *digit)?;
    }
    Some(number)
}

/// A number with one digit more behind it, where that is below 2^64.
fn with_digit(number: u64, digit: u8) -> Option<u64>
    requires { is_ascii_digit digit ≡ true }
    ensures { result ≡ number_below (2 ^ 64) (number * 10 + (digit - 48)) }
{
    number.checked_mul(10)?.checked_add((digit - b'0') as u64)
}

/// Whether a text is 1 to 20 decimal digits.
fn has_digits(text: &[u8]) -> bool
    ensures { result ≡ is_decimal text.now }
{
    !text.is_empty() && text.len() <= MOST_DIGITS && are_digits(text)
}

fn are_digits(text: &[u8]) -> bool
    ensures { result ≡ list_all is_ascii_digit text.now }
{
    text.iter().all(|octet| octet.is_ascii_digit())
}

/// The moment that an instant says, where the calendar has its date and it is a moment.
pub fn read_instant(text: &[u8]) -> Option<Moment>
    ensures { result ≡ instant_of text.now }
{
    if !has_marks(text) {
        return None;
    }
    let day = read_day(&text[..10])?;
    let second = read_second(&text[11..19])?;
    moment_at(milliseconds(day, second))
}

/// Whether a text has 20 octets, and the marks of an instant at their places.
fn has_marks(text: &[u8]) -> bool
    ensures { result ≡ has_marks text.now }
{
    text.len() == 20
        && text[4] == b'-'
        && text[7] == b'-'
        && text[10] == b'T'
        && text[13] == b':'
        && text[16] == b':'
        && text[19] == b'Z'
}

/// The day number of YYYY-MM-DD, from 1970-01-01, where the calendar has it.
fn read_day(date: &[u8]) -> Option<i32>
    requires { length date.now ≡ 10 }
    ensures value { result ≡ day_of date.now }
    ensures bound { IfSome result IsEpochDay }
{
    let year = read_decimal(&date[..4], 9_999)?;
    let month = read_decimal(&date[5..7], 12)?;
    let day = read_decimal(&date[8..10], 31)?;
    day_number(year, month, day)
}

/// The second of a day at HH:MM:SS, where a clock shows this time.
fn read_second(time: &[u8]) -> Option<u32>
    requires { length time.now ≡ 8 }
    ensures value { result ≡ second_of time.now }
    ensures bound { IfSome result (λ second. second < 86_400) }
{
    let hour = read_decimal(&time[..2], 23)?;
    let minute = read_decimal(&time[3..5], 59)?;
    let second = read_decimal(&time[6..8], 59)?;
    Some(second_at(hour, minute, second))
}

/// The second of a day at a time of it.
fn second_at(hour: u64, minute: u64, second: u64) -> u32
    requires hour_in { hour ≤ 23 }
    requires minute_in { minute ≤ 59 }
    requires second_in { second ≤ 59 }
    ensures value { result ≡ hour * 3_600 + minute * 60 + second }
    ensures bound { result < 86_400 }
{
    (hour * 3_600 + minute * 60 + second) as u32
}

/// The day number of a date, from 1970-01-01, where the calendar has it.
fn day_number(year: u64, month: u64, day: u64) -> Option<i32>
    requires year_in { year ≤ 9_999 }
    requires month_in { month ≤ 12 }
    requires day_in { day ≤ 31 }
    ensures value { result ≡ day_number_of year month day }
    ensures bound { IfSome result IsEpochDay }
{
    let date = date_of(year, month, day)?;
    Some(date.to_plain().to_unix_epoch_day())
}

/// The date with these parts, where the calendar has it.
fn date_of(year: u64, month: u64, day: u64) -> Option<Date>
    requires year_in { year ≤ 9_999 }
    requires month_in { month ≤ 12 }
    requires day_in { day ≤ 31 }
    ensures found { IsSome result ↔ IsTrue (is_date year month day) }
    ensures value { IfSome result (IsYmd (pos year) (pos month) (pos day)) }
{
    Date::new(year as i16, month as i8, day as i8).ok()
}

/// A day and a second of that day, in ms since 1970-01-01.
fn milliseconds(day: i32, second: u32) -> i64
    requires day_in { IsEpochDay day }
    requires second_in { second < 86_400 }
    ensures value { result ≡ milliseconds_of day second }
    ensures bound { IsWithin 1_000_000_000_000_000 result }
{
    (day as i64 * 86_400 + second as i64) * 1_000
}

/// The moment at a number of ms since 1970, where it is one.
fn moment_at(milliseconds: i64) -> Option<Moment>
    ensures { result ≡ moment_at milliseconds }
{
    if milliseconds < 0 {
        return None;
    }
    Moment::new(milliseconds as u64).ok()
}
