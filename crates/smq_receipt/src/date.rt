//! Dates in the text of a receipt (SMPP 3.4, appendix B): YYMMDDhhmm or YYMMDDhhmmss of the centre's clock, in the
//! years 2000 to 2099. Where a part is no date of the calendar or no time of a clock, the whole is none.
ghost use Rattle.std.specs.Prelude.{◌≡◌, ◌↔◌, ◌+◌, ◌<◌, ◌≤◌, pos, IsTrue, IsSome, IfSome, length, option_map, option_and_then, ◌-ℤ◌};
ghost use Rattle.std.specs.List.{list_all};
ghost use Rattle.std.specs.Char.{is_ascii_digit};
ghost use Rattle.jiff.specs.Words.{IsEpochDay, IsWithin, IsYmd};
ghost use Rattle.smq_receipt.specs.Dates.{is_date_text, two_digits_at, is_date, seconds_in, milliseconds_of, day_number_of, second_of_day_of, moment_of};
ghost use Rattle.std.specs.Option.{option_copied, option_zip};

use jiff::civil::Date;

/// Done date minus submit date, in ms, where both are dates.
pub(crate) fn centre_delay(submit_date: Option<&[u8]>, done_date: Option<&[u8]>) -> Option<i64>
    ensures { let submit = option_and_then moment_of (option_copied submit_date.entry) in
        let done = option_and_then moment_of (option_copied done_date.entry) in
        result ≡ option_map (λ p. p.1 -ℤ p.0) (option_zip submit done) }
{
    let submit = moment_in(submit_date)?;
    let done = moment_in(done_date)?;
    Some(done - submit)
}

/// The moment that a value tells, where there is one.
fn moment_in(value: Option<&[u8]>) -> Option<i64>
    ensures value { result ≡ option_and_then moment_of (option_copied value.entry) }
    ensures bound { IfSome result (IsWithin 1_000_000_000_000_000) }
{
    moment(value?)
}

/// The moment of the centre's clock that a date tells, in ms since 1970-01-01, where it is one.
#[tactic(auto, unfolding(crate::specs::Dates::moment_of))]
fn moment(value: &[u8]) -> Option<i64>
    ensures value { result ≡ moment_of value.now }
    ensures bound { IfSome result (IsWithin 1_000_000_000_000_000) }
{
    if !is_date_text(value) {
        return None;
    }
    let day = day_number(
        two_digits(value, 0),
        two_digits(value, 2),
        two_digits(value, 4),
    )?;
    let second = second_of_day(
        two_digits(value, 6),
        two_digits(value, 8),
        seconds_in(value),
    )?;
    Some(milliseconds(day, second))
}

/// The day number of a date of the year 20YY, from 1970-01-01, where the calendar has it.
#[tactic(auto, unfolding(crate::specs::Dates::day_number_of))]
fn day_number(year: u8, month: u8, day: u8) -> Option<i32>
    requires year_in { year ≤ 99 }
    requires month_in { month ≤ 99 }
    requires day_in { day ≤ 99 }
    ensures value { result ≡ day_number_of year month day }
    ensures bound { IfSome result IsEpochDay }
{
    let date = date_of(year, month, day)?;
    Some(date.to_plain().to_unix_epoch_day())
}

/// The date of the year 20YY with these parts, where the calendar has it.
fn date_of(year: u8, month: u8, day: u8) -> Option<Date>
    requires year_in { year ≤ 99 }
    requires month_in { month ≤ 99 }
    requires day_in { day ≤ 99 }
    ensures found { IsSome result ↔ IsTrue (is_date year month day) }
    ensures value { IfSome result (IsYmd (pos (2000 + year)) (pos month) (pos day)) }
{
    Date::new(2000 + year as i16, month as i8, day as i8).ok()
}

/// The seconds since midnight, where a clock shows this time.
#[tactic(auto, unfolding(crate::specs::Dates::second_of_day_of))]
fn second_of_day(hour: u8, minute: u8, second: u8) -> Option<u32>
    ensures value { result ≡ second_of_day_of hour minute second }
    ensures bound { IfSome result (λ s. s < 86_400) }
{
    if hour > 23 || minute > 59 || second > 59 {
        return None;
    }
    Some(hour as u32 * 3_600 + minute as u32 * 60 + second as u32)
}

/// The seconds of a date's text, or 0 where it has none.
fn seconds_in(value: &[u8]) -> u8
    requires { IsTrue (is_date_text value.now) }
    ensures { result ≡ seconds_in value.now }
{
    if value.len() == 12 {
        two_digits(value, 10)
    } else {
        0
    }
}

/// The number that the two digits at a place write.
#[tactic(auto, unfolding(crate::specs::Dates::two_digits_at))]
fn two_digits(value: &[u8], place: usize) -> u8
    requires within { place + 1 < length value.now }
    requires digits { IsTrue (is_date_text value.now) }
    ensures value { result ≡ two_digits_at value.now place }
    ensures bound { result ≤ 99 }
{
    10 * (value[place] - b'0') + (value[place + 1] - b'0')
}

/// A day and a second of that day, in ms since 1970-01-01.
fn milliseconds(day: i32, second: u32) -> i64
    requires day_in { IsEpochDay day }
    requires second_in { second < 86_400 }
    ensures value { result ≡ milliseconds_of (day, second) }
    ensures bound { IsWithin 1_000_000_000_000_000 result }
{
    (day as i64 * 86_400 + second as i64) * 1_000
}

/// Whether a value is 10 or 12 decimal digits.
fn is_date_text(value: &[u8]) -> bool
    ensures { result ≡ is_date_text value.now }
{
    are_digits(value) && (value.len() == 10 || value.len() == 12)
}

/// Whether all octets are decimal digits.
fn are_digits(value: &[u8]) -> bool
    ensures { result ≡ list_all is_ascii_digit value.now }
{
    value.iter().all(|octet| octet.is_ascii_digit())
}
