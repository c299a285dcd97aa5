//! Periods of local time: those of moments in a time zone, and how they are written.
ghost use Rattle.std.specs.Prelude.{◌≡◌, ◌≤◌, ◌<◌, ◌^◌, ◌++◌, ◌∷◌, None, Ok, OnOk, IfOk, IfSome, IsErr, length, string_bytes};
ghost use Rattle.jiff_tz.specs.TzifReader.{read_tzif};
ghost use Rattle.smq_count.specs.LocalTime.{IfNoZone, IsZoneOf, clock_text, local_day_text, local_hour_text, local_minute_text, local_month, local_month_text, local_of, local_second, local_text, local_time_text, offset_in, offset_text, utc_second};
ghost use Rattle.smq_count.specs.Months.{two_digits};

use crate::column::Period;
use crate::period::{month_of, push_day, push_month, push_two};
use jiff_core::{Error, Timestamp};
use jiff_tz::Tzif;
use smq_kit::Moment;
use std::alloc::{AllocError, Global};

/// The most octets that the file of a time zone may have.
pub const MOST_ZONE: usize = 1_048_576;

/// From 1 December 1969 to 1970: days, and seconds. The local time of the first moments lies in that month.
const DAYS_BEFORE: u32 = 31;

const SECONDS_BEFORE: u32 = 2_678_400;

/// The time by which periods are.
#[derive(Debug, Drop)]
pub enum Zone {
    Utc,
    /// The local time of a time zone.
    Local(Tzif),
}

impl Zone {
    /// The time zone of a file (TZif, RFC 8536). None: it has more than `MOST_ZONE` octets, or isn't what such a file is.
    pub fn read(alloc: Global, octets: &[u8]) -> Result<Option<Zone>, AllocError>
        ensures read { IfOk result (λ found. IfSome found (IsZoneOf octets.now)) }
        ensures none { IfOk result (IfNoZone octets.now) }
        ensures long { 1048576 < length octets.now → result ≡ Ok None }
        ensures refused { IsErr (read_tzif octets.now) → result ≡ Ok None }
    {
        if octets.len() > MOST_ZONE {
            return Ok(None);
        }
        match Tzif::parse(alloc, None, octets) {
            Ok(zone) => Ok(Some(Zone::Local(zone))),
            Err(Error::OutOfMemory) => Err(AllocError),
            Err(_) => Ok(None),
        }
    }
}

/// A period of local time, declared in the order in which counts print it. A minute or an hour is told by when it begins, in seconds of UTC
/// since 1 December 1969, and by how many seconds local time is ahead of UTC in it; a day or a month by its number since then.
#[derive(Clone, Copy, Debug, PartialEq, Eq, PartialOrd, Ord)]
pub enum Local {
    Minute(u32, i32),
    Hour(u32, i32),
    Day(u32),
    Month(u32),
}

impl Local {
    /// The period in which a moment is.
    pub(crate) fn of(period: Period, zone: &Tzif, moment: Moment) -> Local
        ensures { result ≡ local_of period (offset_in zone.now moment) moment }
    {
        local_at(period, offset_in(zone, moment), moment)
    }

    /// Puts it after the text.
    pub(crate) fn push(self, text: &mut String) -> Result<(), AllocError>
        ensures { OnOk result (string_bytes text.new ≡ string_bytes text.old ++ local_text self) }
    {
        match self {
            Local::Minute(second, offset) => push_local_minute(
                text,
                local_second(second, offset),
                offset,
            ),
            Local::Hour(second, offset) => push_local_hour(
                text,
                local_second(second, offset),
                offset,
            ),
            Local::Day(day) => push_local_day(text, day),
            Local::Month(month) => push_local_month(text, month),
        }
    }
}

/// How far local time is ahead of UTC at a moment, in seconds.
fn offset_in(zone: &Tzif, moment: Moment) -> i32
    ensures { result ≡ offset_in zone.now moment }
{
    let timestamp = Timestamp {
        nanosecond: moment.milliseconds() as i128 * 1_000_000,
    };
    zone.to_offset(timestamp).seconds
}

/// The period of local time in which a moment is, where that is so far ahead of UTC.
fn local_at(period: Period, offset: i32, moment: Moment) -> Local
    ensures { result ≡ local_of period offset moment }
{
    let second = utc_second(moment);
    let local = local_second(second, offset);
    match period {
        Period::Minute => Local::Minute(second - (local % 60) as u32, offset),
        Period::Hour => Local::Hour(second - (local % 3_600) as u32, offset),
        Period::Day => Local::Day((local / 86_400) as u32),
        Period::Month => Local::Month(local_month((local / 86_400) as u32)),
    }
}

/// The second of UTC in which a moment is, since 1 December 1969.
fn utc_second(moment: Moment) -> u32
    ensures value { result ≡ utc_second moment }
    ensures from { SECONDS_BEFORE ≤ result }
{
    (moment.milliseconds() / 1_000) as u32 + SECONDS_BEFORE
}

/// The second of local time at one of UTC.
fn local_second(second: u32, offset: i32) -> u64
    ensures value { result ≡ local_second second offset }
    ensures bound { result < 2 ^ 33 }
{
    (second as i64 + offset as i64).unsigned_abs()
}

/// The month of a day, both since December 1969.
fn local_month(day: u32) -> u32
    ensures { result ≡ local_month day }
{
    if day < DAYS_BEFORE {
        return 0;
    }
    month_of(day - DAYS_BEFORE) + 1
}

fn push_local_minute(text: &mut String, local: u64, offset: i32) -> Result<(), AllocError>
    requires { local < 2 ^ 33 }
    ensures { OnOk result (string_bytes text.new ≡ string_bytes text.old ++ local_minute_text local offset) }
{
    push_local_time(text, local)?;
    text.push_str(":")?;
    push_two(text, local / 60 % 60)?;
    push_offset(text, offset)
}

fn push_local_hour(text: &mut String, local: u64, offset: i32) -> Result<(), AllocError>
    requires { local < 2 ^ 33 }
    ensures { OnOk result (string_bytes text.new ≡ string_bytes text.old ++ local_hour_text local offset) }
{
    push_local_time(text, local)?;
    push_offset(text, offset)
}

fn push_local_month(text: &mut String, month: u32) -> Result<(), AllocError>
    ensures { OnOk result (string_bytes text.new ≡ string_bytes text.old ++ local_month_text month) }
{
    if month == 0 {
        return text.push_str("1969-12");
    }
    push_month(text, month - 1)
}

fn push_local_day(text: &mut String, day: u32) -> Result<(), AllocError>
    ensures { OnOk result (string_bytes text.new ≡ string_bytes text.old ++ local_day_text day) }
{
    if day < DAYS_BEFORE {
        text.push_str("1969-12-")?;
        return push_two(text, day as u64 + 1);
    }
    push_day(text, day - DAYS_BEFORE)
}

/// Puts the day and the hour of a second of local time after the text.
fn push_local_time(text: &mut String, local: u64) -> Result<(), AllocError>
    requires { local < 2 ^ 33 }
    ensures { OnOk result (string_bytes text.new ≡ string_bytes text.old ++ local_time_text local) }
{
    push_local_day(text, (local / 86_400) as u32)?;
    text.push_str("T")?;
    push_two(text, local / 3_600 % 24)
}

/// Puts how far local time is ahead of UTC after the text.
fn push_offset(text: &mut String, offset: i32) -> Result<(), AllocError>
    ensures { OnOk result (string_bytes text.new ≡ string_bytes text.old ++ offset_text offset) }
{
    text.push_str(if offset < 0 { "-" } else { "+" })?;
    push_clock(text, offset.unsigned_abs() as u64)
}

/// Puts seconds after the text as hours, minutes and, where there are some, seconds.
fn push_clock(text: &mut String, seconds: u64) -> Result<(), AllocError>
    ensures { OnOk result (string_bytes text.new ≡ string_bytes text.old ++ clock_text seconds) }
{
    push_two(text, seconds / 3_600)?;
    text.push_str(":")?;
    push_two(text, seconds / 60 % 60)?;
    if seconds % 60 == 0 {
        return Ok(());
    }
    text.push_str(":")?;
    push_two(text, seconds % 60)
}
