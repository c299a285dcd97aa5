//! Periods in UTC: those of moments, and how they are written.
ghost use Rattle.std.specs.Prelude.{◌≡◌, ◌++◌, ◌∷◌, ◌≤◌, pos, OnOk, string_bytes};
ghost use Rattle.jiff_core.specs.Date.{epoch_day};
ghost use Rattle.smq_count.specs.Cells.{period_of as period_number, period_text};
ghost use Rattle.smq_count.specs.Months.{day_of_month as day_in_month, day_text, first_day, hour_text, minute_text, month_of, month_text, time_text, two_digits};

use crate::column::Period;
use jiff_core::civil::Date;
use smq_kit::Moment;
use std::alloc::AllocError;

/// The first day of the year 2100, and its month, which come after all that are counted.
const LAST_DAY: u32 = 47_482;

const LAST_MONTH: u32 = 1_560;

/// The days from the first date of the calendar to 1 January 1970.
const EPOCH: u32 = 4_371_587;

/// The period of a moment, as a number of such periods since 1970.
pub(crate) fn period_of(period: Period, moment: Moment) -> u32
    ensures { result ≡ period_number period moment }
{
    let milliseconds = moment.milliseconds();
    match period {
        Period::Minute => (milliseconds / 60_000) as u32,
        Period::Hour => (milliseconds / 3_600_000) as u32,
        Period::Day => (milliseconds / 86_400_000) as u32,
        Period::Month => month_of((milliseconds / 86_400_000) as u32),
    }
}

/// Puts a period after the text.
pub(crate) fn push_period(text: &mut String, period: Period, number: u32) -> Result<(), AllocError>
    ensures { OnOk result (string_bytes text.new ≡ string_bytes text.old ++ period_text period number) }
{
    match period {
        Period::Minute => push_minute(text, number),
        Period::Hour => push_hour(text, number),
        Period::Day => push_day(text, number),
        Period::Month => push_month(text, number),
    }
}

fn push_minute(text: &mut String, minute: u32) -> Result<(), AllocError>
    ensures { OnOk result (string_bytes text.new ≡ string_bytes text.old ++ minute_text minute) }
{
    push_day(text, minute / 1_440)?;
    push_time(text, minute % 1_440)
}

/// Puts the time of a minute of a day after the text.
fn push_time(text: &mut String, minute: u32) -> Result<(), AllocError>
    ensures { OnOk result (string_bytes text.new ≡ string_bytes text.old ++ 84 ∷ time_text minute) }
{
    text.push_str("T")?;
    push_two(text, (minute / 60) as u64)?;
    text.push_str(":")?;
    push_two(text, (minute % 60) as u64)?;
    text.push_str("Z")
}

/// Puts an hour of UTC after the text, by the number of hours since 1970.
pub fn push_hour(text: &mut String, hour: u32) -> Result<(), AllocError>
    ensures { OnOk result (string_bytes text.new ≡ string_bytes text.old ++ hour_text hour) }
{
    push_day(text, hour / 24)?;
    text.push_str("T")?;
    push_two(text, (hour % 24) as u64)?;
    text.push_str("Z")
}

/// Puts a day after the text, by the number of days since 1970.
pub fn push_day(text: &mut String, day: u32) -> Result<(), AllocError>
    ensures { OnOk result (string_bytes text.new ≡ string_bytes text.old ++ day_text day) }
{
    push_month(text, month_of(day))?;
    text.push_str("-")?;
    push_two(text, day_of_month(day))
}

pub(crate) fn push_month(text: &mut String, month: u32) -> Result<(), AllocError>
    ensures { OnOk result (string_bytes text.new ≡ string_bytes text.old ++ month_text month) }
{
    let year = 1_970 + month / 12;
    write!(text, "{year}-")?;
    push_two(text, (month % 12 + 1) as u64)
}

/// Puts a number below 100 in two digits after the text.
pub(crate) fn push_two(text: &mut String, number: u64) -> Result<(), AllocError>
    ensures { OnOk result (string_bytes text.new ≡ string_bytes text.old ++ two_digits number) }
{
    let tens = number / 10;
    let ones = number % 10;
    write!(text, "{tens}{ones}")
}

/// The month of a day.
pub(crate) fn month_of(day: u32) -> u32
    ensures value { result ≡ month_of day }
    ensures bound { result ≤ LAST_MONTH }
    ensures begun { first_day result ≤ day }
{
    if day > LAST_DAY {
        return LAST_MONTH;
    }
    let date = date_of(day);
    (date.year as u32 - 1_970) * 12 + date.month as u32 - 1
}

/// The day in its month, from 1.
fn day_of_month(day: u32) -> u64
    ensures { result ≡ day_in_month day }
{
    (day - first_day(month_of(day))) as u64 + 1
}

/// The date of a day.
fn date_of(day: u32) -> Date
    requires { day ≤ LAST_DAY }
    ensures { epoch_day result ≡ pos day }
{
    Date::from_unix_epoch_day(day as i64).unwrap()
}

/// The first day of a month.
fn first_day(month: u32) -> u32
    requires { month ≤ LAST_MONTH }
    ensures { result ≡ first_day month }
{
    let date = Date {
        year: (1_970 + month / 12) as i16,
        month: (month % 12) as u8 + 1,
        day: 1,
    };
    date.days_since_min() - EPOCH
}
