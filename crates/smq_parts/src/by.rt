//! Which script a row goes to.
ghost use Rattle.std.specs.Prelude.{◌≡◌};
ghost use Rattle.smq_parts.specs.Parts.{day_of, hour_of, is_part, part_by};

use std::cmp::min;

/// The ms of an hour and of a day.
const HOUR: u64 = 3_600_000;

const DAY: u64 = 86_400_000;

/// The first hour and the first day of the year 2100, which come after all that captures have.
const LAST_HOUR: u64 = 1_139_568;

const LAST_DAY: u64 = 47_482;

/// What rows are split by.
#[derive(Clone, Copy, Debug, PartialEq, Eq)]
pub enum By {
    Link,
    /// Of the row's moment, in UTC.
    Day,
    Hour,
    LinkAndDay,
    LinkAndHour,
}

/// A script that rows are split into: its link, and its period by the number of days or hours since 1970; 0 of what rows aren't split by.
#[derive(Clone, Copy, Debug, PartialEq, Eq, PartialOrd, Ord)]
pub struct Part {
    pub link: u32,
    pub period: u32,
}

impl By {
    /// The script of a row of a link, by the moment in ms since 1970 in UTC.
    pub fn part(self, link: u32, moment: u64) -> Part
        ensures { result ≡ part_by self link moment }
    {
        match self {
            By::Link => Part { link, period: 0 },
            By::Day => Part {
                link: 0,
                period: day_of(moment),
            },
            By::Hour => Part {
                link: 0,
                period: hour_of(moment),
            },
            By::LinkAndDay => Part {
                link,
                period: day_of(moment),
            },
            By::LinkAndHour => Part {
                link,
                period: hour_of(moment),
            },
        }
    }
}

/// The day of a moment.
fn day_of(moment: u64) -> u32
    ensures { result ≡ day_of moment }
{
    min(moment / DAY, LAST_DAY) as u32
}

/// The hour of a moment.
fn hour_of(moment: u64) -> u32
    ensures { result ≡ hour_of moment }
{
    min(moment / HOUR, LAST_HOUR) as u32
}

impl Part {
    /// Whether it is that one.
    pub fn is(self, other: Part) -> bool
        ensures { result ≡ is_part self other }
    {
        self.link == other.link && self.period == other.period
    }
}
