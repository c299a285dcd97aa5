//! Why an edit, a row or a value was refused.
//!
//! Whoever adds a refusal writes, each time in the order of the numbers: a variant of `Refusal`, with the next number that
//! was never given; its row in `row` here and in `row_of` of specs/Refusals.antt; an example of it and its text in
//! `every_refusal` and `printed_refusals` of specs/Known.antt. The printing, the laws and the proofs stay as they are.
ghost use Rattle.std.specs.Prelude.{◌≡◌, ◌↔◌, IsTrue};
ghost use Rattle.smq_kit.specs.Refusals.{number_of, row_of, seen_row, is_same};

use crate::{LinkId, Moment};
use std::fmt;

/// Why something was refused. Its text is its number, a space, its name and, where it has a field, a space and that
/// field in decimal, as `5 OutOfStep 49`. A refusal keeps its number whatever comes or goes beside it, so that what was
/// printed earlier still reads the same.
#[derive(Clone, Copy, Debug, PartialEq, Eq)]
pub enum Refusal {
    /// A piece has no octets.
    EmptyPiece,
    /// A number of ms is above `LAST_MOMENT`.
    BadMoment,
    /// A piece's moment is below the last moment of its direction.
    Backward { last: Moment },
    /// The session is present under another link.
    OtherLink { link: LinkId },
    /// A batch's tail isn't the tail of its direction, which has this many octets.
    OutOfStep { offset: u64 },
    /// The session isn't present.
    NoSession,
    /// A version of the prefix is open or ends after the new one begins; the least beginning of those.
    Overlap { from: Moment },
    /// No version has this prefix and beginning.
    NoRoute,
    /// The version has an end.
    Ended { until: Moment },
    /// An end isn't after the beginning.
    BadEnd,
    /// The new clock is below the present one.
    ClockBack { clock: Moment },
    /// The history has as many entries as its limit. A desk tells it.
    HistoryFull,
    /// A growth was refused.
    Memory,
    /// The direction would pass its limit of octets.
    StreamFull,
    /// The system refused to start a thread.
    NoThread,
    /// All seats were given out. A desk tells it.
    NoSeat,
    /// The board gave no place for a reader. A desk tells it.
    NoWatcher,
    /// A window is 0 ms or above `LAST_MOMENT`.
    BadWindow,
    /// A call of a seat isn't the history's entry of that number; the least such. A desk tells it.
    TornSeat { number: u64 },
    /// A prefix is empty, over 15 octets, or not all digits.
    BadPrefix,
    /// A network isn't 5 or 6 digits.
    BadNetwork,
    /// An id is empty or over `LONGEST_ID` octets.
    BadId,
}

/// What is said of a refusal: its number, its name and the field that it tells.
#[derive(Clone, Copy)]
struct Row {
    number: u32,
    name: &'static str,
    field: Option<u64>,
}

impl Refusal {
    /// The number of the refusal, 1 to 22.
    pub fn number(self) -> u32
        ensures { result ≡ number_of self }
    {
        self.row().number
    }

    /// The table of refusals.
    fn row(self) -> Row
        ensures { seen_row result ≡ row_of self }
    {
        let (number, name, field): (u32, &'static str, Option<u64>) = match self {
            Refusal::EmptyPiece => (1, "EmptyPiece", None),
            Refusal::BadMoment => (2, "BadMoment", None),
            Refusal::Backward { last } => (3, "Backward", Some(last.milliseconds())),
            Refusal::OtherLink { link } => (4, "OtherLink", Some(u64::from(link.0))),
            Refusal::OutOfStep { offset } => (5, "OutOfStep", Some(offset)),
            Refusal::NoSession => (6, "NoSession", None),
            Refusal::Overlap { from } => (7, "Overlap", Some(from.milliseconds())),
            Refusal::NoRoute => (8, "NoRoute", None),
            Refusal::Ended { until } => (9, "Ended", Some(until.milliseconds())),
            Refusal::BadEnd => (10, "BadEnd", None),
            Refusal::ClockBack { clock } => (11, "ClockBack", Some(clock.milliseconds())),
            Refusal::HistoryFull => (12, "HistoryFull", None),
            Refusal::Memory => (13, "Memory", None),
            Refusal::StreamFull => (14, "StreamFull", None),
            Refusal::NoThread => (15, "NoThread", None),
            Refusal::NoSeat => (16, "NoSeat", None),
            Refusal::NoWatcher => (17, "NoWatcher", None),
            Refusal::BadWindow => (18, "BadWindow", None),
            Refusal::TornSeat { number } => (19, "TornSeat", Some(number)),
            Refusal::BadPrefix => (20, "BadPrefix", None),
            Refusal::BadNetwork => (21, "BadNetwork", None),
            Refusal::BadId => (22, "BadId", None),
        };
        Row {
            number,
            name,
            field,
        }
    }
}

impl fmt::Display for Refusal {
    ghost use Rattle.std.specs.Prelude.{Some};
    ghost use Rattle.smq_kit.specs.Refusals.{text_of};

    ghost output = { λ refusal. Some (text_of refusal) };

    fn fmt<W: fmt::Write>(&self, f: &mut fmt::Formatter<W>) -> fmt::Result {
        let row = self.row();
        let number = row.number;
        let name = row.name;
        match row.field {
            Some(field) => write!(f, "{number} {name} {field}"),
            None => write!(f, "{number} {name}"),
        }
    }
}

/// Two refusals are equal exactly where they are one, with the same field.
pub fn refusals_are_told_apart()
    ensures { (a b : Refusal) → IsTrue (is_same a b) ↔ (a ≡ b) }
{}
