//! What messages have in columns.
ghost use Rattle.std.specs.Prelude.{◌≡◌, IfOk, take};
ghost use Rattle.smq_count.specs.Cells.{cell_by, cell_in, cell_text};

use crate::column::{Column, Period};
use crate::local::{Local, Zone};
use crate::period::{period_of, push_period};
use arrayvec::ArrayVec;
use smq_kit::{Digits, SessionId};
use smq_pdu::SourceAddress;
use smq_present::MessageLine;
use smq_report::push_value;
use smq_tally::{Outcome, Value};
use std::alloc::{AllocError, Global};

/// What a message has in a column, declared in the order in which counts print it.
#[derive(Debug, PartialEq, Eq, PartialOrd, Ord, Drop)]
pub enum Cell {
    /// What a view counts it by.
    Value(Value),
    Session(SessionId),
    Outcome(Outcome),
    /// A period, by the number of such periods since 1970 in UTC.
    Period(Period, u32),
    /// A period of local time.
    Local(Local),
    /// The address that it comes from.
    Source(SourceAddress),
    /// The type of that address's number.
    Ton(u8),
    /// The first digits of its number.
    Prefix(ArrayVec<u8, 15>),
    /// It has nothing there.
    Nothing,
}

impl Cell {
    /// What a message has in a column, periods being of the time of a zone.
    pub fn of(zone: &Zone, column: Column, line: &MessageLine<'_>) -> Cell
        ensures { result ≡ cell_by zone.now column line.now }
    {
        match (zone, column) {
            (Zone::Local(zone), Column::Period(period)) => Cell::Local(Local::of(
                period,
                zone,
                line.moment,
            )),
            _ => Cell::in_utc(column, line),
        }
    }

    /// The same where periods are in UTC.
    fn in_utc(column: Column, line: &MessageLine<'_>) -> Cell
        ensures { result ≡ cell_in column line.now }
    {
        match column {
            Column::View(view) => match line.fact.value_in(view) {
                Some(value) => Cell::Value(value),
                None => Cell::Nothing,
            },
            Column::Session => Cell::Session(line.fact.place.session),
            Column::Outcome => Cell::Outcome(line.fact.outcome),
            Column::Period(period) => Cell::Period(period, period_of(period, line.moment)),
            Column::Source => match line.source {
                Some(source) => Cell::Source(source.copy()),
                None => Cell::Nothing,
            },
            Column::SourceTon => Cell::Ton(line.source_ton),
            Column::Prefix(digits) => match line.number {
                Some(number) => Cell::Prefix(first_digits(number, digits)),
                None => Cell::Nothing,
            },
        }
    }

    /// How it is written, as reports do.
    pub fn text(&self, alloc: Global) -> Result<Vec<u8>, AllocError>
        ensures { IfOk result (λ text. text.items ≡ cell_text self.now) }
    {
        let mut text = String::new(alloc);
        match self {
            Cell::Value(value) => push_value(&mut text, value)?,
            Cell::Session(session) => {
                let number = session.0;
                write!(text, "{number}")?
            }
            Cell::Outcome(outcome) => text.push_str(outcome.name())?,
            Cell::Period(period, number) => push_period(&mut text, *period, *number)?,
            Cell::Local(local) => local.push(&mut text)?,
            Cell::Source(source) => return octets_of(alloc, source.as_slice()),
            Cell::Ton(ton) => write!(text, "{ton}")?,
            Cell::Prefix(digits) => return octets_of(alloc, digits.as_slice()),
            Cell::Nothing => {}
        }
        Ok(text.into_bytes())
    }
}

/// The first so many digits of a number.
fn first_digits(number: &Digits, digits: u8) -> ArrayVec<u8, 15>
    ensures { result.items ≡ take digits number.now }
{
    let octets = number.as_slice();
    let mut first = ArrayVec::new();
    let length = octets.len().min(digits as usize);
    let _ = first.try_extend_from_slice(&octets[..length]);
    first
}

/// Equal octets.
fn octets_of(alloc: Global, octets: &[u8]) -> Result<Vec<u8>, AllocError>
    ensures { IfOk result (λ copy. copy.items ≡ octets.now) }
{
    let mut copy = Vec::new(alloc);
    copy.extend_from_slice(octets)?;
    Ok(copy)
}
