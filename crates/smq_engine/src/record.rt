//! A record that is followed: a row of a script, a question about what the rows before it leave, or what is missing of a session.
ghost use Rattle.std.specs.Prelude.{◌≡◌, ◌<◌, ◌∷◌, [], IfOk, Some, drop, length, option_map};
ghost use Rattle.csv.specs.Records.{field_at, fields_of};
ghost use Rattle.smq_engine.specs.Record.{lost_of, record_of, said_by};
ghost use Rattle.smq_engine.specs.within.Words.{begins_with};

use crate::question::Question;
use csv::ByteRecord;
use smq_kit::{Dir, SessionId};
use smq_load::{Row, is_word, read_decimal, read_dir, read_row, read_session};
use std::alloc::{AllocError, Global};

/// What a record says.
#[derive(Drop)]
pub enum Record {
    /// A row, to be played.
    Row(Row),
    /// A question.
    Ask(Question),
    /// What a capture lacks.
    Lost(Loss),
}

/// A gap in what was captured of a session: so many octets that one end sent are missing.
#[derive(Clone, Copy, Debug, PartialEq, Eq)]
pub struct Loss {
    /// The session that the gap is in.
    pub session: SessionId,
    /// The direction that the octets went in.
    pub dir: Dir,
    /// How many octets are missing.
    pub octets: u64,
}

impl Record {
    /// The record that fields say, where they say one.
    pub fn read(alloc: Global, fields: &ByteRecord) -> Result<Option<Record>, AllocError>
        ensures { IfOk result (λ said. option_map said_by said ≡ record_of (fields_of fields.now)) }
    {
        if begins_with(fields, "ask") {
            return match Question::read(alloc, fields)? {
                Some(question) => Ok(Some(Record::Ask(question))),
                None => Ok(None),
            };
        }
        if begins_with(fields, "lost") {
            return Ok(read_lost(fields));
        }
        match read_row(alloc, fields)? {
            Some(row) => Ok(Some(Record::Row(row))),
            None => Ok(None),
        }
    }
}

/// Whether a record's first field is a word.
fn begins_with(fields: &ByteRecord, word: &str) -> bool
    ensures { result ≡ begins_with word.now (fields_of fields.now) }
{
    match fields.get(0) {
        Some(first) => is_word(first, word),
        None => false,
    }
}

/// What is missing, by the fields of a record after its first.
fn read_lost(fields: &ByteRecord) -> Option<Record>
    ensures { option_map said_by result ≡ lost_of (drop 1 (fields_of fields.now)) }
{
    if fields.len() != 4 {
        return None;
    }
    lost(field(fields, 1), field(fields, 2), field(fields, 3))
}

/// What is missing, by its fields.
fn lost(session: &[u8], dir: &[u8], octets: &[u8]) -> Option<Record>
    ensures { option_map said_by result ≡ lost_of (session.now ∷ dir.now ∷ octets.now ∷ []) }
{
    Some(Record::Lost(Loss {
        session: read_session(session)?,
        dir: read_dir(dir)?,
        octets: read_decimal(octets, u64::MAX)?,
    }))
}

/// The field at a place, from 0.
pub(crate) fn field(fields: &ByteRecord, place: usize) -> &[u8]
    requires { place < length (fields_of fields.now) }
    ensures { field_at (fields_of fields.now) place ≡ Some result.now }
{
    fields.get(place).unwrap()
}
