//! The fields of a record that is put together.
ghost use Rattle.std.specs.Prelude.{◌≡◌, ◌++◌, ◌∷◌, [], OnOk};
ghost use Rattle.std.specs.Fmt.{decimal, signed_decimal};
ghost use Rattle.csv.specs.Records.{fields_of, partial_of};
ghost use Rattle.smq_report.specs.Lines.{key_text};
ghost use Rattle.smq_report.specs.Values.{code_text, error_text};

use crate::value::{push_code, push_error};
use csv::ByteRecord;
use smq_kit::{ErrorCode, Key};
use smq_tally::SubmitError;
use std::alloc::{AllocError, Global};
use std::marker::Model;

/// The fields of a record, and room for the text of the next. A contract sees the fields. Where memory runs out there is none.
#[derive(Drop)]
pub struct Fields {
    record: ByteRecord,
    text: String,
}

impl Model for Fields {
    ghost use Rattle.std.specs.Prelude.{ℕ, List, ◌≡◌, []};
    ghost use Rattle.csv.specs.Records.{fields_of, partial_of};

    ghost Value = { List (List ℕ) };

    ghost view = { λ f. fields_of f.record };

    ghost invariant = { λ f. partial_of f.record ≡ [] };
}

impl Fields {
    /// No field.
    pub(crate) fn new(alloc: Global) -> Fields
        ensures { result ≡ [] }
    {
        Fields {
            record: ByteRecord::new(alloc),
            text: String::new(alloc),
        }
    }

    /// The fields as `csv` takes them.
    pub(crate) fn record(&self) -> &ByteRecord
        ensures { fields_of result.now ≡ self.now }
    {
        &self.record
    }

    /// Takes all fields away.
    pub(crate) fn clear(&mut self)
        ensures { self.new ≡ [] }
    {
        self.record.clear();
    }

    /// Puts octets as a field after the others.
    pub fn put_octets(&mut self, octets: &[u8]) -> Result<(), AllocError>
        ensures { OnOk result (self.new ≡ self.old ++ octets.now ∷ []) }
    {
        put_field(&mut self.record, octets)
    }

    /// Puts a number in decimal.
    pub fn put_number(&mut self, number: u64) -> Result<(), AllocError>
        ensures { OnOk result (self.new ≡ self.old ++ decimal number ∷ []) }
    {
        self.text.clear();
        write!(self.text, "{number}")?;
        put_field(&mut self.record, self.text.as_bytes())
    }

    /// Puts a number in decimal, behind `-` where it is negative.
    pub fn put_signed(&mut self, number: i64) -> Result<(), AllocError>
        ensures { OnOk result (self.new ≡ self.old ++ signed_decimal number ∷ []) }
    {
        self.text.clear();
        write!(self.text, "{number}")?;
        put_field(&mut self.record, self.text.as_bytes())
    }

    /// Puts the error of a message.
    pub(crate) fn put_error(&mut self, error: &SubmitError) -> Result<(), AllocError>
        ensures { OnOk result (self.new ≡ self.old ++ error_text error.now ∷ []) }
    {
        self.text.clear();
        push_error(&mut self.text, error)?;
        put_field(&mut self.record, self.text.as_bytes())
    }

    /// Puts the key of an id: a number in decimal, a text as it stands.
    pub(crate) fn put_key(&mut self, key: &Key) -> Result<(), AllocError>
        ensures { OnOk result (self.new ≡ self.old ++ key_text key.now ∷ []) }
    {
        match key {
            Key::Number(number) => {
                self.text.clear();
                write!(self.text, "{number}")?;
                put_field(&mut self.record, self.text.as_bytes())
            }
            Key::Text(id) => put_field(&mut self.record, id.as_slice()),
        }
    }

    /// Puts the error of a delivery receipt.
    pub(crate) fn put_code(&mut self, code: &ErrorCode) -> Result<(), AllocError>
        ensures { OnOk result (self.new ≡ self.old ++ code_text code.now ∷ []) }
    {
        self.text.clear();
        push_code(&mut self.text, code)?;
        put_field(&mut self.record, self.text.as_bytes())
    }
}

/// Puts a field after the others, of which there is none where memory runs out.
fn put_field(fields: &mut ByteRecord, octets: &[u8]) -> Result<(), AllocError>
    requires { partial_of fields.old ≡ [] }
    ensures ok { OnOk result (fields_of fields.new ≡ fields_of fields.old ++ octets.now ∷ []) }
    ensures whole { partial_of fields.new ≡ [] }
{
    let put = fields.push_field(octets);
    if put.is_err() {
        fields.clear();
    }
    put
}
