//! The records of a reader, one by one.
ghost use Rattle.std.specs.Prelude.{◌≡◌, ◌≢◌, ◌+◌, ◌++◌, ◌∷◌, [], IfErr, IfOk, IfSome, List, None, length, ℕ};
ghost use Rattle.smq_engine.specs.Followed.{AreAllOf};
ghost use Rattle.smq_engine.specs.within.Steps.{EndsReading, HasGivenRecords};

use crate::RunFault;
use crate::record::Record;
use csv::{ByteRecord, Reader};
use smq_load::read_record;
use std::alloc::Global;
use std::io::Read;

/// The next record of a reader, of this number, where there is one.
pub(crate) fn read_next<R: Read>(
    alloc: Global,
    reader: &mut Reader<R>,
    fields: &mut ByteRecord,
    number: u64,
) -> Result<Option<Record>, RunFault>
    ensures some { (text : List ℕ) → (records : List Record)
        → HasGivenRecords R.remaining reader.old text records
        → IfOk result (λ next. IfSome next (λ r.
        HasGivenRecords R.remaining reader.new text (records ++ r ∷ []))) }
    ensures none { (text : List ℕ) → (records : List Record)
        → HasGivenRecords R.remaining reader.old text records
        → IfOk result (λ next. next ≡ None → AreAllOf text records) }
    ensures fault { (text : List ℕ) → (records : List Record)
        → HasGivenRecords R.remaining reader.old text records → number ≡ length records + 1
        → IfErr result (λ fault. EndsReading fault records text) }
    ensures set { IfErr result (λ fault. fault ≢ RunFault.BadSettings) }
{
    if !read_record(reader, fields)? {
        return Ok(None);
    }
    match Record::read(alloc, fields)? {
        Some(next) => Ok(Some(next)),
        None => Err(RunFault::BadRow { row: number }),
    }
}
