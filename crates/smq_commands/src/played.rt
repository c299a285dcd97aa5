//! Rows that are played to be dealt.
ghost use Rattle.std.specs.Prelude.{◌≡◌, ◌++◌, [], IfErr, IfOk, IfSome, List, OnOk, ℕ};
ghost use Rattle.smq_present.specs.present.Present.{empty};
ghost use Rattle.smq_load.specs.NextRecord.{HasGiven};
ghost use Rattle.smq_deal.specs.Texts.{none_set, sets_of};
ghost use Rattle.smq_engine.specs.IsRun.{TellsRow, WerePlayed};
ghost use Rattle.smq_engine.specs.Play.{after_row, after_rows, refusal_of, told};
ghost use Rattle.smq_commands.specs.Played.{ArePlayedSets, AreSetBy, SetsNext, with_made};

use csv::{ByteRecord, Reader};
use smq_deal::{Head, Setting};
use smq_engine::{Limit, RetryingReader, RunFault, play_row, play_rows, read_next_row};
use smq_kit::Refusal;
use smq_load::{Row, read_settings, record_reader};
use smq_present::{PlainBook, Present};
use std::alloc::{AllocError, Global};
use std::io::Read;

/// What settings and rows leave.
#[derive(Drop)]
pub(crate) struct Played {
    book: PlainBook,
    head: Head,
    refused: Vec<(u64, Refusal)>,
}

impl Played {
    /// Plays settings, and then rows, of which each is played before the next is read. A read that is interrupted is tried again. Errors:
    /// `BadSettings`; `BadRow` at the first record that says no row, with its number from 1; `Read` where the reader fails, or gives
    /// 18,446,744,073,709,551,614 records; `Memory`.
    pub(crate) fn read<R: Read>(
        alloc: Global,
        reader: &mut R,
        settings: &[u8],
    ) -> Result<Played, RunFault>
        ensures left { IfOk result (λ made. IfSome (R.remaining reader.old)
            (WerePlayed Limit.Unlimited settings.now made.book.present made.refused.items)) }
        ensures set { IfOk result (λ made. IfSome (R.remaining reader.old) (AreSetBy settings.now (sets_of made.head))) }
        ensures bad_row { IfErr result (λ fault. IfSome (R.remaining reader.old) (TellsRow Limit.Unlimited fault)) }
    {
        let rows = read_settings(alloc, settings)?;
        let mut played = Played::begin(alloc, rows)?;
        let mut records = record_reader(alloc, RetryingReader::new(reader));
        played.play_records(alloc, &mut records)?;
        Ok(played)
    }

    /// What the rows of settings leave. They set nothing in a script.
    fn begin(alloc: Global, settings_rows: Vec<Row>) -> Result<Played, AllocError>
        ensures present { IfOk result (λ made. made.book.present ≡ after_rows empty settings_rows.items) }
        ensures refused { IfOk result (λ made. made.refused.items ≡ []) }
        ensures none { IfOk result (λ made. sets_of made.head ≡ none_set) }
    {
        let mut book = PlainBook::new(alloc);
        play_rows(alloc, &mut book, settings_rows)?;
        Ok(Played {
            book,
            head: Head::new(alloc),
            refused: Vec::new(alloc),
        })
    }

    /// What is present.
    pub(crate) fn present(&self) -> &Present {
        self.book.present()
    }

    /// The rows that set.
    pub(crate) fn head(&self) -> &Head {
        &self.head
    }

    /// The rows that were refused, each with its number, from 1.
    pub(crate) fn refused(&self) -> &[(u64, Refusal)] {
        self.refused.as_slice()
    }

    /// Plays all rows of a reader.
    fn play_records<R: Read>(
        &mut self,
        alloc: Global,
        reader: &mut Reader<R>,
    ) -> Result<(), RunFault>
        ensures ok { (text : List ℕ) → HasGiven R.remaining reader.old text [] → self.old.refused.items ≡ []
            → OnOk result (ArePlayedSets self.old.book.present self.new.book.present self.new.refused.items
            (sets_of self.old.head) (sets_of self.new.head) text) }
        ensures bad_row { (text : List ℕ) → HasGiven R.remaining reader.old text [] → self.old.refused.items ≡ []
            → IfErr result (λ fault. TellsRow Limit.Unlimited fault text) }
    {
        let mut fields = ByteRecord::new(alloc);
        for number in 1..u64::MAX {
            match read_next_row(alloc, reader, &mut fields, number)? {
                Some(row) => self.play(alloc, number, row)?,
                None => return Ok(()),
            }
        }
        Err(RunFault::Read)
    }

    /// Plays the row of a number. A row that is refused sets nothing.
    fn play(&mut self, alloc: Global, number: u64, row: Row) -> Result<(), AllocError>
        ensures present { OnOk result (self.new.book.present ≡ after_row self.old.book.present row) }
        ensures refused { OnOk result (self.new.refused.items
            ≡ self.old.refused.items ++ told number (refusal_of self.old.book.present row)) }
        ensures sets { OnOk result (SetsNext (refusal_of self.old.book.present row) row
            (sets_of self.old.head) (sets_of self.new.head)) }
    {
        let setting = Setting::of(alloc, &row)?;
        match play_row(alloc, &mut self.book, row)? {
            Some(refusal) => self.refused.push((number, refusal))?,
            None => add_made(&mut self.head, setting)?,
        }
        Ok(())
    }
}

/// Adds what a row sets, where it does.
fn add_made(head: &mut Head, made: Option<Setting>) -> Result<(), AllocError>
    ensures { OnOk result (sets_of head.new ≡ with_made (sets_of head.old) made) }
{
    match made {
        Some(setting) => head.add(setting),
        None => Ok(()),
    }
}
