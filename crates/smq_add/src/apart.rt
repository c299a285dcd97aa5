//! Why reports can't be added.
ghost use Rattle.std.specs.Prelude.{◌≡◌, ℕ, ◌+◌, ◌<◌, ◌^◌, Bool, List, [], ◌∷◌, ◌++◌, length, MatchOption, OnOk};
ghost use Rattle.smq_report.specs.declared.pick.Section.{Section};
ghost use Rattle.smq_add.specs.Apart.{IsApart, Knows, MayAdd, Saw, numbered};
ghost use Rattle.smq_add.specs.Checks.{is_whole as is_whole_in, owner_of, section_of};
ghost use Rattle.smq_add.specs.declared.checks.Owner.{Owner};
ghost use Rattle.smq_add.specs.declared.row.Row.{Row};

use crate::checks::is_whole;
use crate::owners::{Owners, Shared};
use crate::row::{Key, Row};
use crate::sections::Sections;
use std::alloc::{AllocError, Global};

/// Why reports can't be added.
#[derive(Clone, Copy, Debug, PartialEq, Eq)]
pub enum Apart {
    /// They have several sections, and the report of this number, from 0, isn't whole.
    Part(u64),
    /// They are of links, and two have a link or a session.
    Shared(Shared),
}

/// What is seen of reports that are added, one after the other.
#[derive(Drop)]
pub struct Checks {
    of_periods: bool,
    /// How many were seen.
    reports: u64,
    sections: Sections,
    /// The first that isn't whole.
    part: Option<u64>,
    owners: Owners,
}

impl Checks {
    /// No report was seen. Of periods a link and a session may stand in many.
    pub fn new(alloc: Global, of_periods: bool) -> Checks
        ensures { Saw of_periods [] result }
    {
        Checks {
            of_periods,
            reports: 0,
            sections: Sections::none(),
            part: None,
            owners: Owners::new(alloc),
        }
    }

    /// Sees the rows of one more report, up to 2^64 - 1. After an error nothing is known.
    pub fn see(&mut self, rows: &[Row]) -> Result<(), AllocError>
        ensures { (of_periods : Bool) (reports : List (List Row)) → Saw of_periods reports self.old
            → length reports + 1 < 2 ^ 64 → OnOk result (Saw of_periods (reports ++ rows.now ∷ []) self.new) }
    {
        self.see_whole(is_whole(rows));
        for row in rows {
            self.see_key(&row.key)?;
        }
        self.reports = self.reports.saturating_add(1);
        Ok(())
    }

    /// Sees whether the next report is whole.
    fn see_whole(&mut self, is_whole: bool)
        ensures { (of_periods : Bool) (reports : List (List Row)) (rows : List Row) (sections : List Section)
            (owners : List (Owner × ℕ)) → Knows of_periods (length reports) reports sections owners self.old
            → is_whole_in rows ≡ is_whole
            → Knows of_periods (length reports) (reports ++ rows ∷ []) sections owners self.new }
    {
        if self.part.is_none() && !is_whole {
            self.part = Some(self.reports);
        }
    }

    /// Sees a key of the next report.
    fn see_key(&mut self, key: &Key) -> Result<(), AllocError>
        ensures { (of_periods : Bool) (number : ℕ) (reports : List (List Row)) (sections : List Section)
            (owners : List (Owner × ℕ)) → Knows of_periods number reports sections owners self.old
            → OnOk result (Knows of_periods number reports (sections ++ section_of key.now ∷ [])
            (owners ++ numbered number (owner_of key.now)) self.new) }
    {
        self.sections.see(key.section());
        if self.of_periods {
            return Ok(());
        }
        if let Some(owner) = key.owner() {
            self.owners.see(owner, self.reports)?;
        }
        Ok(())
    }

    /// Why they can't be added, if they can't.
    pub fn apart(&self) -> Option<Apart>
        ensures { (of_periods : Bool) (reports : List (List Row)) → Saw of_periods reports self.now
            → MatchOption result (MayAdd of_periods reports) (λ apart. IsApart of_periods reports apart) }
    {
        if self.sections.has_more() {
            if let Some(report) = self.part {
                return Some(Apart::Part(report));
            }
        }
        match self.owners.shared() {
            Some(shared) => Some(Apart::Shared(shared)),
            None => None,
        }
    }
}
