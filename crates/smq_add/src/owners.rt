//! Whether a link or a session is in two reports.
ghost use Rattle.std.specs.Prelude.{◌≡◌, ℕ, List, [], ◌∷◌, ◌++◌, OnOk, Some};
ghost use Rattle.smq_add.specs.Apart.{KnowsOwners, report_of};
ghost use Rattle.smq_add.specs.declared.checks.Owner.{Owner};

use crate::checks::Owner;
use std::alloc::{AllocError, Global};
use std::collections::BTreeMap;

/// A link or a session that is in two reports, by their numbers from 0.
#[derive(Clone, Copy, Debug, PartialEq, Eq)]
pub struct Shared {
    pub owner: Owner,
    pub first: u64,
    pub second: u64,
}

/// The first report that has a link or a session, and the first of these that two have.
#[derive(Drop)]
pub(crate) struct Owners {
    reports: BTreeMap<Owner, u64>,
    shared: Option<Shared>,
}

impl Owners {
    /// None was seen.
    pub(crate) fn new(alloc: Global) -> Owners
        ensures { KnowsOwners [] result }
    {
        Owners {
            reports: BTreeMap::new(alloc),
            shared: None,
        }
    }

    /// Sees one of a report.
    pub(crate) fn see(&mut self, owner: Owner, report: u64) -> Result<(), AllocError>
        ensures { (seen : List (Owner × ℕ)) → KnowsOwners seen self.old
            → OnOk result (KnowsOwners (seen ++ (owner, report) ∷ []) self.new) }
    {
        match self.reports.get(&owner).copied() {
            Some(first) => self.see_again(owner, first, report),
            None => {
                self.reports.insert(owner, report)?;
            }
        }
        Ok(())
    }

    /// Sees that the first report that has one and another are two, if they are.
    fn see_again(&mut self, owner: Owner, first: u64, second: u64)
        ensures { (seen : List (Owner × ℕ)) → KnowsOwners seen self.old → report_of self.old owner ≡ Some first
            → KnowsOwners (seen ++ (owner, second) ∷ []) self.new }
    {
        if first != second && self.shared.is_none() {
            self.shared = Some(Shared {
                owner,
                first,
                second,
            });
        }
    }

    /// What two reports have, if two have one.
    pub(crate) fn shared(&self) -> Option<Shared>
        ensures { result ≡ self.now.shared }
    {
        self.shared
    }
}
