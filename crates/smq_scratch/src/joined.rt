//! What is present, joined: what its sessions say, and what there is of each key of each link.
ghost use Rattle.std.specs.Prelude.{◌≡◌, IfOk};
ghost use Rattle.std.specs.List.{AllZip};
ghost use Rattle.smq_present.specs.present.Present.{PresentValue};
ghost use Rattle.smq_present.specs.within.Said.{Says};
ghost use Rattle.smq_present.specs.within.Sourced.{sourced_of};
ghost use Rattle.smq_scratch.specs.within.Joined.{IsJoined};

use crate::groups::{Group, Groups};
use crate::receipts::NumberedReceipt;
use smq_present::{
    Listed, Present, SessionReading, SessionView, SubmittedMessage, concatenated, read_sessions,
    sessions_with_forms,
};
use std::alloc::{AllocError, Global};

/// Submitted messages, notes and delivery receipts of sessions, and what there is of each key by its number. The keys are let go once
/// all have their numbers.
#[derive(Drop)]
pub(crate) struct Joined<'a> {
    pub submits: Vec<SubmittedMessage<'a>>,
    /// The number of the key of each message that is accepted.
    pub numbers: Vec<Option<usize>>,
    pub notes: Vec<Listed>,
    pub receipts: Vec<NumberedReceipt<'a>>,
    pub groups: Vec<Group<'a>>,
}

impl<'a> Joined<'a> {
    /// Those of what is present, which this thread reads.
    pub(crate) fn of(alloc: Global, present: &'a Present) -> Result<Joined<'a>, AllocError>
        ensures { IfOk result (λ joined. IsJoined present.now joined) }
    {
        let sessions = sessions_with_forms(alloc, present)?;
        let read = read_sessions(alloc, sessions.as_slice())?;
        Joined::of_read(alloc, sessions.as_slice(), read)
    }

    /// Those of these sessions, where this is what each says.
    pub(crate) fn of_read(
        alloc: Global,
        sessions: &[SessionView<'a>],
        read: Vec<SessionReading<'a>>,
    ) -> Result<Joined<'a>, AllocError>
        requires { AllZip Says sessions.now read.items }
        ensures { (p : PresentValue) → sessions.now ≡ sourced_of p
            → IfOk result (λ joined. IsJoined p joined) }
    {
        let SessionReading { submits, notes } = concatenated(alloc, read)?;
        let (mut kept, numbers) = Groups::of_submits(alloc, submits.as_slice())?;
        let receipts = kept.add_receipts(alloc, sessions)?;
        let Groups { groups, .. } = kept;
        Ok(Joined {
            submits,
            numbers,
            notes,
            receipts,
            groups,
        })
    }
}
