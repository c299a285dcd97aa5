//! What a history keeps of an edit, and what the caller's seat keeps.
ghost use Rattle.std.specs.Prelude.{◌≡◌, ◌↔◌, IfOk, IsTrue};
ghost use Rattle.smq_desk.specs.History.{reply_by};

use smq_kit::Refusal;
use smq_present::Edit;
use std::alloc::AllocError;

/// What a book replies to an edit.
#[derive(Clone, Copy, Debug, PartialEq, Eq)]
pub enum Reply {
    Done,
    Refused(Refusal),
}

impl Reply {
    /// An equal reply. It takes no memory.
    pub fn copy(&self) -> Reply
        ensures { result ≡ self.now }
    {
        match self {
            Reply::Done => Reply::Done,
            Reply::Refused(refusal) => Reply::Refused(*refusal),
        }
    }

    /// The refusal, where it is one.
    pub fn refusal(&self) -> Option<Refusal>
        ensures { self.now ≡ reply_by result }
    {
        match self {
            Reply::Done => None,
            Reply::Refused(refusal) => Some(*refusal),
        }
    }
}

/// One edit of a history.
#[derive(Drop)]
pub struct Entry {
    /// The number of the seat that it was committed from.
    pub seat: u32,
    pub edit: Edit,
    pub reply: Reply,
}

impl Entry {
    /// An equal entry.
    pub fn copy(&self) -> Result<Entry, AllocError>
        ensures { IfOk result (λ entry. entry ≡ self.now) }
    {
        Ok(Entry {
            seat: self.seat,
            edit: self.edit.copy()?,
            reply: self.reply.copy(),
        })
    }

    /// Whether both are one entry.
    pub(crate) fn is_same(&self, other: &Entry) -> bool
        ensures { IsTrue result ↔ (self.now ≡ other.now) }
    {
        self.seat == other.seat
            && is_same_edit(&self.edit, &other.edit)
            && self.reply == other.reply
    }
}

/// Whether both are one edit.
#[tactic(auto, using(smq_present::proofs::lemmas::present::SameEdits::same_edits))]
pub(crate) fn is_same_edit(edit: &Edit, other: &Edit) -> bool
    ensures { IsTrue result ↔ (edit.now ≡ other.now) }
{
    edit == other
}

/// One edit that was committed from a seat, as the seat keeps it.
#[derive(Drop)]
pub struct Call {
    /// The number of its entry in the history, from 1.
    pub number: u64,
    pub edit: Edit,
    pub reply: Reply,
}
