//! What there is of each key of each link: the messages that are accepted with it, and the receipt that decides them.
ghost use Rattle.std.specs.Prelude.{◌≡◌, get_or, IfOk, option_copied};
ghost use Rattle.std.specs.List.{flat_map};
ghost use Rattle.smq_present.specs.within.Sourced.{receipts_in};
ghost use Rattle.smq_scratch.specs.within.Groups as within;

use crate::key_numbers::KeyNumbers;
use crate::receipts::{NumberedReceipt, PlacedReceipt, receipt_at};
use smq_kit::{HashedKey, Place};
use smq_present::{SessionView, SubmittedMessage};
use std::alloc::{AllocError, Global};

/// The messages that are accepted with one key.
#[derive(Clone, Copy)]
pub(crate) enum Match {
    /// One alone, at this place.
    One(Place),
    /// Two or more.
    Many,
}

/// What there is of one key.
#[derive(Drop)]
pub(crate) struct Group<'a> {
    /// The messages that are accepted with it, where there are any.
    pub found: Option<Match>,
    /// The least of its receipts that can decide, by moment and place, where there are any.
    pub decider: Option<PlacedReceipt<'a>>,
}

impl<'a> Group<'a> {
    /// Nothing.
    fn new() -> Group<'a>
        ensures { result ≡ within.no_group }
    {
        Group {
            found: None,
            decider: None,
        }
    }

    /// Takes one more message.
    fn add_message(&mut self, place: Place)
        ensures { self.new ≡ within.with_message place self.old }
    {
        self.found = Some(match self.found {
            None => Match::One(place),
            Some(_) => Match::Many,
        });
    }

    /// Takes one more receipt.
    fn add_receipt(&mut self, receipt: &PlacedReceipt<'a>)
        ensures { self.new ≡ within.with_receipt receipt.now self.old }
    {
        if receipt.received.can_decide() && self.is_least(receipt) {
            self.decider = Some(receipt.copy());
        }
    }

    /// Whether a receipt comes before that which decides so far.
    fn is_least(&self, receipt: &PlacedReceipt<'a>) -> bool
        ensures { result ≡ within.is_least self.now.decider receipt.now }
    {
        match &self.decider {
            Some(decider) => decider.is_after(receipt),
            None => true,
        }
    }
}

/// What is kept under a number: the messages, and the receipt that decides them.
pub(crate) fn group_at<'d, 'a>(
    groups: &'d [Group<'a>],
    number: usize,
) -> (Option<Match>, Option<&'d PlacedReceipt<'a>>)
    ensures found { result.0 ≡ (get_or groups.now number within.no_group).found }
    ensures decider { option_copied result.1 ≡ (get_or groups.now number within.no_group).decider }
{
    match groups.get(number) {
        Some(group) => (group.found, group.decider.as_ref()),
        None => (None, None),
    }
}

/// What there is of each key, by its number.
#[derive(Drop)]
pub(crate) struct Groups<'a> {
    pub keys: KeyNumbers,
    pub groups: Vec<Group<'a>>,
}

impl<'a> Groups<'a> {
    /// What there is of the keys of these messages, with the number of each.
    pub(crate) fn of_submits(
        alloc: Global,
        submits: &[SubmittedMessage<'_>],
    ) -> Result<(Groups<'a>, Vec<Option<usize>>), AllocError>
        ensures { IfOk result (λ made. within.HasSubmits made.0 submits.now made.1.items) }
    {
        let mut kept = Groups {
            keys: KeyNumbers::new(alloc),
            groups: Vec::new(alloc),
        };
        let mut numbers = Vec::with_capacity(alloc, submits.len())?;
        for submit in submits {
            let number = match submit.key() {
                Some(key) => Some(kept.add_message(key, submit.place())?),
                None => None,
            };
            numbers.push(number)?;
        }
        Ok((kept, numbers))
    }

    /// Takes the receipts of sessions, and gives them with the numbers of their keys.
    pub(crate) fn add_receipts(
        &mut self,
        alloc: Global,
        sessions: &[SessionView<'a>],
    ) -> Result<Vec<NumberedReceipt<'a>>, AllocError>
        requires { within.AreGrouped self.old }
        ensures { IfOk result (λ made.
            within.AddsReceipts self.old self.new (flat_map receipts_in sessions.now) made.items) }
    {
        let mut made = Vec::new(alloc);
        for view in sessions {
            for pdu in view.session.centre.pdus() {
                if let Some((key, receipt)) = receipt_at(view.source, pdu) {
                    let number = self.add_receipt(key, &receipt)?;
                    let form = view.source.forms.receipt;
                    made.push(NumberedReceipt {
                        receipt,
                        form,
                        number,
                    })?;
                }
            }
        }
        Ok(made)
    }

    /// Takes one more message, which is accepted with this key.
    fn add_message(&mut self, key: HashedKey, place: Place) -> Result<usize, AllocError>
        requires { within.AreGrouped self.old }
        ensures { IfOk result (λ number. within.Changes self.old self.new key number (within.with_message place)) }
    {
        let number = self.number_of(key)?;
        let group = &mut self.groups[number];
        group.add_message(place);
        Ok(number)
    }

    /// Takes one more receipt of this key.
    fn add_receipt(
        &mut self,
        key: HashedKey,
        receipt: &PlacedReceipt<'a>,
    ) -> Result<usize, AllocError>
        requires { within.AreGrouped self.old }
        ensures { IfOk result (λ number. within.Changes self.old self.new key number (within.with_receipt receipt.now)) }
    {
        let number = self.number_of(key)?;
        let group = &mut self.groups[number];
        group.add_receipt(receipt);
        Ok(number)
    }

    /// The number of a key, under which something is kept.
    fn number_of(&mut self, key: HashedKey) -> Result<usize, AllocError>
        requires { within.AreGrouped self.old }
        ensures { IfOk result (λ number. within.Changes self.old self.new key number (λ group. group)) }
    {
        let number = self.keys.number_of(key)?;
        if number == self.groups.len() {
            self.groups.push(Group::new())?;
        }
        Ok(number)
    }
}
