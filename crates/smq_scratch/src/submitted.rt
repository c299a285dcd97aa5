//! What is known of each submitted message that is present, and the lines for them.
ghost use Rattle.std.specs.Prelude.{◌≡◌, ◌==◌, ◌<◌, ◌^◌, List, Option, option_map, length, IfOk};
ghost use Rattle.std.specs.Iterator.{YieldsFirst, item_count};
ghost use Rattle.std.specs.Option.{option_copied};
ghost use Rattle.smq_kit.specs.declared.link_key.LinkKey.{LinkKey};
ghost use Rattle.smq_present.specs.join.Outcomes.{is_shared};
ghost use Rattle.smq_present.specs.within.Accepted.{decider_of};
ghost use Rattle.smq_present.specs.within.Lists.{facts_listed, receipts_of, submits_of};
ghost use Rattle.smq_present.specs.within.Messages.{SubmittedMessage};
ghost use Rattle.smq_present.specs.within.Outcomes.{fact_among, received, standing_of};
ghost use Rattle.smq_present.specs.within.Receipts.{KeyedReceipt};
ghost use Rattle.smq_scratch.specs.Lines as lines;
ghost use Rattle.smq_scratch.specs.within.Groups.{AreOfMessages, HasGroup, number_in};

use crate::groups::{Group, Match, group_at};
use crate::joined::Joined;
use crate::receipts::PlacedReceipt;
use smq_present::{
    Fact, MessageLine, Present, ReceivedReceipt, SubmittedMessage, fact_in_settings,
};
use std::alloc::{AllocError, Global};
use std::marker::Model;
use std::vec::IntoIter;

/// The lines for the submitted messages that are present, in the order of their places, each made as it is asked for: what is known of
/// the message, as `tables_from_nothing` counts it, and where its response and the receipt that decides it stand. A contract sees the
/// list of those that are left.
#[derive(Drop)]
pub struct MessageLines<'a> {
    present: &'a Present,
    /// The messages whose lines are left.
    submits: IntoIter<SubmittedMessage<'a>>,
    /// The numbers of their keys.
    numbers: IntoIter<Option<usize>>,
    groups: Vec<Group<'a>>,
}

impl<'a> Model for MessageLines<'a> {
    ghost use Rattle.std.specs.Prelude.{List, map};
    ghost use Rattle.std.specs.Vec.Iter.{into_iter_items};
    ghost use Rattle.smq_present.specs.join.Lines.{MessageLineValue};
    ghost use Rattle.smq_present.specs.within.Lists.{receipts_of, submits_of};
    ghost use Rattle.smq_scratch.specs.Lines.{message_line};
    ghost use Rattle.smq_scratch.specs.within.Groups.{AreOfMessages};

    ghost Value = { List MessageLineValue };

    ghost view = { λ l. map (message_line l.present.now.settings (submits_of l.present.now) (receipts_of l.present.now))
        (into_iter_items l.submits) };

    ghost invariant = { λ l. AreOfMessages l.groups.items (submits_of l.present.now) (receipts_of l.present.now)
        (into_iter_items l.submits) (into_iter_items l.numbers) };
}

impl<'a> MessageLines<'a> {
    /// Those for what is present: fewer than 2^63.
    pub fn of(alloc: Global, present: &'a Present) -> Result<MessageLines<'a>, AllocError>
        ensures all { IfOk result (λ left. left ≡ lines.message_lines present.now) }
        ensures few { IfOk result (λ left. length left < 2 ^ 63) }
    {
        let Joined {
            submits,
            numbers,
            groups,
            ..
        } = Joined::of(alloc, present)?;
        Ok(MessageLines {
            present,
            submits: submits.into_iter(),
            numbers: numbers.into_iter(),
            groups,
        })
    }

    /// How many are left.
    fn len(&self) -> usize
        ensures { result ≡ length self.now }
    {
        self.submits.len()
    }
}

impl<'a> Iterator for MessageLines<'a> {
    type Item = MessageLine<'a>;

    ghost next_gives = { YieldsFirst (λ left. left) };

    ghost remaining = { item_count (λ left. left) };

    fn next(&mut self) -> Option<MessageLine<'a>> {
        let submit = self.submits.next()?;
        let number = self.numbers.next()?;
        let groups = self.groups.as_slice();
        Some(message_line(self.present, &submit, number, groups))
    }
}

/// A line for each submitted message that is present, in the order of their places.
pub fn message_lines<'a>(
    alloc: Global,
    present: &'a Present,
) -> Result<Vec<MessageLine<'a>>, AllocError>
    ensures { IfOk result (λ made. made.items ≡ lines.message_lines present.now) }
{
    let lines = MessageLines::of(alloc, present)?;
    let mut made = Vec::with_capacity(alloc, lines.len())?;
    for line in lines {
        made.push(line)?;
    }
    Ok(made)
}

/// A fact of each submitted message that is present, in the order of places, where these are the messages.
pub(crate) fn facts_of(
    alloc: Global,
    present: &Present,
    submits: &[SubmittedMessage<'_>],
    numbers: &[Option<usize>],
    groups: &[Group<'_>],
) -> Result<Vec<Fact>, AllocError>
    requires submits { submits.now ≡ submits_of present.now }
    requires numbers { AreOfMessages groups.now (submits_of present.now) (receipts_of present.now) submits.now numbers.now }
    ensures { IfOk result (λ made. made.items ≡ facts_listed present.now) }
{
    let mut facts = Vec::with_capacity(alloc, submits.len())?;
    for at in 0..submits.len() {
        let number = numbers[at];
        facts.push(known_of(present, &submits[at], number, groups).0)?;
    }
    Ok(facts)
}

/// The line for a message.
fn message_line<'a>(
    present: &Present,
    submit: &SubmittedMessage<'a>,
    number: Option<usize>,
    groups: &[Group<'_>],
) -> MessageLine<'a>
    requires { HasGroup groups.now (submits_of present.now) (receipts_of present.now) submit.now.key number }
    ensures { result ≡ lines.message_line present.now.settings (submits_of present.now) (receipts_of present.now) submit.now }
{
    let (fact, decider) = known_of(present, submit, number, groups);
    MessageLine {
        fact,
        moment: submit.request.moment,
        number: submit.submit.number.as_ref(),
        id: submit.id(),
        response: submit.response_offset(),
        receipt: match decider {
            Some(receipt) => Some(receipt.deciding()),
            None => None,
        },
        form: submit.source.forms.response,
        command: submit.request.command,
        source_ton: submit.submit.source_ton,
        source: submit.submit.source.as_ref(),
    }
}

/// What is known of a message, and the receipt that decides it.
fn known_of<'d, 'a>(
    present: &Present,
    submit: &SubmittedMessage<'_>,
    number: Option<usize>,
    groups: &'d [Group<'a>],
) -> (Fact, Option<&'d PlacedReceipt<'a>>)
    requires { HasGroup groups.now (submits_of present.now) (receipts_of present.now) submit.now.key number }
    ensures fact { result.0
        ≡ fact_among present.now.settings (submits_of present.now) (receipts_of present.now) submit.now }
    ensures decider { option_copied result.1
        ≡ decider_of (submits_of present.now) (receipts_of present.now) submit.now.key }
{
    let (shared, decider) = decision(number, groups);
    let settings = present.settings();
    let message = submit.message();
    let received = received_in(decider);
    let fact = fact_in_settings(settings, submit.place(), &message, shared, received);
    (fact, decider)
}

/// Whether a message shares its key, and the receipt that decides it, by the number of its key.
fn decision<'d, 'a>(
    number: Option<usize>,
    groups: &'d [Group<'a>],
) -> (bool, Option<&'d PlacedReceipt<'a>>)
    ensures shared { (submits : List SubmittedMessage) (receipts : List KeyedReceipt) (key : Option LinkKey)
        → HasGroup groups.now submits receipts key number
        → result.0 ≡ is_shared (option_map (standing_of submits receipts) key) }
    ensures decider { (submits : List SubmittedMessage) (receipts : List KeyedReceipt) (key : Option LinkKey)
        → HasGroup groups.now submits receipts key number
        → option_copied result.1 ≡ decider_of submits receipts key }
{
    let Some(number) = number else {
        return (false, None);
    };
    let (found, decider) = group_at(groups, number);
    if is_single(found) {
        (false, decider)
    } else {
        (true, None)
    }
}

/// Whether one message is accepted with a key and no other.
fn is_single(found: Option<Match>) -> bool
    ensures { result ≡ (number_in found == 1) }
{
    matches!(found, Some(Match::One(_)))
}

/// What the receipt says that decides, where one does.
fn received_in<'d, 'a>(decider: Option<&'d PlacedReceipt<'a>>) -> Option<&'d ReceivedReceipt<'a>>
    ensures { option_copied result ≡ option_map received (option_copied decider.entry) }
{
    Some(&decider?.received)
}
