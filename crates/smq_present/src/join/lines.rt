//! What lines for messages and delivery receipts say.
ghost use Rattle.std.specs.Prelude.{◌≡◌};

use smq_kit::{Digits, Form, Key, LinkId, MessageId, Moment, Place, key_of};
use smq_pdu::SourceAddress;
use smq_receipt::Receipt;
use smq_tally::Fact;
use std::marker::Model;

/// What a line for a message says.
#[derive(Drop)]
pub struct MessageLine<'a> {
    /// What is known of the message, and where its submit_sm or data_sm (SMPP 3.4, 4.4.1 and 4.7.1) stands.
    pub fact: Fact,
    /// When that came.
    pub moment: Moment,
    /// The number that it is sent to (5.2.9), where it has one.
    pub number: Option<&'a Digits>,
    /// The id with which it is accepted, as its response gives it (message_id, 5.2.23).
    pub id: Option<&'a MessageId>,
    /// Where its response stands, in octets from the centre's first, where it has one.
    pub response: Option<u64>,
    /// The delivery receipt that decides it, where one does.
    pub receipt: Option<DecidingReceipt>,
    /// How ids are written in responses of its link.
    pub form: Form,
    /// The command_id of its submit_sm or data_sm (5.1.2.1).
    pub command: u32,
    /// The address that it comes from: source_addr_ton (5.2.5) and source_addr (5.2.8), as `Submit` has them.
    pub source_ton: u8,
    pub source: Option<&'a SourceAddress>,
}

impl<'a> Model for MessageLine<'a> {
    ghost use Rattle.std.specs.Option.{option_copied, option_map};
    ghost use Rattle.smq_kit.specs.Keys.{key_under};
    ghost use Rattle.smq_present.specs.join.Lines.{MessageLineValue};

    ghost Value = { MessageLineValue };

    ghost view = { λ l. record {
      fact = l.fact;
      moment = l.moment;
      number = option_copied l.number;
      id = option_copied l.id;
      response = l.response;
      receipt = l.receipt;
      key = option_map (key_under l.form) (option_copied l.id);
      command = l.command;
      source_ton = l.source_ton;
      source = option_copied l.source;
    } };
}

impl<'a> MessageLine<'a> {
    /// The key of the id with which it is accepted, where it is. It takes no memory.
    pub fn key(&self) -> Option<Key>
        ensures { result ≡ self.now.key }
    {
        match self.id {
            Some(id) => Some(key_of(self.form, id)),
            None => None,
        }
    }
}

/// The delivery receipt that decides a message.
#[derive(Clone, Copy, Debug, PartialEq, Eq)]
pub struct DecidingReceipt {
    /// Where its deliver_sm or data_sm stands (4.6.1 and 4.7.1).
    pub place: Place,
    /// When that came.
    pub moment: Moment,
    /// Done date minus submit date (appendix B), in ms, where both are there and are dates. It may be negative.
    pub centre_delay: Option<i64>,
}

/// How a delivery receipt stands to the messages of its link that are accepted with its key.
#[derive(Clone, Copy, Debug, PartialEq, Eq)]
pub enum ReceiptStanding {
    /// There is none.
    Stray,
    /// There is one, which it decides.
    Deciding,
    /// There is one, which another receipt decides; this one could have.
    Extra,
    /// There is one, which it can't decide: its state isn't final (5.2.28), or it is an intermediate notification.
    Noted,
    /// There are two or more.
    Ambiguous,
}

impl ReceiptStanding {
    ghost use Rattle.smq_present.specs.join.Lines.{standing_name};

    /// The name in lines.
    pub fn name(self) -> &'static str
        ensures { result.now ≡ standing_name self }
    {
        match self {
            ReceiptStanding::Stray => "stray",
            ReceiptStanding::Deciding => "deciding",
            ReceiptStanding::Extra => "extra",
            ReceiptStanding::Noted => "noted",
            ReceiptStanding::Ambiguous => "ambiguous",
        }
    }
}

/// What a line for a delivery receipt says.
#[derive(Drop)]
pub struct ReceiptLine<'a> {
    /// The link of its session.
    pub link: LinkId,
    /// Where its deliver_sm or data_sm stands.
    pub place: Place,
    /// When that came.
    pub moment: Moment,
    /// What it says.
    pub receipt: &'a Receipt,
    /// How it stands to messages.
    pub standing: ReceiptStanding,
    /// The message that it matches, where that is one alone.
    pub message: Option<Place>,
    /// How ids are written in delivery receipts of its link.
    pub form: Form,
    /// The command_id of its deliver_sm or data_sm.
    pub command: u32,
}

impl<'a> Model for ReceiptLine<'a> {
    ghost use Rattle.smq_kit.specs.Keys.{key_under};
    ghost use Rattle.smq_present.specs.join.Lines.{ReceiptLineValue};

    ghost Value = { ReceiptLineValue };

    ghost view = { λ l. record {
      link = l.link;
      place = l.place;
      moment = l.moment;
      receipt = l.receipt.now;
      standing = l.standing;
      message = l.message;
      key = key_under l.form l.receipt.now.id;
      command = l.command;
    } };
}

impl<'a> ReceiptLine<'a> {
    /// The key of the id that it names. It takes no memory.
    pub fn key(&self) -> Key
        ensures { result ≡ self.now.key }
    {
        key_of(self.form, &self.receipt.id)
    }
}
