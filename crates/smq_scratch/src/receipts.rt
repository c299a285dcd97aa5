//! Delivery receipts, each with its key or with the number of that.
ghost use Rattle.std.specs.Prelude.{◌≡◌};
ghost use Rattle.std.specs.Option.{option_to_list};
ghost use Rattle.std.specs.Ordering.{is_gt};
ghost use Rattle.smq_present.specs.within.Receipts.{receipt_cmp, receipt_by};
ghost use Rattle.smq_present.specs.present.Kept.{receipt_in};
ghost use Rattle.smq_scratch.specs.Lines.{deciding_receipt};

use smq_kit::{Dir, Form, HashedKey, Place};
use smq_present::{DecidingReceipt, ReceivedReceipt, SessionForms, StoredPdu, place_of};
use std::marker::Model;

/// A delivery receipt that the centre sent.
#[derive(Drop)]
pub(crate) struct PlacedReceipt<'a> {
    pub place: Place,
    pub received: ReceivedReceipt<'a>,
    /// The command_id of its deliver_sm or data_sm (SMPP 3.4, 5.1.2.1).
    pub command: u32,
}

impl<'a> Model for PlacedReceipt<'a> {
    ghost use Rattle.smq_present.specs.within.Receipts.{PlacedReceipt};

    ghost Value = { PlacedReceipt };

    ghost view = { λ r. record {
      link = r.received.link;
      place = r.place;
      moment = r.received.moment;
      receipt = r.received.receipt;
      command = r.command;
    } };
}

impl<'a> PlacedReceipt<'a> {
    /// What the line for a message says of it, where it decides that.
    pub(crate) fn deciding(&self) -> DecidingReceipt
        ensures { result ≡ deciding_receipt self.now }
    {
        DecidingReceipt {
            place: self.place,
            moment: self.received.moment,
            centre_delay: self.received.receipt.centre_delay,
        }
    }

    /// Whether it comes after another, by moment, then by place.
    pub(crate) fn is_after(&self, other: &PlacedReceipt<'_>) -> bool
        ensures { result ≡ is_gt (receipt_cmp self.now other.now) }
    {
        let (mine, others) = (self.received.moment, other.received.moment);
        mine > others || (mine == others && self.place > other.place)
    }

    /// An equal receipt.
    pub(crate) fn copy(&self) -> PlacedReceipt<'a>
        ensures { result ≡ self.now }
    {
        PlacedReceipt {
            place: self.place,
            received: ReceivedReceipt {
                link: self.received.link,
                moment: self.received.moment,
                receipt: self.received.receipt,
            },
            command: self.command,
        }
    }
}

/// A delivery receipt with the number of its key.
#[derive(Drop)]
pub(crate) struct NumberedReceipt<'a> {
    pub receipt: PlacedReceipt<'a>,
    /// How ids are written in delivery receipts of its link.
    pub form: Form,
    pub number: usize,
}

/// The receipt that a PDU of the centre is, with the key of its id.
pub(crate) fn receipt_at<'a>(
    source: SessionForms,
    pdu: &'a StoredPdu,
) -> Option<(HashedKey, PlacedReceipt<'a>)>
    ensures { option_to_list result ≡ receipt_by (receipt_in pdu.now.content) source pdu.now }
{
    let receipt = pdu.content.receipt()?;
    Some((
        HashedKey::of(source.link, source.forms.receipt, &receipt.id),
        PlacedReceipt {
            place: place_of(source.session, Dir::FromCentre, pdu),
            received: ReceivedReceipt {
                link: source.link,
                moment: pdu.moment,
                receipt,
            },
            command: pdu.command,
        },
    ))
}
