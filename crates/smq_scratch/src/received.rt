//! A line for each delivery receipt that is present, and the receipts that need a look.
ghost use Rattle.std.specs.Prelude.{◌≡◌, ◌++◌, IfOk, OnOk, option_to_list, option_copied};
ghost use Rattle.std.specs.List.{flat_map};
ghost use Rattle.smq_scratch.specs.Lines as lines;
ghost use Rattle.smq_scratch.specs.within.Groups.{line_kept, lines_kept, number_in, place_in};

use crate::groups::{Group, Match, group_at};
use crate::joined::Joined;
use crate::receipts::{NumberedReceipt, PlacedReceipt};
use smq_kit::Place;
use smq_present::{List, Listed, Present, ReceiptLine, ReceiptStanding};
use std::alloc::{AllocError, Global};

/// A line for each delivery receipt that is present, in the order of their places: how it stands to the messages that are accepted
/// with its key.
pub fn receipt_lines<'a>(
    alloc: Global,
    present: &'a Present,
) -> Result<Vec<ReceiptLine<'a>>, AllocError>
    ensures { IfOk result (λ made. made.items ≡ lines.receipt_lines present.now) }
{
    let joined = Joined::of(alloc, present)?;
    let receipts = joined.receipts.as_slice();
    let groups = joined.groups.as_slice();
    let mut made = Vec::with_capacity(alloc, receipts.len())?;
    for receipt in receipts {
        made.push(line_of(receipt, groups))?;
    }
    Ok(made)
}

/// Puts the receipts that are in a list after what is there.
pub(crate) fn push_receipt_notes(
    notes: &mut Vec<Listed>,
    receipts: &[NumberedReceipt<'_>],
    groups: &[Group<'_>],
) -> Result<(), AllocError>
    ensures { OnOk result (notes.new.items ≡ notes.old.items ++ flat_map lines.listing_of (lines_kept groups.now receipts.now)) }
{
    for receipt in receipts {
        if let Some(note) = note_of(receipt, groups) {
            notes.push(note)?;
        }
    }
    Ok(())
}

/// A receipt in its list, if it has one.
fn note_of(receipt: &NumberedReceipt<'_>, groups: &[Group<'_>]) -> Option<Listed>
    ensures { option_to_list result ≡ lines.listing_of (line_kept groups.now receipt.now) }
{
    let (found, decider) = group_at(groups, receipt.number);
    let list = list_of(standing(found, decider, &receipt.receipt))?;
    let place = receipt.receipt.place;
    Some(Listed { list, place })
}

/// The line for a receipt.
fn line_of<'a>(receipt: &NumberedReceipt<'a>, groups: &[Group<'_>]) -> ReceiptLine<'a>
    ensures { result ≡ line_kept groups.now receipt.now }
{
    let (found, decider) = group_at(groups, receipt.number);
    let placed = &receipt.receipt;
    let standing = standing(found, decider, placed);
    ReceiptLine {
        link: placed.received.link,
        place: placed.place,
        moment: placed.received.moment,
        receipt: placed.received.receipt,
        standing,
        message: message_at(found),
        form: receipt.form,
        command: placed.command,
    }
}

/// How a receipt stands, by the messages that match it and by the receipt that decides these.
fn standing(
    found: Option<Match>,
    decider: Option<&PlacedReceipt<'_>>,
    receipt: &PlacedReceipt<'_>,
) -> ReceiptStanding
    ensures { result ≡ lines.standing_by (number_in found) (option_copied decider.entry) receipt.now }
{
    match (found, decider) {
        (None, _) => ReceiptStanding::Stray,
        (Some(Match::Many), _) => ReceiptStanding::Ambiguous,
        (_, Some(decider)) if decider.place == receipt.place => ReceiptStanding::Deciding,
        _ if receipt.received.can_decide() => ReceiptStanding::Extra,
        _ => ReceiptStanding::Noted,
    }
}

/// The place of the message that matches alone.
fn message_at(found: Option<Match>) -> Option<Place>
    ensures { result ≡ place_in found }
{
    match found {
        Some(Match::One(place)) => Some(place),
        _ => None,
    }
}

/// The list of the receipts that stand so, if there is one.
fn list_of(standing: ReceiptStanding) -> Option<List>
    ensures { result ≡ lines.list_of standing }
{
    match standing {
        ReceiptStanding::Stray => Some(List::StrayReceipts),
        ReceiptStanding::Ambiguous => Some(List::AmbiguousReceipts),
        ReceiptStanding::Extra => Some(List::ExtraReceipts),
        ReceiptStanding::Deciding | ReceiptStanding::Noted => None,
    }
}
