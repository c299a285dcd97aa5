//! Laws of lines: what they have in common with the tables of what is present. Each is the contract of a function with no body.
ghost use Rattle.std.specs.Prelude.{◌≡◌, ◌↔◌, ◌⊎◌, Contains, Some, count_by, is_some, map};
ghost use Rattle.std.specs.FinMap as fin;
ghost use Rattle.std.specs.List.{flat_map};
ghost use Rattle.smq_pdu.specs.Commands.{data_sm, deliver_sm, submit_sm};
ghost use Rattle.smq_tally.specs.Rows.{count_key, stands_in};
ghost use Rattle.smq_tally.specs.Tables.{count_at, listed_in};
ghost use Rattle.smq_present.specs.join.Lines.{MessageLineValue, ReceiptLineValue};
ghost use Rattle.smq_present.specs.declared.join.lines.DecidingReceipt.{DecidingReceipt as Named};
ghost use Rattle.smq_present.specs.declared.join.lines.ReceiptStanding.TheVariants.{Deciding};
ghost use Rattle.smq_present.specs.join.Facts.{facts_of};
ghost use Rattle.smq_present.specs.join.Keyed.{grouping_of};
ghost use Rattle.smq_present.specs.join.Listings.{receipt_notes};
ghost use Rattle.smq_present.specs.join.Outcomes.{is_decided};
ghost use Rattle.smq_present.specs.pairing.Traffic.{traffic_of};
ghost use Rattle.smq_present.specs.present.Present.{PresentValue};
ghost use Rattle.smq_present.specs.present.Settings.{SettingsValue};
ghost use Rattle.smq_present.specs.whole.Scratch.{scratch};
ghost use Rattle.smq_scratch.specs.Known.{KnownKeyLines, KnownMessageLines, KnownReceiptLines};
ghost use Rattle.smq_scratch.specs.Lines.{HasDecidingLine, HasLineAt, HasLineNaming, listing_of, message_lines, receipt_lines};

use smq_kit::Place;
use smq_present::{List, Outcome, Value, View};

/// The lines for messages have the facts that are known by place, in order: one for each message.
pub fn message_lines_have_the_facts()
    ensures { (p : PresentValue) → map (λ line. line.fact) (message_lines p)
        ≡ fin.values (facts_of p.settings (traffic_of p.sessions)) }
{}

/// Of each view, as many lines for messages have a value and an outcome as the tables count.
pub fn message_lines_are_counted()
    ensures { (p : PresentValue) (view : View) (value : Value) (outcome : Outcome)
        → count_at (scratch p) view value outcome
        ≡ count_by (λ line. stands_in (count_key view value outcome) line.fact) (message_lines p) }
{}

/// The tables list as open exactly the places of the messages whose lines are open; likewise those that lapsed.
pub fn open_and_lapsed_lines_are_listed()
    ensures open { (p : PresentValue) (place : Place)
        → Contains (listed_in (scratch p) List.Open) place
        ↔ HasLineAt (message_lines p) Outcome.Open place }
    ensures lapsed { (p : PresentValue) (place : Place)
        → Contains (listed_in (scratch p) List.Lapsed) place
        ↔ HasLineAt (message_lines p) Outcome.Lapsed place }
{}

/// A line names a deciding receipt exactly where its message was delivered or failed.
pub fn lines_name_what_decides()
    ensures { (p : PresentValue) → map (λ line. is_some line.receipt) (message_lines p)
        ≡ map (λ line. is_decided line.fact.outcome) (message_lines p) }
{}

/// The receipt that a line for a message names has a line, which says that it decides and names that message; and the message that the
/// line for a deciding receipt names has a line, which names that receipt.
pub fn lines_name_each_other()
    ensures receipts { (p : PresentValue) (line : MessageLineValue) (named : Named)
        → Contains (message_lines p) line → line.receipt ≡ Some named
        → HasDecidingLine (receipt_lines p) line.fact.place named }
    ensures messages { (p : PresentValue) (line : ReceiptLineValue)
        → Contains (receipt_lines p) line → line.standing ≡ Deciding
        → HasLineNaming (message_lines p) line }
{}

/// The lines for delivery receipts, each in the list of its standing, give the receipts that are listed, in order: the stray, the
/// ambiguous and the extra ones.
pub fn receipt_lines_give_the_lists()
    ensures { (p : PresentValue) → flat_map listing_of (receipt_lines p)
        ≡ receipt_notes (grouping_of p.settings (traffic_of p.sessions)) }
{}

/// A message is a submit_sm or a data_sm, by the command of its line, and a delivery receipt a deliver_sm or a data_sm.
pub fn lines_are_of_few_commands()
    ensures messages { (p : PresentValue) (line : MessageLineValue) → Contains (message_lines p) line
        → (line.command ≡ submit_sm) ⊎ (line.command ≡ data_sm) }
    ensures receipts { (p : PresentValue) (line : ReceiptLineValue) → Contains (receipt_lines p) line
        → (line.command ≡ deliver_sm) ⊎ (line.command ≡ data_sm) }
{}

/// The lines for messages and receipts that are written out: each standing of a receipt, a message that is delivered, two that share an
/// id, and three without one; and the keys and commands of others, of a link with two forms of ids.
pub fn lines_of_known_messages()
    ensures messages { (s : SettingsValue) → KnownMessageLines s }
    ensures receipts { KnownReceiptLines }
    ensures keys { (s : SettingsValue) → KnownKeyLines s }
{}
