//! Laws of the definitions: each is the contract of a function with no body.
ghost use Rattle.std.specs.Prelude.{◌≡◌, ◌++◌, ◌↔◌, ◌<◌, ◌^◌, ℕ, IsTrue, List};
ghost use Rattle.std.specs.List.{flat_map};
ghost use Rattle.smq_tally.specs.Lists.{lists};
ghost use Rattle.smq_tally.specs.Rows.{views};
ghost use Rattle.smq_tally.specs.Tables.{TablesValue};
ghost use Rattle.smq_report.specs.Csv.{csv_text};
ghost use Rattle.smq_report.specs.Equal.{faults_eq, formats_eq, picks_eq, sections_eq};
ghost use Rattle.smq_report.specs.Known.{KnowsBeginnings, KnowsColumns, KnowsReports, KnowsSections, KnowsTexts};
ghost use Rattle.smq_report.specs.KnownLines.{KnowsKeys, KnowsMessages, KnowsNames, KnowsQuotes, KnowsReceipts};
ghost use Rattle.smq_report.specs.Lines.{key_text};
ghost use Rattle.smq_report.specs.Table.{table_text};

use crate::pick::{Format, Pick, ReportFault, Section};
use smq_kit::Key;

/// A whole report is those of the views and then those of the lists, one after the other.
pub fn whole_reports_are_those_of_views_and_lists()
    ensures csv { (tables : TablesValue) → csv_text tables Pick.All
        ≡ flat_map (λ view. csv_text tables (Pick.View view)) views
        ++ flat_map (λ list. csv_text tables (Pick.List list)) lists }
    ensures table { (tables : TablesValue) → table_text tables Pick.All
        ≡ flat_map (λ view. table_text tables (Pick.View view)) views
        ++ flat_map (λ list. table_text tables (Pick.List list)) lists }
{}

/// `==` of picks, sections, formats and faults answers whether they are one.
pub fn what_is_asked_for_is_told_apart()
    ensures picks { (a b : Pick) → IsTrue (picks_eq a b) ↔ (a ≡ b) }
    ensures sections { (a b : Section) → IsTrue (sections_eq a b) ↔ (a ≡ b) }
    ensures formats { (a b : Format) → IsTrue (formats_eq a b) ↔ (a ≡ b) }
    ensures faults { (a b : ReportFault) → IsTrue (faults_eq a b) ↔ (a ≡ b) }
{}

/// Two numbers, and likewise two texts, are one key exactly where they are printed alike. (A number and a text may be, too.)
pub fn keys_of_a_kind_are_printed_apart()
    ensures numbers { (a b : ℕ) → a < 2 ^ 128 → b < 2 ^ 128
        → (key_text (Key.Number a) ≡ key_text (Key.Number b)) ↔ (Key.Number a ≡ Key.Number b) }
    ensures texts { (a b : List ℕ)
        → (key_text (Key.Text a) ≡ key_text (Key.Text b)) ↔ (Key.Text a ≡ Key.Text b) }
{}

/// The order of sections.
pub fn known_sections()
    ensures { KnowsSections }
{}

/// How known values and directions are printed.
pub fn known_texts()
    ensures { KnowsTexts }
{}

/// Columns with texts that are shorter, as long and longer.
pub fn known_columns()
    ensures { KnowsColumns }
{}

/// What begins a text of two octets, and what doesn't.
pub fn known_beginnings()
    ensures { KnowsBeginnings }
{}

/// The reports of known tables.
pub fn known_reports()
    ensures { KnowsReports }
{}

/// The texts of known lines for messages.
pub fn known_messages()
    ensures { KnowsMessages }
{}

/// The texts of known lines for delivery receipts.
pub fn known_receipts()
    ensures { KnowsReceipts }
{}

/// The texts of known keys.
pub fn known_keys()
    ensures { KnowsKeys }
{}

/// The words of commands, of states and of standings.
pub fn known_names()
    ensures { KnowsNames }
{}

/// Which fields are quoted.
pub fn known_quotes()
    ensures { KnowsQuotes }
{}
