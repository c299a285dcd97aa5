//! Laws of the definitions, and known values of them: each is the contract of a function with no body.
ghost use Rattle.std.specs.Prelude.{◌≡◌, ◌++◌, ◌∷◌, ◌≤◌, ℕ, List, cond, drop, map, pos, unsigned_abs};
ghost use Rattle.std.specs.FinMap as fin;
ghost use Rattle.std.specs.Fmt.{decimal};
ghost use Rattle.std.specs.List.{sum_by};
ghost use Rattle.std.specs.Ordering.{eq_by_cmp};
ghost use Rattle.jiff_core.specs.Date.{epoch_day};
ghost use Rattle.jiff_core.specs.declared.civil.date.Date.{Date};
ghost use Rattle.smq_kit.specs.Maps.{positive};
ghost use Rattle.smq_present.specs.join.Lines.{MessageLineValue};
ghost use Rattle.smq_count.specs.Cells.{Tuple, tuple_by, tuple_cmp};
ghost use Rattle.smq_count.specs.Counts.{counts_among, number_among};
ghost use Rattle.smq_count.specs.Known.{IsBerlin, KnowsBerlin, KnowsCells, KnowsColumns, KnowsDays, KnowsLocalTime, KnowsOrder};
ghost use Rattle.smq_count.specs.Months.{day_text, two_digits};

use crate::column::Column;
use crate::local::Zone;
use jiff_tz::Tzif;

/// Each combination of cells stands among the counts with the number of messages that have it, and none that no message has.
pub fn counts_are_numbers()
    ensures { (tuples : List Tuple) (tuple : Tuple)
        → fin.get (counts_among tuples) tuple ≡ positive (number_among tuples tuple) }
{}

/// Summed over a column, counts are those without it.
pub fn counts_add_up()
    ensures { (zone : Zone) (column : Column) (columns : List Column) (lines : List MessageLineValue)
        (tuple : Tuple)
        → sum_by (λ count. cond (eq_by_cmp tuple_cmp tuple (drop 1 count.0)) count.1 0)
        (fin.entries (counts_among (map (tuple_by zone (column ∷ columns)) lines)))
        ≡ number_among (map (tuple_by zone columns) lines) tuple }
{}

/// A day is written by its date: the year, the month and the day, up to 1 January 2100.
pub fn days_are_written_by_their_dates()
    ensures { (date : Date) (day : ℕ) → epoch_day date ≡ pos day → day ≤ 47482
        → day_text day ≡ decimal (unsigned_abs date.year) ++ 45 ∷ two_digits date.month ++ 45 ∷ two_digits date.day }
{}

/// How known days are written.
pub fn known_days()
    ensures { KnowsDays }
{}

/// How known periods of local time are written, and what a known time zone shows.
pub fn known_local_times()
    ensures texts { KnowsLocalTime }
    ensures berlin { (zone : Tzif) → IsBerlin zone → KnowsBerlin zone }
{}

/// The names of columns.
pub fn known_columns()
    ensures { KnowsColumns }
{}

/// How known cells are written, and of which periods known moments are.
pub fn known_cells()
    ensures cells { KnowsCells }
    ensures order { KnowsOrder }
{}
