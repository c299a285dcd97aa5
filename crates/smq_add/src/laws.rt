//! Laws of the definitions: each is the contract of a function with no body.
ghost use Rattle.std.specs.Prelude.{◌≡◌, ◌++◌, List};
ghost use Rattle.smq_add.specs.Sums.{sum_of};
ghost use Rattle.smq_add.specs.Known.{KnowsApart, KnowsLines, KnowsNumbers, KnowsSums, KnowsWholes};

use crate::row::Row;

/// The sum of reports is the same in any order.
pub fn reports_add_in_any_order()
    ensures { (some others : List Row) → sum_of (some ++ others) ≡ sum_of (others ++ some) }
{}

/// How rows are written.
pub fn known_lines()
    ensures { KnowsLines }
{}

/// The sums of known reports.
pub fn known_sums()
    ensures { KnowsSums }
{}

/// Which reports are whole.
pub fn known_wholes()
    ensures { KnowsWholes }
{}

/// Which reports can be added.
pub fn known_apart()
    ensures { KnowsApart }
{}

/// Which texts begin as numbers do.
pub fn known_numbers()
    ensures { KnowsNumbers }
{}
