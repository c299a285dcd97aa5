//! Laws of the definitions: each is the contract of a function with no body.
ghost use Rattle.std.specs.Prelude.{◌≡◌, ◌↔◌, IsTrue};
ghost use Rattle.smq_load.specs.Faults.{faults_eq};
ghost use Rattle.smq_load.specs.Known.{KnowsDecimals, KnowsFields, KnowsInstants, KnowsLimits, KnowsNumbers, KnowsPieces, KnowsRows, KnowsScripts, KnowsSettings};
ghost use Rattle.smq_load.specs.Laws.{HasOneReading};

use crate::load_fault::LoadFault;

/// Each text is a script of one list of rows, or has one first bad record, and never both.
pub fn one_reading()
    ensures { HasOneReading }
{}

/// `==` of faults answers whether they are one.
pub fn fault_eq_is_equality()
    ensures { (a b : LoadFault) → IsTrue (faults_eq a b) ↔ (a ≡ b) }
{}

/// The limits of a script and of settings.
pub fn known_limits()
    ensures { KnowsLimits }
{}

/// The numbers of known decimals.
pub fn known_decimals()
    ensures { KnowsDecimals }
{}

/// The greatest links, sessions, routes and moments, and those past them.
pub fn known_numbers()
    ensures { KnowsNumbers }
{}

/// The moments of known instants, and texts that are none.
pub fn known_instants()
    ensures { KnowsInstants }
{}

/// Directions, forms, prefixes and networks by their names.
pub fn known_fields()
    ensures { KnowsFields }
{}

/// The rows of known records of pieces, and records of pieces that say none.
pub fn known_pieces()
    ensures { KnowsPieces }
{}

/// The rows of known records of each other kind, and such records that say none.
pub fn known_rows()
    ensures { KnowsRows }
{}

/// The rows of known settings.
pub fn known_settings()
    ensures { KnowsSettings }
{}

/// The rows and the first bad records of known scripts.
pub fn known_scripts()
    ensures { KnowsScripts }
{}
