//! Laws and known values of the definitions: each is the contract of a function with no body.
ghost use Rattle.smq_parts.specs.Known.{KnowsParts};
ghost use Rattle.smq_parts.specs.Parts.{HaveTheirRows};

/// Whatever rows are put one after the other, each script has exactly those of its link and period, in order, behind what it had.
pub fn parts_have_their_rows()
    ensures { HaveTheirRows }
{}

/// The scripts of known rows.
pub fn known_parts()
    ensures { KnowsParts }
{}
