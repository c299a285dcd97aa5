//! Known values of the definitions: each is the contract of a function with no body.
ghost use Rattle.smq_commands.specs.CaptureRows.{RowsAreRead};
ghost use Rattle.smq_commands.specs.Known.{KnowsScripts, KnowsStatuses};

/// The statuses with which the program ends.
pub fn known_statuses()
    ensures { KnowsStatuses }
{}

/// The names of scripts of links, days and hours.
pub fn known_names()
    ensures { KnowsScripts }
{}

/// What is written of captures is read as those pieces of sessions, one after the other, and nothing else.
pub fn rows_are_read()
    ensures { RowsAreRead }
{}
