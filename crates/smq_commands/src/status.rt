//! The statuses with which the program ends.
ghost use Rattle.std.specs.Prelude.{◌≡◌};
ghost use Rattle.smq_commands.specs.Statuses.{check_status, fault_status, follow_status, run_status};

use smq_engine::{Checked, Followed, RunFault};
use smq_kit::Refusal;

/// No row was refused, or help or the version was told.
pub(crate) const DONE: u8 = 0;

/// Some row was refused, or the tables of a check differ.
pub(crate) const REFUSED: u8 = 1;

/// The words ask for nothing that the program does, or a row or the settings can't be read.
pub(crate) const BAD_INPUT: u8 = 2;

/// A read or a write failed.
pub(crate) const FAULT: u8 = 3;

/// Memory ran out, the system started no thread, or a desk took no edit.
pub(crate) const NO_MEMORY: u8 = 4;

/// The status of a script that was run, by its refused rows.
pub(crate) fn ran_status(refused: &[(u64, Refusal)]) -> u8
    ensures { result ≡ run_status refused.now }
{
    if refused.is_empty() { DONE } else { REFUSED }
}

/// The status of a script that was checked, by what was found.
pub(crate) fn check_status(checked: Checked) -> u8
    ensures { result ≡ check_status checked }
{
    if checked.same && checked.refused == 0 {
        DONE
    } else {
        REFUSED
    }
}

/// The status of records that were followed to their end, by how many rows were refused.
pub(crate) fn followed_status(followed: Followed) -> u8
    ensures { result ≡ follow_status followed }
{
    if followed.refused == 0 { DONE } else { REFUSED }
}

/// The status of a fault, whether or not the fault can be told.
pub(crate) fn fault_status(fault: RunFault) -> u8
    ensures { result ≡ fault_status fault }
{
    match fault {
        RunFault::BadRow { row: _ } | RunFault::BadSettings => BAD_INPUT,
        RunFault::Read | RunFault::Write => FAULT,
        RunFault::Memory | RunFault::NoThread | RunFault::Desk => NO_MEMORY,
    }
}
