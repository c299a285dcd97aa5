//! Why a script wasn't run or checked, with the text that is told of it.
ghost use Rattle.std.specs.Prelude.{◌≡◌};
ghost use Rattle.smq_engine.specs.IsRun.{run_fault, unwritten_fault};

use smq_load::LoadFault;
use smq_report::ReportFault;
use std::alloc::AllocError;
use std::fmt;

/// Why a script wasn't run or checked, or why records are followed no more.
#[derive(Clone, Copy, Debug, PartialEq, Eq)]
pub enum RunFault {
    /// A record says no row, or is the record after 1,000,000 of a script; the least number of such a record, from 1.
    BadRow { row: u64 },
    /// The octets are no settings.
    BadSettings,
    /// The reader failed, or gave more octets or was read more often than a script may be.
    Read,
    /// The writer failed; some of the report may have been written.
    Write,
    /// Memory ran out.
    Memory,
    /// The system refused to start a thread.
    NoThread,
    /// A desk took no edit or gave no seat, or its history isn't what its seats asked for.
    Desk,
}

impl From<LoadFault> for RunFault {
    ghost from_gives = { λ fault made. made ≡ run_fault fault };

    fn from(fault: LoadFault) -> RunFault {
        match fault {
            LoadFault::BadRow { row } => RunFault::BadRow { row },
            LoadFault::BadSettings => RunFault::BadSettings,
            LoadFault::Read => RunFault::Read,
            LoadFault::Memory => RunFault::Memory,
        }
    }
}

impl From<AllocError> for RunFault {
    ghost use Rattle.smq_engine.specs.declared.run_fault.RunFault.TheVariants.{Memory};

    ghost from_gives = { λ _ fault. fault ≡ Memory };

    fn from(_: AllocError) -> RunFault {
        RunFault::Memory
    }
}

impl From<ReportFault> for RunFault {
    ghost from_gives = { λ fault made. made ≡ unwritten_fault fault };

    fn from(fault: ReportFault) -> RunFault {
        match fault {
            ReportFault::Write => RunFault::Write,
            ReportFault::Memory => RunFault::Memory,
        }
    }
}

impl fmt::Display for RunFault {
    ghost use Rattle.std.specs.Prelude.{Some};
    ghost use Rattle.smq_engine.specs.Faults.{fault_text};

    ghost output = { λ fault. Some (fault_text fault) };

    fn fmt<W: fmt::Write>(&self, f: &mut fmt::Formatter<W>) -> fmt::Result {
        match self {
            RunFault::BadRow { row } => write!(f, "row {row}: bad row"),
            RunFault::BadSettings => write!(f, "settings: bad settings"),
            RunFault::Read => write!(f, "read failed"),
            RunFault::Write => write!(f, "write failed"),
            RunFault::Memory => write!(f, "out of memory"),
            RunFault::NoThread => write!(f, "no thread"),
            RunFault::Desk => write!(f, "desk refused"),
        }
    }
}
