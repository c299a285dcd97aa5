//! Why a script or settings weren't loaded.
ghost use Rattle.std.specs.Prelude.{◌≡◌};

use std::alloc::AllocError;

/// Why a script or settings weren't loaded.
#[derive(Clone, Copy, Debug, PartialEq, Eq)]
pub enum LoadFault {
    /// A record says no row, or is the record after 1,000,000; the least number of such a record, from 1.
    BadRow { row: u64 },
    /// The octets are no settings.
    BadSettings,
    /// The reader failed, or gave more octets or was read more often than a script may be.
    Read,
    /// Memory ran out.
    Memory,
}

impl From<AllocError> for LoadFault {
    ghost use Rattle.smq_load.specs.declared.load_fault.LoadFault.TheVariants.{Memory};

    ghost from_gives = { λ error fault. fault ≡ Memory };

    fn from(_error: AllocError) -> LoadFault {
        LoadFault::Memory
    }
}
