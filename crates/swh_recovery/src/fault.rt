//! Why the files are not read on.
ghost use Rattle.std.specs.Prelude.{◌≡◌};
ghost use Rattle.swh_recovery.specs.declared.fault.ReadFault.TheVariants.{
  DiskFailed,
  Memory as OutOfMemory,
  Harmed,
};
ghost use Rattle.swh_recovery.specs.declared.fault.NextFault.TheVariants.{Memory as NoMemory};

use crate::harm::Found;
use std::alloc::{AllocError, AllocFailed};
use swh_base::Memory;
use swh_outside::Failed;

/// Why a file is not read on.
#[derive(Clone, Copy)]
pub enum ReadFault {
    /// The disk failed.
    DiskFailed,
    Memory,
    /// The file is harmed there.
    Harmed(Found),
}

impl From<Failed> for ReadFault {
    ghost from_gives = { λ _ fault. fault ≡ DiskFailed };

    fn from(_: Failed) -> ReadFault {
        ReadFault::DiskFailed
    }
}

impl From<AllocError> for ReadFault {
    ghost from_gives = { λ _ fault. fault ≡ OutOfMemory };

    fn from(_: AllocError) -> ReadFault {
        ReadFault::Memory
    }
}

impl<T: Drop> From<AllocFailed<T>> for ReadFault {
    ghost from_gives = { λ _ fault. fault ≡ OutOfMemory };

    fn from(_: AllocFailed<T>) -> ReadFault {
        ReadFault::Memory
    }
}

impl From<Memory> for ReadFault {
    ghost from_gives = { λ _ fault. fault ≡ OutOfMemory };

    fn from(_: Memory) -> ReadFault {
        ReadFault::Memory
    }
}

impl From<Found> for ReadFault {
    ghost from_gives = { λ found fault. fault ≡ Harmed found };

    fn from(found: Found) -> ReadFault {
        ReadFault::Harmed(found)
    }
}

/// Why no record is read on.
#[derive(Clone, Copy)]
pub enum NextFault {
    /// The disk failed.
    DiskFailed,
    Memory,
    /// The file of this number is harmed there: 0 is the ledger, 1 the store.
    Harmed(u32, Found),
}

impl From<Memory> for NextFault {
    ghost from_gives = { λ _ fault. fault ≡ NoMemory };

    fn from(_: Memory) -> NextFault {
        NextFault::Memory
    }
}

impl From<AllocError> for NextFault {
    ghost from_gives = { λ _ fault. fault ≡ NoMemory };

    fn from(_: AllocError) -> NextFault {
        NextFault::Memory
    }
}

impl<T: Drop> From<AllocFailed<T>> for NextFault {
    ghost from_gives = { λ _ fault. fault ≡ NoMemory };

    fn from(_: AllocFailed<T>) -> NextFault {
        NextFault::Memory
    }
}
