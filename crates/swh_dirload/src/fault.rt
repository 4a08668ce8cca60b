//! Why a folder is not loaded.

use std::alloc::{AllocError, AllocFailed};
use swh_base::{Bytes, Memory, Which};
use swh_listing::ListingFault;
use swh_outside::OutFault;

/// Why a folder makes no objects.
#[derive(Debug, Drop)]
pub enum DirFault {
    /// The item at this path is neither file nor folder, and it is the first such of the path walk.
    OtherKind { path: Bytes },
    /// This line of the listing, counted from 1, is the first that breaks its form or says what cannot be.
    BadModes { line: u64 },
    /// The folder or its listing passes a limit by this number.
    Limit { which: Which, number: u64 },
    /// The folder, one of its files or the source of the listing failed, and a count of faults rose.
    ReadFault,
    Memory,
}

impl From<AllocError> for DirFault {
    ghost use Rattle.std.specs.Prelude.{◌≡◌};
    ghost use Rattle.swh_dirload.specs.declared.fault.DirFault.TheVariants.{Memory};

    ghost from_gives = { λ _ e. e ≡ Memory };

    fn from(_e: AllocError) -> DirFault {
        DirFault::Memory
    }
}

impl<T: Drop> From<AllocFailed<T>> for DirFault {
    ghost use Rattle.std.specs.Prelude.{◌≡◌};
    ghost use Rattle.swh_dirload.specs.declared.fault.DirFault.TheVariants.{Memory};

    ghost from_gives = { λ _ e. e ≡ Memory };

    fn from(_e: AllocFailed<T>) -> DirFault {
        DirFault::Memory
    }
}

impl From<Memory> for DirFault {
    ghost use Rattle.std.specs.Prelude.{◌≡◌};
    ghost use Rattle.swh_dirload.specs.declared.fault.DirFault.TheVariants.{Memory as NoRoom};

    ghost from_gives = { λ _ e. e ≡ NoRoom };

    fn from(_e: Memory) -> DirFault {
        DirFault::Memory
    }
}

impl From<OutFault> for DirFault {
    ghost use Rattle.std.specs.Prelude.{◌≡◌};
    ghost use Rattle.swh_dirload.specs.Faults.{out_fault};

    ghost from_gives = { λ fault e. e ≡ out_fault fault };

    fn from(fault: OutFault) -> DirFault {
        match fault {
            OutFault::Failed => DirFault::ReadFault,
            OutFault::Memory => DirFault::Memory,
        }
    }
}

impl From<ListingFault> for DirFault {
    ghost use Rattle.std.specs.Prelude.{◌≡◌};
    ghost use Rattle.swh_dirload.specs.Faults.{listing_fault};

    ghost from_gives = { λ fault e. e ≡ listing_fault fault };

    fn from(fault: ListingFault) -> DirFault {
        match fault {
            ListingFault::BadModes { line } => DirFault::BadModes { line },
            ListingFault::Limit { which, number } => DirFault::Limit { which, number },
            ListingFault::ReadFault => DirFault::ReadFault,
            ListingFault::Memory => DirFault::Memory,
        }
    }
}
