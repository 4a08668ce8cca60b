//! Why a listing is not read.

use std::alloc::{AllocError, AllocFailed};
use swh_base::Which;

/// Why there are no lines of a listing.
#[derive(Clone, Copy, Debug, PartialEq, Eq)]
pub enum ListingFault {
    /// This line, counted from 1, is the first that is none of a listing.
    BadModes { line: u64 },
    /// The listing passes a limit by this number.
    Limit { which: Which, number: u64 },
    /// The source failed, and its count of faults rose.
    ReadFault,
    Memory,
}

impl From<AllocError> for ListingFault {
    ghost use Rattle.std.specs.Prelude.{◌≡◌};
    ghost use Rattle.swh_listing.specs.declared.fault.ListingFault.TheVariants.{Memory};

    ghost from_gives = { λ _ e. e ≡ Memory };

    fn from(_e: AllocError) -> ListingFault {
        ListingFault::Memory
    }
}

impl<T: Drop> From<AllocFailed<T>> for ListingFault {
    ghost use Rattle.std.specs.Prelude.{◌≡◌};
    ghost use Rattle.swh_listing.specs.declared.fault.ListingFault.TheVariants.{Memory};

    ghost from_gives = { λ _ e. e ≡ Memory };

    fn from(_e: AllocFailed<T>) -> ListingFault {
        ListingFault::Memory
    }
}
