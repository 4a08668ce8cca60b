//! Why a batch and its refs make no objects.
ghost use Rattle.std.specs.Prelude.{◌≡◌};
ghost use Rattle.swh_batchread.specs.declared.fault.BatchFault.TheVariants.{Memory as OutOfMemory, ReadFault as SourceFailed};

use std::alloc::{AllocError, AllocFailed};
use swh_base::{Memory, Which};
use swh_outside::Failed;

/// Why a batch gives no objects, or objects and their refs no snapshot.
#[derive(Clone, Copy, Debug, PartialEq, Eq)]
pub enum BatchFault {
    /// The object whose header begins at this byte breaks: its header, its body, the LF behind it, or the grammar of its
    /// kind.
    BadBatch { at: u64 },
    /// An object stands under this id, and its id is another one.
    WrongName { given: [u8; 20], got: [u8; 20] },
    /// This line of the refs breaks, counted from 1.
    BadRefs { line: u64 },
    /// No object has this id, or none of the kind that it is named with.
    NoObject { id: [u8; 20] },
    /// The input passes this limit, with this number.
    Limit { which: Which, number: u64 },
    /// The source failed, and its count of faults rose.
    ReadFault,
    Memory,
}

impl From<AllocError> for BatchFault {
    ghost from_gives = { λ _ e. e ≡ OutOfMemory };

    fn from(_e: AllocError) -> BatchFault {
        BatchFault::Memory
    }
}

impl<T: Drop> From<AllocFailed<T>> for BatchFault {
    ghost from_gives = { λ _ e. e ≡ OutOfMemory };

    fn from(_e: AllocFailed<T>) -> BatchFault {
        BatchFault::Memory
    }
}

impl From<Memory> for BatchFault {
    ghost from_gives = { λ _ e. e ≡ OutOfMemory };

    fn from(_e: Memory) -> BatchFault {
        BatchFault::Memory
    }
}

impl From<Failed> for BatchFault {
    ghost from_gives = { λ _ e. e ≡ SourceFailed };

    fn from(_e: Failed) -> BatchFault {
        BatchFault::ReadFault
    }
}
