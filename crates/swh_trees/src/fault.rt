//! Why a tree's objects are not made.

use std::alloc::{AllocError, AllocFailed};
use swh_base::Memory;

/// Why a tree's objects are not made.
#[derive(Clone, Copy, Debug, PartialEq, Eq)]
pub enum TreeFault {
    /// Memory ran out.
    Memory,
    /// The body of one of the tree's directories has this many bytes, and the limit is 67,108,864.
    TooLong { len: u64 },
}

ghost use Rattle.std.specs.Prelude.{◌≡◌};
ghost use Rattle.swh_trees.specs.declared.fault.TreeFault.TheVariants.{Memory as OutOfMemory};

impl From<AllocError> for TreeFault {
    ghost from_gives = { λ _ e. e ≡ OutOfMemory };

    fn from(_e: AllocError) -> TreeFault {
        TreeFault::Memory
    }
}

impl From<Memory> for TreeFault {
    ghost from_gives = { λ _ e. e ≡ OutOfMemory };

    fn from(_e: Memory) -> TreeFault {
        TreeFault::Memory
    }
}

impl<T: Drop> From<AllocFailed<T>> for TreeFault {
    ghost from_gives = { λ _ e. e ≡ OutOfMemory };

    fn from(_e: AllocFailed<T>) -> TreeFault {
        TreeFault::Memory
    }
}
