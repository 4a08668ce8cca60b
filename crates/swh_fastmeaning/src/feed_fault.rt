//! Why a loader refuses a command.
ghost use Rattle.std.specs.Prelude.{◌≡◌};
ghost use Rattle.swh_fastmeaning.specs.declared.feed_fault.FeedFault.TheVariants.{Memory as OutOfMemory};

use std::alloc::{AllocError, AllocFailed};
use swh_base::{Memory, Which};
use swh_fastgrammar::StreamWhy;

/// Why a loader refuses a command, or makes no snapshot.
#[derive(Clone, Copy, Debug, PartialEq, Eq)]
pub enum FeedFault {
    /// A line names a mark, a ref or a path that is not there: `at` is the place of the line's first byte in the stream,
    /// in bytes from 0.
    BadStream { at: u64, why: StreamWhy },
    /// A body of this many bytes, or this many refs, are above the limit: 67,108,864 bytes, or 65,536 refs.
    Limit { which: Which, number: u64 },
    /// Memory ran out.
    Memory,
}

impl From<AllocError> for FeedFault {
    ghost from_gives = { λ _ e. e ≡ OutOfMemory };

    fn from(_e: AllocError) -> FeedFault {
        FeedFault::Memory
    }
}

impl From<Memory> for FeedFault {
    ghost from_gives = { λ _ e. e ≡ OutOfMemory };

    fn from(_e: Memory) -> FeedFault {
        FeedFault::Memory
    }
}

impl<T: Drop> From<AllocFailed<T>> for FeedFault {
    ghost from_gives = { λ _ e. e ≡ OutOfMemory };

    fn from(_e: AllocFailed<T>) -> FeedFault {
        FeedFault::Memory
    }
}
