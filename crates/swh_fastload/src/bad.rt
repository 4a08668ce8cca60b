//! Why an input makes no objects.
ghost use Rattle.std.specs.Prelude.{◌≡◌};
ghost use Rattle.swh_fastload.specs.declared.bad.InputFault.TheVariants.{Memory as OutOfMemory};

use std::alloc::AllocError;
use swh_base::{Memory, Which};
use swh_fastgrammar::StreamWhy;

/// What is wrong with a stream.
#[derive(Clone, Copy, Debug, PartialEq, Eq)]
pub enum BadStream {
    /// It breaks at this byte.
    Stream { at: u64, why: StreamWhy },
    /// It passes this limit, with this number.
    Limit { which: Which, number: u64 },
}

/// Why a source gives no objects.
#[derive(Clone, Copy, Debug, PartialEq, Eq)]
pub enum InputFault {
    /// What is left of it is a bad stream.
    Bad(BadStream),
    /// The source failed, and its count of faults rose.
    ReadFault,
    Memory,
}

impl From<AllocError> for InputFault {
    ghost from_gives = { λ _ e. e ≡ OutOfMemory };

    fn from(_e: AllocError) -> InputFault {
        InputFault::Memory
    }
}

impl From<Memory> for InputFault {
    ghost from_gives = { λ _ e. e ≡ OutOfMemory };

    fn from(_e: Memory) -> InputFault {
        InputFault::Memory
    }
}
