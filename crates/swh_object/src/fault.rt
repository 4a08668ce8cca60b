//! Why there is no object.

use std::alloc::AllocFailed;
use swh_base::Memory;

/// Why a kind and a body make no object.
#[derive(Clone, Copy, Debug, PartialEq, Eq)]
pub enum ObjectFault {
    /// Memory ran out.
    Memory,
    /// The body has this many bytes, and the limit is 67,108,864.
    TooLong { len: u64 },
    /// The body is none of its kind, and the reader of its kind names this place, in bytes from 0: of a directory and a
    /// snapshot the first byte of the first entry or branch that breaks, of a revision and a release the length of the
    /// longest front that some body continues.
    BadBody { at: u64 },
}

ghost use Rattle.std.specs.Prelude.{◌≡◌};
ghost use Rattle.swh_object.specs.declared.fault.ObjectFault.TheVariants.{Memory as OutOfMemory};

impl From<Memory> for ObjectFault {
    ghost from_gives = { λ _ e. e ≡ OutOfMemory };

    fn from(_e: Memory) -> ObjectFault {
        ObjectFault::Memory
    }
}

impl<T: Drop> From<AllocFailed<T>> for ObjectFault {
    ghost from_gives = { λ _ e. e ≡ OutOfMemory };

    fn from(_e: AllocFailed<T>) -> ObjectFault {
        ObjectFault::Memory
    }
}
