//! Why bytes are no snapshot.

ghost use Rattle.std.specs.Prelude.{◌≡◌, ℕ, List};
ghost use Rattle.swh_snpfmt.specs.Fault.{IsSnpFault};
ghost use Rattle.swh_snpfmt.specs.declared.fault.ReadSnpFault.TheVariants.{Memory as OutOfMemory};

use std::alloc::AllocFailed;
use swh_base::Memory;

/// The place of the first byte of the first branch that breaks, in bytes from 0.
#[derive(Clone, Copy, Debug, PartialEq, Eq)]
pub struct BadSnp {
    pub at: u64,
}

/// Why a body gives no branches.
#[derive(Clone, Copy, Debug, PartialEq, Eq)]
pub enum ReadSnpFault {
    /// Memory ran out.
    Memory,
    /// The body is no snapshot.
    Bad(BadSnp),
}

impl From<Memory> for ReadSnpFault {
    ghost from_gives = { λ _ e. e ≡ OutOfMemory };

    fn from(_e: Memory) -> ReadSnpFault {
        ReadSnpFault::Memory
    }
}

impl<T: Drop> From<AllocFailed<T>> for ReadSnpFault {
    ghost from_gives = { λ _ e. e ≡ OutOfMemory };

    fn from(_e: AllocFailed<T>) -> ReadSnpFault {
        ReadSnpFault::Memory
    }
}

/// A body has one first fault at most, so its place is determined.
pub fn one_fault()
    ensures { (body : List ℕ) (i j : ℕ) → IsSnpFault body i → IsSnpFault body j → i ≡ j }
{}
