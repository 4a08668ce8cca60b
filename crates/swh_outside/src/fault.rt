// How calls on the outside end.
ghost use Rattle.std.specs.Prelude.{◌≡◌};

use std::alloc::AllocError;

/// The outside failed, and its count of faults rose.
#[derive(Clone, Copy, Debug, PartialEq, Eq)]
pub struct Failed;

/// How a call ends that may also want memory.
#[derive(Clone, Copy, Debug, PartialEq, Eq)]
pub enum OutFault {
    /// The outside failed, and its count of faults rose.
    Failed,
    /// Memory is wanting. No count says it.
    Memory,
}

/// How the opening of an input ends.
#[derive(Drop)]
pub enum Opened<T> {
    Found(T),
    /// Nothing stands at this path.
    NotFound,
    /// The outside failed, and its count of faults rose.
    Failed,
    /// Memory is wanting. No count says it.
    Memory,
}

impl From<Failed> for OutFault {
    ghost use Rattle.swh_outside.specs.declared.fault.OutFault.TheVariants.{Failed};

    ghost from_gives = { λ _ fault. fault ≡ Failed };

    fn from(_: Failed) -> Self {
        OutFault::Failed
    }
}

impl From<AllocError> for OutFault {
    ghost use Rattle.swh_outside.specs.declared.fault.OutFault.TheVariants.{Memory};

    ghost from_gives = { λ _ fault. fault ≡ Memory };

    fn from(_: AllocError) -> Self {
        OutFault::Memory
    }
}
