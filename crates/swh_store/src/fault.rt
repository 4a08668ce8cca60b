// Why a batch is not added.
use swh_base::{Memory, Name};

/// Why a batch is not added: the store is as it was.
#[derive(Clone, Copy, Debug, PartialEq, Eq)]
pub enum StoreFault {
    /// The name would have two bodies.
    Collision { name: Name },
    /// Memory ran out.
    Memory,
}

impl From<Memory> for StoreFault {
    ghost use Rattle.std.specs.Prelude.{◌≡◌};
    ghost use Rattle.swh_store.specs.declared.fault.StoreFault.TheVariants.{Memory as OutOfMemory};

    ghost from_gives = { λ _ e. e ≡ OutOfMemory };

    fn from(_e: Memory) -> StoreFault {
        StoreFault::Memory
    }
}
