//! Why there is no order.

ghost use Rattle.std.specs.Prelude.{◌≡◌};
ghost use Rattle.swh_postorder.specs.declared.fault.OrderFault.TheVariants.{Memory as OutOfMemory};

use std::alloc::AllocFailed;
use swh_base::{Memory, Name};

/// Why there is no order.
#[derive(Clone, Copy, Debug, PartialEq, Eq)]
pub enum OrderFault {
    /// Of the names that the walk enters, this is the first that is not held.
    NotHeld { name: Name },
    /// Memory ran out.
    Memory,
}

impl From<Memory> for OrderFault {
    ghost from_gives = { λ _ e. e ≡ OutOfMemory };

    fn from(_e: Memory) -> OrderFault {
        OrderFault::Memory
    }
}

impl<T: Drop> From<AllocFailed<T>> for OrderFault {
    ghost from_gives = { λ _ e. e ≡ OutOfMemory };

    fn from(_e: AllocFailed<T>) -> OrderFault {
        OrderFault::Memory
    }
}
