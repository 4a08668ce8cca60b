//! Why there is no report.
ghost use Rattle.std.specs.Prelude.{◌≡◌};
ghost use Rattle.swh_check.specs.declared.fault.CheckFault.TheVariants.{DiskFault as DiskFaulted, Memory as OutOfMemory};

use swh_base::{Memory, Name};
use swh_keeper::StoredFault;

/// Why there is no report.
#[derive(Clone, Copy, Debug, PartialEq, Eq)]
pub enum CheckFault {
    /// The bytes that stand for the body held under this name have another id, which is `found`.
    Damaged { name: Name, found: [u8; 20] },
    /// The store's disk failed.
    DiskFault,
    /// Memory ran out.
    Memory,
}

impl From<Memory> for CheckFault {
    ghost from_gives = { λ _ fault. fault ≡ OutOfMemory };

    fn from(_: Memory) -> CheckFault {
        CheckFault::Memory
    }
}

impl From<StoredFault> for CheckFault {
    ghost use Rattle.swh_check.specs.Stored.{check_fault};

    ghost from_gives = { λ stored fault. fault ≡ check_fault stored };

    fn from(fault: StoredFault) -> CheckFault {
        match fault {
            StoredFault::DiskFault => CheckFault::DiskFault,
            StoredFault::Memory => CheckFault::Memory,
        }
    }
}
