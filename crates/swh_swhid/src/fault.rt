//! Why a text is no SWHID.

ghost use Rattle.std.specs.Prelude.{◌≡◌};
ghost use Rattle.swh_swhid.specs.declared.fault.SwhidFault.TheVariants.{Memory as OutOfMemory};

use swh_base::Memory;

/// Why a text gives no value.
#[derive(Clone, Copy, Debug, PartialEq, Eq)]
pub enum SwhidFault {
    /// Memory ran out.
    Memory,
    /// The text is no SWHID, and the longest front of it that some SWHID begins with has this many bytes.
    BadText { at: u64 },
}

impl From<Memory> for SwhidFault {
    ghost from_gives = { λ _ e. e ≡ OutOfMemory };

    fn from(_e: Memory) -> SwhidFault {
        SwhidFault::Memory
    }
}
