// Why a step of a load stops.
ghost use Rattle.std.specs.Prelude.{◌≡◌, IfOk, IfErr};
ghost use Rattle.swh_model.specs.declared.event.No.TheVariants.{Collision};
ghost use Rattle.swh_ingest.specs.declared.refusal.Refusal.TheVariants.{No as Against};
ghost use Rattle.swh_ingest.specs.Stopping.{MayStop, MayStopBatch, IsWhyOf};

use crate::refusal::Refusal;
use std::alloc::AllocFailed;
use swh_base::{Memory, Name, Status, Which};
use swh_model::No;

#[derive(Clone, Copy, Debug, PartialEq, Eq)]
pub enum Stop {
    /// Somebody else ended the visit.
    Ended { status: Status },
    /// A disk failed.
    DiskFault,
    /// A disk failed before.
    Wounded,
    /// A file of the archive would pass its limit.
    Limit { which: Which, number: u64 },
    Memory,
}

impl From<Memory> for Stop {
    ghost use Rattle.std.specs.Prelude.{◌≡◌};
    ghost use Rattle.swh_ingest.specs.declared.stop.Stop.TheVariants.{Memory as OutOfMemory};

    ghost from_gives = { λ _ e. e ≡ OutOfMemory };

    fn from(_e: Memory) -> Stop {
        Stop::Memory
    }
}

impl<T: Drop> From<AllocFailed<T>> for Stop {
    ghost use Rattle.std.specs.Prelude.{◌≡◌};
    ghost use Rattle.swh_ingest.specs.declared.stop.Stop.TheVariants.{Memory as OutOfMemory};

    ghost from_gives = { λ _ e. e ≡ OutOfMemory };

    fn from(_e: AllocFailed<T>) -> Stop {
        Stop::Memory
    }
}

/// Why a step stops at this refusal. It meets no other: its visit is there and is its own, and what its snapshot reaches
/// was added before.
pub fn stopped(refusal: Refusal) -> Stop
    requires { MayStop refusal }
    ensures { IsWhyOf refusal result }
{
    match refusal {
        Refusal::No(No::Limit { which, number }) => Stop::Limit { which, number },
        Refusal::No(No::Ended { status }) => Stop::Ended { status },
        Refusal::DiskFault => Stop::DiskFault,
        Refusal::Wounded => Stop::Wounded,
        Refusal::Memory { .. } => Stop::Memory,
        Refusal::No(
            No::NoVisit { .. }
            | No::NotYours { .. }
            | No::NoSnapshot { .. }
            | No::NotClosed { .. }
            | No::Collision { .. },
        ) => unreachable!(),
    }
}

/// The name at which a batch collides, or why a step stops at this refusal of it.
pub fn met_or_stopped(refusal: Refusal) -> Result<Name, Stop>
    requires { MayStopBatch refusal }
    ensures met { IfOk result (λ name. refusal ≡ Against (Collision name)) }
    ensures stopped { IfErr result (IsWhyOf refusal) }
{
    match refusal {
        Refusal::No(No::Collision { name }) => Ok(name),
        Refusal::No(No::Limit { which, number }) => Err(Stop::Limit { which, number }),
        Refusal::DiskFault => Err(Stop::DiskFault),
        Refusal::Wounded => Err(Stop::Wounded),
        Refusal::Memory { .. } => Err(Stop::Memory),
        Refusal::No(
            No::Ended { .. }
            | No::NoVisit { .. }
            | No::NotYours { .. }
            | No::NoSnapshot { .. }
            | No::NotClosed { .. },
        ) => unreachable!(),
    }
}
