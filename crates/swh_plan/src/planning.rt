//! From a plan to its event with the event's bytes, or to the first cause against the plan.
use swh_base::Memory;
use swh_model::{Event, No, Outcome};

/// An event that may happen, what comes of it, and its bytes for the store and, with the next gate, the ledger.
#[derive(Drop)]
pub struct Planned {
    pub event: Event,
    pub outcome: Outcome,
    pub run: Vec<u8>,
    pub bytes: Vec<u8>,
}

#[derive(Clone, Copy, Debug)]
pub enum PlanFault {
    Refused(No),
    Memory,
}

impl From<Memory> for PlanFault {
    ghost use Rattle.std.specs.Prelude.{◌≡◌};
    ghost use Rattle.swh_plan.specs.declared.planning.PlanFault.TheVariants.{Memory as OutOfMemory};

    ghost from_gives = { λ _ e. e ≡ OutOfMemory };

    fn from(_e: Memory) -> PlanFault {
        PlanFault::Memory
    }
}
