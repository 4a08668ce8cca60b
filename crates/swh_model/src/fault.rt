//! Why judging gives no event.
use crate::event::No;
use swh_base::Memory;

#[derive(Clone, Copy, Debug)]
pub enum JudgeFault {
    /// The first cause against the wish.
    Refused(No),
    /// Memory ran out.
    Memory,
}

impl From<Memory> for JudgeFault {
    ghost use Rattle.std.specs.Prelude.{◌≡◌};
    ghost use Rattle.swh_model.specs.declared.fault.JudgeFault.TheVariants.{Memory as OutOfMemory};

    ghost from_gives = { λ _ e. e ≡ OutOfMemory };

    fn from(_e: Memory) -> JudgeFault {
        JudgeFault::Memory
    }
}
