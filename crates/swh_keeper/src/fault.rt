//! Why a plan is refused.
use swh_base::{Name, Status, Which};
use swh_model::No;
use swh_plan::PlanFault;

/// Why a plan is not carried out, in the order in which the causes are looked for.
#[derive(Clone, Copy, Debug)]
pub enum Refusal {
    /// A disk failed in an earlier call, which would have added this event.
    Wounded { first: u64 },
    Limit { which: Which, number: u64 },
    NoVisit { have: u64 },
    NotYours { by: u32 },
    Ended { status: Status },
    NoSnapshot { name: Name },
    NotClosed { parent: Name, child: Name },
    Collision { name: Name },
    DiskFault,
    /// Memory ran out. The event stands where `stands` is true, which a keeper never says.
    Memory { stands: bool },
}

ghost use Rattle.std.specs.Prelude.{◌≡◌};
ghost use Rattle.swh_keeper.specs.Refusal.{refusal_of, plan_refusal};

fn refused_by(cause: No) -> Refusal
    ensures { result ≡ refusal_of cause }
{
    match cause {
        No::Limit { which, number } => Refusal::Limit { which, number },
        No::NoVisit { have } => Refusal::NoVisit { have },
        No::NotYours { by } => Refusal::NotYours { by },
        No::Ended { status } => Refusal::Ended { status },
        No::NoSnapshot { name } => Refusal::NoSnapshot { name },
        No::NotClosed { parent, child } => Refusal::NotClosed { parent, child },
        No::Collision { name } => Refusal::Collision { name },
    }
}

/// The refusal for why there is no plan.
pub fn refusal_for(fault: PlanFault) -> Refusal
    ensures { result ≡ plan_refusal fault }
{
    match fault {
        PlanFault::Refused(cause) => refused_by(cause),
        PlanFault::Memory => Refusal::Memory { stands: false },
    }
}
