// Why a plan is not carried out.
use swh_model::No;

/// Why a plan is not carried out, or its event is not seen.
#[derive(Clone, Copy, Debug)]
pub enum Refusal {
    /// The first cause against the plan.
    No(No),
    /// A disk failed.
    DiskFault,
    /// A disk failed before.
    Wounded,
    /// Memory ran out. The event stands unseen where `stands` is true.
    Memory { stands: bool },
}
