// A keeper's refusal as a destination's.
ghost use Rattle.std.specs.Prelude.{◌≡◌};
ghost use Rattle.swh_keeperload.specs.Refusing.{destination_refusal};

use swh_ingest::Refusal;
use swh_keeper::Refusal as Kept;
use swh_model::No;

/// The refusal of the destination for one of its keeper.
pub fn refused(refusal: Kept) -> Refusal
    ensures { result ≡ destination_refusal refusal }
{
    match refusal {
        Kept::Wounded { first: _ } => Refusal::Wounded,
        Kept::Limit { which, number } => Refusal::No(No::Limit { which, number }),
        Kept::NoVisit { have } => Refusal::No(No::NoVisit { have }),
        Kept::NotYours { by } => Refusal::No(No::NotYours { by }),
        Kept::Ended { status } => Refusal::No(No::Ended { status }),
        Kept::NoSnapshot { name } => Refusal::No(No::NoSnapshot { name }),
        Kept::NotClosed { parent, child } => Refusal::No(No::NotClosed { parent, child }),
        Kept::Collision { name } => Refusal::No(No::Collision { name }),
        Kept::DiskFault => Refusal::DiskFault,
        Kept::Memory { stands } => Refusal::Memory { stands },
    }
}
