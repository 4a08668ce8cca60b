// What is said of a keeper that has one loader.
ghost use Rattle.swh_outside.specs.Views.{disks};
ghost use Rattle.swh_keeperload.specs.Alone.{alone_protocol};
ghost use Rattle.swh_keeperload.specs.Lawful.{alone_lawful};

use swh_base::Namer;
use swh_ingest::HasProtocol;
use swh_keeper::Keeper;
use swh_outside::Disk;
use swh_plan::Plan;

/// Nobody else adds to the keeper.
#[derive(Clone, Copy, Debug)]
pub struct Alone;

impl<N: Namer, D: Disk> HasProtocol<Plan<N>, Keeper<N, D>> for Alone {
    ghost protocol = { λ by. alone_protocol N.id_of (disks D.tells D.file D.faults) by };

    ghost lawful = { λ by. alone_lawful N.id_of (disks D.tells D.file D.faults) by };
}
