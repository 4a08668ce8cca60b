//! The check of a whole archive.
ghost use Rattle.std.specs.Prelude.{◌≡◌, None, IfOk, OnOk};
ghost use Rattle.swh_model.specs.Step.{IsHistory, replay};
ghost use Rattle.swh_check.specs.Bodies.{AreCompared};
ghost use Rattle.swh_check.specs.Counts.{IsReport};
ghost use Rattle.swh_check.specs.Check.{Rereads};

use crate::counting::report_of;
use crate::fault::CheckFault;
use crate::report::Report;
use crate::runs::check_bodies;
use std::alloc::Global;
use swh_base::Namer;
use swh_keeper::Keeper;
use swh_outside::Disk;

/// Reads every stored body again, in the order of the history, and counts what the archive holds; the objects are counted
/// as their bodies are compared. It fails with a body that has another id than its name's, as one has of which bytes are
/// missing; that never comes where the disks tell. It fails with `DiskFault` only where the store's disk failed, and for
/// want of memory. The runs are read one after another, each in one piece; the time is n log n in what the archive holds.
pub fn check_all<N: Namer, D: Disk>(
    alloc: Global,
    namer: &N,
    keeper: &mut Keeper<N, D>,
) -> Result<Report, CheckFault>
    requires { keeper.old.wounded ≡ None }
    // On every disk: the history is one that may happen, and what is counted is what its replay holds.
    ensures history { IsHistory N.id_of keeper.old.history }
    ensures ok { IfOk result (IsReport (replay keeper.old.history)) }
    ensures compared { OnOk result (AreCompared N.id_of D.tells keeper.old.history) }
    ensures again { Rereads N.id_of D.tells D.file D.faults keeper.old keeper.new result }
{
    let objects = check_bodies(alloc, namer, keeper)?;
    Ok(report_of(alloc, keeper.store(), keeper.history(), objects)?)
}
