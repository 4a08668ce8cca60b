// Both files of an archive, opened and given back together.
ghost use Rattle.std.specs.Prelude.{◌≡◌, ◌≤◌, ◌<◌, IfOk, OnOk, OnErr};
ghost use Rattle.swh_outside.specs.Files.{AreImages, files_of};
ghost use Rattle.swh_segment.specs.Settled.{seen_of};
ghost use Rattle.swh_outside.specs.Faults.{Rose};
ghost use Rattle.swh_outside.specs.Causes.{HasOutCause};
ghost use Rattle.swh_exit.specs.Archives.{archive_at, SameElsewhere};

use swh_outside::{Depot, Disk, OutFault};

/// The two disks of an archive.
pub struct ArchiveFiles<D: Disk> {
    pub store: D,
    pub ledger: D,
}

/// What a read gives of both files is what a crash may leave of them.
pub fn see_images<D: Disk>(files: &ArchiveFiles<D>)
    ensures { D.tells → AreImages (files_of (D.file files.now.ledger) (D.file files.now.store))
        (seen_of (files_of (D.file files.now.ledger) (D.file files.now.store))) }
{
    let _files = files;
}

/// Opens the ledger, and then the store; where the store fails, the ledger is given back.
pub fn open_files<P: Depot>(depot: &mut P, dir: &str) -> Result<ArchiveFiles<P::D>, OutFault>
    ensures given { P.tells → IfOk result (λ files. files_of (P.D.file files.ledger) (P.D.file files.store)
        ≡ archive_at (P.files depot.old) dir.now) }
    ensures disks_tell { P.tells → P.D.tells }
    ensures store_count { IfOk result (λ files. P.D.faults files.store ≡ 0) }
    ensures ledger_count { IfOk result (λ files. P.D.faults files.ledger ≡ 0) }
    ensures refused { P.tells → OnErr result
        (archive_at (P.files depot.new) dir.now ≡ archive_at (P.files depot.old) dir.now) }
    ensures others { P.tells → SameElsewhere dir.now (P.files depot.old) (P.files depot.new) }
    ensures store_place { OnOk result (P.has_place depot.new dir.now 1) }
    ensures ledger_place { OnOk result (P.has_place depot.new dir.now 0) }
    ensures cause { HasOutCause (P.faults depot.old) (P.faults depot.new) result }
{
    let ledger = depot.open(dir, 0)?;
    match depot.open(dir, 1) {
        Ok(store) => Ok(ArchiveFiles { store, ledger }),
        Err(fault) => {
            depot.close(dir, 0, ledger);
            Err(fault)
        }
    }
}

/// Gives both files back. Where one of them has failed, the depot's count rises.
pub fn close_files<P: Depot>(depot: &mut P, dir: &str, files: ArchiveFiles<P::D>)
    requires store_place { P.has_place depot.old dir.now 1 }
    requires ledger_place { P.has_place depot.old dir.now 0 }
    ensures taken { P.tells → archive_at (P.files depot.new) dir.now
        ≡ files_of (P.D.file files.ledger) (P.D.file files.store) }
    ensures others { P.tells → SameElsewhere dir.now (P.files depot.old) (P.files depot.new) }
    ensures later { P.faults depot.old ≤ P.faults depot.new }
    ensures store_cause { 0 < P.D.faults files.store → Rose (P.faults depot.old) (P.faults depot.new) }
    ensures ledger_cause { 0 < P.D.faults files.ledger → Rose (P.faults depot.old) (P.faults depot.new) }
{
    let ArchiveFiles { store, ledger } = files;
    depot.close(dir, 1, store);
    depot.close(dir, 0, ledger);
}
