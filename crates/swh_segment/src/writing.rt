// Writes that are on the disk before the call returns.
ghost use Rattle.std.specs.Prelude.{◌≤◌, length, OnOk};
ghost use Rattle.swh_outside.specs.Disk.{Runs};
ghost use Rattle.swh_outside.specs.Files.{FilesRuns, AreImages, files_of};
ghost use Rattle.swh_outside.specs.Faults.{HasCause};
ghost use Rattle.swh_segment.specs.Counts.{HaveCause};
ghost use Rattle.swh_segment.specs.Making.{barriers};
ghost use Rattle.swh_segment.specs.Settled.{AreAtRest, seen_of};
ghost use Rattle.swh_segment.specs.Calls.{write_calls};

use swh_outside::{Disk, Failed};

/// Writes, and waits until it is on the disk.
pub fn write_synced<D: Disk>(disk: &mut D, at: u64, bytes: &[u8]) -> Result<(), Failed>
    requires { D.tells → at ≤ length (D.file disk.old).seen }
    ensures runs { D.tells → Runs (write_calls at bytes.now) (D.file disk.old) (D.file disk.new) result }
    ensures cause { HasCause (D.faults disk.old) (D.faults disk.new) result }
{
    disk.write_at(at, bytes)?;
    disk.sync()?;
    Ok(())
}

/// A barrier on both files, with which the making and each opening begin.
pub fn settle<D: Disk>(store: &mut D, ledger: &mut D) -> Result<(), Failed>
    ensures runs { D.tells → FilesRuns barriers (files_of (D.file ledger.old) (D.file store.old))
        (files_of (D.file ledger.new) (D.file store.new)) result }

    // What a read then gives is one of the images that a crash before the call might have left, also where it fails.
    ensures seen { D.tells → AreImages (files_of (D.file ledger.old) (D.file store.old))
        (seen_of (files_of (D.file ledger.new) (D.file store.new))) }
    ensures rests { D.tells → OnOk result (AreAtRest (files_of (D.file ledger.new) (D.file store.new))) }

    ensures cause { HaveCause (D.faults store.old, D.faults store.new) (D.faults ledger.old, D.faults ledger.new) result }
{
    store.sync()?;
    ledger.sync()
}
