// The making of an archive: its first byte is written last, so that it is not made before all of it is there.
ghost use Rattle.std.specs.Prelude.{◌≡◌, ◌≤◌, false, length, OnOk, OnErr, IsErrOf};
ghost use Rattle.swh_outside.specs.Disk.{Runs};
ghost use Rattle.swh_outside.specs.Files.{files_of};
ghost use Rattle.swh_outside.specs.Faults.{HasCause};
ghost use Rattle.swh_segment.specs.Making.{IsMade, IsNotMade, clearing, magic_calls};
ghost use Rattle.swh_segment.specs.Counts.{CountFaults};
ghost use Rattle.swh_segment.specs.Makes.{Makes, UnlessDiskFault};
ghost use Rattle.swh_segment.specs.declared.fault.MakeFault.TheVariants.{Made, Disk};

use crate::MakeFault;
use crate::beginning::read_beginning;
use crate::writing::{settle, write_synced};
use swh_outside::{Disk, Failed};

// A first byte that no made ledger has.
fn clear<D: Disk>(ledger: &mut D, clears: bool) -> Result<(), Failed>
    requires { D.tells → clears ≡ false → 1 ≤ length (D.file ledger.old).seen }
    ensures runs { D.tells → Runs (clearing clears) (D.file ledger.old) (D.file ledger.new) result }
    ensures room { D.tells → OnOk result (1 ≤ length (D.file ledger.new).seen) }
    ensures cause { HasCause (D.faults ledger.old) (D.faults ledger.new) result }
{
    if clears {
        return write_synced(ledger, 0, &[0]);
    }
    Ok(())
}

// The rest of the magic with a closed gate, and then the first byte.
fn lay_magic<D: Disk>(ledger: &mut D, clears: bool) -> Result<(), Failed>
    requires { D.tells → clears ≡ false → 1 ≤ length (D.file ledger.old).seen }
    ensures runs { D.tells → Runs (magic_calls clears) (D.file ledger.old) (D.file ledger.new) result }
    ensures cause { HasCause (D.faults ledger.old) (D.faults ledger.new) result }
{
    clear(ledger, clears)?;
    write_synced(ledger, 1, b"WHARC1\n\0")?;
    write_synced(ledger, 0, b"S")
}

/// Makes an archive of two files: a barrier on both; a first byte that is an `S`, or is not there, is cleared; then the
/// magic from its second byte on with a closed gate; then the first byte; each with a barrier after it. A made ledger
/// is left as it is.
pub fn make<D: Disk>(store: &mut D, ledger: &mut D) -> Result<(), MakeFault>
    ensures made { D.tells → IsErrOf result Made → IsMade (D.file ledger.old).seen }
    ensures not_made { D.tells → OnOk result (IsNotMade (D.file ledger.old).seen) }
    ensures calls { D.tells → Makes (files_of (D.file ledger.old) (D.file store.old))
        (files_of (D.file ledger.new) (D.file store.new)) result }

    // A made archive is as it was, also where a disk failed.
    ensures spared { D.tells → IsMade (D.file ledger.old).seen
        → OnErr result (files_of (D.file ledger.new) (D.file store.new) ≡ files_of (D.file ledger.old) (D.file store.old)) }

    ensures counts { CountFaults UnlessDiskFault Disk (D.faults store.old, D.faults store.new)
        (D.faults ledger.old, D.faults ledger.new) result }
{
    let clears = read_beginning(ledger)?;
    settle(store, ledger)?;
    lay_magic(ledger, clears)?;
    Ok(())
}
