// How a ledger begins.
ghost use Rattle.std.specs.Prelude.{◌≡◌, IfOk, IsErrOf};
ghost use Rattle.swh_segment.specs.Makes.{UnlessDiskFault};
ghost use Rattle.swh_segment.specs.Reads.{OnlyReads};
ghost use Rattle.swh_segment.specs.Making.{IsMade, IsNotMade, needs_clearing};
ghost use Rattle.swh_segment.specs.declared.fault.MakeFault.TheVariants.{Made, Disk};

use crate::MakeFault;
use swh_outside::Disk;

/// Says whether the first byte of a ledger that is not made has to be cleared before the rest is written. A disk that
/// gives nothing of the bytes that it says to have may hold an archive: it counts as made, so that no making writes over it.
pub fn read_beginning<D: Disk>(ledger: &mut D) -> Result<bool, MakeFault>
    ensures made { D.tells → IsErrOf result Made → IsMade (D.file ledger.old).seen }
    ensures not_made { D.tells → IfOk result (λ clears. IsNotMade (D.file ledger.old).seen) }
    ensures clears { D.tells → IfOk result (λ clears. clears ≡ needs_clearing (D.file ledger.old).seen) }
    ensures reads { OnlyReads D.tells UnlessDiskFault Disk (D.file ledger.old, D.faults ledger.old)
        (D.file ledger.new, D.faults ledger.new) result }
{
    let size = ledger.len()?;
    let mut first = [0; 1];
    let count = ledger.read_at(0, &mut first)?;
    if size < 9 {
        return Ok(count == 0 || first[0] == b'S');
    }
    if count > 0 && first[0] != b'S' {
        return Ok(false);
    }
    Err(MakeFault::Made)
}
