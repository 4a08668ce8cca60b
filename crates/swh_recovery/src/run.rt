//! The run of a batch: its objects, or the first harm of them.
ghost use Rattle.std.specs.Prelude.{
  ◌≡◌,
  ◌+◌,
  ◌*◌,
  ◌≤◌,
  ◌++◌,
  ◌∷◌,
  [],
  max,
  IfOk,
  OnOk,
  IfErr,
  length,
  vec_len,
  vec_capacity,
};
ghost use Rattle.swh_segment.specs.Reads.{OnlyReads};
ghost use Rattle.swh_base.specs.Limits.{file_limit};
ghost use Rattle.swh_recovery.specs.StoreHarm.{IsRun, HoldsRun, RunBreaks};
ghost use Rattle.swh_recovery.specs.Reading.{IfHarmed, UnlessDisk};
ghost use Rattle.swh_recovery.specs.declared.fault.ReadFault.TheVariants.{DiskFailed, Memory as OutOfMemory};

use crate::fault::ReadFault;
use crate::field::cut;
use crate::object::read_object;
use crate::piece::Piece;
use std::alloc::Global;
use swh_base::{Entry, Namer};
use swh_outside::Disk;

// Puts an object behind others. Where their room is full, room for as many again is taken.
fn push_entry(entries: &mut Vec<Entry>, entry: Entry) -> Result<(), ReadFault>
    requires { vec_capacity entries.old ≤ 2 * vec_len entries.old }
    ensures items { OnOk result (entries.new.items ≡ entries.old.items ++ entry ∷ []) }
    ensures room { OnOk result (vec_capacity entries.new ≤ 2 * vec_len entries.new) }
    ensures memory { IfErr result (λ fault. fault ≡ OutOfMemory) }
{
    let count = entries.len();
    if entries.capacity() == count {
        entries.reserve_exact(count.max(1))?;
    }
    entries.push_reserved(entry);
    Ok(())
}

/// The objects of the run that begins at one place of a store of this length and ends at another; else its first harm.
/// Room is taken only for bodies that stand there up to the run's end, and for no more than twice as many objects as were
/// read, whatever the run's length is said to be.
pub fn read_run<N: Namer, D: Disk>(
    alloc: Global,
    namer: &N,
    store: &mut D,
    size: u64,
    from: u64,
    to: u64,
) -> Result<Vec<Entry>, ReadFault>
    requires size { D.tells → size ≡ length (D.file store.old).seen }
    requires small { size ≤ file_limit }
    ensures whole { IfOk result (λ es. IsRun N.id_of from to es.items) }
    ensures inside { OnOk result (to ≤ max from size) }
    ensures room { IfOk result (λ es. vec_capacity es ≤ 2 * vec_len es) }
    ensures ok { D.tells → IfOk result (λ es. HoldsRun N.id_of from to (D.file store.old).seen es.items) }
    ensures harm { D.tells → IfErr result (λ fault.
        IfHarmed fault (RunBreaks N.id_of from to (D.file store.old).seen)) }
    ensures reads { OnlyReads D.tells UnlessDisk DiskFailed (D.file store.old, D.faults store.old)
        (D.file store.new, D.faults store.new) result }
{
    let end = to.min(size);
    let mut entries = Vec::new(alloc);
    let mut piece = Piece {
        begin: 0,
        bytes: Vec::new(alloc),
    };
    let mut place = from;
    'objects: while place < to {
        if place >= end {
            return Err(ReadFault::Harmed(cut(0, 1, place)));
        }
        let entry = read_object(alloc, namer, store, &mut piece, place, end - place)?;
        place += 29 + entry.body.as_slice().len() as u64;
        push_entry(&mut entries, entry)?;
    }
    Ok(entries)
}
