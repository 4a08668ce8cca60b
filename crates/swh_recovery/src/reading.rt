//! The records of the two files, one after another, up to the first closed gate or the first harm.
ghost use Rattle.std.specs.Prelude.{
  ◌≡◌,
  ◌≤◌,
  ◌<◌,
  ◌∷◌,
  [],
  IsTrue,
  false,
  IfSome,
  IfNone,
  IfOk,
  OnOk,
  IfErr,
  length,
};
ghost use Rattle.swh_segment.specs.Reads.{OnlyReads};
ghost use Rattle.swh_base.specs.Limits.{file_limit};
ghost use Rattle.swh_recovery.specs.Records.{
  IfNextHarmed,
  UnlessDiskNext,
  HasRuns,
  IsReadSoFar,
  IsInside,
  BreaksNext,
  IsAtEnd,
};
ghost use Rattle.swh_recovery.specs.declared.fault.NextFault.TheVariants.{DiskFailed};

use crate::event::{NextPlace, read_event};
use crate::fault::NextFault;
use crate::field::cut;
use crate::frame::take_record;
use std::alloc::Global;
use swh_base::Namer;
use swh_model::Event;
use swh_outside::Disk;

/// How far the files are read: the place of the next gate in the ledger, the place in the store where the runs so far
/// end, and the events.
#[derive(Drop)]
pub struct Reached {
    pub gate: u64,
    pub end: u64,
    pub events: Vec<Event>,
}

// The gate of a record that stands.
const OPEN: u8 = 1;

// The first byte, and what is behind it.
fn split_gate(records: &[u8]) -> Option<(u8, &[u8])>
    ensures some { IfSome result (λ x. records.now ≡ x.0 ∷ x.1.now) }
    ensures none { IfNone result (records.now ≡ []) }
{
    match records.split_first() {
        Some((gate, behind)) => Some((*gate, behind)),
        None => None,
    }
}

/// Reads the next record. Says whether there is one; none where the gate is closed.
pub fn read_next<N: Namer, D: Disk>(
    alloc: Global,
    namer: &N,
    store: &mut D,
    size: u64,
    ledger: &[u8],
    reached: &mut Reached,
) -> Result<bool, NextFault>
    requires size { D.tells → size ≡ length (D.file store.old).seen }
    requires small { size ≤ file_limit }
    requires ledger_small { length ledger.now ≤ file_limit }
    requires inside { IsInside (length ledger.now) size reached.old }
    requires so_far { IsReadSoFar N.id_of ledger.now reached.old }
    requires runs { D.tells → HasRuns (D.file store.old).seen reached.old }
    ensures so_far { OnOk result (IsReadSoFar N.id_of ledger.now reached.new) }
    ensures runs { D.tells → OnOk result (HasRuns (D.file store.old).seen reached.new) }
    ensures inside { OnOk result (IsInside (length ledger.now) size reached.new) }
    ensures longer { IfOk result (λ more. IsTrue more → reached.old.gate < reached.new.gate) }
    ensures end { IfOk result (λ more. more ≡ false → IsAtEnd ledger.now reached.new) }
    ensures harm { D.tells → IfErr result (λ fault.
        IfNextHarmed fault (BreaksNext N.id_of ledger.now (D.file store.old).seen reached.new)) }
    ensures kept { IfErr result (λ fault. IfNextHarmed fault (λ _ _. reached.new ≡ reached.old)) }
    ensures reads { OnlyReads D.tells UnlessDiskNext DiskFailed (D.file store.old, D.faults store.old)
        (D.file store.new, D.faults store.new) result }
{
    let Some((gate, behind)) = split_gate(&ledger[reached.gate as usize..]) else {
        return Err(NextFault::Harmed(0, cut(0, 1, reached.gate)));
    };
    if gate != OPEN {
        return Ok(false);
    }
    let parts = match take_record(behind, reached.gate + 1) {
        Ok(parts) => parts,
        Err(found) => return Err(NextFault::Harmed(0, found)),
    };
    let number = reached.events.as_slice().len() as u64 + 1;
    let place = NextPlace {
        gate: reached.gate,
        start: reached.end,
        number,
    };
    let (event, end) = read_event(alloc, namer, store, size, place, &parts)?;
    reached.events.push(event)?;
    reached.gate = (ledger.len() - parts.rest.len()) as u64;
    reached.end = end;
    Ok(true)
}
