//! The event of a record that has its fields: its run is read, and what it tells is looked at.
ghost use Rattle.std.specs.Prelude.{◌≡◌, ◌≢◌, ◌≤◌, IsTrue, IfOk, IfErr, IsErrOf, length};
ghost use Rattle.swh_segment.specs.Reads.{OnlyReads};
ghost use Rattle.swh_base.specs.Limits.{file_limit};
ghost use Rattle.swh_format.specs.Kinds.{byte_of};
ghost use Rattle.swh_format.specs.declared.kinds.RecordKind.TheVariants as of;
ghost use Rattle.swh_recovery.specs.Fields.{found_at};
ghost use Rattle.swh_recovery.specs.Records.{
  in_file,
  IfNextHarmed,
  UnlessDiskNext,
  IsWholeRecord,
  IsToldExactly,
  IsEventRead,
  HoldsEvent,
  EventBreaks,
  IsWholeRead,
  IsNotTold,
};
ghost use Rattle.swh_recovery.specs.declared.harm.Harm.TheVariants.{Refused};
ghost use Rattle.swh_recovery.specs.declared.fault.NextFault.TheVariants.{DiskFailed, Harmed};

use crate::fault::{NextFault, ReadFault};
use crate::harm::{Found, Harm};
use crate::run::read_run;
use std::alloc::Global;
use swh_base::{Items, Namer};
use swh_format::{RecordParts, RunTold, read_whole as whole_of, run_told, split_four};
use swh_model::{Event, EventKind};
use swh_outside::Disk;

/// Where the next record stands: the place of its gate in the ledger, the place in the store where its run has to begin,
/// and the number of its event, from 1.
#[derive(Clone, Copy)]
pub struct NextPlace {
    pub gate: u64,
    pub start: u64,
    pub number: u64,
}

// A fault in the store.
fn in_store(fault: ReadFault) -> NextFault
    ensures { result ≡ in_file 1 fault }
{
    match fault {
        ReadFault::DiskFailed => NextFault::DiskFailed,
        ReadFault::Memory => NextFault::Memory,
        ReadFault::Harmed(found) => NextFault::Harmed(1, found),
    }
}

fn refused(gate: u64, event: u64) -> NextFault
    ensures { result ≡ Harmed 0 (found_at gate (Refused event)) }
{
    let harm = Harm::Refused { event };
    NextFault::Harmed(0, Found { at: gate, harm })
}

fn is_told_exactly(told: &RunTold<'_>, start: u64, number: usize) -> bool
    ensures yes { IsTrue result → IsToldExactly start number told.now }
    ensures no { IsToldExactly start number told.now → IsTrue result }
{
    told.from == start && start <= told.to && told.number as usize == number && told.left.is_empty()
}

// The event of a batch, and where its run ends in the store.
fn read_batch<N: Namer, D: Disk>(
    alloc: Global,
    namer: &N,
    store: &mut D,
    size: u64,
    place: NextPlace,
    parts: &RecordParts<'_>,
) -> Result<(Event, u64), NextFault>
    requires size { D.tells → size ≡ length (D.file store.old).seen }
    requires small { size ≤ file_limit }
    requires inside { place.start ≤ size }
    requires whole { IsWholeRecord parts.now }
    requires batch { parts.now.kind ≡ byte_of of.Batch }
    ensures read { IfOk result (λ x. IsEventRead N.id_of place.start parts.now x.0 x.1) }
    ensures inside { IfOk result (λ x. x.1 ≤ size) }
    ensures holds { D.tells → IfOk result (λ x. HoldsEvent place.start (D.file store.old).seen x.0 x.1) }
    ensures harm { D.tells → IfErr result (λ fault. IfNextHarmed fault
        (EventBreaks N.id_of place.number place.gate place.start parts.now (D.file store.old).seen)) }
    ensures reads { OnlyReads D.tells UnlessDiskNext DiskFailed (D.file store.old, D.faults store.old)
        (D.file store.new, D.faults store.new) result }
{
    let told = run_told(parts.payload);
    let entries = match read_run(alloc, namer, store, size, told.from, told.to) {
        Ok(entries) => entries,
        Err(fault) => return Err(in_store(fault)),
    };
    if !is_told_exactly(&told, place.start, entries.as_slice().len()) {
        return Err(refused(place.gate, place.number));
    }
    let event = Event {
        by: told.by,
        what: EventKind::Batch(Items::from_vec(entries)),
    };
    Ok((event, told.to))
}

// The event of an opening or a mark.
fn read_whole(
    alloc: Global,
    gate: u64,
    number: u64,
    parts: &RecordParts<'_>,
) -> Result<Event, NextFault>
    requires whole { IsWholeRecord parts.now }
    requires other { parts.now.kind ≢ byte_of of.Batch }
    ensures ok { IfOk result (IsWholeRead parts.now) }
    ensures harm { IfErr result (λ fault. IfNextHarmed fault (IsNotTold gate number parts.now)) }
    ensures why { IsErrOf result DiskFailed → ⊥ }
{
    let (by, rest) = split_four(parts.payload).unwrap();
    let Some(what) = whole_of(alloc, parts.kind, rest)? else {
        return Err(refused(gate, number));
    };
    Ok(Event { by, what })
}

/// The event of parts that have their fields, and where its run ends in the store; else its first harm.
pub fn read_event<N: Namer, D: Disk>(
    alloc: Global,
    namer: &N,
    store: &mut D,
    size: u64,
    place: NextPlace,
    parts: &RecordParts<'_>,
) -> Result<(Event, u64), NextFault>
    requires size { D.tells → size ≡ length (D.file store.old).seen }
    requires small { size ≤ file_limit }
    requires inside { place.start ≤ size }
    requires whole { IsWholeRecord parts.now }
    ensures read { IfOk result (λ x. IsEventRead N.id_of place.start parts.now x.0 x.1) }
    ensures inside { IfOk result (λ x. x.1 ≤ size) }
    ensures holds { D.tells → IfOk result (λ x. HoldsEvent place.start (D.file store.old).seen x.0 x.1) }
    ensures harm { D.tells → IfErr result (λ fault. IfNextHarmed fault
        (EventBreaks N.id_of place.number place.gate place.start parts.now (D.file store.old).seen)) }
    ensures reads { OnlyReads D.tells UnlessDiskNext DiskFailed (D.file store.old, D.faults store.old)
        (D.file store.new, D.faults store.new) result }
{
    if parts.kind == b'B' {
        return read_batch(alloc, namer, store, size, place, parts);
    }
    match read_whole(alloc, place.gate, place.number, parts) {
        Ok(event) => Ok((event, place.start)),
        Err(fault) => Err(fault),
    }
}
