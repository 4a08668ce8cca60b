//! The record of an event: how it is written, and what a record tells.
ghost use Rattle.std.specs.Prelude.{◌≡◌, ◌≢◌, ◌+◌, ◌++◌, ◌∷◌, [], IfOk, IfSome, IfNone, OnOk, length};
ghost use Rattle.swh_format.specs.Kinds.{byte_of};
ghost use Rattle.swh_format.specs.declared.kinds.RecordKind.TheVariants as of;
ghost use Rattle.swh_format.specs.EventRecord.{
  packed_objects,
  kind_of,
  event_payload,
  payload_of,
  coded_record,
  IsCodableKind,
  IsCodable,
};
ghost use Rattle.swh_format.specs.Tells.{TellsWhole, IsNotTold};

use crate::batch_record::push_batch;
use crate::frame::framed_record;
use crate::kinds::{RecordKind, record_byte};
use crate::mark_record::{push_mark, split_mark};
use crate::open_record::{push_open, split_open};
use crate::origin::read_origin;
use std::alloc::Global;
use swh_base::Memory;
use swh_model::{Event, EventKind};

fn kind_of_event(what: &EventKind) -> RecordKind
    ensures { result ≡ kind_of what.now }
{
    match what {
        EventKind::Batch(_) => RecordKind::Batch,
        EventKind::Open { .. } => RecordKind::Open,
        EventKind::Mark { .. } => RecordKind::Mark,
    }
}

fn push_told(bytes: &mut Vec<u8>, at: u64, end: u64, what: &EventKind) -> Result<(), Memory>
    requires run { end ≡ at + length (packed_objects what.now) }
    requires number { IsCodableKind at what.now }
    ensures { OnOk result (bytes.new.items ≡ bytes.old.items ++ event_payload at what.now) }
{
    match what {
        EventKind::Batch(entries) => { push_batch(bytes, at, end, entries.as_slice().len() as u32) }
        EventKind::Open { origin, kind, date } => push_open(bytes, origin, *kind, *date),
        EventKind::Mark {
            origin,
            visit,
            status,
            snapshot,
        } => push_mark(bytes, origin, *visit, *status, snapshot),
    }
}

fn payload(alloc: Global, at: u64, end: u64, event: &Event) -> Result<Vec<u8>, Memory>
    requires run { end ≡ at + length (packed_objects event.now.what) }
    requires number { IsCodableKind at event.now.what }
    ensures { IfOk result (λ bytes. bytes.items ≡ payload_of at event.now) }
{
    let mut bytes = Vec::new(alloc);
    bytes.extend_from_slice(&event.by.to_be_bytes())?;
    push_told(&mut bytes, at, end, &event.what)?;
    Ok(bytes)
}

/// The record of an event with the next gate, which is closed. A batch's run begins at `at` and ends at `end`, in bytes
/// from the store's beginning. `Memory` where there is none.
pub fn record_of_event(alloc: Global, at: u64, end: u64, event: &Event) -> Result<Vec<u8>, Memory>
    requires run { end ≡ at + length (packed_objects event.now.what) }
    requires codable { IsCodable at event.now }
    ensures { IfOk result (λ bytes. bytes.items ≡ coded_record at event.now ++ 0 ∷ []) }
{
    let payload = payload(alloc, at, end, event)?;
    let kind = record_byte(kind_of_event(&event.what));
    framed_record(alloc, kind, &payload)
}

fn read_open(alloc: Global, told: &[u8]) -> Result<Option<EventKind>, Memory>
    ensures some { IfOk result (λ found. IfSome found (TellsWhole (byte_of of.Open) told.now)) }
    ensures none { IfOk result (λ found. IfNone found (IsNotTold (byte_of of.Open) told.now)) }
{
    let Some(parts) = split_open(told) else {
        return Ok(None);
    };
    let Some(origin) = read_origin(alloc, parts.origin)? else {
        return Ok(None);
    };
    Ok(Some(EventKind::Open {
        origin,
        kind: parts.kind,
        date: parts.date,
    }))
}

fn read_mark(alloc: Global, told: &[u8]) -> Result<Option<EventKind>, Memory>
    ensures some { IfOk result (λ found. IfSome found (TellsWhole (byte_of of.Mark) told.now)) }
    ensures none { IfOk result (λ found. IfNone found (IsNotTold (byte_of of.Mark) told.now)) }
{
    let Some(parts) = split_mark(told) else {
        return Ok(None);
    };
    let Some(origin) = read_origin(alloc, parts.origin)? else {
        return Ok(None);
    };
    Ok(Some(EventKind::Mark {
        origin,
        visit: parts.visit,
        status: parts.status,
        snapshot: parts.snapshot,
    }))
}

/// What happened, by a record's kind, which is no batch's, and its payload after who wrote it; none where it is of no
/// event. `Memory` where there is none for an origin.
pub fn read_whole(alloc: Global, kind: u8, told: &[u8]) -> Result<Option<EventKind>, Memory>
    requires { kind ≢ byte_of of.Batch }
    ensures some { IfOk result (λ found. IfSome found (TellsWhole kind told.now)) }
    ensures none { IfOk result (λ found. IfNone found (IsNotTold kind told.now)) }
{
    match kind {
        b'O' => read_open(alloc, told),
        b'T' => read_mark(alloc, told),
        _ => Ok(None),
    }
}
