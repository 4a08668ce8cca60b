//! The bytes of an event in the two files, by docs/FORMATS.md. Numbers are big-endian.
use crate::plain::{Plain, Stored, What};
use std::alloc::Global;
use swh_base::{Kind, Memory, Status, VisitKind};

fn status_byte(status: Status) -> u8 {
    match status {
        Status::Created => 1,
        Status::Ongoing => 2,
        Status::Full => 3,
        Status::Partial => 4,
        Status::NotFound => 5,
        Status::Failed => 6,
    }
}

fn visit_kind_byte(kind: VisitKind) -> u8 {
    match kind {
        VisitKind::Fast => 1,
        VisitKind::Dir => 2,
        VisitKind::Batch => 3,
    }
}

fn kind_byte(kind: Kind) -> u8 {
    match kind {
        Kind::Content => 1,
        Kind::Directory => 2,
        Kind::Revision => 3,
        Kind::Release => 4,
        Kind::Snapshot => 5,
    }
}

fn push_u32(out: &mut Vec<u8>, number: u32) -> Result<(), Memory> {
    out.extend_from_slice(&number.to_be_bytes())?;
    Ok(())
}

fn push_u64(out: &mut Vec<u8>, number: u64) -> Result<(), Memory> {
    out.extend_from_slice(&number.to_be_bytes())?;
    Ok(())
}

/// The objects of a batch, one behind the other.
fn run_of(alloc: Global, all: &[Stored]) -> Result<Vec<u8>, Memory> {
    let mut out = Vec::new(alloc);
    for stored in all {
        out.push(kind_byte(stored.name.kind))?;
        push_u64(&mut out, stored.body.len() as u64)?;
        out.extend_from_slice(&stored.name.id)?;
        out.extend_from_slice(&stored.body)?;
    }
    Ok(out)
}

fn batch_payload(
    alloc: Global,
    by: u32,
    from: u64,
    run: u64,
    count: u32,
) -> Result<Vec<u8>, Memory> {
    let mut out = Vec::new(alloc);
    push_u32(&mut out, by)?;
    push_u64(&mut out, from)?;
    push_u64(&mut out, from.saturating_add(run))?;
    push_u32(&mut out, count)?;
    Ok(out)
}

fn open_payload(
    alloc: Global,
    by: u32,
    origin: &[u8],
    kind: VisitKind,
    date: u64,
) -> Result<Vec<u8>, Memory> {
    let mut out = Vec::new(alloc);
    push_u32(&mut out, by)?;
    out.push(visit_kind_byte(kind))?;
    push_u64(&mut out, date)?;
    out.extend_from_slice(origin)?;
    Ok(out)
}

fn push_snapshot(out: &mut Vec<u8>, snapshot: Option<[u8; 20]>) -> Result<(), Memory> {
    match snapshot {
        Some(id) => {
            out.push(1)?;
            out.extend_from_slice(&id)?;
        }
        None => out.push(0)?,
    }
    Ok(())
}

fn mark_payload(
    alloc: Global,
    by: u32,
    origin: &[u8],
    visit: u64,
    status: Status,
    snapshot: Option<[u8; 20]>,
) -> Result<Vec<u8>, Memory> {
    let mut out = Vec::new(alloc);
    push_u32(&mut out, by)?;
    out.push(status_byte(status))?;
    push_u64(&mut out, visit)?;
    push_snapshot(&mut out, snapshot)?;
    out.extend_from_slice(origin)?;
    Ok(out)
}

/// A record from its kind on.
fn record_of(alloc: Global, kind: u8, payload: &[u8]) -> Result<Vec<u8>, Memory> {
    let mut out = Vec::new(alloc);
    out.push(kind)?;
    let length = u32::try_from(payload.len()).map_err(|_| Memory)?;
    push_u32(&mut out, length)?;
    out.extend_from_slice(payload)?;
    Ok(out)
}

/// How long the store is after a history.
pub fn store_end(history: &[Plain]) -> usize {
    let mut end: usize = 0;
    for event in history {
        end = end.saturating_add(event.run.len());
    }
    end
}

/// The place of the gate after a history's records.
pub fn gate_after(history: &[Plain]) -> usize {
    let mut gate: usize = 8;
    for event in history {
        gate = gate.saturating_add(1).saturating_add(event.record.len());
    }
    gate
}

/// What happens after a history, with its bytes.
pub fn made_event(alloc: Global, history: &[Plain], by: u32, what: What) -> Result<Plain, Memory> {
    let mut run = Vec::new(alloc);
    let record = match &what {
        What::Batch(all) => {
            run = run_of(alloc, all)?;
            let count = u32::try_from(all.len()).map_err(|_| Memory)?;
            let from = store_end(history) as u64;
            let payload = batch_payload(alloc, by, from, run.len() as u64, count)?;
            record_of(alloc, b'B', &payload)?
        }
        What::Open { origin, kind, date } => {
            let payload = open_payload(alloc, by, origin, *kind, *date)?;
            record_of(alloc, b'O', &payload)?
        }
        What::Mark {
            origin,
            visit,
            status,
            snapshot,
        } => {
            let payload = mark_payload(alloc, by, origin, *visit, *status, *snapshot)?;
            record_of(alloc, b'T', &payload)?
        }
    };
    Ok(Plain {
        by,
        what,
        record,
        run,
    })
}
