//! Device calls as values, and those of an event.
ghost use Rattle.std.specs.Prelude.{◌≡◌, ◌+◌, ◌++◌, ◌<◌, ◌^◌, Some, IfOk, OnOk, map, length};
ghost use Rattle.swh_outside.specs.Files.{on};
ghost use Rattle.swh_model.specs.Limits.{store_length};
ghost use Rattle.swh_format.specs.EventRecord.{
  packed_objects,
  run_written,
  IsCodableKind,
  IsCodable,
};
ghost use Rattle.swh_segment.specs.Calls.{append_calls, run_calls, calls_for};
ghost use Rattle.swh_core.specs.Answers.{file_call, FitsRecord};

use std::alloc::Global;
use swh_base::{Bytes, Memory};
use swh_format::{
    entries_are_codable, origin_is_codable, record_of_event, run_of_entries, snapshot_is_codable,
};
use swh_model::{Event, EventKind, length_of_ledger, length_of_store};

/// A call that changes what a crash may leave of a file.
#[derive(Drop)]
pub enum DeviceCall {
    Write { at: usize, bytes: Bytes },
    Sync,
}

/// A call on one of the two files.
#[derive(Drop)]
pub enum EventCall {
    Ledger(DeviceCall),
    Store(DeviceCall),
}

/// The bytes that an event adds to the store.
fn packed(alloc: Global, what: &EventKind) -> Result<Vec<u8>, Memory>
    ensures { IfOk result (λ run. run.items ≡ packed_objects what.now) }
{
    match what {
        EventKind::Batch(entries) => run_of_entries(Vec::new(alloc), entries.as_slice()),
        _ => Ok(Vec::new(alloc)),
    }
}

/// The calls of a run, which is written unless it is empty.
fn push_run(calls: &mut Vec<EventCall>, at: usize, run: Vec<u8>) -> Result<(), Memory>
    ensures { OnOk result (map file_call calls.new.items ≡ map file_call calls.old.items
        ++ on 1 (run_calls at (Some run.items))) }
{
    if !run.is_empty() {
        let bytes = Bytes::from_vec(run);
        calls.push(EventCall::Store(DeviceCall::Write { at, bytes }))?;
    }
    calls.push(EventCall::Store(DeviceCall::Sync))?;
    Ok(())
}

/// The calls on the store, of a batch alone.
fn push_packed(
    calls: &mut Vec<EventCall>,
    at: usize,
    run: Vec<u8>,
    what: &EventKind,
) -> Result<(), Memory>
    requires { run.items ≡ packed_objects what.now }
    ensures { OnOk result (map file_call calls.new.items ≡ map file_call calls.old.items
        ++ on 1 (run_calls at (run_written what.now))) }
{
    match what {
        EventKind::Batch(_) => push_run(calls, at, run),
        _ => Ok(()),
    }
}

/// The calls on the ledger: the record with the next gate, and then the gate before it.
fn push_record(
    alloc: Global,
    calls: &mut Vec<EventCall>,
    end: usize,
    coded: Vec<u8>,
) -> Result<(), Memory>
    requires { end + 1 < 2 ^ 64 }
    ensures { OnOk result (map file_call calls.new.items ≡ map file_call calls.old.items
        ++ on 0 (append_calls end coded.items)) }
{
    let bytes = Bytes::from_vec(coded);
    let gate = Bytes::from_slice(alloc, &[1])?;
    calls.push(EventCall::Ledger(DeviceCall::Write { at: end + 1, bytes }))?;
    calls.push(EventCall::Ledger(DeviceCall::Sync))?;
    calls.push(EventCall::Ledger(DeviceCall::Write {
        at: end,
        bytes: gate,
    }))?;
    calls.push(EventCall::Ledger(DeviceCall::Sync))?;
    Ok(())
}

/// What the types say of what happened: its parts fit their fields.
fn kind_is_codable(at: u64, end: u64, what: &EventKind)
    requires fits { FitsRecord what.now }
    requires end { end ≡ at + length (packed_objects what.now) }
    ensures { IsCodableKind at what.now }
{
    match what {
        EventKind::Batch(entries) => entries_are_codable(entries.as_slice()),
        EventKind::Open { origin, date, .. } => {
            let _date = *date;
            origin_is_codable(origin)
        }
        EventKind::Mark {
            origin,
            visit,
            snapshot,
            ..
        } => {
            let _visit = *visit;
            origin_is_codable(origin);
            snapshot_is_codable(snapshot)
        }
    }
}

/// The same of an event.
fn event_is_codable(at: u64, end: u64, event: &Event)
    requires fits { FitsRecord event.now.what }
    requires end { end ≡ at + length (packed_objects event.now.what) }
    ensures { IsCodable at event.now }
{
    let _by = event.by;
    kind_is_codable(at, end, &event.what)
}

/// The device calls that add an event after a history.
pub fn device_calls(
    alloc: Global,
    history: &[Event],
    event: &Event,
) -> Result<Vec<EventCall>, Memory>
    requires { FitsRecord event.now.what }
    ensures calls { IfOk result (λ calls. map file_call calls.items ≡ calls_for history.now event.now) }
    ensures codable { OnOk result (IsCodable (store_length history.now) event.now) }
{
    let at = length_of_store(history)?;
    let end = length_of_ledger(history)? - 1;
    let run = packed(alloc, &event.what)?;
    let run_end = at.checked_add(run.len() as u64).ok_or(Memory)?;
    event_is_codable(at, run_end, event);
    let record = record_of_event(alloc, at, run_end, event)?;
    let mut calls = Vec::new(alloc);
    push_packed(&mut calls, at as usize, run, &event.what)?;
    push_record(alloc, &mut calls, end as usize, record)?;
    Ok(calls)
}
