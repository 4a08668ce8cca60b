//! The lengths that a history gives the two files, and the first of them that passes its limit.
ghost use Rattle.std.specs.Prelude.{◌≡◌, ◌⊎◌, ◌+◌, ◌≤◌, ◌^◌, IfOk, IfSome, IfNone, OnErr, MatchResult, length};
ghost use Rattle.swh_model.specs.Limits.{
  run_length,
  stored_length,
  store_length,
  snapshot_length,
  payload_length,
  ledger_length,
};
ghost use Rattle.swh_model.specs.Judge.{FilePasses};
ghost use Rattle.swh_model.specs.Judged.{IsFirstOf, NonePasses};

use crate::event::{Event, EventKind};
use swh_base::{Entry, FILE_LIMIT, Memory, Which};

/// The sum, or want of memory where it passes 64 bits: no machine holds files of such a length.
fn plus(a: u64, b: u64) -> Result<u64, Memory>
    ensures { MatchResult result (λ sum. sum ≡ a + b) (λ _. 2 ^ 64 ≤ a + b) }
{
    a.checked_add(b).ok_or(Memory)
}

/// The bytes of an id.
fn length_of_id(id: [u8; 20]) -> u64
    ensures value { result ≡ length id }
    ensures twenty { result ≡ 20 }
{
    id.len() as u64
}

fn length_of_run(entries: &[Entry]) -> Result<u64, Memory>
    ensures { MatchResult result (λ length. length ≡ run_length entries.now) (λ _. 2 ^ 64 ≤ run_length entries.now) }
{
    let mut sum: u64 = 0;
    for entry in entries {
        let id = length_of_id(entry.name.id);
        let body = entry.body.as_slice().len() as u64;
        sum = plus(sum, 9 + (id + body))?;
    }
    Ok(sum)
}

/// The bytes that an event adds to the store. Fails just where that passes 64 bits.
pub fn length_in_store(event: &EventKind) -> Result<u64, Memory>
    ensures { MatchResult result (λ length. length ≡ stored_length event.now) (λ _. 2 ^ 64 ≤ stored_length event.now) }
{
    length_of_run(event.entries())
}

fn length_of_snapshot(snapshot: &Option<[u8; 20]>) -> u64
    ensures value { result ≡ snapshot_length snapshot.now }
    ensures small { result ≤ 21 }
{
    match snapshot {
        Some(id) => 1 + length_of_id(*id),
        None => 1,
    }
}

fn length_of_payload(event: &EventKind) -> u64
    ensures { result ≡ payload_length event.now }
{
    match event {
        EventKind::Batch(_) => 4 + (8 + 8 + 4),
        EventKind::Open { origin, .. } => 4 + (1 + 8 + origin.as_str().as_bytes().len() as u64),
        EventKind::Mark {
            origin,
            snapshot,
            ..
        } => {
            let origin = origin.as_str().as_bytes().len() as u64;
            4 + (1 + 8 + (length_of_snapshot(snapshot) + origin))
        }
    }
}

/// Where the runs of a history end in the store, in bytes. Fails just where that passes 64 bits.
pub fn length_of_store(history: &[Event]) -> Result<u64, Memory>
    ensures { MatchResult result (λ length. length ≡ store_length history.now) (λ _. 2 ^ 64 ≤ store_length history.now) }
{
    let mut sum: u64 = 0;
    for event in history {
        sum = plus(sum, length_in_store(&event.what)?)?;
    }
    Ok(sum)
}

/// The length of the ledger of a history, in bytes. Fails just where that passes 64 bits.
pub fn length_of_ledger(history: &[Event]) -> Result<u64, Memory>
    ensures { MatchResult result (λ length. length ≡ ledger_length history.now) (λ _. 2 ^ 64 ≤ ledger_length history.now) }
{
    let mut sum: u64 = 9;
    for event in history {
        sum = plus(sum, plus(6, length_of_payload(&event.what))?)?;
    }
    Ok(sum)
}

/// The first of the two files that the event would make too long. Fails only where one of their lengths passes 64 bits.
pub fn file_limit(history: &[Event], event: &EventKind) -> Result<Option<(Which, u64)>, Memory>
    ensures some { IfOk result (λ limit. IfSome limit (IsFirstOf (FilePasses history.now event.now))) }
    ensures none { IfOk result (λ limit. IfNone limit (NonePasses (FilePasses history.now event.now))) }
    ensures err { OnErr result ((2 ^ 64 ≤ store_length history.now + stored_length event.now)
        ⊎ (2 ^ 64 ≤ ledger_length history.now + (6 + payload_length event.now))) }
{
    let store = plus(length_of_store(history)?, length_in_store(event)?)?;
    if store > FILE_LIMIT {
        return Ok(Some((Which::Store, store)));
    }
    let before = plus(length_of_ledger(history)?, 6)?;
    let ledger = plus(before, length_of_payload(event))?;
    if ledger > FILE_LIMIT {
        return Ok(Some((Which::Ledger, ledger)));
    }
    Ok(None)
}
