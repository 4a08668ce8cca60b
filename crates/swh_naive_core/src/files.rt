//! The two files of an archive as a crash may find them, byte by byte, and what the device calls of an event make of
//! them.
use crate::plain::{Plain, What};
use crate::records::{gate_after, store_end};
use std::alloc::Global;
use swh_base::Memory;

/// What a read gives; what was there at the last barrier, and which bytes of that were written over since; and the
/// greatest length since.
#[derive(Drop)]
pub struct ByteFile {
    pub bytes: Vec<u8>,
    pub safe: Vec<u8>,
    pub is_loose: Vec<bool>,
    pub longest: usize,
}

#[derive(Drop)]
pub struct Files {
    pub ledger: ByteFile,
    pub store: ByteFile,
}

/// A write of a file at a place, or a barrier.
#[derive(Drop)]
pub enum Call {
    LedgerWrite(usize, Vec<u8>),
    LedgerBarrier,
    StoreWrite(usize, Vec<u8>),
    StoreBarrier,
}

fn all_firm(alloc: Global, count: usize) -> Result<Vec<bool>, Memory> {
    let mut out = Vec::new(alloc);
    for _k in 0..count {
        out.push(false)?;
    }
    Ok(out)
}

/// A file with these bytes, and nothing written since a barrier.
pub fn firm_file(alloc: Global, bytes: &[u8]) -> Result<ByteFile, Memory> {
    Ok(ByteFile {
        bytes: Vec::from_slice(alloc, bytes)?,
        safe: Vec::from_slice(alloc, bytes)?,
        is_loose: all_firm(alloc, bytes.len())?,
        longest: bytes.len(),
    })
}

pub fn firm_files(alloc: Global, ledger: &[u8], store: &[u8]) -> Result<Files, Memory> {
    Ok(Files {
        ledger: firm_file(alloc, ledger)?,
        store: firm_file(alloc, store)?,
    })
}

fn file_again(alloc: Global, file: &ByteFile) -> Result<ByteFile, Memory> {
    Ok(ByteFile {
        bytes: Vec::from_slice(alloc, &file.bytes)?,
        safe: Vec::from_slice(alloc, &file.safe)?,
        is_loose: Vec::from_slice(alloc, &file.is_loose)?,
        longest: file.longest,
    })
}

pub fn files_again(alloc: Global, files: &Files) -> Result<Files, Memory> {
    Ok(Files {
        ledger: file_again(alloc, &files.ledger)?,
        store: file_again(alloc, &files.store)?,
    })
}

fn patched(alloc: Global, old: &[u8], at: usize, bytes: &[u8]) -> Result<Vec<u8>, Memory> {
    let end = at.saturating_add(bytes.len());
    let mut new = Vec::new(alloc);
    for byte in old.iter().take(at) {
        new.push(*byte)?;
    }
    new.extend_from_slice(bytes)?;
    for byte in old.iter().skip(end) {
        new.push(*byte)?;
    }
    Ok(new)
}

/// A write that may have reached any of its bytes.
fn begin_write(file: &mut ByteFile, at: usize, length: usize) {
    let end = at.saturating_add(length);
    for (k, is_loose) in file.is_loose.iter_mut().enumerate() {
        if k >= at && k < end {
            *is_loose = true;
        }
    }
    file.longest = file.longest.max(end);
}

fn write(alloc: Global, file: &mut ByteFile, at: usize, bytes: &[u8]) -> Result<(), Memory> {
    begin_write(file, at, bytes.len());
    file.bytes = patched(alloc, &file.bytes, at, bytes)?;
    Ok(())
}

fn make(alloc: Global, files: &mut Files, call: &Call) -> Result<(), Memory> {
    match call {
        Call::LedgerWrite(at, bytes) => write(alloc, &mut files.ledger, *at, bytes)?,
        Call::LedgerBarrier => files.ledger = firm_file(alloc, &files.ledger.bytes)?,
        Call::StoreWrite(at, bytes) => write(alloc, &mut files.store, *at, bytes)?,
        Call::StoreBarrier => files.store = firm_file(alloc, &files.store.bytes)?,
    }
    Ok(())
}

fn begin(files: &mut Files, call: &Call) {
    match call {
        Call::LedgerWrite(at, bytes) => begin_write(&mut files.ledger, *at, bytes.len()),
        Call::LedgerBarrier => {}
        Call::StoreWrite(at, bytes) => begin_write(&mut files.store, *at, bytes.len()),
        Call::StoreBarrier => {}
    }
}

/// Makes so many of the calls.
pub fn make_first(
    alloc: Global,
    files: &mut Files,
    calls: &[Call],
    count: usize,
) -> Result<(), Memory> {
    for one in calls.iter().take(count) {
        make(alloc, files, one)?;
    }
    Ok(())
}

/// Makes the calls before the one of this number, from 1, and begins that one.
pub fn fail_at(
    alloc: Global,
    files: &mut Files,
    calls: &[Call],
    number: usize,
) -> Result<(), Memory> {
    let before = number.saturating_sub(1);
    make_first(alloc, files, calls, before)?;
    if let Some(one) = calls.get(before) {
        begin(files, one);
    }
    Ok(())
}

/// The device calls of an event after a history: the store's run and a barrier where it is a batch; then the record with
/// the next gate, a barrier, the gate, and a barrier.
pub fn calls_of(alloc: Global, history: &[Plain], event: &Plain) -> Result<Vec<Call>, Memory> {
    let mut calls = Vec::new(alloc);
    if let What::Batch(_) = &event.what {
        if !event.run.is_empty() {
            let run = Vec::from_slice(alloc, &event.run)?;
            calls.push(Call::StoreWrite(store_end(history), run))?;
        }
        calls.push(Call::StoreBarrier)?;
    }
    let gate = gate_after(history);
    let mut record = Vec::from_slice(alloc, &event.record)?;
    record.push(0)?;
    calls.push(Call::LedgerWrite(gate.saturating_add(1), record))?;
    calls.push(Call::LedgerBarrier)?;
    calls.push(Call::LedgerWrite(gate, Vec::from_slice(alloc, &[1])?))?;
    calls.push(Call::LedgerBarrier)?;
    Ok(calls)
}

fn may_be(file: &ByteFile, k: usize, byte: u8) -> bool {
    match file.safe.get(k) {
        Some(safe) => *safe == byte || file.is_loose.get(k) == Some(&true),
        None => true,
    }
}

/// Says whether a crash may leave these bytes.
pub fn may_be_left(file: &ByteFile, image: &[u8]) -> bool {
    file.safe.len() <= image.len()
        && image.len() <= file.longest
        && image
            .iter()
            .enumerate()
            .all(|one| may_be(file, one.0, *one.1))
}
