//! The two files in memory, as a crash may find them.
ghost use Rattle.std.specs.Prelude.{◌≡◌, ◌↔◌, ◌+◌, ◌-◌, ◌∷◌, [], min, map, take, IfOk, OnOk, IsTrue};
ghost use Rattle.swh_outside.specs.Disk.{IsImage, IsOutside, Write, Sync, patched, begun, done};
ghost use Rattle.swh_core.specs.World.{
  file_of,
  files_on,
  disk_of,
  disks_in,
  rested_disk,
  rested,
  called,
  first_begun,
  failed_at,
};
ghost use Rattle.swh_core.specs.Answers.{call_of, file_call};

use crate::call::{DeviceCall, EventCall};
use std::alloc::Global;
use swh_base::{Bytes, Items, Memory};

/// A file as a crash may find it.
#[derive(Drop)]
pub struct Disk {
    /// What it held at its last barrier.
    pub base: Bytes,
    /// The places and lengths of what was written since, the newest first.
    pub ranges: Items<(usize, usize)>,
    /// Its greatest length since.
    pub longest: usize,
    /// What a read gives.
    pub seen: Bytes,
}

/// The two files of an archive.
#[derive(Drop)]
pub struct Disks {
    pub ledger: Disk,
    pub store: Disk,
}

/// The sum, or want of memory where it passes 64 bits: no machine holds files of such a length.
fn plus(a: usize, b: usize) -> Result<usize, Memory>
    ensures { IfOk result (λ sum. sum ≡ a + b) }
{
    a.checked_add(b).ok_or(Memory)
}

/// A file with these bytes, and nothing written since a barrier.
fn disk_at_rest(alloc: Global, bytes: &[u8]) -> Result<Disk, Memory>
    ensures { IfOk result (λ disk. disk ≡ rested_disk bytes.now) }
{
    Ok(Disk {
        base: Bytes::from_slice(alloc, bytes)?,
        ranges: Items::from_vec(Vec::new(alloc)),
        longest: bytes.len(),
        seen: Bytes::from_slice(alloc, bytes)?,
    })
}

/// Two files with these bytes, and nothing written since a barrier.
pub fn disks_at_rest(alloc: Global, ledger: &[u8], store: &[u8]) -> Result<Disks, Memory>
    ensures { IfOk result (λ disks. disks ≡ rested ledger.now store.now) }
{
    Ok(Disks {
        ledger: disk_at_rest(alloc, ledger)?,
        store: disk_at_rest(alloc, store)?,
    })
}

fn disk_again(alloc: Global, disk: &Disk) -> Result<Disk, Memory>
    ensures { IfOk result (λ copy. copy ≡ disk.now) }
{
    let ranges = Vec::from_slice(alloc, disk.ranges.as_slice())?;
    Ok(Disk {
        base: Bytes::from_slice(alloc, disk.base.as_slice())?,
        ranges: Items::from_vec(ranges),
        longest: disk.longest,
        seen: Bytes::from_slice(alloc, disk.seen.as_slice())?,
    })
}

/// Equal files.
pub fn disks_again(alloc: Global, disks: &Disks) -> Result<Disks, Memory>
    ensures { IfOk result (λ copy. copy ≡ disks.now) }
{
    Ok(Disks {
        ledger: disk_again(alloc, &disks.ledger)?,
        store: disk_again(alloc, &disks.store)?,
    })
}

/// Bytes with others written over them at a place, and past the end.
fn patched_bytes(alloc: Global, old: &[u8], at: usize, bytes: &[u8]) -> Result<Vec<u8>, Memory>
    ensures { IfOk result (λ new. new.items ≡ patched old.now at bytes.now) }
{
    let end = plus(at, bytes.len())?;
    let from = at.min(old.len());
    let to = end.min(old.len());
    let mut new = Vec::from_slice(alloc, &old[..from])?;
    new.extend_from_slice(bytes)?;
    new.extend_from_slice(&old[to..])?;
    Ok(new)
}

fn begin_write(alloc: Global, disk: &mut Disk, at: usize, bytes: &[u8]) -> Result<(), Memory>
    ensures { OnOk result (disk.new ≡ disk_of (begun (Write at bytes.now) (file_of disk.old))) }
{
    let end = plus(at, bytes.len())?;
    let mut ranges = Vec::new(alloc);
    ranges.push((at, bytes.len()))?;
    ranges.extend_from_slice(disk.ranges.as_slice())?;
    disk.ranges = Items::from_vec(ranges);
    disk.longest = disk.longest.max(end);
    Ok(())
}

fn do_write(alloc: Global, disk: &mut Disk, at: usize, bytes: &[u8]) -> Result<(), Memory>
    ensures { OnOk result (disk.new ≡ disk_of (done (Write at bytes.now) (file_of disk.old))) }
{
    let seen = patched_bytes(alloc, disk.seen.as_slice(), at, bytes)?;
    begin_write(alloc, disk, at, bytes)?;
    disk.seen = Bytes::from_vec(seen);
    Ok(())
}

fn do_sync(alloc: Global, disk: &mut Disk) -> Result<(), Memory>
    ensures { OnOk result (disk.new ≡ disk_of (done Sync (file_of disk.old))) }
{
    let rested = disk_at_rest(alloc, disk.seen.as_slice())?;
    *disk = rested;
    Ok(())
}

fn do_call(alloc: Global, disk: &mut Disk, call: &DeviceCall) -> Result<(), Memory>
    ensures { OnOk result (disk.new ≡ disk_of (done (call_of call.now) (file_of disk.old))) }
{
    match call {
        DeviceCall::Write { at, bytes } => do_write(alloc, disk, *at, bytes.as_slice()),
        DeviceCall::Sync => do_sync(alloc, disk),
    }
}

fn begin_call(alloc: Global, disk: &mut Disk, call: &DeviceCall) -> Result<(), Memory>
    ensures { OnOk result (disk.new ≡ disk_of (begun (call_of call.now) (file_of disk.old))) }
{
    match call {
        DeviceCall::Write { at, bytes } => begin_write(alloc, disk, *at, bytes.as_slice()),
        DeviceCall::Sync => Ok(()),
    }
}

fn do_event_call(alloc: Global, disks: &mut Disks, call: &EventCall) -> Result<(), Memory>
    ensures { OnOk result (disks.new ≡ called (file_call call.now ∷ []) disks.old) }
{
    match call {
        EventCall::Ledger(call) => do_call(alloc, &mut disks.ledger, call),
        EventCall::Store(call) => do_call(alloc, &mut disks.store, call),
    }
}

fn begin_first(alloc: Global, disks: &mut Disks, calls: &[EventCall]) -> Result<(), Memory>
    ensures { OnOk result (disks.new ≡ disks_in (first_begun (map file_call calls.now) (files_on disks.old))) }
{
    match calls {
        [] => Ok(()),
        [EventCall::Ledger(call), ..] => begin_call(alloc, &mut disks.ledger, call),
        [EventCall::Store(call), ..] => begin_call(alloc, &mut disks.store, call),
    }
}

/// Makes these calls, one after another.
pub fn do_calls(alloc: Global, disks: &mut Disks, calls: &[EventCall]) -> Result<(), Memory>
    ensures { OnOk result (disks.new ≡ called (map file_call calls.now) disks.old) }
{
    for call in calls {
        do_event_call(alloc, disks, call)?;
    }
    Ok(())
}

fn at_most(number: u32, count: usize) -> usize
    ensures { result ≡ min number count }
{
    (number as usize).min(count)
}

/// Makes so many of these calls, or all where there are fewer.
pub fn make_first(
    alloc: Global,
    disks: &mut Disks,
    calls: &[EventCall],
    number: u32,
) -> Result<(), Memory>
    ensures { OnOk result (disks.new ≡ called (take number (map file_call calls.now)) disks.old) }
{
    let count = at_most(number, calls.len());
    do_calls(alloc, disks, &calls[..count])?;
    Ok(())
}

/// How many calls are before the one of this number, from 1.
fn calls_before(number: u32, count: usize) -> usize
    ensures { result ≡ min (number - 1) count }
{
    if number == 0 {
        return 0;
    }
    (number as usize - 1).min(count)
}

/// Makes the calls before the one of this number, from 1, and begins that one.
pub fn fail_call(
    alloc: Global,
    disks: &mut Disks,
    calls: &[EventCall],
    number: u32,
) -> Result<(), Memory>
    ensures { OnOk result (disks.new ≡ failed_at number (map file_call calls.now) disks.old) }
{
    let before = calls_before(number, calls.len());
    do_calls(alloc, disks, &calls[..before])?;
    begin_first(alloc, disks, &calls[before..])?;
    Ok(())
}

fn is_outside(ranges: &[(usize, usize)], k: usize) -> bool
    ensures { IsTrue result ↔ IsOutside ranges.now k }
{
    for range in ranges {
        if range.0 <= k && k - range.0 < range.1 {
            return false;
        }
    }
    true
}

/// Says whether a crash may leave these bytes of the file.
pub fn is_image(disk: &Disk, image: &[u8]) -> bool
    ensures { IsTrue result ↔ IsImage (file_of disk.now) image.now }
{
    let base = disk.base.as_slice();
    let ranges = disk.ranges.as_slice();
    if image.len() < base.len() || image.len() > disk.longest {
        return false;
    }
    for k in 0..base.len() {
        if is_outside(ranges, k) && image[k] != base[k] {
            return false;
        }
    }
    true
}
