// A disk in memory. It keeps what a crash may leave, and each call that was begun.
ghost use Rattle.std.specs.Prelude.{◌≡◌, ◌≤◌, ◌<◌, ◌↔◌, [], length, vec_len, vec_capacity, IsTrue, IfOk};
ghost use Rattle.swh_outside.specs.Disk.{IsImage};
ghost use Rattle.swh_memory_disk.specs.Kept.{kept_file};
ghost use Rattle.swh_memory_disk.specs.Record.{sizes_of};
ghost use Rattle.swh_memory_disk.specs.Past.{IsRecorded};

use crate::past::Past;
use crate::ranges::{filled, is_outside, patch, settle};
use crate::{MemoryCall, MemoryRecord, Room};
use std::alloc::{AllocError, Global};
use swh_memory_failures::Failures;
use swh_outside::{Disk, Failed};

/// A disk in memory. A call that would pass its room is not begun; it fails and is counted, as do the calls that are
/// to fail. No call allocates, and a barrier costs no more than the writes since the last one.
#[derive(Drop)]
pub struct MemoryDisk {
    room: Room,
    made: Vec<u8>,
    bytes: Vec<u8>,
    base: Vec<u8>,
    ranges: Vec<(usize, usize)>,
    longest: usize,
    written: Vec<u8>,
    calls: Vec<MemoryRecord>,
    failures: Failures,
    ghost sees_image: { IsImage (kept_file base.items ranges.items longest bytes.items []) bytes.items },
    ghost bytes_room: { room.bytes ≤ vec_capacity bytes },
    ghost base_room: { room.bytes ≤ vec_capacity base },
    ghost base_fits: { vec_len bytes ≤ vec_capacity base },
    ghost written_room: { room.bytes ≤ vec_capacity written },
    ghost calls_room: { room.calls ≤ vec_capacity calls },
    ghost ranges_room: { room.calls ≤ vec_capacity ranges },
    ghost few_ranges: { vec_len ranges ≤ vec_len calls },
    ghost sizes: { sizes_of calls.items ≡ length written.items },
    ghost recorded: { IsRecorded made.items calls.items written.items base.items ranges.items longest bytes.items },
}

impl MemoryDisk {
    ghost use Rattle.swh_outside.specs.Disk.{IsFailedCall, Write, begun, done};
    ghost use Rattle.swh_outside.specs.Faults.{HasCause};
    ghost use Rattle.swh_outside.specs.Files.{absent};
    ghost use Rattle.swh_memory_disk.specs.Memory.{
      memory_file,
      disk_room,
      disk_calls,
      disk_tally,
      disk_faults,
      notes_of,
      new_notes,
      moment_file,
      KeepsMoments,
    };
    ghost use Rattle.swh_memory_disk.specs.Kept.{resting};
    ghost use Rattle.swh_memory_disk.specs.Past.{left_by, IsNearest};
    ghost use Rattle.swh_memory_disk.specs.Memory.{
      has_call_room,
      has_write_room,
      is_call_to_fail,
      is_write_to_fail,
      begun_within,
    };
    ghost use Rattle.swh_memory_disk.specs.Record.{IsBare, noted};
    ghost use Rattle.swh_memory_failures.specs.Tally.{fresh_tally, tallied};
    ghost use Rattle.swh_memory_disk.specs.declared.record.MemoryCall.TheVariants.{Written};
    ghost use Rattle.std.specs.Prelude.{◌+◌, ◌⊎◌, true, false, OnOk, OnErr, is_err, if◌then◌else◌};

    /// A disk with these bytes, all of them on it. Its calls with the listed numbers, from 0, will fail.
    pub fn new(
        alloc: Global,
        bytes: &[u8],
        room: Room,
        failing: Vec<u64>,
    ) -> Result<Self, AllocError>
        ensures file { IfOk result (λ disk. memory_file disk ≡ resting bytes.now) }
        ensures made { IfOk result (λ disk. moment_file disk 0 ≡ resting bytes.now) }
        ensures room { IfOk result (λ disk. disk_room disk ≡ room) }
        ensures calls { IfOk result (λ disk. disk_calls disk ≡ []) }
        ensures failing { IfOk result (λ disk. disk_tally disk ≡ fresh_tally failing.items) }
        ensures no_fault { IfOk result (λ disk. disk_faults disk ≡ 0) }
    {
        let longer = room.bytes.max(bytes.len());
        Ok(MemoryDisk {
            room,
            made: filled(alloc, bytes.len(), bytes)?,
            bytes: filled(alloc, longer, bytes)?,
            base: filled(alloc, longer, bytes)?,
            ranges: Vec::with_capacity(alloc, room.calls)?,
            longest: bytes.len(),
            written: Vec::with_capacity(alloc, room.bytes)?,
            calls: Vec::with_capacity(alloc, room.calls)?,
            failures: Failures::at(failing),
        })
    }

    /// A disk with no bytes, none of whose calls will fail.
    pub fn with_room(alloc: Global, room: Room) -> Result<Self, AllocError>
        ensures file { IfOk result (λ disk. memory_file disk ≡ absent) }
        ensures room { IfOk result (λ disk. disk_room disk ≡ room) }
        ensures calls { IfOk result (λ disk. disk_calls disk ≡ []) }
        ensures failing { IfOk result (λ disk. disk_tally disk ≡ fresh_tally []) }
        ensures no_fault { IfOk result (λ disk. disk_faults disk ≡ 0) }
    {
        MemoryDisk::new(alloc, &[], room, Vec::new(alloc))
    }

    /// A disk with no bytes and no room.
    pub fn empty(alloc: Global) -> Self
        ensures file { memory_file result ≡ absent }
        ensures notes { notes_of result ≡ new_notes (record { bytes = 0; calls = 0 }) }
        ensures no_fault { disk_faults result ≡ 0 }
    {
        MemoryDisk {
            room: Room { bytes: 0, calls: 0 },
            made: Vec::new(alloc),
            bytes: Vec::new(alloc),
            base: Vec::new(alloc),
            ranges: Vec::new(alloc),
            longest: 0,
            written: Vec::new(alloc),
            calls: Vec::new(alloc),
            failures: Failures::at(Vec::new(alloc)),
        }
    }

    /// How often it has failed.
    pub fn faults(&self) -> u64
        ensures { result ≡ disk_faults self.now }
    {
        self.failures.count()
    }

    /// The same disk, whose count of faults begins anew.
    pub fn with_no_fault(mut self) -> Self
        ensures file { memory_file result ≡ memory_file self }
        ensures room { disk_room result ≡ disk_room self }
        ensures calls { disk_calls result ≡ disk_calls self }
        ensures failing { disk_tally result ≡ record (disk_tally self) { faults = 0 } }
        ensures no_fault { disk_faults result ≡ 0 }
        ensures past { KeepsMoments self result }
    {
        self.failures.forget();
        self
    }

    /// What a read gives.
    pub fn bytes(&self) -> &[u8]
        ensures { result.now ≡ (memory_file self.now).seen }
    {
        &self.bytes
    }

    /// The calls that were begun, of any kind, the last at the end.
    pub fn calls(&self) -> &[MemoryRecord]
        ensures { result.now ≡ disk_calls self.now }
    {
        &self.calls
    }

    /// Says whether a crash now may leave these bytes.
    pub fn is_image(&self, image: &[u8]) -> bool
        ensures { IsTrue result ↔ IsImage (memory_file self.now) image.now }
    {
        if image.len() < self.base.len() || image.len() > self.longest {
            return false;
        }
        for k in 0..self.base.len() {
            if is_outside(&self.ranges, k) && image[k] != self.base[k] {
                return false;
            }
        }
        true
    }

    /// An image that a crash may leave after this number of the calls on record (0: as made; all calls, where there are
    /// fewer): the one nearest to the choice. An image that is chosen comes back as it is.
    pub fn image(&self, alloc: Global, moment: usize, choice: &[u8]) -> Result<Vec<u8>, AllocError>
        ensures image { IfOk result (λ image. IsImage (moment_file self.now moment) image.items) }
        ensures nearest { IfOk result (λ image. IsNearest (moment_file self.now moment) choice.now image.items) }
        ensures chosen { IsImage (moment_file self.now moment) choice.now
            → IfOk result (λ image. image.items ≡ choice.now) }
        ensures now { length (disk_calls self.now) ≤ moment → moment_file self.now moment ≡ memory_file self.now }
    {
        let count = moment.min(self.calls.len());
        let past = Past::after(alloc, &self.made, &self.calls[..count], &self.written)?;
        past.image_near(alloc, choice)
    }

    // Says whether one more call is within the room.
    fn has_call_room(&self) -> bool
        ensures { result ≡ has_call_room self.now }
    {
        self.calls.len() < self.room.calls
    }

    // Says whether one more call, a write, is within the room.
    fn has_write_room(&self, at: usize, bytes: &[u8]) -> bool
        requires { at ≤ length (memory_file self.now).seen }
        ensures { result ≡ has_write_room self.now at (length bytes.now) }
    {
        self.has_call_room()
            && at + bytes.len() <= self.room.bytes
            && self.written.len() + bytes.len() <= self.room.bytes
    }

    // Makes a call that carries no bytes; or counts a failure, where it has no room or is to fail.
    fn begin(&mut self, call: MemoryCall) -> Result<(), Failed>
        requires { IsBare call }
        ensures fails { is_err result ≡ is_call_to_fail self.old }
        ensures counted { disk_tally self.new ≡ tallied (is_err result) (disk_tally self.old) }
        ensures noted { disk_calls self.new ≡ noted (has_call_room self.old) (disk_calls self.old) call
            (is_err result) }
        ensures same_room { disk_room self.new ≡ disk_room self.old }
        ensures ok { OnOk result (memory_file self.new ≡ left_by call false [] (memory_file self.old)) }
        ensures err { OnErr result ((memory_file self.new ≡ memory_file self.old)
            ⊎ (memory_file self.new ≡ left_by call true [] (memory_file self.old))) }
        ensures left { OnErr result (memory_file self.new
            ≡ if has_call_room self.old then left_by call true [] (memory_file self.old) else memory_file self.old) }
        ensures past { KeepsMoments self.old self.new }
        ensures cause { HasCause (disk_faults self.old) (disk_faults self.new) result }
    {
        let fails = self.failures.next_fails();
        if !self.has_call_room() {
            return Err(self.failures.refuse());
        }
        self.note(call, fails);
        if fails {
            return Err(self.failures.refuse());
        }
        Ok(())
    }

    // Puts a call that carries no bytes on record, with what it leaves.
    fn note(&mut self, call: MemoryCall, failed: bool)
        requires room { has_call_room self.old ≡ true }
        requires bare { IsBare call }
        ensures file { memory_file self.new ≡ left_by call failed [] (memory_file self.old) }
        ensures past { KeepsMoments self.old self.new }
        ensures noted { disk_calls self.new ≡ noted true (disk_calls self.old) call failed }
        ensures same_room { disk_room self.new ≡ disk_room self.old }
        ensures tally { disk_tally self.new ≡ disk_tally self.old }
    {
        self.calls.push_reserved(MemoryRecord { call, failed });
        if failed {
            return;
        }
        let MemoryCall::Synced = call else {
            return;
        };
        settle(&mut self.base, &self.bytes, &mut self.ranges);
        self.longest = self.bytes.len();
    }

    // Makes a write; or counts a failure, where it has no room or is to fail.
    fn begin_write(&mut self, at: usize, bytes: &[u8]) -> Result<(), Failed>
        requires { at ≤ length (memory_file self.old).seen }
        ensures fails { is_err result ≡ is_write_to_fail self.old at (length bytes.now) }
        ensures counted { disk_tally self.new ≡ tallied (is_err result) (disk_tally self.old) }
        ensures noted { disk_calls self.new ≡ noted (has_write_room self.old at (length bytes.now))
            (disk_calls self.old)
            (Written at (length bytes.now)) (is_err result) }
        ensures same_room { disk_room self.new ≡ disk_room self.old }
        ensures ok { OnOk result (memory_file self.new ≡ done (Write at bytes.now) (memory_file self.old)) }
        ensures err { OnErr result (IsFailedCall (Write at bytes.now) (memory_file self.old) (memory_file self.new)) }
        ensures left { OnErr result (memory_file self.new
            ≡ begun_within (has_write_room self.old at (length bytes.now)) (Write at bytes.now)
            (memory_file self.old)) }
        ensures past { KeepsMoments self.old self.new }
        ensures cause { HasCause (disk_faults self.old) (disk_faults self.new) result }
    {
        let fails = self.failures.next_fails();
        if !self.has_write_room(at, bytes) {
            return Err(self.failures.refuse());
        }
        self.note_write(at, bytes, fails);
        if fails {
            return Err(self.failures.refuse());
        }
        Ok(())
    }

    // Puts a write on record, with what it leaves.
    fn note_write(&mut self, at: usize, bytes: &[u8], failed: bool)
        requires room { has_write_room self.old at (length bytes.now) ≡ true }
        requires inside { at ≤ length (memory_file self.old).seen }
        ensures file { memory_file self.new
            ≡ left_by (Written at (length bytes.now)) failed bytes.now (memory_file self.old) }
        ensures past { KeepsMoments self.old self.new }
        ensures noted { disk_calls self.new ≡ noted true (disk_calls self.old) (Written at (length bytes.now)) failed }
        ensures same_room { disk_room self.new ≡ disk_room self.old }
        ensures tally { disk_tally self.new ≡ disk_tally self.old }
    {
        let count = bytes.len();
        let _ = self.written.extend_from_slice(bytes);
        let call = MemoryCall::Written(at, count);
        self.calls.push_reserved(MemoryRecord { call, failed });
        self.ranges.push_reserved((at, count));
        self.longest = self.longest.max(at + count);
        if failed {
            return;
        }
        patch(&mut self.bytes, at, bytes);
    }
}

impl Disk for MemoryDisk {
    ghost use Rattle.std.specs.Prelude.{◌∷◌, ◌-◌, drop, min, is_err, OnErr};
    ghost use Rattle.swh_outside.specs.Disk.{IsReadAt, Runs, Sync, Write};
    ghost use Rattle.swh_outside.specs.Faults.{HasCause};
    ghost use Rattle.swh_memory_disk.specs.Memory.{
      memory_file,
      disk_room,
      disk_calls,
      disk_tally,
      disk_faults,
      KeepsMoments,
    };
    ghost use Rattle.swh_memory_disk.specs.Memory.{
      has_call_room,
      has_write_room,
      is_call_to_fail,
      is_write_to_fail,
      begun_within,
    };
    ghost use Rattle.swh_memory_disk.specs.Record.{noted};
    ghost use Rattle.swh_memory_failures.specs.Tally.{tallied};
    ghost use Rattle.swh_memory_disk.specs.declared.record.MemoryCall.TheVariants.{Length, Read, Written, Synced};
    ghost use Rattle.swh_outside.proofs.Images.{recast};
    ghost use Rattle.std.specs.Prelude.{refl};

    ghost tells = { Unit {0} };

    ghost file = { memory_file };

    ghost faults = { disk_faults };

    ghost sees_image = { λ disk told. recast _ _ _ refl refl refl disk.sees_image };

    fn len(&mut self) -> Result<u64, Failed>
        ensures value { IfOk result (λ n. n ≡ length (memory_file self.old).seen) }
        ensures same { memory_file self.new ≡ memory_file self.old }
        ensures cause { HasCause (disk_faults self.old) (disk_faults self.new) result }

        ensures fails { is_err result ≡ is_call_to_fail self.old }
        ensures counted { disk_tally self.new ≡ tallied (is_err result) (disk_tally self.old) }
        ensures noted { disk_calls self.new ≡ noted (has_call_room self.old) (disk_calls self.old) Length
            (is_err result) }
        ensures same_room { disk_room self.new ≡ disk_room self.old }
        ensures past { KeepsMoments self.old self.new }
    {
        let Ok(()) = self.begin(MemoryCall::Length) else {
            return Err(Failed);
        };
        Ok(self.bytes.len() as u64)
    }

    fn read_at(&mut self, at: u64, out: &mut [u8]) -> Result<usize, Failed>
        ensures bound { IfOk result (λ n. n ≤ length out.new) }
        ensures bytes { IfOk result (λ n. IsReadAt (memory_file self.old).seen at n out.new) }
        ensures same { memory_file self.new ≡ memory_file self.old }
        ensures cause { HasCause (disk_faults self.old) (disk_faults self.new) result }

        ensures whole { IfOk result (λ n. n ≡ min (length out.old) (length (memory_file self.old).seen - at)) }
        ensures fails { is_err result ≡ is_call_to_fail self.old }
        ensures counted { disk_tally self.new ≡ tallied (is_err result) (disk_tally self.old) }
        ensures noted { disk_calls self.new ≡ noted (has_call_room self.old) (disk_calls self.old)
            (Read at (length out.old)) (is_err result) }
        ensures same_room { disk_room self.new ≡ disk_room self.old }
        ensures past { KeepsMoments self.old self.new }
        ensures rest { IfOk result (λ n. drop n out.new ≡ drop n out.old) }
        ensures untouched { OnErr result (out.new ≡ out.old) }
    {
        let Ok(()) = self.begin(MemoryCall::Read(at, out.len())) else {
            return Err(Failed);
        };
        let at = at as usize;
        if at >= self.bytes.len() {
            return Ok(0);
        }
        let count = out.len().min(self.bytes.len() - at);
        out[..count].copy_from_slice(&self.bytes[at..at + count]);
        Ok(count)
    }

    fn write_at(&mut self, at: u64, bytes: &[u8]) -> Result<(), Failed>
        requires { at ≤ length (memory_file self.old).seen }
        ensures runs { Runs (Write at bytes.now ∷ []) (memory_file self.old) (memory_file self.new) result }
        ensures cause { HasCause (disk_faults self.old) (disk_faults self.new) result }

        // A write that fails changes no byte that a read gives.
        ensures left { OnErr result (memory_file self.new
            ≡ begun_within (has_write_room self.old at (length bytes.now)) (Write at bytes.now)
            (memory_file self.old)) }

        ensures fails { is_err result ≡ is_write_to_fail self.old at (length bytes.now) }
        ensures counted { disk_tally self.new ≡ tallied (is_err result) (disk_tally self.old) }
        ensures noted { disk_calls self.new ≡ noted (has_write_room self.old at (length bytes.now))
            (disk_calls self.old)
            (Written at (length bytes.now)) (is_err result) }
        ensures same_room { disk_room self.new ≡ disk_room self.old }
        ensures past { KeepsMoments self.old self.new }
    {
        let at = at as usize;
        let Ok(()) = self.begin_write(at, bytes) else {
            return Err(Failed);
        };
        Ok(())
    }

    fn sync(&mut self) -> Result<(), Failed>
        ensures runs { Runs (Sync ∷ []) (memory_file self.old) (memory_file self.new) result }
        ensures cause { HasCause (disk_faults self.old) (disk_faults self.new) result }
        ensures left { OnErr result (memory_file self.new
            ≡ begun_within (has_call_room self.old) Sync (memory_file self.old)) }

        ensures fails { is_err result ≡ is_call_to_fail self.old }
        ensures counted { disk_tally self.new ≡ tallied (is_err result) (disk_tally self.old) }
        ensures noted { disk_calls self.new ≡ noted (has_call_room self.old) (disk_calls self.old) Synced
            (is_err result) }
        ensures same_room { disk_room self.new ≡ disk_room self.old }
        ensures past { KeepsMoments self.old self.new }
    {
        let Ok(()) = self.begin(MemoryCall::Synced) else {
            return Err(Failed);
        };
        Ok(())
    }
}
