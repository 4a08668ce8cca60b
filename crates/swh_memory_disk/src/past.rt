// What a disk was after a number of its calls, and the images that a crash then leaves.
ghost use Rattle.std.specs.Prelude.{◌≡◌, ◌≤◌, ◌<◌, ◌↔◌, [], length, reverse, vec_len, IsTrue, IfOk, OnOk};
ghost use Rattle.swh_outside.specs.Disk.{File, IsImage, IsOutside, patched};
ghost use Rattle.swh_memory_disk.specs.Kept.{resting};
ghost use Rattle.swh_memory_disk.specs.Past.{file_after, left_by, IsNearest, IsByteNear};
ghost use Rattle.swh_memory_disk.specs.Record.{size_of, sizes_of};

use crate::ranges::{is_outside, patch};
use crate::{MemoryCall, MemoryRecord};
use std::alloc::{AllocError, Global};

/// A file in memory: its bytes at the last barrier, the ranges written since, its greatest length since, and the bytes
/// that a read gives.
#[derive(Drop)]
pub struct Past {
    base: Vec<u8>,
    ranges: Vec<(usize, usize)>,
    longest: usize,
    bytes: Vec<u8>,
    ghost within: { vec_len base ≤ longest },
}

impl Past {
    ghost use Rattle.swh_memory_disk.specs.Moments.{IsOfFile};
    ghost use Rattle.swh_memory_disk.specs.declared.record.MemoryCall.TheVariants.{Written, Synced};

    /// What these calls leave of a file with the bytes that it was made with. Where they are writes, their bytes stand one
    /// after another at the front of `written`.
    pub fn after(
        alloc: Global,
        made: &[u8],
        calls: &[MemoryRecord],
        written: &[u8],
    ) -> Result<Past, AllocError>
        requires { sizes_of calls.now ≤ length written.now }
        ensures { IfOk result (IsOfFile (file_after calls.now written.now (resting made.now))) }
    {
        let mut past = Past::made(alloc, made)?;
        let mut rest = written;
        for noted in calls {
            let (bytes, behind) = rest.split_at(noted.call.size());
            past.step(noted, bytes)?;
            rest = behind;
        }
        Ok(past)
    }

    /// The image nearest to the choice.
    pub fn image_near(&self, alloc: Global, choice: &[u8]) -> Result<Vec<u8>, AllocError>
        ensures nearest { (file : File) → IsOfFile file self.now
            → IfOk result (λ image. IsNearest file choice.now image.items) }
        ensures chosen { (file : File) → IsOfFile file self.now → IsImage file choice.now
            → IfOk result (λ image. image.items ≡ choice.now) }
    {
        let size = self.base.len().max(self.longest.min(choice.len()));
        let mut image = Vec::with_capacity(alloc, size)?;
        for k in 0..size {
            image.push(self.byte_near(choice, k))?;
        }
        Ok(image)
    }

    // A file with these bytes, all of them on the disk.
    fn made(alloc: Global, bytes: &[u8]) -> Result<Past, AllocError>
        ensures { IfOk result (IsOfFile (resting bytes.now)) }
    {
        Ok(Past {
            base: bytes.to_vec(alloc)?,
            ranges: Vec::new(alloc),
            longest: bytes.len(),
            bytes: bytes.to_vec(alloc)?,
        })
    }

    // The file after a call with these bytes.
    fn step(&mut self, noted: &MemoryRecord, bytes: &[u8]) -> Result<(), AllocError>
        requires { size_of noted.now.call ≡ length bytes.now }
        ensures { OnOk result ((file : File) → IsOfFile file self.old
            → IsOfFile (left_by noted.now.call noted.now.failed bytes.now file) self.new) }
    {
        match noted.call {
            MemoryCall::Length | MemoryCall::Read(..) => Ok(()),
            MemoryCall::Written(at, _count) => self.write(at, bytes, noted.failed),
            MemoryCall::Synced => self.sync(noted.failed),
        }
    }

    // The file after a write.
    fn write(&mut self, at: usize, bytes: &[u8], failed: bool) -> Result<(), AllocError>
        ensures { OnOk result ((file : File) → IsOfFile file self.old
            → IsOfFile (left_by (Written at (length bytes.now)) failed bytes.now file) self.new) }
    {
        // No memory holds more bytes than a place can be numbered.
        let Some(end) = at.checked_add(bytes.len()) else {
            return Err(AllocError);
        };
        self.ranges.push((at, bytes.len()))?;
        self.longest = self.longest.max(end);
        if failed {
            return Ok(());
        }
        lay(&mut self.bytes, at, bytes)
    }

    // The file after a barrier.
    fn sync(&mut self, failed: bool) -> Result<(), AllocError>
        ensures { OnOk result ((file : File) → IsOfFile file self.old
            → IsOfFile (left_by Synced failed [] file) self.new) }
    {
        if failed {
            return Ok(());
        }
        self.base = self.bytes.clone()?;
        self.ranges.clear();
        self.longest = self.bytes.len();
        Ok(())
    }

    // Says whether a crash leaves what stood at a place at the last barrier.
    fn keeps(&self, k: usize) -> bool
        ensures { IsTrue result ↔ (k < length self.now.base.items) × IsOutside (reverse self.now.ranges.items) k }
    {
        if k >= self.base.len() {
            return false;
        }
        is_outside(&self.ranges, k)
    }

    // The byte of the image nearest to the choice at a place.
    fn byte_near(&self, choice: &[u8], k: usize) -> u8
        ensures { IsByteNear self.now.base.items self.now.ranges.items choice.now k result }
    {
        if self.keeps(k) {
            return self.base[k];
        }
        if k < choice.len() {
            return choice[k];
        }
        0
    }
}

// Writes bytes over those at a place, and past the end.
fn lay(target: &mut Vec<u8>, at: usize, bytes: &[u8]) -> Result<(), AllocError>
    ensures { OnOk result (target.new.items ≡ patched target.old.items at bytes.now) }
{
    target.reserve(bytes.len())?;
    let from = at.min(target.len());
    patch(target, from, bytes);
    Ok(())
}
