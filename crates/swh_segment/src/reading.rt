//! The reading of a whole file, from a disk that may give fewer bytes than are asked.
ghost use Rattle.std.specs.Prelude.{◌≡◌, ◌+◌, ◌≤◌, ◌<◌, ◌^◌, length, IfOk};
ghost use Rattle.swh_outside.specs.Faults.{HasCause};
ghost use Rattle.swh_segment.specs.Reading.{IsFilled, UnlessUnread};
ghost use Rattle.swh_segment.specs.Reads.{OnlyReads};
ghost use Rattle.swh_segment.specs.declared.reading.ReadFileFault.TheVariants.{Disk as DiskFailed};

use std::alloc::{AllocError, Global};
use swh_outside::{Disk, Failed};

/// Why a file is not read.
#[derive(Clone, Copy, Debug, PartialEq, Eq)]
pub enum ReadFileFault {
    /// The disk failed.
    Disk,
    /// Memory is wanting, or the file is longer than any memory.
    Memory,
}

impl From<Failed> for ReadFileFault {
    ghost use Rattle.swh_segment.specs.declared.reading.ReadFileFault.TheVariants.{Disk};

    ghost from_gives = { λ _ fault. fault ≡ Disk };

    fn from(_: Failed) -> Self {
        ReadFileFault::Disk
    }
}

impl From<AllocError> for ReadFileFault {
    ghost use Rattle.swh_segment.specs.declared.reading.ReadFileFault.TheVariants.{Memory};

    ghost from_gives = { λ _ fault. fault ≡ Memory };

    fn from(_: AllocError) -> Self {
        ReadFileFault::Memory
    }
}

/// Fills the buffer with what stands from a place on (in bytes from 0), up to the end of the file, and answers how many
/// bytes there are. `Failed` where the disk failed.
pub fn fill<D: Disk>(disk: &mut D, at: u64, out: &mut [u8]) -> Result<usize, Failed>
    requires { at + length out.old < 2 ^ 64 }
    ensures bound { IfOk result (λ n. n ≤ length out.new) }
    ensures filled { D.tells → IfOk result (λ n. IsFilled (D.file disk.old).seen at out.new n) }
    ensures same { D.tells → D.file disk.new ≡ D.file disk.old }
    ensures cause { HasCause (D.faults disk.old) (D.faults disk.new) result }
{
    let mut done = 0;
    while done < out.len() {
        let count = disk.read_at(at + done as u64, &mut out[done..])?;
        if count == 0 {
            return Ok(done);
        }
        done += count;
    }
    Ok(done)
}

/// Reads a whole file. `Disk` where the disk failed; `Memory` where the file is longer than any memory, or there was
/// none.
pub fn read_file<D: Disk>(alloc: Global, disk: &mut D) -> Result<Vec<u8>, ReadFileFault>
    ensures bytes { D.tells → IfOk result (λ bytes. bytes.items ≡ (D.file disk.old).seen) }
    ensures reads { OnlyReads D.tells UnlessUnread DiskFailed (D.file disk.old, D.faults disk.old)
        (D.file disk.new, D.faults disk.new) result }
{
    let size = disk.len()?;
    if size > MOST_BYTES {
        return Err(ReadFileFault::Memory);
    }
    let mut bytes = vec![in alloc; 0u8; size as usize]?;
    let count = fill(disk, 0, &mut bytes)?;
    bytes.truncate(count);
    Ok(bytes)
}

// No memory holds more bytes than this.
const MOST_BYTES: u64 = i64::MAX as u64;
