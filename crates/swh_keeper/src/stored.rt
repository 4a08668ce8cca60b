//! What the store's disk gives of the runs that stand in it, read again.
ghost use Rattle.std.specs.Prelude.{◌≡◌, ◌+◌, ◌≤◌, ◌<◌, ◌^◌, length, take, drop, IfOk};
ghost use Rattle.swh_segment.specs.Reads.{OnlyReads};
ghost use Rattle.swh_keeper.specs.Stored.{UnlessUnread};
ghost use Rattle.swh_keeper.specs.declared.stored.StoredFault.TheVariants.{DiskFault, Memory as OutOfMemory};

use std::alloc::{AllocError, Global};
use swh_outside::{Disk, Failed};
use swh_segment::Runs;

/// Why stored bytes are not given.
#[derive(Clone, Copy, Debug, PartialEq, Eq)]
pub enum StoredFault {
    /// The store's disk failed.
    DiskFault,
    Memory,
}

impl From<Failed> for StoredFault {
    ghost from_gives = { λ _ fault. fault ≡ DiskFault };

    fn from(_: Failed) -> StoredFault {
        StoredFault::DiskFault
    }
}

impl From<AllocError> for StoredFault {
    ghost from_gives = { λ _ fault. fault ≡ OutOfMemory };

    fn from(_: AllocError) -> StoredFault {
        StoredFault::Memory
    }
}

/// So many bytes from a place of the store on; fewer where the disk ends before.
pub fn read_bytes<D: Disk>(
    alloc: Global,
    store: &mut Runs<D>,
    at: u64,
    size: usize,
) -> Result<Vec<u8>, StoredFault>
    requires { at + size < 2 ^ 64 }
    ensures size { IfOk result (λ bytes. length bytes.items ≤ size) }
    ensures bytes { D.tells → at + size ≤ length (D.file store.old.disk).seen
        → IfOk result (λ bytes. bytes.items ≡ take size (drop at (D.file store.old.disk).seen)) }
    ensures end { store.new.end ≡ store.old.end }
    ensures reads { OnlyReads D.tells UnlessUnread DiskFault (D.file store.old.disk, D.faults store.old.disk)
        (D.file store.new.disk, D.faults store.new.disk) result }
{
    let mut bytes = vec![in alloc; 0u8; size]?;
    let count = store.fill(at, &mut bytes)?;
    bytes.truncate(count);
    Ok(bytes)
}
