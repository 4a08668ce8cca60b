// Disks and archives in memory.
ghost use Rattle.std.specs.Prelude.{◌≡◌, IfOk};
ghost use Rattle.swh_memory.specs.Memory.{memory_file};

use std::alloc::{AllocError, Global};
use swh_base::Namer;
use swh_keeper::{Keeper, OpenFault, OpenWhy};
use swh_memory::{MemoryDisk, Room};

/// An archive over disks in memory.
pub type Archive<N> = Keeper<N, MemoryDisk>;

/// An archive in memory that did not open.
pub type ArchiveFault = OpenFault<MemoryDisk>;

const ROOM: Room = Room {
    bytes: 4096,
    calls: 256,
};

/// A disk with these bytes, and room for 4,096 and for 256 calls. Its calls of these numbers fail.
pub fn disk(alloc: Global, bytes: &[u8], failing: &[u64]) -> Result<MemoryDisk, AllocError>
    ensures { IfOk result (λ disk. (memory_file disk).seen ≡ bytes.now) }
{
    MemoryDisk::new(alloc, bytes, ROOM, failing.to_vec(alloc)?)
}

/// The archive, or why there is none. The disks of one that did not open are let go.
pub fn kept<N: Namer>(given: Result<Archive<N>, ArchiveFault>) -> Result<Archive<N>, OpenWhy> {
    match given {
        Ok(keeper) => Ok(keeper),
        Err(fault) => {
            let OpenFault {
                why,
                store: _store,
                ledger: _ledger,
            } = fault;
            Err(why)
        }
    }
}

/// An archive of no event. The device calls of these numbers fail, those of its making counted.
pub fn made_archive<N: Namer>(
    alloc: Global,
    namer: N,
    ledger_failing: &[u64],
    store_failing: &[u64],
) -> Result<Archive<N>, OpenWhy> {
    let store = disk(alloc, b"", store_failing)?;
    let ledger = disk(alloc, b"", ledger_failing)?;
    kept(Keeper::make(alloc, namer, store, ledger))
}
