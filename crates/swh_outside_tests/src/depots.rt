// A depot in memory.
use std::alloc::{AllocError, Global};
use std::test::Fail;
use swh_memory::{MemoryDepot, MemoryDisk, Room};
use swh_outside::{Depot, Disk};

const ROOM: Room = Room { bytes: 8, calls: 8 };

// A folder, a file, and a byte that is written at its beginning; and the faults of the depot once it is closed, which
// have risen where it did not open or was not written.
type Opening = (&'static str, u32, u8, u64);

const OPENINGS: [Opening; 6] = [
    ("A", 0, 5, 0),
    ("A", 1, 6, 0),
    ("A", 0, 7, 1),
    ("", 0, 7, 2),
    ("B", 1, 7, 3),
    ("A", 1, 8, 3),
];

// A folder, a file, and its bytes in the end.
const FILES: [(&str, u32, &[u8]); 4] = [
    ("A", 0, &[5]),
    ("A", 1, &[8]),
    ("B", 0, &[]),
    ("B", 1, &[9]),
];

fn ends_so(depot: &mut MemoryDepot, (dir, file, byte, faults): Opening) -> bool {
    if let Ok(mut disk) = depot.open(dir, file) {
        let _ = disk.write_at(0, &[byte]);
        depot.close(dir, file, disk);
    }
    depot.faults() == faults
}

fn all_end_so(depot: &mut MemoryDepot) -> bool {
    for opening in OPENINGS {
        if !ends_so(depot, opening) {
            return false;
        }
    }
    true
}

fn all_are_kept(depot: &MemoryDepot) -> bool {
    for (dir, file, bytes) in FILES {
        if depot.bytes(dir, file) != bytes {
            return false;
        }
    }
    true
}

// A depot whose third opening is to fail, with a file in `B` of which the first call is to.
fn depot(alloc: Global) -> Result<MemoryDepot, AllocError> {
    let torn = MemoryDisk::new(alloc, &[9], ROOM, [0].to_vec(alloc)?)?;
    let mut depot = MemoryDepot::new(alloc, ROOM, [2].to_vec(alloc)?);
    depot.lay("B", 1, torn)?;
    Ok(depot)
}

#[test]
fn a_depot_keeps_its_files(rt: HostRuntime) -> Result<(), Fail> {
    let mut depot = depot(rt.alloc())?;
    assert!(rt; all_end_so(&mut depot));
    assert!(rt; all_are_kept(&depot));
    Ok(())
}
