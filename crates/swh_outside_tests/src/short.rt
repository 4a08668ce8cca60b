// Disks that give less than they hold.
use std::alloc::{AllocError, Global};
use std::test::Fail;
use swh_memory::{MemoryDepot, MemoryDisk, Room};
use swh_memory_short::{Reads, ShortDepot, ShortDisk};
use swh_outside::{Depot, Disk, Failed};

const ROOM: Room = Room { bytes: 8, calls: 9 };

// What reads give, a place, and the bytes of `abcdef` that a read of 5 gives there.
const READS: [(usize, u64, u64, &[u8]); 6] = [
    (usize::MAX, u64::MAX, 0, b"abcde"),
    (2, u64::MAX, 0, b"ab"),
    (2, u64::MAX, 5, b"f"),
    (usize::MAX, 3, 1, b"bc"),
    (usize::MAX, 3, 4, b""),
    (usize::MAX, 0, 0, b""),
];

// Says whether a disk of 6 bytes gives these at a place, where 5 are asked for.
fn gives(disk: &mut ShortDisk, at: u64, bytes: &[u8]) -> bool {
    let mut out = [0; 5];
    match disk.read_at(at, &mut out) {
        Ok(count) => out.get(..count) == Some(bytes) && disk.len() == Ok(6),
        Err(Failed) => false,
    }
}

fn is_short(
    alloc: Global,
    (most, end, at, bytes): (usize, u64, u64, &[u8]),
) -> Result<bool, AllocError> {
    let disk = MemoryDisk::new(alloc, b"abcdef", ROOM, Vec::new(alloc))?;
    let mut disk = ShortDisk::new(alloc, disk, Reads { most, end });
    Ok(gives(&mut disk, at, bytes))
}

#[test]
fn reads_fall_short(rt: HostRuntime) -> Result<(), Fail> {
    for row in READS {
        assert!(rt; is_short(rt.alloc(), row)?);
    }
    Ok(())
}

// Says whether writes end as they do below: the second is behind the end, and the last fails below.
fn writes_end_so(disk: &mut ShortDisk) -> bool {
    disk.write_at(3, b"def") == Ok(())
        && disk.write_at(7, b"no") == Err(Failed)
        && disk.sync() == Ok(())
        && disk.write_at(0, b"no") == Err(Failed)
        && disk.faults() == 2
}

/// Writes go to the disk below; one behind its end fails, and so does what fails below.
#[test]
fn writes_are_whole(rt: HostRuntime) -> Result<(), Fail> {
    let failing = [2].to_vec(rt.alloc())?;
    let disk = MemoryDisk::new(rt.alloc(), b"abc", ROOM, failing)?;
    let mut disk = ShortDisk::new(rt.alloc(), disk, Reads { most: 1, end: 0 });
    assert!(rt; writes_end_so(&mut disk));
    assert!(rt; disk.into_disk().bytes() == b"abcdef".as_slice());
    Ok(())
}

// Says whether a disk takes three bytes, and gives these where 5 are asked for.
fn takes_and_gives(disk: &mut ShortDisk, bytes: &[u8]) -> bool {
    let mut out = [0; 5];
    if disk.write_at(0, b"abc").is_err() {
        return false;
    }
    match disk.read_at(0, &mut out) {
        Ok(count) => out.get(..count) == Some(bytes),
        Err(Failed) => false,
    }
}

// Says whether a file of the depot gives these of three bytes, all of which stand below.
fn file_gives(depot: &mut ShortDepot, file: u32, bytes: &[u8]) -> bool {
    match depot.open("A", file) {
        Ok(mut disk) => {
            let gives = takes_and_gives(&mut disk, bytes);
            depot.close("A", file, disk);
            gives && depot.depot().bytes("A", file) == b"abc".as_slice()
        }
        Err(_) => false,
    }
}

#[test]
fn one_file_of_a_depot_falls_short(rt: HostRuntime) -> Result<(), Fail> {
    let below = MemoryDepot::new(rt.alloc(), ROOM, [2].to_vec(rt.alloc())?);
    let mut depot = ShortDepot::new(rt.alloc(), below, 1, Reads { most: 1, end: 2 });
    assert!(rt; file_gives(&mut depot, 0, b"abc") && file_gives(&mut depot, 1, b"a"));
    assert!(rt; depot.open("A", 0).is_err() && depot.faults() == 1);
    Ok(())
}
