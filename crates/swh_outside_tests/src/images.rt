// What a crash leaves of a disk in memory.
use crate::disks::{Call, all_answered, failing_disk, is_answered};
use std::alloc::{AllocError, Global};
use std::test::Fail;
use swh_memory::{MemoryDisk, Room};
use swh_outside::Failed;

const ROOM: Room = Room { bytes: 8, calls: 9 };

// A call, and bytes that a crash may leave after it or may not.
const STEPS: [(Call, &[u8], bool); 9] = [
    (Call::Length(Ok(3)), &[1, 2, 3], true),
    (Call::Length(Ok(3)), &[1, 2], false),
    (Call::Write(1, &[7, 7, 7], Ok(())), &[1, 2, 3], true),
    (Call::Length(Ok(4)), &[1, 9, 9, 9], true),
    (Call::Length(Ok(4)), &[0, 7, 7, 7], false),
    (Call::Sync(Ok(())), &[1, 7, 7, 7], true),
    (Call::Length(Ok(4)), &[1, 2, 3], false),
    (Call::Sync(Err(Failed)), &[1, 7, 7, 7], true),
    (Call::Write(0, &[5], Err(Failed)), &[9, 7, 7, 7], true),
];

fn all_leave(disk: &mut MemoryDisk) -> bool {
    for (call, image, may_stand) in STEPS {
        if !is_answered(disk, call) || disk.is_image(image) != may_stand {
            return false;
        }
    }
    true
}

/// A write is torn until a barrier.
#[test]
fn a_crash_leaves_an_image(rt: HostRuntime) -> Result<(), Fail> {
    let failing = [7, 8].to_vec(rt.alloc())?;
    let mut disk = MemoryDisk::new(rt.alloc(), &[1, 2, 3], ROOM, failing)?;
    assert!(rt; all_leave(&mut disk));
    Ok(())
}

const CALLS: [Call; 5] = [
    Call::Write(1, &[7, 7, 7], Ok(())),
    Call::Sync(Ok(())),
    Call::Length(Ok(4)),
    Call::Write(0, &[9], Ok(())),
    Call::Sync(Err(Failed)),
];

// A number of these calls, a choice, and the image nearest to it.
type Image = (usize, &'static [u8], &'static [u8]);

const IMAGES: [Image; 7] = [
    (0, &[5], &[1, 2, 3]),
    (1, &[5; 6], &[1, 5, 5, 5]),
    (1, &[], &[1, 0, 0]),
    (3, &[5], &[1, 7, 7, 7]),
    (4, &[8], &[8, 7, 7, 7]),
    (5, &[8], &[8, 7, 7, 7]),
    (9, &[1], &[1, 7, 7, 7]),
];

fn is_had(
    alloc: Global,
    disk: &MemoryDisk,
    (moment, choice, image): Image,
) -> Result<bool, AllocError> {
    let had = disk.image(alloc, moment, choice)?;
    Ok(had.as_slice() == image)
}

fn all_are_had(alloc: Global, disk: &MemoryDisk) -> Result<bool, AllocError> {
    for image in IMAGES {
        if !is_had(alloc, disk, image)? {
            return Ok(false);
        }
    }
    Ok(true)
}

#[test]
fn an_image_of_each_moment_is_had(rt: HostRuntime) -> Result<(), Fail> {
    let mut disk = failing_disk(rt.alloc(), &[1, 2, 3], 4)?;
    assert!(rt; all_answered(&mut disk, &CALLS));
    assert!(rt; all_are_had(rt.alloc(), &disk)?);
    Ok(())
}
