// A disk in memory, call by call.
use std::alloc::{AllocError, Global};
use std::test::Fail;
use swh_memory::{MemoryCall, MemoryDisk, MemoryRecord, Room};
use swh_outside::{Disk, Failed};

/// A call on a disk, with what it answers.
#[derive(Clone, Copy)]
pub enum Call {
    /// The length.
    Length(Result<u64, Failed>),
    /// From a place, so many bytes at most.
    Read(u64, usize, Result<&'static [u8], Failed>),
    /// At a place.
    Write(u64, &'static [u8], Result<(), Failed>),
    Sync(Result<(), Failed>),
}

const ROOM: Room = Room { bytes: 8, calls: 9 };

// Says whether a read answers so.
fn is_read(disk: &mut MemoryDisk, at: u64, most: usize, answer: Result<&[u8], Failed>) -> bool {
    let mut out = [0; 8];
    let out = &mut out[..most.min(8)];
    match (disk.read_at(at, out), answer) {
        (Ok(count), Ok(bytes)) => out.get(..count) == Some(bytes),
        (Err(Failed), Err(Failed)) => true,
        _ => false,
    }
}

/// Makes a call, and says whether it answered so. A place behind the end is no write's.
pub fn is_answered(disk: &mut MemoryDisk, call: Call) -> bool {
    match call {
        Call::Length(answer) => disk.len() == answer,
        Call::Read(at, most, answer) => is_read(disk, at, most, answer),
        Call::Write(at, bytes, answer) => {
            at <= disk.bytes().len() as u64 && disk.write_at(at, bytes) == answer
        }
        Call::Sync(answer) => disk.sync() == answer,
    }
}

/// Makes calls, and says whether each answered so.
pub fn all_answered(disk: &mut MemoryDisk, calls: &[Call]) -> bool {
    for call in calls {
        if !is_answered(disk, *call) {
            return false;
        }
    }
    true
}

/// A disk of these bytes, of which one call is to fail.
pub fn failing_disk(alloc: Global, bytes: &[u8], call: u64) -> Result<MemoryDisk, AllocError> {
    MemoryDisk::new(alloc, bytes, ROOM, [call].to_vec(alloc)?)
}

const ANSWERED: [Call; 11] = [
    Call::Length(Ok(3)),
    Call::Write(1, b"XYZ", Ok(())),
    Call::Read(0, 8, Ok(b"aXYZ")),
    Call::Read(2, 1, Ok(b"Y")),
    Call::Write(0, b"no", Err(Failed)),
    Call::Read(4, 8, Ok(b"")),
    Call::Read(0, 2, Ok(b"aX")),
    Call::Write(4, b"12345", Err(Failed)),
    Call::Sync(Ok(())),
    Call::Write(4, b"12", Ok(())),
    Call::Length(Err(Failed)),
];

/// The fifth call fails, and the tenth has no room: neither does more than it is on record, and that has none at all.
#[test]
fn each_call_is_answered(rt: HostRuntime) -> Result<(), Fail> {
    let mut disk = failing_disk(rt.alloc(), b"abc", 4)?;
    assert!(rt; all_answered(&mut disk, &ANSWERED));
    assert!(rt; disk.bytes() == b"aXYZ12".as_slice() && disk.faults() == 3);
    Ok(())
}

const NOTED: [Call; 6] = [
    Call::Length(Ok(0)),
    Call::Write(0, b"78", Err(Failed)),
    Call::Sync(Ok(())),
    Call::Read(1, 3, Ok(b"")),
    Call::Write(0, b"123456789", Err(Failed)),
    Call::Write(0, b"78", Ok(())),
];

// What is on record of them.
const RECORDS: [MemoryRecord; 5] = [
    MemoryRecord {
        call: MemoryCall::Length,
        failed: false,
    },
    MemoryRecord {
        call: MemoryCall::Written(0, 2),
        failed: true,
    },
    MemoryRecord {
        call: MemoryCall::Synced,
        failed: false,
    },
    MemoryRecord {
        call: MemoryCall::Read(1, 3),
        failed: false,
    },
    MemoryRecord {
        call: MemoryCall::Written(0, 2),
        failed: false,
    },
];

#[test]
fn each_call_is_on_record(rt: HostRuntime) -> Result<(), Fail> {
    let mut disk = failing_disk(rt.alloc(), b"", 1)?;
    assert!(rt; all_answered(&mut disk, &NOTED));
    assert!(rt; disk.calls() == RECORDS.as_slice());
    Ok(())
}
