//! The calls of an opening on its disks: a barrier first, then each byte of the ledger and of the runs once.
use std::alloc::{AllocError, Global};
use std::test::Fail;
use swh_base::ByteNamer;
use swh_keeper::{Keeper, OpenFault};
use swh_memory::{MemoryCall, MemoryDisk, Room};

const ROOM: Room = Room {
    bytes: 0,
    calls: 64,
};

/// The store and the ledger of an archive that was opened, and how many events it has.
type Closed = (MemoryDisk, MemoryDisk, usize);

fn opened(alloc: Global, store: &[u8], ledger: &[u8]) -> Result<Closed, Fail> {
    let store = MemoryDisk::new(alloc, store, ROOM, Vec::new(alloc))?;
    let ledger = MemoryDisk::new(alloc, ledger, ROOM, Vec::new(alloc))?;
    match Keeper::open(alloc, ByteNamer, store, ledger) {
        Ok(keeper) => {
            let events = keeper.history().len();
            let (store, ledger) = keeper.close();
            Ok((store, ledger, events))
        }
        Err(fault) => {
            let OpenFault {
                why: _why,
                store: _store,
                ledger: _ledger,
            } = fault;
            Err(Fail::from("opened"))
        }
    }
}

/// Says whether these calls were begun, and none failed.
fn has_calls(disk: &MemoryDisk, calls: &[MemoryCall]) -> bool {
    let begun = disk.calls();
    begun.len() == calls.len()
        && begun
            .iter()
            .zip(calls.iter())
            .all(|(record, call)| record.call == *call && !record.failed)
}

/// A batch of one content of 300,000 zeros, and one of `ab`, named by the sums of their bytes.
const LEDGER: &[u8] = b"SWHARC1\n\
\x01B\0\0\0\x18\0\0\0\x01\0\0\0\0\0\0\0\0\0\0\0\0\0\x04\x93\xfd\0\0\0\x01\
\x01B\0\0\0\x18\0\0\0\x01\0\0\0\0\0\x04\x93\xfd\0\0\0\0\0\x04\x94\x1c\0\0\0\x01\0";

const LONG_HEAD: &[u8] = b"\x01\0\0\0\0\0\x04\x93\xe0\0\0\0\0\0\0\0\0\0\0\0\0\0\0\0\0\0\0\0\0";

const SHORT: &[u8] = b"\x01\0\0\0\0\0\0\0\x02\0\0\0\0\0\0\0\0\0\0\0\0\0\0\0\0\0\0\0\xc3ab";

fn store_of_both(alloc: Global) -> Result<Vec<u8>, AllocError> {
    let mut store = LONG_HEAD.to_vec(alloc)?;
    store.resize(300_029, 0)?;
    store.extend_from_slice(SHORT)?;
    Ok(store)
}

/// The first byte is looked at to see whether the ledger is made; then its 69 bytes are read.
const LEDGER_CALLS: &[MemoryCall] = &[
    MemoryCall::Synced,
    MemoryCall::Length,
    MemoryCall::Read(0, 1),
    MemoryCall::Length,
    MemoryCall::Read(0, 69),
];

/// Pieces of 262,144 bytes, which end with their run.
const STORE_CALLS: &[MemoryCall] = &[
    MemoryCall::Synced,
    MemoryCall::Length,
    MemoryCall::Read(0, 262_144),
    MemoryCall::Read(262_144, 37_885),
    MemoryCall::Read(300_029, 31),
];

#[test]
fn an_opening_makes_barriers_and_reads_each_byte_once(rt: HostRuntime) -> Result<(), Fail> {
    let alloc = rt.alloc();
    let bytes = store_of_both(alloc)?;
    let (store, ledger, events) = opened(alloc, bytes.as_slice(), LEDGER)?;
    let is_read = has_calls(&store, STORE_CALLS) && has_calls(&ledger, LEDGER_CALLS);
    assert!(rt; is_read && events == 2);
    Ok(())
}

/// The record of an opening with a URL of 2,000 bytes behind its open gate, up to the URL.
const RECORD: &[u8] = b"\x01O\0\0\x07\xdd\0\0\0\x01\x01\0\0\0\0\x3b\x9a\xca\0";

/// A ledger of 520 openings: its magic, records of 2,019 bytes with their gates, and a closed gate.
fn long_ledger(alloc: Global) -> Result<Vec<u8>, AllocError> {
    let mut record = RECORD.to_vec(alloc)?;
    record.extend_from_slice(b"https://e.org/")?;
    record.resize(2_019, b'p')?;
    let mut ledger = b"SWHARC1\n".to_vec(alloc)?;
    for _opening in 0..520 {
        ledger.extend_from_slice(record.as_slice())?;
    }
    ledger.push(0)?;
    Ok(ledger)
}

#[test]
fn a_ledger_above_a_mebibyte_is_opened(rt: HostRuntime) -> Result<(), Fail> {
    let alloc = rt.alloc();
    let bytes = long_ledger(alloc)?;
    let (_store, ledger, events) = opened(alloc, b"", bytes.as_slice())?;
    assert!(rt; events == 520 && ledger.bytes().len() == 1_049_889);
    Ok(())
}
