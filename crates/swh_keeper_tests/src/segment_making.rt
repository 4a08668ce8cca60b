//! The making of an archive, and the reading of a whole file.
use std::alloc::{AllocError, Global};
use std::test::Fail;
use swh_memory::{MemoryDisk, Room};
use swh_segment::{Both, BothBack, MakeFault, make, make_both, read_file};

const ROOM: Room = Room {
    bytes: 64,
    calls: 64,
};

fn empty_disk(alloc: Global, failing: &[u64]) -> Result<MemoryDisk, AllocError> {
    MemoryDisk::new(alloc, b"", ROOM, failing.to_vec(alloc)?)
}

/// How many writes and barriers were begun.
fn changes(disk: &MemoryDisk) -> usize {
    let calls = disk.calls();
    calls.iter().filter(|r| r.call.is_change()).count()
}

#[test]
fn an_archive_is_made_once(rt: HostRuntime) -> Result<(), Fail> {
    let alloc = rt.alloc();
    let mut store = empty_disk(alloc, &[])?;
    let mut ledger = empty_disk(alloc, &[])?;
    assert!(rt; make(&mut store, &mut ledger).is_ok());
    assert_eq!(rt; ledger.bytes(), b"SWHARC1\n\0".as_slice());
    assert_eq!(rt; (changes(&store), changes(&ledger)), (1, 7));
    assert_eq!(rt; make(&mut store, &mut ledger), Err(MakeFault::Made));
    assert_eq!(rt; changes(&ledger), 7);
    let Ok(bytes) = read_file(alloc, &mut ledger) else {
        return Err(Fail::from("the file"));
    };
    assert_eq!(rt; bytes.as_slice(), b"SWHARC1\n\0".as_slice());
    Ok(())
}

#[test]
fn a_making_that_fails_leaves_no_archive(rt: HostRuntime) -> Result<(), Fail> {
    let alloc = rt.alloc();
    let mut store = empty_disk(alloc, &[])?;
    let mut ledger = empty_disk(alloc, &[1])?;
    assert_eq!(rt; make(&mut store, &mut ledger), Err(MakeFault::Disk));
    assert!(rt; ledger.faults() == 1 && ledger.bytes().is_empty());
    Ok(())
}

/// Where the records of an archive end that is made of two empty disks.
fn end_of_both(alloc: Global) -> Result<Option<u64>, AllocError> {
    let store = empty_disk(alloc, &[])?;
    let ledger = empty_disk(alloc, &[])?;
    match make_both(store, ledger) {
        Ok(both) => {
            let Both { store, ledger } = both;
            let end = ledger.end();
            let (_store, _ledger) = (store.close(), ledger.close());
            Ok(Some(end))
        }
        Err(back) => {
            let BothBack {
                store: _store,
                ledger: _ledger,
                fault: _fault,
            } = back;
            Ok(None)
        }
    }
}

#[test]
fn an_archive_of_owners_is_made(rt: HostRuntime) -> Result<(), Fail> {
    assert_eq!(rt; end_of_both(rt.alloc())?, Some(8));
    Ok(())
}
