//! The bytes of an archive, and what is opened of them.
use crate::plans::opening;
use crate::told::{Told, told_of};
use std::alloc::Global;
use std::test::Fail;
use swh_base::{ByteNamer, Url};
use swh_fixtures::{ArchiveFault, URL, disk, kept, made_archive};
use swh_keeper::{Harm, Keeper, OpenFault, OpenWhy};
use swh_memory::MemoryDisk;

/// The ledger of one opening.
pub const LEDGER: &[u8] =
    b"SWHARC1\n\x01O\0\0\0\x1c\0\0\0\x01\x01\0\0\0\0\x3b\x9a\xca\0https://e.org/p\0";

/// The store and the ledger of an archive in which a visit was opened, and whether that was told.
fn written(alloc: Global) -> Result<(MemoryDisk, MemoryDisk, bool), Fail> {
    let open = opening(alloc)?;
    let mut keeper = made_archive(alloc, ByteNamer, &[], &[])?;
    let told = told_of(keeper.apply(1, open));
    let (store, ledger) = keeper.close();
    Ok((store, ledger, told == Told::Opened(1, 1)))
}

/// The ledger of an archive that was opened again, and whether the visit of the origin is its history.
fn read_again(
    alloc: Global,
    store: MemoryDisk,
    ledger: MemoryDisk,
    origin: &Url,
) -> Result<(MemoryDisk, bool), Fail> {
    let keeper = kept(Keeper::open(alloc, ByteNamer, store, ledger))?;
    let is_listed = keeper.history().len() == 1 && keeper.visits(origin).is_some();
    let (_store, ledger) = keeper.close();
    Ok((ledger, is_listed))
}

#[test]
fn an_opening_stands_in_the_ledger_and_is_read_again(rt: HostRuntime) -> Result<(), Fail> {
    let alloc = rt.alloc();
    let origin = Url::new(alloc, URL)?;
    let (store, ledger, is_told) = written(alloc)?;
    let is_written = is_told && ledger.bytes() == LEDGER;
    let (ledger, is_listed) = read_again(alloc, store, ledger, &origin)?;
    assert!(rt; is_written && is_listed && ledger.bytes() == LEDGER);
    Ok(())
}

/// A ledger of one opening with another byte at a place, and how many events are opened, or why none.
type Row = (usize, u8, Result<usize, OpenWhy>);

const ROWS: &[Row] = &[
    (8, 1, Ok(1)),
    // The record behind a closed gate is dropped.
    (8, 0, Ok(0)),
    (0, 0, Err(OpenWhy::NotMade)),
    (
        1,
        b'X',
        Err(OpenWhy::Damaged {
            file: 0,
            at: 1,
            harm: Harm::Magic { found: b'X' },
        }),
    ),
];

/// How many events an archive with an empty store has, or why it is not opened.
fn opened(alloc: Global, ledger: &[u8]) -> Result<Result<usize, OpenWhy>, Fail> {
    let store = disk(alloc, b"", &[])?;
    let ledger = disk(alloc, ledger, &[])?;
    match kept(Keeper::open(alloc, ByteNamer, store, ledger)) {
        Ok(keeper) => {
            let count = keeper.history().len();
            let (_store, _ledger) = keeper.close();
            Ok(Ok(count))
        }
        Err(why) => Ok(Err(why)),
    }
}

fn is_opened(alloc: Global, row: &Row) -> Result<bool, Fail> {
    let (place, byte, wanted) = row;
    let mut ledger = LEDGER.to_vec(alloc)?;
    let Some(there) = ledger.get_mut(*place) else {
        return Err(Fail::from("a place"));
    };
    *there = *byte;
    Ok(opened(alloc, ledger.as_slice())? == *wanted)
}

#[test]
fn each_ledger_is_opened_or_refused(rt: HostRuntime) -> Result<(), Fail> {
    let alloc = rt.alloc();
    assert!(rt; opened(alloc, b"")? == Err(OpenWhy::NotMade));
    for (number, row) in ROWS.iter().enumerate() {
        assert!(rt; is_opened(alloc, row)?, "row {number}");
    }
    Ok(())
}

fn fault_of(alloc: Global) -> Result<ArchiveFault, Fail> {
    let store = disk(alloc, b"", &[])?;
    let ledger = disk(alloc, LEDGER, &[0])?;
    match Keeper::open(alloc, ByteNamer, store, ledger) {
        Ok(keeper) => {
            let (_store, _ledger) = keeper.close();
            Err(Fail::from("a fault"))
        }
        Err(fault) => Ok(fault),
    }
}

#[test]
fn a_barrier_that_fails_hands_both_disks_back(rt: HostRuntime) -> Result<(), Fail> {
    let OpenFault { why, store, ledger } = fault_of(rt.alloc())?;
    let is_spared = store.calls().len() == 1 && store.faults() == 0 && ledger.bytes() == LEDGER;
    assert!(rt; why == OpenWhy::DiskFault && is_spared && ledger.faults() == 1);
    Ok(())
}
