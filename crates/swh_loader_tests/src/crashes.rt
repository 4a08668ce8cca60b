// What crashes leave of an archive that the worked stream is loaded into, opened again.
use crate::world::load;
use std::alloc::Global;
use std::test::Fail;
use swh_base::Sha1Namer;
use swh_fixtures::{STREAM, URL, disk, found, kept, made_archive};
use swh_keeper::Keeper;
use swh_loader::Input;
use swh_memory::MemoryDisk;

/// The calls of the ledger that make an archive.
const MAKING: usize = 9;

/// The two disks after a load whose calls of these numbers fail.
fn loaded(
    alloc: Global,
    ledger_failing: &[u64],
    store_failing: &[u64],
) -> Result<(MemoryDisk, MemoryDisk), Fail> {
    let input = Input::Fast {
        stream: found(alloc, STREAM, &[])?,
        head: None,
    };
    let mut keeper = made_archive(alloc, Sha1Namer, ledger_failing, store_failing)?;
    let _answer = load(alloc, &Sha1Namer, &mut keeper, URL, input);
    Ok(keeper.close())
}

/// The number of events of an archive that is opened.
fn events_of(alloc: Global, store: MemoryDisk, ledger: MemoryDisk) -> Result<usize, Fail> {
    let keeper = kept(Keeper::open(alloc, Sha1Namer, store, ledger))?;
    let count = keeper.history().len();
    let (_store, _ledger) = keeper.close();
    Ok(count)
}

/// Each byte as its opposite: an open gate is a closed one.
fn opposite(alloc: Global, bytes: &[u8]) -> Result<Vec<u8>, Fail> {
    let mut others = Vec::new(alloc);
    for byte in bytes {
        others.push(*byte ^ 255)?;
    }
    Ok(others)
}

/// The bytes of a ledger, with this byte as its first gate.
fn with_gate(alloc: Global, ledger: &[u8], gate: u8) -> Result<Vec<u8>, Fail> {
    let mut bytes = ledger.to_vec(alloc)?;
    if let Some(byte) = bytes.as_mut_slice().get_mut(8) {
        *byte = gate;
    }
    Ok(bytes)
}

/// The number of events that stand where a crash comes after so many calls of each disk: where it leaves what was written,
/// and where it leaves the opposite of each byte that it may change.
fn after_crash(
    alloc: Global,
    disks: &(MemoryDisk, MemoryDisk),
    store_calls: usize,
    ledger_calls: usize,
) -> Result<(usize, usize), Fail> {
    let (store, ledger) = disks;
    let store_kept = store.image(alloc, store_calls, store.bytes())?;
    let ledger_kept = ledger.image(alloc, ledger_calls, ledger.bytes())?;
    let store_spoiled = store.image(alloc, store_calls, &opposite(alloc, store.bytes())?)?;
    let ledger_spoiled = ledger.image(alloc, ledger_calls, &opposite(alloc, ledger.bytes())?)?;
    let kept = events_of(
        alloc,
        disk(alloc, &store_kept, &[])?,
        disk(alloc, &ledger_kept, &[])?,
    )?;
    let spoiled = events_of(
        alloc,
        disk(alloc, &store_spoiled, &[])?,
        disk(alloc, &ledger_spoiled, &[])?,
    )?;
    Ok((kept, spoiled))
}

#[test]
fn a_crash_at_each_call(rt: HostRuntime) -> Result<(), Fail> {
    let alloc = rt.alloc();
    let disks = loaded(alloc, &[], &[])?;
    // Four events, each of which makes four calls of the ledger: its gate is being opened once three are made, and is
    // open once the fourth is.
    for made in 0..17 {
        let store_calls = if made < 8 { 1 } else { 3 };
        let told = after_crash(alloc, &disks, store_calls, MAKING + made)?;
        assert_eq!(rt; told, ((made + 1) / 4, made / 4));
    }
    // The batch's run is written before its record is.
    assert_eq!(rt; after_crash(alloc, &disks, 2, MAKING + 8)?, (2, 2));
    Ok(())
}

#[test]
fn a_gate_with_any_byte(rt: HostRuntime) -> Result<(), Fail> {
    let alloc = rt.alloc();
    let (_store, ledger) = loaded(alloc, &[], &[])?;
    for (gate, events) in [(0, 0), (1, 1), (7, 0)] {
        let choice = with_gate(alloc, ledger.bytes(), gate)?;
        let image = ledger.image(alloc, MAKING + 3, &choice)?;
        assert!(rt; image.get(8).copied() == Some(gate));
        let told = events_of(alloc, disk(alloc, b"", &[])?, disk(alloc, &image, &[])?)?;
        assert_eq!(rt; told, events);
    }
    Ok(())
}

#[test]
fn opened_after_a_fault_of_the_ledger(rt: HostRuntime) -> Result<(), Fail> {
    let alloc = rt.alloc();
    for made in 0..16usize {
        let failing = [(MAKING + made) as u64];
        let whole = made / 4;
        let (store, ledger) = loaded(alloc, &failing, &[])?;
        let store_calls = store.calls().len();
        let ledger_calls = ledger.calls().len();
        let disks = (store, ledger);
        let (kept, spoiled) = after_crash(alloc, &disks, store_calls, ledger_calls)?;
        assert!(rt; kept == whole || kept == whole + 1);
        assert!(rt; spoiled == whole || spoiled == whole + 1);
        let (store, ledger) = disks;
        let told = events_of(alloc, store, ledger)?;
        assert!(rt; told == whole || told == whole + 1);
    }
    Ok(())
}

#[test]
fn opened_after_a_fault_of_the_store(rt: HostRuntime) -> Result<(), Fail> {
    let alloc = rt.alloc();
    for call in 1..3u64 {
        let (store, ledger) = loaded(alloc, &[], &[call])?;
        let store_calls = store.calls().len();
        let ledger_calls = ledger.calls().len();
        let disks = (store, ledger);
        assert_eq!(rt;
            after_crash(alloc, &disks, store_calls, ledger_calls)?,
            (2, 2)
        );
        let (store, ledger) = disks;
        assert_eq!(rt; events_of(alloc, store, ledger)?, 2);
    }
    Ok(())
}
