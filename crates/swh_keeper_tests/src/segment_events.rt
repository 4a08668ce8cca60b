//! An event on the two files: their bytes, how many writes and barriers it makes, and a call that fails.
ghost use Rattle.std.specs.Prelude.{◌≡◌};

use std::alloc::{AllocError, Global};
use std::test::Fail;
use swh_memory::{MemoryDisk, Room};
use swh_segment::{Ledger, Run, Runs, append_to_both};

const ROOM: Room = Room {
    bytes: 64,
    calls: 64,
};

/// A record with no payload, and the closed gate after it.
const RECORD: &[u8] = b"O\0\0\0\0\0";

/// The run that is added before the record, or none; the ledger's calls that fail; and what is then there.
struct Case {
    title: &'static str,
    run: Option<&'static [u8]>,
    failing: &'static [u64],
    left: Left,
}

/// The bytes of both files, how many writes and barriers were begun on each, and whether the event was added.
#[derive(Clone, Copy)]
struct Left {
    store: &'static [u8],
    ledger: &'static [u8],
    store_changes: usize,
    ledger_changes: usize,
    is_added: bool,
}

const CASES: &[Case] = &[
    Case {
        title: "a run",
        run: Some(&[7, 8]),
        failing: &[],
        left: Left {
            store: &[7, 8],
            ledger: b"SWHARC1\n\x01O\0\0\0\0\0",
            store_changes: 2,
            ledger_changes: 4,
            is_added: true,
        },
    },
    Case {
        title: "an empty run",
        run: Some(&[]),
        failing: &[],
        left: Left {
            store: b"",
            ledger: b"SWHARC1\n\x01O\0\0\0\0\0",
            store_changes: 1,
            ledger_changes: 4,
            is_added: true,
        },
    },
    Case {
        title: "no run",
        run: None,
        failing: &[],
        left: Left {
            store: b"",
            ledger: b"SWHARC1\n\x01O\0\0\0\0\0",
            store_changes: 0,
            ledger_changes: 4,
            is_added: true,
        },
    },
    Case {
        title: "a gate that fails",
        run: None,
        failing: &[2],
        left: Left {
            store: b"",
            ledger: b"SWHARC1\n\0O\0\0\0\0\0",
            store_changes: 0,
            ledger_changes: 3,
            is_added: false,
        },
    },
];

/// Appends a batch with this run, and answers whether it was added.
fn add_batch(runs: &mut Runs<MemoryDisk>, run: &[u8], records: &mut Ledger<MemoryDisk>) -> bool
    requires store { runs.old.end ≡ 0 }
    requires ledger { records.old.end ≡ 8 }
{
    let _length = run.len();
    append_to_both(runs, Run::Batch(run), records, RECORD).is_ok()
}

/// The disks after an event, the store first, and whether it was added.
fn after(alloc: Global, case: &Case) -> Result<(MemoryDisk, MemoryDisk, bool), AllocError> {
    let failing = case.failing.to_vec(alloc)?;
    let store = MemoryDisk::new(alloc, b"", ROOM, Vec::new(alloc))?;
    let ledger = MemoryDisk::new(alloc, b"SWHARC1\n\0", ROOM, failing)?;
    let mut runs = Runs::at(store, 0);
    let mut records = Ledger::at(ledger, 8);
    let added = match case.run {
        Some(bytes) => add_batch(&mut runs, bytes, &mut records),
        None => append_to_both(&mut runs, Run::None, &mut records, RECORD).is_ok(),
    };
    Ok((runs.close(), records.close(), added))
}

fn changes(disk: &MemoryDisk) -> usize {
    let calls = disk.calls();
    calls.iter().filter(|r| r.call.is_change()).count()
}

fn is_left(alloc: Global, case: &Case) -> Result<bool, AllocError> {
    let (store, ledger, added) = after(alloc, case)?;
    let left = case.left;
    Ok(
        store.bytes() == left.store
            && ledger.bytes() == left.ledger
            && changes(&store) == left.store_changes
            && changes(&ledger) == left.ledger_changes
            && added == left.is_added,
    )
}

#[test]
fn each_event_leaves_its_bytes(rt: HostRuntime) -> Result<(), Fail> {
    let alloc = rt.alloc();
    for case in CASES {
        assert!(rt; is_left(alloc, case)?, "{}", case.title);
    }
    Ok(())
}

#[test]
fn a_gate_that_fails_may_stand_or_not(rt: HostRuntime) -> Result<(), Fail> {
    let (_store, ledger, _added) = after(rt.alloc(), &CASES[3])?;
    assert!(rt; ledger.is_image(b"SWHARC1\n\0O\0\0\0\0\0"));
    assert!(rt; ledger.is_image(b"SWHARC1\n\x01O\0\0\0\0\0"));
    assert!(rt; !ledger.is_image(b"SWHARC1\n\0"));
    Ok(())
}

#[test]
fn owners_answer_places(rt: HostRuntime) -> Result<(), Fail> {
    let alloc = rt.alloc();
    let mut runs = Runs::at(MemoryDisk::with_room(alloc, ROOM)?, 0);
    let empty = runs.append_bytes(&[]);
    let places = runs.append_bytes(&[8, 9]);
    let end = runs.end();
    let _store = runs.close();
    assert!(rt; empty == Ok((0, 0)) && places == Ok((0, 2)) && end == 2);
    let disk = MemoryDisk::new(alloc, b"SWHARC1\n\0", ROOM, Vec::new(alloc))?;
    let mut ledger = Ledger::at(disk, 8);
    let gate = ledger.append_bytes(RECORD);
    let end = ledger.end();
    let _ledger = ledger.close();
    assert!(rt; gate == Ok(8) && end == 14);
    Ok(())
}
