// The check of a whole archive: what it counts, a body that was changed, and a disk that fails.
use crate::changed_bodies::{Change, Changing};
use std::alloc::Global;
use std::test::Fail;
use swh_base::{Kind, Name, Namer, Sha1Namer, Url};
use swh_check::{CheckFault, Report, check_all};
use swh_fixtures::{Archive, CONTENT, STREAM, URL, found, made_archive};
use swh_keeper::{Keeper, OpenFault, Plan};
use swh_loader::{Input, Job, Turn, Worker, load_one};
use swh_memory::{MemoryCall, MemoryDisk, MemoryFolder, MemorySource};
use swh_object::Object;
use swh_outside::{Disk, OpenGate, Opened};

/// Says whether the worked stream is loaded.
fn is_loaded<N: Namer>(
    alloc: Global,
    namer: &N,
    keeper: &mut Archive<N>,
    origin: Url,
    stream: Opened<MemorySource>,
) -> bool {
    let input: Input<MemorySource, MemoryFolder> = Input::Fast { stream, head: None };
    let mut job = Job { origin, input };
    let worker = Worker {
        by: 1,
        gate: &OpenGate,
        number: 0,
    };
    let turn = Turn {
        worker: &worker,
        job: 0,
    };
    let answer = load_one(alloc, namer, keeper, &turn, &mut job, 1_000_000_000);
    let Job {
        origin: _origin,
        input: _input,
    } = job;
    answer.is_ok()
}

/// A batch of an object.
fn batch(alloc: Global, kind: Kind, body: &[u8]) -> Result<Plan<Sha1Namer>, Fail> {
    let Ok(object) = Object::make(alloc, &Sha1Namer, kind, body.to_vec(alloc)?) else {
        return Err(Fail::from("an object"));
    };
    let mut objects = Vec::with_capacity(alloc, 1)?;
    objects.push(object)?;
    Ok(Plan::Batch(objects))
}

/// A batch of the content `version 1` with an LF.
fn content_batch(alloc: Global) -> Result<Plan<Sha1Namer>, Fail> {
    batch(alloc, Kind::Content, b"version 1\n")
}

/// A batch of the snapshot without branches.
fn snapshot_batch(alloc: Global) -> Result<Plan<Sha1Namer>, Fail> {
    batch(alloc, Kind::Snapshot, b"")
}

/// The check of an archive to which a plan was applied.
fn checked<D: Disk>(
    alloc: Global,
    keeper: &mut Keeper<Sha1Namer, D>,
    plan: Plan<Sha1Namer>,
) -> Option<Result<Report, CheckFault>> {
    if keeper.apply(1, plan).is_err() || keeper.wounded().is_some() {
        return None;
    }
    Some(check_all(alloc, &Sha1Namer, keeper))
}

/// What comes of the check of an archive with that content, and what is then read of the content again.
struct Seen {
    checked: Result<Report, CheckFault>,
    stored: Option<Vec<u8>>,
}

/// The same of an archive whose store reads otherwise.
fn seen_with_change(alloc: Global, change: Change) -> Result<Seen, Fail> {
    let plan = content_batch(alloc)?;
    let store = Changing::with(alloc, change);
    let ledger = Changing::with(alloc, Change::End(u64::MAX));
    match Keeper::make(alloc, Sha1Namer, store, ledger) {
        Ok(mut keeper) => {
            let seen = seen_of(alloc, &mut keeper, plan);
            let (_store, _ledger) = keeper.close();
            Ok(seen.ok_or("checked")?)
        }
        Err(fault) => {
            let OpenFault {
                why: _why,
                store: _store,
                ledger: _ledger,
            } = fault;
            Err(Fail::from("made"))
        }
    }
}

fn seen_of<D: Disk>(
    alloc: Global,
    keeper: &mut Keeper<Sha1Namer, D>,
    plan: Plan<Sha1Namer>,
) -> Option<Seen> {
    let checked = checked(alloc, keeper, plan)?;
    if keeper.wounded().is_some() {
        return None;
    }
    match keeper.stored(alloc, &CONTENT_NAME) {
        Ok(stored) => Some(Seen { checked, stored }),
        Err(_) => None,
    }
}

/// The check of an archive with that content, where it is made and filled; the store's call of a number fails.
fn checked_with_fault(
    alloc: Global,
    number: u64,
) -> Result<Option<Result<Report, CheckFault>>, Fail> {
    let plan = content_batch(alloc)?;
    let Ok(mut keeper) = made_archive(alloc, Sha1Namer, &[], &[number]) else {
        return Ok(None);
    };
    let answer = checked(alloc, &mut keeper, plan);
    let (_store, _ledger) = keeper.close();
    Ok(answer)
}

#[test]
fn a_loaded_archive_is_counted(rt: HostRuntime) -> Result<(), Fail> {
    let alloc = rt.alloc();
    let stream = found(alloc, STREAM, &[])?;
    let Ok(origin) = Url::new(alloc, URL) else {
        return Err(Fail::from("a URL"));
    };
    let mut keeper = made_archive(alloc, Sha1Namer, &[], &[])?;
    let loaded = is_loaded(alloc, &Sha1Namer, &mut keeper, origin, stream);
    let report = match keeper.wounded() {
        None => check_all(alloc, &Sha1Namer, &mut keeper).ok(),
        Some(_) => None,
    };
    let (_store, _ledger) = keeper.close();
    let wanted = Report {
        objects: 4,
        closed: 4,
        visits: 1,
    };
    assert!(rt; loaded && report == Some(wanted));
    Ok(())
}

const CONTENT_NAME: Name = Name {
    kind: Kind::Content,
    id: CONTENT,
};

/// How the store reads, what the content is told to be damaged with, or none, and what is read of it again. The body stands
/// behind 29 bytes. The ids are git's.
struct Row {
    change: Change,
    found: Option<[u8; 20]>,
    stored: &'static [u8],
}

/// The id of an empty file.
const EMPTY: [u8; 20] =
    *b"\xe6\x9d\xe2\x9b\xb2\xd1\xd6\x43\x4b\x8b\x29\xae\x77\x5a\xd8\xc2\xe4\x8c\x53\x91";

const ROWS: &[Row] = &[
    Row {
        change: Change::Bit(39),
        found: None,
        stored: b"version 1\n",
    },
    Row {
        change: Change::Bit(38),
        found: Some(
            *b"\xd4\xe9\xaf\xbb\x28\xd5\x00\x1a\xe9\x17\x2a\x29\x80\x99\x3b\x99\xf3\x78\xed\xae",
        ),
        stored: b"version 1\x0b",
    },
    // A store that was cut: what is missing is not taken for zeros.
    Row {
        change: Change::End(39),
        found: None,
        stored: b"version 1\n",
    },
    Row {
        change: Change::End(38),
        found: Some(
            *b"\xe3\x20\x92\xa8\x3f\x83\x71\x40\xc0\x8e\x85\xa6\x0e\xf1\x6a\x6b\x2a\x20\x89\x86",
        ),
        stored: b"version 1",
    },
    Row {
        change: Change::End(33),
        found: Some(
            *b"\x02\xb2\x17\x62\x54\x8e\x11\xfd\xbd\x16\xed\x39\x20\x28\x10\x84\x3d\x5d\x41\xd9",
        ),
        stored: b"vers",
    },
    Row {
        change: Change::End(29),
        found: Some(EMPTY),
        stored: b"",
    },
    Row {
        change: Change::End(0),
        found: Some(EMPTY),
        stored: b"",
    },
];

/// The check of one content, which is damaged with this id, or is not.
fn check_of(found: Option<[u8; 20]>) -> Result<Report, CheckFault> {
    match found {
        Some(found) => Err(CheckFault::Damaged {
            name: CONTENT_NAME,
            found,
        }),
        None => Ok(Report {
            objects: 1,
            closed: 0,
            visits: 0,
        }),
    }
}

fn is_seen(alloc: Global, row: &Row) -> Result<bool, Fail> {
    let Seen { checked, stored } = seen_with_change(alloc, row.change)?;
    let bytes = stored.ok_or("held")?;
    Ok(checked == check_of(row.found) && bytes.as_slice() == row.stored)
}

#[test]
fn a_body_that_reads_otherwise_is_told(rt: HostRuntime) -> Result<(), Fail> {
    let alloc = rt.alloc();
    for (number, row) in ROWS.iter().enumerate() {
        assert!(rt; is_seen(alloc, row)?, "row {number}");
    }
    Ok(())
}

/// The store's disk after a check of an archive with that content, and again with it.
fn store_after_check(alloc: Global) -> Result<MemoryDisk, Fail> {
    let (first, second) = (content_batch(alloc)?, snapshot_batch(alloc)?);
    let mut keeper = made_archive(alloc, Sha1Namer, &[], &[])?;
    let added = keeper.apply(1, first).is_ok();
    let answer = checked(alloc, &mut keeper, second);
    let (store, _ledger) = keeper.close();
    if added && answer.ok_or("checked")?.is_ok() {
        Ok(store)
    } else {
        Err(Fail::from("checked"))
    }
}

#[test]
fn each_stored_byte_is_read_again(rt: HostRuntime) -> Result<(), Fail> {
    let store = store_after_check(rt.alloc())?;
    // Each run has one write and a barrier; the content's has 39 bytes, and that of the empty snapshot 29.
    let wanted = [
        MemoryCall::Written(0, 39),
        MemoryCall::Synced,
        MemoryCall::Written(39, 29),
        MemoryCall::Synced,
        MemoryCall::Read(0, 39),
        MemoryCall::Read(39, 29),
    ];
    let calls = store.calls();
    assert!(rt; calls.len() == 7 && calls[0].call == MemoryCall::Synced);
    for (record, call) in calls[1..].iter().zip(wanted.iter()) {
        assert_eq!(rt; record.call, *call);
    }
    Ok(())
}

#[test]
fn a_disk_that_fails_is_told(rt: HostRuntime) -> Result<(), Fail> {
    let alloc = rt.alloc();
    // One call of the store makes the archive, the batch writes its run and then a barrier, and the check reads the run.
    for number in 0..3 {
        assert!(rt; checked_with_fault(alloc, number)?.is_none());
    }
    let told = checked_with_fault(alloc, 3)?.ok_or("checked")?.err();
    assert!(rt; told == Some(CheckFault::DiskFault));
    assert!(rt; checked_with_fault(alloc, 4)?.ok_or("checked")?.is_ok());
    Ok(())
}
