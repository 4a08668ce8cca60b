// Damaged archives: each kind of harm, with its place, as every command tells it that opens an archive.
use std::alloc::{AllocError, Global};
use std::test::Fail;
use swh_base::Sha1Namer;
use swh_program_fixtures::{
    ASK, CHECK, Case, INIT, LEDGER, LOAD, LOADING, PlainDepot, STORE, Setting, Spoil, is_met,
    is_met_by,
};

// Another byte at a place of the loaded archive: the file, 0 the ledger and 1 the store, the place, the byte, and the line
// that tells the harm. Of the ledger: its magic; a record's kind and its length; a visit's kind, its origin, a status that
// no record has, a visit that is not there, and the byte before a snapshot; where a run begins and ends, and how many
// objects it has; a snapshot that is not held; and an open gate with nothing behind it. Of the store: an object's kind, its
// length, its id, its body, and a directory that is none.
const CHANGES: &[(u32, usize, u8, &[u8])] = &[
    (0, 1, 0x5a, b"swharc: damaged 0 1\n"),
    (0, 7, 0x0b, b"swharc: damaged 0 7\n"),
    (0, 9, 0x5a, b"swharc: damaged 0 9\n"),
    (0, 13, 0xff, b"swharc: damaged 0 14\n"),
    (0, 13, 0, b"swharc: damaged 0 14\n"),
    (0, 18, 9, b"swharc: damaged 0 18\n"),
    (0, 27, 1, b"swharc: damaged 0 8\n"),
    (0, 52, 1, b"swharc: damaged 0 52\n"),
    (0, 60, 2, b"swharc: damaged 0 42\n"),
    (0, 61, 7, b"swharc: damaged 0 61\n"),
    (0, 94, 1, b"swharc: damaged 1 1\n"),
    (0, 97, 1, b"swharc: damaged 1 338\n"),
    (0, 102, 0x51, b"swharc: damaged 1 290\n"),
    (0, 102, 0x53, b"swharc: damaged 1 338\n"),
    (0, 106, 3, b"swharc: damaged 0 77\n"),
    (0, 140, 0, b"swharc: damaged 0 107\n"),
    (0, 162, 1, b"swharc: damaged 0 163\n"),
    (1, 0, 0x5a, b"swharc: damaged 1 0\n"),
    (1, 1, 1, b"swharc: damaged 1 29\n"),
    (1, 5, 4, b"swharc: damaged 1 29\n"),
    (1, 9, 0, b"swharc: damaged 1 9\n"),
    (1, 29, 0x5a, b"swharc: damaged 1 9\n"),
    (1, 68, 0x5a, b"swharc: damaged 1 68\n"),
];

// How many bytes of the loaded archive's ledger and store are left, and the line that tells the harm.
const CUTS: &[(usize, usize, &[u8])] = &[
    (9, 338, b"swharc: damaged 0 9\n"),
    (13, 338, b"swharc: damaged 0 10\n"),
    (20, 338, b"swharc: damaged 0 14\n"),
    (42, 338, b"swharc: damaged 0 42\n"),
    (162, 338, b"swharc: damaged 0 162\n"),
    (163, 0, b"swharc: damaged 1 0\n"),
    (163, 4, b"swharc: damaged 1 1\n"),
    (163, 20, b"swharc: damaged 1 9\n"),
    (163, 33, b"swharc: damaged 1 29\n"),
];

// Says whether `load`, `ask` and `check` tell this line of an archive, and leave it as it is.
fn is_told<'a>(
    alloc: Global,
    ledger: &'a [u8],
    store: &'a [u8],
    line: &'a [u8],
) -> Result<bool, AllocError> {
    let setting = Setting {
        ledger: Some(ledger),
        store,
        ..LOADING
    };
    for words in [LOAD, ASK, CHECK] {
        let case = Case {
            name: "a harm",
            setting,
            runs: &[words],
            statuses: &[3],
            printed: line,
            leaves: Some((ledger, store)),
        };
        if !is_met(alloc, &case)? {
            return Ok(false);
        }
    }
    Ok(true)
}

// The bytes, with another at a place.
fn changed(alloc: Global, bytes: &[u8], at: usize, byte: u8) -> Result<Vec<u8>, AllocError> {
    let mut changed = bytes.to_vec(alloc)?;
    if let Some(old) = changed.as_mut_slice().get_mut(at) {
        *old = byte;
    }
    Ok(changed)
}

// Says whether the change of a row is told.
fn is_change_told(
    alloc: Global,
    (file, at, byte, line): (u32, usize, u8, &[u8]),
) -> Result<bool, AllocError> {
    if file == 0 {
        let ledger = changed(alloc, LEDGER, at, byte)?;
        is_told(alloc, &ledger, STORE, line)
    } else {
        let store = changed(alloc, STORE, at, byte)?;
        is_told(alloc, LEDGER, &store, line)
    }
}

#[test]
fn a_changed_byte_is_told(rt: HostRuntime) -> Result<(), Fail> {
    for (number, row) in CHANGES.iter().enumerate() {
        if !is_change_told(rt.alloc(), *row)? {
            return Err(Fail::new(number));
        }
    }
    Ok(())
}

// So many bytes, or all where there are fewer.
fn front(bytes: &[u8], count: usize) -> &[u8] {
    &bytes[..count.min(bytes.len())]
}

#[test]
fn missing_bytes_are_told(rt: HostRuntime) -> Result<(), Fail> {
    for (number, (ledger, store, line)) in CUTS.iter().enumerate() {
        let (ledger, store) = (front(LEDGER, *ledger), front(STORE, *store));
        if !is_told(rt.alloc(), ledger, store, line)? {
            return Err(Fail::new(number));
        }
    }
    Ok(())
}

// Ledgers that spell one record in another way than any that is right: the length of the length, a visit's kind, and the
// status of a visit that was never opened.
const LEDGERS: &[(&[u8], &[u8])] = &[
    (b"SWHARC1\n\x01O\0\0\0\x1c\0\0\0", b"swharc: damaged 0 14\n"),
    (
        b"SWHARC1\n\x01O\0\0\0\x1c\0\0\0\x01\x09\0\0\0\0\x3b\x9a\xca\0https://e.org/p\0",
        b"swharc: damaged 0 18\n",
    ),
    (
        b"SWHARC1\n\x01T\0\0\0\x1d\0\0\0\x01\x06\0\0\0\0\0\0\0\x01\0https://e.org/p\0",
        b"swharc: damaged 0 8\n",
    ),
    (b"SWHARC2\n\0", b"swharc: damaged 0 6\n"),
];

#[test]
fn a_ledger_that_is_none_is_told(rt: HostRuntime) -> Result<(), Fail> {
    for (number, (ledger, line)) in LEDGERS.iter().enumerate() {
        if !is_told(rt.alloc(), ledger, b"", line)? {
            return Err(Fail::new(number));
        }
    }
    Ok(())
}

// Says whether `check` names a body that changes at this place between the opening and the check.
fn is_change_named(alloc: Global, place: u64, printed: &[u8]) -> Result<bool, AllocError> {
    let spoil = Spoil {
        place,
        first_reads: 1,
    };
    let case = Case {
        name: "a change",
        setting: LOADING,
        runs: &[INIT, LOAD, CHECK],
        statuses: &[0, 0, 3],
        printed,
        leaves: None,
    };
    is_met_by(alloc, Sha1Namer, PlainDepot::new(alloc, Some(spoil)), &case)
}

// One bit of the content's last byte, and one of the directory's first.
#[test]
fn a_body_that_changes_is_named(rt: HostRuntime) -> Result<(), Fail> {
    for (place, printed) in [(38, CONTENT_CHANGED), (68, DIRECTORY_CHANGED)] {
        if !is_change_named(rt.alloc(), place, printed)? {
            return Err(Fail::new(place));
        }
    }
    Ok(())
}

const CONTENT_CHANGED: &[u8] =
    b"made\nhttps://e.org/p\t1\tfull\tswh:1:snp:5036c2b4a676f9dad60fbaed431ca21ecdec56ff\n\
swharc: damaged swh:1:cnt:83baae61804e65cc73a7201a7252750c76066a30\n";

const DIRECTORY_CHANGED: &[u8] =
    b"made\nhttps://e.org/p\t1\tfull\tswh:1:snp:5036c2b4a676f9dad60fbaed431ca21ecdec56ff\n\
swharc: damaged swh:1:dir:d8329fc1cc938780ffdd9f94e0d364e0ea74f579\n";
