// Folders whose directories are as long as a body may be. The ids are those of Python's hashlib.
use crate::folder::{file_at, folder_of, item_of, listed_at};
use std::alloc::{AllocError, Global};
use std::test::Fail;
use swh_base::{Kind, Name, Sha1Namer, Which};
use swh_dedup::Objects;
use swh_dirload::{DirFault, load_folder};
use swh_memory_input::{MemoryFolder, MemorySource};
use swh_outside::What;

/// Four digits of a number, and so many bytes in all.
fn name_of(alloc: Global, number: usize, len: usize) -> Result<String, AllocError> {
    let mut name = String::new(alloc);
    for power in [1_000, 100, 10, 1] {
        name.push_str(["0", "1", "2", "3", "4", "5", "6", "7", "8", "9"][number / power % 10])?;
    }
    for _ in 4..len {
        name.push('n')?;
    }
    Ok(name)
}

/// A folder of so many empty files, of whose names the first has so many bytes and each other 65,508. Each entry of the
/// directory has 28 bytes more.
fn wide_folder(alloc: Global, count: usize, first: usize) -> Result<MemoryFolder, AllocError> {
    let mut items = Vec::new(alloc);
    let mut places = Vec::new(alloc);
    for number in 0..count {
        let len = if number == 0 { first } else { 65_508 };
        let name = name_of(alloc, number, len)?;
        items.push(item_of(alloc, name.as_str(), What::File)?)?;
        places.push(file_at(alloc, name.as_str(), Vec::new(alloc), 1, &[])?)?;
    }
    places.push(listed_at(alloc, "", items)?)?;
    folder_of(alloc, places, &[])
}

/// A listing of a project whose name is so many times `p`, or of nothing.
fn listing_of(alloc: Global, len: usize) -> Result<MemorySource, AllocError> {
    let mut text = Vec::new(alloc);
    if len > 0 {
        text.extend_from_slice(b"160000 0123456789abcdef0123456789abcdef01234567 ")?;
        for _ in 0..len {
            text.push(b'p')?;
        }
        text.push(b'\n')?;
    }
    Ok(MemorySource::new(String::new(alloc), text, 65_536, Vec::new(alloc)))
}

/// The id of the snapshot, if there is one: the directory is named by it.
type Made = Option<&'static [u8; 40]>;

fn is_made(ended: &Result<Objects<Sha1Namer>, DirFault>, made: Made) -> bool {
    match (ended, made) {
        (Ok(loaded), Some(hex)) => match Name::from_hex(Kind::Snapshot, hex) {
            Some(name) => name.id == loaded.snapshot,
            None => false,
        },
        (
            Err(
                DirFault::Limit {
                    which: Which::Body,
                    number,
                },
            ),
            None,
        ) => *number == 67_108_865,
        _ => false,
    }
}

/// Files, the bytes of the first one's name, those of a project's name, and the snapshot.
const ROWS: &[(usize, usize, usize, Made)] = &[
    (
        1_024,
        65_508,
        0,
        Some(b"abe9ba81ad2dffa2915f426a0a88cc5625218126"),
    ),
    (1_024, 65_509, 0, None),
    (
        1_023,
        65_508,
        65_508,
        Some(b"a15f0aaa919e77d495bdcaf72a5affcc2cdb1e67"),
    ),
    (1_023, 65_508, 65_509, None),
];

/// A directory may have 67,108,864 bytes. Fails with the number of the first row, from 0, that ends in another way.
#[test]
fn the_longest_directory(rt: HostRuntime) -> Result<(), Fail> {
    for (number, (count, first, project, made)) in ROWS.iter().enumerate() {
        let mut folder = wide_folder(rt.alloc(), *count, *first)?;
        let mut source = listing_of(rt.alloc(), *project)?;
        let ended = load_folder(rt.alloc(), &Sha1Namer, &mut folder, Some(&mut source));
        if !is_made(&ended, *made) {
            return Err(Fail::new(number));
        }
    }
    Ok(())
}
