// A folder of very many files, and how far a file is read that is far longer than a body may be.
use crate::folder_plain::PlainFolder;
use std::alloc::Global;
use std::test::Fail;
use swh_base::{ByteNamer, Kind, Which};
use swh_dedup::Objects;
use swh_dirload::{DirFault, load_folder};
use swh_memory_input::MemorySource;

/// Loads a folder of so many files of one length, and tells how many of their bytes were taken.
fn load_plain(
    alloc: Global,
    count: usize,
    length: usize,
) -> (Result<Objects<ByteNamer>, DirFault>, usize) {
    let mut folder = PlainFolder {
        alloc,
        count,
        length,
        taken: 0,
    };
    let none: Option<&mut MemorySource> = None;
    let ended = load_folder(alloc, &ByteNamer, &mut folder, none);
    (ended, folder.taken)
}

/// Whether these are one content, one directory of so many bytes, and a snapshot.
fn is_one_directory(loaded: &Objects<ByteNamer>, bytes: usize) -> bool {
    let objects = loaded.objects.as_slice();
    objects.len() == 3
        && objects.iter().any(|object| {
            object.name().kind == Kind::Directory && object.body().len() == bytes
        })
}

/// Each entry has a mode of six digits, a name of five, a space, a NUL and an id: 33 bytes.
#[test]
fn a_folder_of_70_000_files(rt: HostRuntime) -> Result<(), Fail> {
    let (ended, taken) = load_plain(rt.alloc(), 70_000, 0);
    let Ok(loaded) = ended else {
        return Err(Fail::new(0));
    };
    assert!(rt; is_one_directory(&loaded, 2_310_000));
    assert!(rt; taken == 0);
    Ok(())
}

/// A file is read no further than a window above the limit of a body.
#[test]
fn a_file_of_four_windows_more(rt: HostRuntime) -> Result<(), Fail> {
    let (ended, taken) = load_plain(rt.alloc(), 1, 67_108_864 + 4 * 65_536);
    assert!(rt;
        matches!(
            ended,
            Err(DirFault::Limit {
                which: Which::Body,
                number: 67_108_865
            })
        )
    );
    assert!(rt; taken <= 67_108_864 + 65_536);
    Ok(())
}
