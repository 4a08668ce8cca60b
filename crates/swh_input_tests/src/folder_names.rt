// Folders that are named without a listing. The ids are git's.
use crate::folder_loads::{EMPTY, LACKING, Laid, Layout, NEITHER, TWO, folder_laid, is_named};
use Laid::{Bytes, List};
use What::{File, Folder};
use std::alloc::Global;
use std::test::Fail;
use swh_base::{Kind, Sha1Namer};
use swh_dirload::{DirFault, name_folder};
use swh_memory_input::MemoryFolder;
use swh_outside::What;

/// How the naming of a folder ends.
#[derive(Clone, Copy)]
enum Naming {
    /// The id of its directory.
    Is(&'static [u8; 40]),
    IsNeither(&'static str),
    /// One fault of the folder is counted.
    Fails,
}

use Naming::*;

fn ends_so(ended: &Result<[u8; 20], DirFault>, naming: Naming) -> bool {
    match (ended, naming) {
        (Ok(id), Is(hex)) => is_named(id, Kind::Directory, hex),
        (Err(DirFault::OtherKind { path }), IsNeither(name)) => path.as_slice() == name.as_bytes(),
        (Err(DirFault::ReadFault), Fails) => true,
        _ => false,
    }
}

fn names_so(alloc: Global, folder: &mut MemoryFolder, naming: Naming) -> bool {
    let ended = name_folder(alloc, &Sha1Namer, folder);
    let faults = match naming {
        Fails => 1,
        _ => 0,
    };
    ends_so(&ended, naming) && folder.faults() == faults
}

/// What is laid, the numbers of the folder's calls that fail, and how the folder is named.
type Row = (Layout, &'static [u64], Naming);

const OF_TWO: Naming = Is(b"bd73a593f9ed1806804b962aeaf0b5957ceb38e1");

const ROWS: &[Row] = &[
    (EMPTY, &[], Is(b"4b825dc642cb6eb9a060e54bf8d69288fbee4904")),
    (TWO, &[], OF_TWO),
    // Files and folders in one another, in the order of directories.
    (
        &[
            ("", List(&[("b", Folder), ("b.x", File), ("a", File)])),
            ("a", Bytes(b"a\n")),
            ("b", List(&[("e", File), ("c", Folder)])),
            ("b/c", List(&[("d", File)])),
            ("b/c/d", Bytes(b"in c\n")),
            ("b/e", Bytes(b"in b\n")),
            ("b.x", Bytes(b"dot\n")),
        ],
        &[],
        Is(b"6abd075dfe447b4ef5228f2f219e65416c6ed5c8"),
    ),
    (NEITHER, &[], IsNeither("a.b")),
    // A file that is not there, each call of the folder, and the one after them.
    (LACKING, &[], Fails),
    (TWO, &[0], Fails),
    (TWO, &[1], Fails),
    (TWO, &[2], Fails),
    (TWO, &[3], OF_TWO),
];

/// Fails with the number of the first row, from 0, that ends in another way.
#[test]
fn folders_are_named(rt: HostRuntime) -> Result<(), Fail> {
    for (number, (layout, failing, naming)) in ROWS.iter().enumerate() {
        let mut folder = folder_laid(rt.alloc(), layout, failing)?;
        if !names_so(rt.alloc(), &mut folder, *naming) {
            return Err(Fail::new(number));
        }
    }
    Ok(())
}
