// Path walks. The orders are those in which `git ls-tree -r -t` names what `git write-tree` made of the same folders.
use crate::folder::{Listed, Named, folder_of, folder_of_lists, item_of, listed_at};
use What::{File, Folder, Other};
use std::alloc::{AllocError, Global};
use std::test::Fail;
use swh_base::Which;
use swh_dirload::{DirFault, Found, walk};
use swh_memory_input::MemoryFolder;
use swh_outside::What;

/// How a walk ends.
#[derive(Clone, Copy)]
enum Walked {
    /// It finds these, each at its path.
    Finds(&'static [Named]),
    /// This one is the first that is neither file nor folder.
    IsNeither(&'static str),
    /// The first path that is too long has so many bytes.
    IsTooLong(u64),
    Fails,
}

use Walked::*;

/// Lists, the numbers of the calls that fail, and how the walk ends.
type Row = (&'static [Listed], &'static [u64], Walked);

const ROWS: &[Row] = &[
    (&[("", &[])], &[], Finds(&[("", Folder)])),
    // A folder without anything in it is found too.
    (
        &[
            ("", &[("a0", File), ("a", Folder), ("a.b", File)]),
            ("a", &[]),
        ],
        &[],
        Finds(&[("", Folder), ("a.b", File), ("a", Folder), ("a0", File)]),
    ),
    (
        &[
            (
                "",
                &[
                    ("日", File),
                    ("z", Folder),
                    ("a", Folder),
                    ("éa", File),
                    ("é.t", File),
                    ("a.b", File),
                    ("\x7f", Folder),
                    ("a-", File),
                    ("é", Folder),
                    ("A", File),
                    ("a.d", Folder),
                    ("aa", File),
                    ("a0", File),
                    ("b", Folder),
                ],
            ),
            ("a", &[("z", File), ("x", Folder)]),
            ("a/x", &[("f", File)]),
            ("a.d", &[("q", File)]),
            ("b", &[("c", Folder), ("c.x", File)]),
            ("b/c", &[("d", Folder)]),
            ("b/c/d", &[("e", File)]),
            ("z", &[("0", File)]),
            ("\x7f", &[("k", File)]),
            ("é", &[("u", File)]),
        ],
        &[],
        Finds(&[
            ("", Folder),
            ("A", File),
            ("a-", File),
            ("a.b", File),
            ("a.d", Folder),
            ("a.d/q", File),
            ("a", Folder),
            ("a/x", Folder),
            ("a/x/f", File),
            ("a/z", File),
            ("a0", File),
            ("aa", File),
            ("b", Folder),
            ("b/c.x", File),
            ("b/c", Folder),
            ("b/c/d", Folder),
            ("b/c/d/e", File),
            ("z", Folder),
            ("z/0", File),
            ("\x7f", Folder),
            ("\x7f/k", File),
            ("é.t", File),
            ("é", Folder),
            ("é/u", File),
            ("éa", File),
            ("日", File),
        ]),
    ),
    // Of several that are neither, the first of the walk is named.
    (
        &[
            (
                "",
                &[("z", Other), ("b0", Other), ("b", Folder), ("b.x", Other)],
            ),
            ("b", &[("k", Other)]),
        ],
        &[],
        IsNeither("b.x"),
    ),
    (
        &[
            (
                "",
                &[("z", Other), ("b0", Other), ("b", Folder), ("b.x", File)],
            ),
            ("b", &[("l", Other), ("k", Other), ("j", File)]),
        ],
        &[],
        IsNeither("b/k"),
    ),
    (
        &[
            (
                "",
                &[("z", Other), ("b0", Other), ("b", Folder), ("b.x", File)],
            ),
            ("b", &[("k", File)]),
        ],
        &[],
        IsNeither("b0"),
    ),
    // A folder that comes before it is listed first.
    (&[("", &[("a", Folder), ("b", Other)])], &[], Fails),
    (&[("", &[("a", Other), ("b", Folder)])], &[], IsNeither("a")),
    // Lists that fail: nothing stands there, names that no list may have, a file in the place of a folder.
    (&[], &[], Fails),
    (&[("", &[("a", Folder)])], &[], Fails),
    (
        &[("", &[("a", File), ("a", Folder)]), ("a", &[])],
        &[],
        Fails,
    ),
    (&[("", &[("..", Folder)])], &[], Fails),
    (&[("", &[("a/b", File)])], &[], Fails),
    // A call that fails.
    (&[("", &[("a", Folder)]), ("a", &[])], &[0], Fails),
    (&[("", &[("a", Folder)]), ("a", &[])], &[1], Fails),
    (
        &[("", &[("a", Folder)]), ("a", &[])],
        &[2],
        Finds(&[("", Folder), ("a", Folder)]),
    ),
];

/// Whether the path is that of a name in the folder at a path.
fn is_child(dir: &str, name: &str, path: &str) -> bool {
    if dir.is_empty() {
        return name == path;
    }
    match path.strip_prefix(dir) {
        Some(rest) => rest.strip_prefix("/") == Some(name),
        None => false,
    }
}

/// Whether each is what is listed at its number, with the path of its folder before it.
fn are_found(found: &[Found], list: &[Named]) -> bool {
    if found.len() != list.len() {
        return false;
    }
    for (f, (path, what)) in found.iter().zip(list) {
        let Some((dir, _)) = list.get(f.above) else {
            return false;
        };
        if !is_child(dir, f.name.as_str(), path) || f.what != *what {
            return false;
        }
    }
    true
}

fn ends_so(ended: &Result<Vec<Found>, DirFault>, walked: Walked) -> bool {
    match (ended, walked) {
        (Ok(found), Finds(list)) => are_found(found.as_slice(), list),
        (Err(DirFault::OtherKind { path }), IsNeither(name)) => path.as_slice() == name.as_bytes(),
        (
            Err(
                DirFault::Limit {
                    which: Which::Path,
                    number,
                },
            ),
            IsTooLong(len),
        ) => *number == len,
        (Err(DirFault::ReadFault), Fails) => true,
        _ => false,
    }
}

fn walks_so(alloc: Global, folder: &mut MemoryFolder, walked: Walked) -> bool {
    let ended = walk(alloc, folder);
    let faults = match walked {
        Fails => 1,
        _ => 0,
    };
    ends_so(&ended, walked) && folder.faults() == faults
}

/// Fails with the number of the first row, from 0, that ends in another way.
#[test]
fn folders_are_walked(rt: HostRuntime) -> Result<(), Fail> {
    for (number, (lists, failing, walked)) in ROWS.iter().enumerate() {
        let mut folder = folder_of_lists(rt.alloc(), lists, failing)?;
        if !walks_so(rt.alloc(), &mut folder, *walked) {
            return Err(Fail::new(number));
        }
    }
    Ok(())
}

/// So many bytes.
fn long_name(alloc: Global, len: usize) -> Result<String, AllocError> {
    let mut name = String::new(alloc);
    for _ in 0..len {
        name.push('n')?;
    }
    Ok(name)
}

/// A folder with a folder whose name has so many bytes, in which a file of one byte stands; and beside it another item.
fn deep_folder(alloc: Global, len: usize, beside: Named) -> Result<MemoryFolder, AllocError> {
    let long = long_name(alloc, len)?;
    let mut items = Vec::new(alloc);
    items.push(item_of(alloc, long.as_str(), Folder)?)?;
    items.push(item_of(alloc, beside.0, beside.1)?)?;
    let mut below = Vec::new(alloc);
    below.push(item_of(alloc, "f", File)?)?;
    let mut places = Vec::new(alloc);
    places.push(listed_at(alloc, "", items)?)?;
    places.push(listed_at(alloc, long.as_str(), below)?)?;
    folder_of(alloc, places, &[])
}

/// The bytes of the folder's name, what stands beside it, and how the walk ends.
const LONG: &[(usize, Named, Walked)] = &[
    (65_533, ("z", Other), IsNeither("z")),
    (65_534, ("z", Other), IsTooLong(65_536)),
    (65_534, ("a", Other), IsNeither("a")),
    (65_536, ("z", File), IsTooLong(65_536)),
    (70_000, ("z", Folder), IsTooLong(70_000)),
];

/// A path may have 65,535 bytes.
#[test]
fn paths_have_a_limit(rt: HostRuntime) -> Result<(), Fail> {
    for (number, (len, beside, walked)) in LONG.iter().enumerate() {
        let mut folder = deep_folder(rt.alloc(), *len, *beside)?;
        if !walks_so(rt.alloc(), &mut folder, *walked) {
            return Err(Fail::new(number));
        }
    }
    Ok(())
}
