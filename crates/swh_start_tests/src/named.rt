// Folders that are named.
use crate::starts::{Run, all_end_so};
use std::test::Fail;
use swh_temp_folders::{Laid, Thing, clear, fresh_room};

// A folder of one file, which a link leads to; an empty folder; and a folder with a link in it.
const LAID: [Laid; 7] = [
    ("D", Thing::Folder),
    ("D/test.txt", Thing::File(b"version 1\n")),
    ("link", Thing::Link("D")),
    ("E", Thing::Folder),
    ("L", Thing::Folder),
    ("L/ln", Thing::Link("../D")),
    ("file", Thing::File(b"version 1\n")),
];

// The names are git's.
const NAMES: [Run; 6] = [
    (
        &["identify", "dir", "@/D"],
        0,
        b"swh:1:dir:d8329fc1cc938780ffdd9f94e0d364e0ea74f579\n",
    ),
    (
        &["identify", "dir", "@/link"],
        0,
        b"swh:1:dir:d8329fc1cc938780ffdd9f94e0d364e0ea74f579\n",
    ),
    (
        &["identify", "dir", "@/E"],
        0,
        b"swh:1:dir:4b825dc642cb6eb9a060e54bf8d69288fbee4904\n",
    ),
    (&["identify", "dir", "@/L"], 1, b"swharc: other ln\n"),
    (&["identify", "dir", "@/none"], 1, b"swharc: not found\n"),
    (&["identify", "dir", "@/file"], 1, b"swharc: not found\n"),
];

#[test]
fn folders_are_named(rt: HostRuntime) -> Result<(), Fail> {
    let room = fresh_room(&rt, "named", &LAID)?;
    all_end_so(&rt, room.as_str(), &NAMES)?;
    clear(&rt, room.as_str())
}
