// What `cook` makes over the system, and what it loads back to.
use crate::starts::{Run, all_end_so};
use std::fs;
use std::test::Fail;
use swh_fixtures::STREAM;
use swh_temp_folders::{Laid, Thing, clear, fresh_room, is_file_in, path_in, stands};

// The worked stream, and a folder of a program and a link, as its listing says.
const LAID: [Laid; 5] = [
    ("stream", Thing::File(STREAM)),
    ("D", Thing::Folder),
    ("D/run", Thing::File(b"hi\n")),
    ("D/ln", Thing::File(b"run")),
    ("modes", Thing::File(b"100755 run\n120000 ln\n")),
];

// Writes a job file of one stream and one folder with its listing, at these names in the room.
fn lay_jobs(rt: &HostRuntime, room: &str, names: [&str; 4]) -> Result<(), Fail> {
    let [file, stream, folder, modes] = names;
    let path = path_in(rt.alloc(), room, file)?;
    let jobs = format!(in rt.alloc();
        "fast\thttps://e.org/p\t{room}/{stream}\ndir\thttps://e.org/d\t{room}/{folder}\t{room}/{modes}\n"
    )?;
    Ok(fs::write(rt, path.as_str(), jobs.as_bytes())?)
}

fn room_to_cook(rt: &HostRuntime, name: &str) -> Result<String, Fail> {
    let room = fresh_room(rt, name, &LAID)?;
    lay_jobs(rt, room.as_str(), ["jobs", "stream", "D", "modes"])?;
    lay_jobs(rt, room.as_str(), ["back", "out", "wide", "wide.modes"])?;
    Ok(room)
}

const REVISION: &str = "swh:1:rev:295c0651a95ba32ac5e14f92da0161b122942cac";

const DIRECTORY: &str = "swh:1:dir:fd1ddbd0b36255b027b7f28a48011a50332941b4";

const CONTENT: &str = "swh:1:cnt:45b983be36b73c0788dc9cbcb76cbb80fc7bb057";

const LOADED: &[u8] =
    b"https://e.org/p\t1\tfull\tswh:1:snp:5036c2b4a676f9dad60fbaed431ca21ecdec56ff\n\
https://e.org/d\t1\tfull\tswh:1:snp:064732ac2b71aac3a64f68cba08fdbcfe3c6e935\n";

const LOADED_BACK: &[u8] =
    b"https://e.org/p\t2\tfull\tswh:1:snp:5036c2b4a676f9dad60fbaed431ca21ecdec56ff\n\
https://e.org/d\t2\tfull\tswh:1:snp:064732ac2b71aac3a64f68cba08fdbcfe3c6e935\n";

// The ids are git's, those of the snapshots by SWHID v1.2.
const COOKED: [Run; 7] = [
    (&["init", "@/A"], 0, b"made\n"),
    (&["load", "@/A", "@/jobs"], 0, LOADED),
    (
        &["cook", "@/A", REVISION, "@/out"],
        0,
        b"swh:1:rev:295c0651a95ba32ac5e14f92da0161b122942cac\t-\n",
    ),
    (
        &["cook", "@/A", DIRECTORY, "@/wide"],
        0,
        b"swh:1:dir:fd1ddbd0b36255b027b7f28a48011a50332941b4\t-\n",
    ),
    (
        &["cook", "@/A", CONTENT, "@/hi"],
        0,
        b"swh:1:cnt:45b983be36b73c0788dc9cbcb76cbb80fc7bb057\t-\n",
    ),
    (&["load", "@/A", "@/back"], 0, LOADED_BACK),
    (&["check", "@/A"], 0, b"objects 8 closed 8 visits 4\n"),
];

// A cook of what is not there, and of what is there already: a file, a folder, and a listing alone.
const REFUSED: [Run; 6] = [
    (
        &[
            "cook",
            "@/A",
            "swh:1:dir:4b825dc642cb6eb9a060e54bf8d69288fbee4904",
            "@/none",
        ],
        1,
        b"swharc: not held swh:1:dir:4b825dc642cb6eb9a060e54bf8d69288fbee4904\n",
    ),
    (
        &["cook", "@/A", REVISION, "@/out"],
        4,
        b"swharc: outside yard\n",
    ),
    (
        &["cook", "@/A", DIRECTORY, "@/out"],
        4,
        b"swharc: outside yard\n",
    ),
    (
        &["cook", "@/A", DIRECTORY, "@/wide"],
        4,
        b"swharc: outside yard\n",
    ),
    (
        &["cook", "@/A", CONTENT, "@/wide"],
        4,
        b"swharc: outside yard\n",
    ),
    (
        &["cook", "@/A", CONTENT, "@/hi"],
        4,
        b"swharc: outside yard\n",
    ),
];

// The stream of the revision, as git-fast-import(1) describes it, by hand.
const CARRIED: &[u8] =
    b"feature done\nblob\nmark :1\ndata 10\nversion 1\n\nreset refs/swh/cook\n\ncommit refs/swh/cook\nmark :2\n\
author A <a@e.org> 1000000000 +0000\ncommitter A <a@e.org> 1000000000 +0000\ndata 6\nfirst\n\ndeleteall\n\
M 100644 :1 test.txt\n\nreset refs/heads/main\nfrom :2\n\nreset refs/swh/cook\n\
from 0000000000000000000000000000000000000000\n\ndone\n";

// Files of the room, and what they hold.
const FILES: [(&str, &[u8]); 5] = [
    ("out", CARRIED),
    ("wide/run", b"hi\n"),
    ("wide/ln", b"run"),
    ("wide.modes", b"120000 ln\n100755 run\n"),
    ("hi", b"hi\n"),
];

// Fails with the first file that is another, or with the first of these that stands.
fn all_stand(rt: &HostRuntime, room: &str) -> Result<(), Fail> {
    for (name, bytes) in FILES {
        if !is_file_in(rt, room, name, bytes)? {
            return Err(Fail::new(name));
        }
    }
    for name in ["none", "none.modes", "out.modes", "hi.modes"] {
        if stands(rt, room, name)? {
            return Err(Fail::new(name));
        }
    }
    Ok(())
}

fn all_cooked(rt: &HostRuntime, room: &str) -> Result<(), Fail> {
    all_end_so(rt, room, &COOKED)?;
    all_stand(rt, room)?;
    all_end_so(rt, room, &REFUSED)?;
    all_stand(rt, room)
}

/// A stream, a folder with its listing, and a content are made, and load back; what is there already stays as it is.
#[test]
fn what_is_held_is_cooked(rt: HostRuntime) -> Result<(), Fail> {
    let room = room_to_cook(&rt, "cooked")?;
    all_cooked(&rt, room.as_str())?;
    clear(&rt, room.as_str())
}
