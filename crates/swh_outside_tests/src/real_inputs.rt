// Inputs over files.
use std::alloc::AllocError;
use std::fs::File;
use std::io;
use std::test::Fail;
use swh_outside::{Opened, Origins, Source};
use swh_real::{RealOrigins, RealSource};
use swh_temp_folders::{Laid, Thing, clear, fresh_room, path_in};

type HostOrigins = RealOrigins<HostRuntime>;

// What is tried with a path, with how it ends.
#[derive(Clone, Copy)]
enum Act {
    // It is opened, read whole, and given back.
    Gives(&'static [u8]),
    // It is opened and given back, or it is not.
    Opens,
    IsNotFound,
    Fails,
    // The same, as the system opens it for this process.
    EndsAsTheSystem,
    // A source over the file there, which is opened for writing alone, fails and is given back.
    IsUnread,
    // It is opened as a folder and given back, no folder stands there, or that cannot be seen.
    OpensAsFolder,
    IsNoPlace,
    FailsAsFolder,
    // How often it failed, and how often anything did.
    Faults(u64),
    AllFaults(u64),
}

use Act::*;

// Says whether these bytes are all that is left of a source, in pieces of 5, after which it gives none.
fn gives(source: &mut RealSource, whole: &[u8]) -> bool {
    let mut rest = whole;
    for _ in 0..20 {
        let mut piece = [0; 5];
        let Ok(count) = source.get(&mut piece) else {
            return false;
        };
        match rest.split_at_checked(count) {
            Some((front, behind)) if front == &piece[..count] => rest = behind,
            _ => return false,
        }
    }
    rest.is_empty()
}

fn found_does(source: &mut RealSource, act: Act) -> bool {
    match act {
        Gives(whole) => gives(source, whole),
        Opens => true,
        _ => false,
    }
}

// Says whether an opening ends so.
fn ends_so(origins: &mut HostOrigins, path: &str, act: Act) -> bool {
    match origins.file(path) {
        Opened::Found(mut source) => {
            let ends = found_does(&mut source, act);
            origins.back(source);
            ends
        }
        Opened::NotFound => matches!(act, IsNotFound),
        Opened::Failed => matches!(act, Fails),
        Opened::Memory => false,
    }
}

fn ends_as_the_system(rt: &HostRuntime, origins: &mut HostOrigins, path: &str) -> bool {
    if File::open(rt, path).is_ok() {
        ends_so(origins, path, Opens) && origins.path_faults(path) == 0
    } else {
        ends_so(origins, path, Fails) && origins.path_faults(path) == 1
    }
}

// A source over a file that may not be read, whoever runs.
fn unread(rt: &HostRuntime, path: &str) -> io::Result<RealSource> {
    let name = String::from_str(rt.alloc(), path)?;
    Ok(RealSource::new(File::create(rt, path)?, name))
}

fn is_unread(rt: &HostRuntime, origins: &mut HostOrigins, path: &str) -> bool {
    match unread(rt, path) {
        Ok(mut source) => {
            let fails = source.get(&mut [0; 5]).is_err();
            origins.back(source);
            fails
        }
        Err(_) => false,
    }
}

fn opens_as_folder(origins: &mut HostOrigins, path: &str) -> bool {
    match origins.folder(path) {
        Opened::Found(folder) => {
            let here = folder.path() == path && folder.faults() == 0;
            origins.back_folder(folder);
            here
        }
        Opened::NotFound | Opened::Failed | Opened::Memory => false,
    }
}

fn does(rt: &HostRuntime, origins: &mut HostOrigins, path: &str, act: Act) -> bool {
    match act {
        EndsAsTheSystem => ends_as_the_system(rt, origins, path),
        IsUnread => is_unread(rt, origins, path),
        OpensAsFolder => opens_as_folder(origins, path),
        IsNoPlace => matches!(&origins.folder(path), Opened::NotFound),
        FailsAsFolder => matches!(&origins.folder(path), Opened::Failed),
        Faults(faults) => origins.path_faults(path) == faults,
        AllFaults(faults) => origins.faults() == faults,
        _ => ends_so(origins, path, act),
    }
}

// A name in a room, and what is tried with its path.
type Row = (&'static str, Act);

fn does_in(
    rt: &HostRuntime,
    origins: &mut HostOrigins,
    room: &str,
    (name, act): Row,
) -> Result<bool, AllocError> {
    let path = path_in(rt.alloc(), room, name)?;
    Ok(does(rt, origins, path.as_str(), act))
}

// Fails with the number, from 0, of the first row that ends in another way.
fn all_done(rt: &HostRuntime, room: &str, rows: &[Row]) -> Result<(), Fail> {
    let mut origins = RealOrigins::new(rt.clone()?, rt.alloc());
    for (number, row) in rows.iter().enumerate() {
        if !does_in(rt, &mut origins, room, *row)? {
            return Err(Fail::new(number));
        }
    }
    Ok(())
}

fn all_done_anew(rt: &HostRuntime, name: &str, things: &[Laid], rows: &[Row]) -> Result<(), Fail> {
    let room = fresh_room(rt, name, things)?;
    all_done(rt, room.as_str(), rows)?;
    clear(rt, room.as_str())
}

const INPUTS: &[Laid] = &[
    ("one", Thing::File(b"an input of some bytes")),
    ("none", Thing::File(b"")),
    ("two", Thing::File(b"abcde")),
];

const READ: &[Row] = &[
    ("one", Gives(b"an input of some bytes")),
    ("one", Gives(b"an input of some bytes")),
    ("none", Gives(b"")),
    ("none", Gives(b"")),
    ("two", Gives(b"abcde")),
    ("two", Gives(b"abcde")),
    (".", AllFaults(0)),
];

#[test]
fn inputs_are_read_whole(rt: HostRuntime) -> Result<(), Fail> {
    all_done_anew(&rt, "inputs", INPUTS, READ)
}

// Longer than any file's name.
const LONG: &str =
    "longlonglonglonglonglonglonglonglonglonglonglonglonglonglonglonglonglonglonglonglonglonglonglong\
longlonglonglonglonglonglonglonglonglonglonglonglonglonglonglonglonglonglonglonglonglonglonglonglong\
longlonglonglonglonglonglonglonglonglonglonglonglonglonglonglonglonglonglonglonglonglonglonglonglong\
longlonglonglonglonglonglonglonglonglonglonglonglonglonglonglonglonglonglonglonglonglonglonglonglong";

const SHUT_AND_KNOT: &[Laid] = &[("shut", Thing::Shut), ("knot", Thing::Link("knot"))];

const OPENED: &[Row] = &[
    ("shut", EndsAsTheSystem),
    ("knot", Fails),
    ("knot", Faults(1)),
    (LONG, Fails),
    (LONG, Faults(1)),
    ("absent", IsNotFound),
    ("absent", Faults(0)),
    ("shut/more", IsNotFound),
    ("shut/more", Faults(0)),
    (".", IsNotFound),
    (".", Faults(0)),
];

/// One that may not be opened is not absent. Who runs as root may open it.
#[test]
fn an_opening_ends_as_the_system_says(rt: HostRuntime) -> Result<(), Fail> {
    all_done_anew(&rt, "openings", SHUT_AND_KNOT, OPENED)
}

const UNREAD: &[Row] = &[
    ("one", Opens),
    ("one", IsUnread),
    ("one", AllFaults(1)),
    ("one", Faults(1)),
    ("elsewhere", Faults(0)),
];

#[test]
fn a_read_that_fails_is_counted(rt: HostRuntime) -> Result<(), Fail> {
    all_done_anew(&rt, "reads", INPUTS, UNREAD)
}

const FOLDERS: &[Laid] = &[
    ("d", Thing::Folder),
    ("f", Thing::File(b"abc")),
    ("link", Thing::Link("d")),
    ("knot", Thing::Link("knot")),
];

const OPENED_AS_FOLDERS: &[Row] = &[
    (".", OpensAsFolder),
    ("d", OpensAsFolder),
    ("link", OpensAsFolder),
    ("absent", IsNoPlace),
    ("f/more", IsNoPlace),
    ("f", IsNoPlace),
    ("d", IsNotFound),
    ("link", IsNotFound),
    (".", AllFaults(0)),
    ("knot", FailsAsFolder),
    ("knot", Faults(1)),
    ("d", Faults(0)),
    (".", AllFaults(1)),
];

/// The path of an input may be a link to a folder. A file is no folder, and a folder no file.
#[test]
fn folders_are_opened(rt: HostRuntime) -> Result<(), Fail> {
    all_done_anew(&rt, "folder_inputs", FOLDERS, OPENED_AS_FOLDERS)
}
