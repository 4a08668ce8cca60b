//! How long a stream is, before it is written: just as long as what is written then, and found at once where so many
//! paths lead to a file that nobody could walk over them.
ghost use Rattle.std.specs.Prelude.{◌≢◌};
ghost use Rattle.swh_base.specs.declared.kind.Kind.TheVariants.{Content as ContentKind};

use crate::stream_limits::put_commit;
use crate::stream_world::{archive_with, cooked, name_of, put, refusal};
use std::alloc::Global;
use std::test::Fail;
use swh_base::{Kind, Name};
use swh_carried::{CookFault, Why};
use swh_fastcook::{make_ready, stream_length};
use swh_graph_fixtures::objects::{FIRST, VERSION_1};
use swh_memory_input::MemorySink;
use swh_model::Look;
use swh_replay::Replayed;

/// A mode and a name with the bytes between, and of a folder the number of its directory.
type Entry = (&'static [u8], usize);

/// Directories, each of which leads to those before it: files, a link and another project, with names that are quoted and names
/// that are not; folders with either, one in another; and directories to which several paths lead.
const DIRECTORIES: &[&[Entry]] = &[
    &[
        (b"100644 plain\0", 0),
        (b"160000 project\0", 0),
        (b"100755 run\0", 0),
        (b"120000 to\x01\0", 0),
    ],
    &[(b"40000 a\0", 0), (b"40000 b\"\0", 0), (b"100644 c\\\0", 0)],
    &[
        (b"40000 deep\0", 1),
        (b"40000 x\0", 0),
        (b"40000 \xc3\xa9\0", 1),
    ],
    &[
        (b"40000 again\0", 2),
        (b"100644 z\0", 0),
        (b"40000 \x7f\0", 2),
    ],
];

/// What an entry leads to: by its mode a directory that was put, another project's revision, or a content.
fn target(put: &[Name], entry: &Entry) -> Result<Name, Fail> {
    if entry.0.starts_with(b"160000") {
        return name_of(FIRST);
    }
    if !entry.0.starts_with(b"40000") {
        return name_of(VERSION_1);
    }
    match put.get(entry.1) {
        Some(name) => Ok(*name),
        None => Err(Fail::from("a directory")),
    }
}

/// Puts a directory of these entries.
fn put_directory(
    alloc: Global,
    shown: &mut Replayed,
    before: &[Name],
    entries: &[Entry],
) -> Result<Name, Fail> {
    let mut body = Vec::new(alloc);
    for entry in entries {
        body.extend_from_slice(entry.0)?;
        body.extend_from_slice(&target(before, entry)?.id)?;
    }
    put(alloc, shown, Kind::Directory, body)
}

/// How long the stream of a root that is no content is found to be.
fn measured<L: Look>(alloc: Global, look: &L, root: Name) -> Result<u64, Fail>
    requires { root.kind ≢ ContentKind }
{
    let ready = match make_ready(alloc, look, root) {
        Ok(ready) => ready,
        Err(_) => return Err(Fail::from("a stream")),
    };
    match stream_length(alloc, look, &ready.marks, root) {
        Ok(length) => Ok(length),
        Err(_) => Err(Fail::from("memory")),
    }
}

/// Whether the stream of a revision is as long as it is found to be.
fn is_measured(alloc: Global, shown: &Replayed, root: Name) -> Result<bool, Fail> {
    let mut sink = MemorySink::new(alloc, 100_000, Vec::new(alloc))?;
    let Ok(_) = cooked(alloc, shown, root, &mut sink) else {
        return Ok(false);
    };
    match root.kind {
        Kind::Content => Ok(false),
        Kind::Directory | Kind::Revision | Kind::Release | Kind::Snapshot => {
            Ok(measured(alloc, shown, root)? == sink.bytes().len() as u64)
        }
    }
}

/// The number of the first directory of whose commit the stream has another length, or how many there are.
fn first_other(alloc: Global) -> Result<usize, Fail> {
    let mut shown = archive_with(alloc, &[])?;
    let mut names = Vec::new(alloc);
    for (number, entries) in DIRECTORIES.iter().enumerate() {
        let name = put_directory(alloc, &mut shown, names.as_slice(), entries)?;
        names.push(name)?;
        let root = put_commit(alloc, &mut shown, &name, 0)?;
        if !is_measured(alloc, &shown, root)? {
            return Ok(number);
        }
    }
    Ok(DIRECTORIES.len())
}

/// A directory of one file, and so many more, each with two entries that lead to the one before.
fn put_doubled(alloc: Global, shown: &mut Replayed, count: u32) -> Result<Name, Fail> {
    let mut name = put_directory(alloc, shown, &[], &[(b"100644 a\0", 0)])?;
    for _level in 0..count {
        let entries: &[Entry] = &[(b"40000 a\0", 0), (b"40000 b\0", 0)];
        name = put_directory(alloc, shown, &[name], entries)?;
    }
    Ok(name)
}

#[test]
fn a_stream_is_as_long_as_it_is_found_to_be(rt: HostRuntime) -> Result<(), Fail> {
    assert_eq!(rt; first_other(rt.alloc())?, DIRECTORIES.len());
    Ok(())
}

/// A trillion paths lead to the file.
#[test]
fn paths_that_nobody_could_walk_over_are_too_long_at_once(rt: HostRuntime) -> Result<(), Fail> {
    let alloc = rt.alloc();
    let mut shown = archive_with(alloc, &[])?;
    let directory = put_doubled(alloc, &mut shown, 40)?;
    let name = put_commit(alloc, &mut shown, &directory, 0)?;
    let why = Why::Length;
    let told = refusal(alloc, &shown, name)?;
    assert!(rt; told == Some(CookFault::Uncarried { name, why }));
    Ok(())
}
