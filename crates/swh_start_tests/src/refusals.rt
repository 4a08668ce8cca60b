// A refusal of each status.
use crate::starts::{Run, all_end_so, run};
use std::fs::File;
use std::test::Fail;
use swh_real::RealSink;
use swh_start::{end_without_memory, start};
use swh_temp_folders::{Laid, Thing, clear, fresh_room, is_file, path_in};

// A job file that is none, a link that leads to itself, and a folder whose ledger is a link to that of the archive `A`.
const LAID: [Laid; 4] = [
    ("bad", Thing::File(b"no job")),
    ("knot", Thing::Link("knot")),
    ("L", Thing::Folder),
    ("L/0", Thing::Link("../A/0")),
];

const REFUSALS: [Run; 14] = [
    (&["identify", "cnt", "@/none"], 1, b"swharc: not found\n"),
    (&["identify", "rev", "@/bad"], 1, b"swharc: bad rev 0\n"),
    (&[], 2, b"swharc: words\n"),
    (&["init"], 2, b"swharc: words\n"),
    (&["init", "@/B", "@/C"], 2, b"swharc: words\n"),
    (&["load", "@/A", "@/none"], 2, b"swharc: no job file\n"),
    (&["identify", "cnt", "@/L"], 1, b"swharc: not found\n"),
    (&["load", "@/A", "@/L"], 2, b"swharc: no job file\n"),
    (&["load", "@/A", "@/bad"], 2, b"swharc: job line 1: form\n"),
    (&["init", "@/A"], 3, b"swharc: made\n"),
    (&["ask", "@/none", "/x"], 3, b"swharc: not made\n"),
    (&["check", "@/L"], 4, b"swharc: outside disk\n"),
    (&["load", "@/A", "@/knot"], 4, b"swharc: outside source\n"),
    (
        &["identify", "cnt", "@/knot"],
        4,
        b"swharc: outside source\n",
    ),
];

#[test]
fn each_refusal_has_its_line_and_status(rt: HostRuntime) -> Result<(), Fail> {
    let room = fresh_room(&rt, "refused", &LAID)?;
    let _ = run(&rt, room.as_str(), &["init", "--", "@/A"])?;
    all_end_so(&rt, room.as_str(), &REFUSALS)?;
    clear(&rt, room.as_str())
}

// The status of a run whose sink is over a file that is opened for reading.
fn status_untold(rt: &HostRuntime, path: &str) -> Result<u8, Fail> {
    let shut = RealSink::new(File::open(rt, path)?);
    Ok(start(rt, rt.alloc(), &[], shut).status())
}

fn status_without_memory(rt: &HostRuntime, path: &str) -> Result<u8, Fail> {
    let sink = RealSink::new(File::create(rt, path)?);
    Ok(end_without_memory(sink).status())
}

fn runs_end_so(rt: &HostRuntime, room: &str) -> Result<bool, Fail> {
    let path = path_in(rt.alloc(), room, "out")?;
    let untold = status_untold(rt, path.as_str())?;
    let wanting = status_without_memory(rt, path.as_str())?;
    Ok(untold == 4 && wanting == 5 && is_file(rt, path.as_str(), b"swharc: memory\n"))
}

/// A sink that fails is told by the status alone; want of memory is told with no words read.
#[test]
fn runs_that_cannot_tell_end_so(rt: HostRuntime) -> Result<(), Fail> {
    let room = fresh_room(&rt, "untold", &[("out", Thing::File(b""))])?;
    assert!(rt; runs_end_so(&rt, room.as_str())?);
    clear(&rt, room.as_str())
}
