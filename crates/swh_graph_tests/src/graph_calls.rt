//! What each call answers over the objects.
use std::alloc::Global;
use std::test::Fail;
use swh_base::Name;
use swh_graph::{GraphFault, at_path, log, reach, resolve};
use swh_graph_fixtures::archive_of;
use swh_graph_fixtures::objects::{
    ABOVE, BY_MAIN, BY_TWO, CIRCLE, CUT, DANGLING, EMPTY, FIRST, FOLDER, HEADLESS, LEFT, MERGE,
    MERGE_BACK, OBJECTS, OCTOPUS, OF_ABSENT, OF_BLOB, OF_RELEASE, OF_TREE, ON_CUT, RIGHT, SELF,
    TO_ABSENT, TO_BLOB, TO_NONE, TO_SNAPSHOT, TOP, TREELESS, VERSION_1, WHOLE,
};
use swh_replay::Replayed;
use swh_swhid::{core_text, parse, parse_core};

/// A call of each kind: a log of at most so many names, the entry at a path, a SWHID, all that is reached. Artifacts are
/// given by their core identifiers.
enum Call {
    Log(&'static [u8], u32),
    Path(&'static [u8], &'static [u8]),
    Resolve(&'static [&'static [u8]]),
    Reach(&'static [u8]),
}

/// Names; the mode and the target of an entry; or why the call is refused.
enum Answer {
    Names(&'static [&'static [u8]]),
    Entry(u32, &'static [u8]),
    NotHeld(&'static [u8]),
    NoPath(u64),
}

type Case = (Call, Answer);

const ABSENT_CONTENT: &[u8] = b"swh:1:cnt:1111111111111111111111111111111111111111";

const ABSENT_FOLDER: &[u8] = b"swh:1:dir:1111111111111111111111111111111111111111";

const ABSENT_REVISION: &[u8] = b"swh:1:rev:1111111111111111111111111111111111111111";

const ABSENT_SNAPSHOT: &[u8] = b"swh:1:snp:1111111111111111111111111111111111111111";

const LOGS: &[Case] = &[
    // Breadth first: a merge, its parents in their order, and what both lead to once.
    (
        Call::Log(MERGE, 100),
        Answer::Names(&[MERGE, LEFT, RIGHT, FIRST]),
    ),
    (
        Call::Log(MERGE_BACK, 4),
        Answer::Names(&[MERGE_BACK, RIGHT, LEFT, FIRST]),
    ),
    // A parent that is named twice, and one that is another's parent too.
    (
        Call::Log(OCTOPUS, 100),
        Answer::Names(&[OCTOPUS, FIRST, MERGE, LEFT, RIGHT]),
    ),
    (Call::Log(FIRST, 1), Answer::Names(&[FIRST])),
    // As many as may be, of which none behind the last is read.
    (Call::Log(MERGE, 3), Answer::Names(&[MERGE, LEFT, RIGHT])),
    (Call::Log(CUT, 2), Answer::Names(&[CUT, FIRST])),
    (Call::Log(MERGE, 0), Answer::Names(&[])),
    (Call::Log(ABSENT_REVISION, 0), Answer::Names(&[])),
    // The first that is not held.
    (
        Call::Log(ABSENT_REVISION, 1),
        Answer::NotHeld(ABSENT_REVISION),
    ),
    (
        Call::Log(CUT, 3),
        Answer::NotHeld(b"swh:1:rev:4444444444444444444444444444444444444444"),
    ),
    (
        Call::Log(ON_CUT, 100),
        Answer::NotHeld(b"swh:1:rev:4444444444444444444444444444444444444444"),
    ),
    (
        Call::Log(ON_CUT, 4),
        Answer::Names(&[ON_CUT, RIGHT, CUT, FIRST]),
    ),
];

const PATHS: &[Case] = &[
    (
        Call::Path(ABOVE, b"deep/sub/test.txt"),
        Answer::Entry(100_644, VERSION_1),
    ),
    (
        Call::Path(ABOVE, b"deep/sub"),
        Answer::Entry(40_000, FOLDER),
    ),
    (Call::Path(TOP, b"exe"), Answer::Entry(100_755, EMPTY)),
    (Call::Path(TOP, b"link"), Answer::Entry(120_000, EMPTY)),
    (Call::Path(TOP, b"module"), Answer::Entry(160_000, FIRST)),
    // The end of a path is not read, and a folder before it is.
    (
        Call::Path(ABOVE, b"hurt/gone"),
        Answer::Entry(
            40_000,
            b"swh:1:dir:2222222222222222222222222222222222222222",
        ),
    ),
    (
        Call::Path(ABOVE, b"hurt/gone/file/file"),
        Answer::NotHeld(b"swh:1:dir:2222222222222222222222222222222222222222"),
    ),
    (
        Call::Path(ABSENT_FOLDER, b"deep"),
        Answer::NotHeld(ABSENT_FOLDER),
    ),
    // The first component that leads nowhere: there is no such entry, or what stands before it is no folder.
    (Call::Path(ABOVE, b"sub"), Answer::NoPath(0)),
    (Call::Path(ABOVE, b"deep/none/none"), Answer::NoPath(1)),
    (Call::Path(ABOVE, b"deep/exe/none/none"), Answer::NoPath(2)),
    (Call::Path(ABOVE, b"deep/link/none"), Answer::NoPath(2)),
    (
        Call::Path(ABOVE, b"deep/module/test.txt"),
        Answer::NoPath(2),
    ),
    (Call::Path(ABOVE, b"hurt/file/none"), Answer::NoPath(2)),
    // No component is left out where it is empty, and no dot means a folder.
    (Call::Path(ABOVE, b""), Answer::NoPath(0)),
    (Call::Path(ABOVE, b"/deep"), Answer::NoPath(0)),
    (Call::Path(ABOVE, b"deep/"), Answer::NoPath(1)),
    (Call::Path(ABOVE, b"deep//sub"), Answer::NoPath(1)),
    (Call::Path(ABOVE, b"deep/../deep"), Answer::NoPath(1)),
    (Call::Path(ABOVE, b"deep/sub/test.tx"), Answer::NoPath(2)),
];

const RESOLUTIONS: &[Case] = &[
    (Call::Resolve(&[VERSION_1]), Answer::Names(&[VERSION_1])),
    (Call::Resolve(&[MERGE]), Answer::Names(&[MERGE])),
    (Call::Resolve(&[CIRCLE]), Answer::Names(&[CIRCLE])),
    // Core, visit and anchor are to be held, in this order.
    (
        Call::Resolve(&[
            ABSENT_CONTENT,
            b";visit=",
            ABSENT_SNAPSHOT,
            b";anchor=",
            ABSENT_FOLDER,
        ]),
        Answer::NotHeld(ABSENT_CONTENT),
    ),
    (
        Call::Resolve(&[
            VERSION_1,
            b";anchor=",
            ABSENT_FOLDER,
            b";visit=",
            ABSENT_SNAPSHOT,
        ]),
        Answer::NotHeld(ABSENT_SNAPSHOT),
    ),
    (
        Call::Resolve(&[
            VERSION_1,
            b";visit=",
            BY_MAIN,
            b";anchor=",
            ABSENT_REVISION,
            b";path=/none",
        ]),
        Answer::NotHeld(ABSENT_REVISION),
    ),
    // Origin, lines and bytes are not looked at, nor a path without an anchor, nor an anchor without a path.
    (
        Call::Resolve(&[
            VERSION_1,
            b";origin=https://none.example;path=/none;lines=7-9;bytes=3",
        ]),
        Answer::Names(&[VERSION_1]),
    ),
    (
        Call::Resolve(&[VERSION_1, b";anchor=", CIRCLE]),
        Answer::Names(&[VERSION_1]),
    ),
    // From a folder, a revision, a release of a release, a release of a folder, and snapshots.
    (
        Call::Resolve(&[VERSION_1, b";anchor=", ABOVE, b";path=/deep/sub/test.txt"]),
        Answer::Names(&[VERSION_1]),
    ),
    (
        Call::Resolve(&[FOLDER, b";anchor=", MERGE, b";path=/deep/sub"]),
        Answer::Names(&[FOLDER]),
    ),
    (
        Call::Resolve(&[FIRST, b";anchor=", MERGE, b";path=/deep/module"]),
        Answer::Names(&[FIRST]),
    ),
    (
        Call::Resolve(&[EMPTY, b";anchor=", OF_RELEASE, b";path=/deep/exe"]),
        Answer::Names(&[EMPTY]),
    ),
    (
        Call::Resolve(&[TOP, b";anchor=", OF_TREE, b";path=/deep"]),
        Answer::Names(&[TOP]),
    ),
    (
        Call::Resolve(&[TOP, b";anchor=", BY_MAIN, b";path=/deep"]),
        Answer::Names(&[TOP]),
    ),
    (
        Call::Resolve(&[TOP, b";anchor=", BY_TWO, b";path=/%64eep"]),
        Answer::Names(&[TOP]),
    ),
    (
        Call::Resolve(&[TOP, b";anchor=", TO_SNAPSHOT, b";path=/deep"]),
        Answer::Names(&[TOP]),
    ),
    // The path `/` is the root itself.
    (
        Call::Resolve(&[ABOVE, b";anchor=", BY_TWO, b";path=/"]),
        Answer::Names(&[ABOVE]),
    ),
    (
        Call::Resolve(&[FOLDER, b";anchor=", FOLDER, b";path=/"]),
        Answer::Names(&[FOLDER]),
    ),
    (
        Call::Resolve(&[FOLDER, b";anchor=", ABOVE, b";path=/"]),
        Answer::NoPath(0),
    ),
    // There is no root.
    (
        Call::Resolve(&[VERSION_1, b";anchor=", OF_BLOB, b";path=/"]),
        Answer::NoPath(0),
    ),
    (
        Call::Resolve(&[TOP, b";anchor=", CIRCLE, b";path=/deep"]),
        Answer::NoPath(0),
    ),
    (
        Call::Resolve(&[TOP, b";anchor=", SELF, b";path=/deep"]),
        Answer::NoPath(0),
    ),
    (
        Call::Resolve(&[TOP, b";anchor=", DANGLING, b";path=/deep"]),
        Answer::NoPath(0),
    ),
    (
        Call::Resolve(&[TOP, b";anchor=", TO_NONE, b";path=/deep"]),
        Answer::NoPath(0),
    ),
    (
        Call::Resolve(&[TOP, b";anchor=", HEADLESS, b";path=/deep"]),
        Answer::NoPath(0),
    ),
    (
        Call::Resolve(&[VERSION_1, b";anchor=", TO_BLOB, b";path=/"]),
        Answer::NoPath(0),
    ),
    // What is not held on the way to the root, or from there.
    (
        Call::Resolve(&[TOP, b";anchor=", OF_ABSENT, b";path=/deep"]),
        Answer::NotHeld(b"swh:1:rev:3333333333333333333333333333333333333333"),
    ),
    (
        Call::Resolve(&[TOP, b";anchor=", TO_ABSENT, b";path=/deep"]),
        Answer::NotHeld(b"swh:1:snp:5555555555555555555555555555555555555555"),
    ),
    (
        Call::Resolve(&[TOP, b";anchor=", TREELESS, b";path=/deep"]),
        Answer::NotHeld(b"swh:1:dir:6666666666666666666666666666666666666666"),
    ),
    (
        Call::Resolve(&[TOP, b";anchor=", TREELESS, b";path=/"]),
        Answer::NoPath(0),
    ),
    (
        Call::Resolve(&[TOP, b";anchor=", MERGE, b";path=/hurt/gone/deep"]),
        Answer::NotHeld(b"swh:1:dir:2222222222222222222222222222222222222222"),
    ),
    // The path leads nowhere, or to another object.
    (
        Call::Resolve(&[TOP, b";anchor=", MERGE, b";path=/deep/none/test.txt"]),
        Answer::NoPath(1),
    ),
    (
        Call::Resolve(&[EMPTY, b";anchor=", MERGE, b";path=/deep/exe/"]),
        Answer::NoPath(2),
    ),
    (
        Call::Resolve(&[EMPTY, b";anchor=", MERGE, b";path=/deep/sub/test.txt"]),
        Answer::NoPath(3),
    ),
    (
        Call::Resolve(&[VERSION_1, b";anchor=", MERGE, b";path=/deep/sub"]),
        Answer::NoPath(2),
    ),
];

const REACHES: &[Case] = &[
    (Call::Reach(EMPTY), Answer::Names(&[EMPTY])),
    (Call::Reach(FOLDER), Answer::Names(&[VERSION_1, FOLDER])),
    // By kind and then by id; the revision of another project is not reached from the folder.
    (
        Call::Reach(TOP),
        Answer::Names(&[VERSION_1, EMPTY, TOP, FOLDER]),
    ),
    (
        Call::Reach(WHOLE),
        Answer::Names(&[VERSION_1, EMPTY, TOP, FOLDER, FIRST, RIGHT, WHOLE]),
    ),
    (Call::Reach(CIRCLE), Answer::Names(&[CIRCLE])),
    // The first in their order that is not held, whatever a walk meets first.
    (
        Call::Reach(ABSENT_REVISION),
        Answer::NotHeld(ABSENT_REVISION),
    ),
    (
        Call::Reach(MERGE),
        Answer::NotHeld(b"swh:1:cnt:2222222222222222222222222222222222222222"),
    ),
    (
        Call::Reach(CUT),
        Answer::NotHeld(b"swh:1:rev:3333333333333333333333333333333333333333"),
    ),
];

fn is_spelled(name: &Name, text: &[u8]) -> bool {
    let mut spelled = [0; 50];
    core_text(name, &mut spelled);
    spelled.as_slice() == text
}

fn are_spelled(names: &[Name], texts: &[&[u8]]) -> bool {
    if names.len() != texts.len() {
        return false;
    }
    for (name, text) in names.iter().zip(texts) {
        if !is_spelled(name, text) {
            return false;
        }
    }
    true
}

fn is_refused(fault: GraphFault, answer: &Answer) -> bool {
    match (fault, answer) {
        (GraphFault::NotHeld { name }, Answer::NotHeld(text)) => is_spelled(&name, text),
        (GraphFault::NoPath { component }, Answer::NoPath(number)) => component == *number,
        _ => false,
    }
}

fn are_answered(found: Result<Vec<Name>, GraphFault>, answer: &Answer) -> bool {
    match (found, answer) {
        (Ok(names), Answer::Names(texts)) => are_spelled(names.as_slice(), texts),
        (Err(fault), _) => is_refused(fault, answer),
        _ => false,
    }
}

fn named(core: &[u8]) -> Result<Name, Fail> {
    match parse_core(core) {
        Some(name) => Ok(name),
        None => Err(Fail::from("a core identifier")),
    }
}

fn is_found(
    alloc: Global,
    shown: &Replayed,
    core: &[u8],
    path: &[u8],
    answer: &Answer,
) -> Result<bool, Fail> {
    let folder = named(core)?;
    match (at_path(alloc, shown, folder.id, path), answer) {
        (Ok(entry), Answer::Entry(mode, text)) => {
            let target = named(text)?;
            Ok(entry.mode == *mode && entry.id == target.id)
        }
        (Err(fault), _) => Ok(is_refused(fault, answer)),
        _ => Ok(false),
    }
}

fn is_resolved(
    alloc: Global,
    shown: &Replayed,
    pieces: &[&[u8]],
    answer: &Answer,
) -> Result<bool, Fail> {
    let mut text = Vec::new(alloc);
    for piece in pieces {
        text.extend_from_slice(piece)?;
    }
    let Ok(swhid) = parse(alloc, text.as_slice()) else {
        return Err(Fail::from("a SWHID"));
    };
    match (resolve(alloc, shown, &swhid), answer) {
        (Ok(name), Answer::Names(texts)) => Ok(are_spelled(&[name], texts)),
        (Err(fault), _) => Ok(is_refused(fault, answer)),
        _ => Ok(false),
    }
}

fn is_answered(alloc: Global, shown: &Replayed, case: &Case) -> Result<bool, Fail> {
    let (call, answer) = case;
    match call {
        Call::Log(core, limit) => {
            let rev = named(core)?;
            Ok(are_answered(log(alloc, shown, rev.id, *limit), answer))
        }
        Call::Path(core, path) => is_found(alloc, shown, core, path, answer),
        Call::Resolve(pieces) => is_resolved(alloc, shown, pieces, answer),
        Call::Reach(core) => {
            let name = named(core)?;
            Ok(are_answered(reach(alloc, shown, name), answer))
        }
    }
}

/// The number of the first case with another answer, or how many there are.
fn first_other(alloc: Global, cases: &[Case]) -> Result<usize, Fail> {
    let Some(shown) = archive_of(alloc, OBJECTS) else {
        return Err(Fail::from("an archive"));
    };
    for (number, case) in cases.iter().enumerate() {
        if !is_answered(alloc, &shown, case)? {
            return Ok(number);
        }
    }
    Ok(cases.len())
}

#[test]
fn each_log_is_in_order(rt: HostRuntime) -> Result<(), Fail> {
    assert_eq!(rt; first_other(rt.alloc(), LOGS)?, LOGS.len());
    Ok(())
}

#[test]
fn each_path_leads_to_an_entry_or_nowhere(rt: HostRuntime) -> Result<(), Fail> {
    assert_eq!(rt; first_other(rt.alloc(), PATHS)?, PATHS.len());
    Ok(())
}

#[test]
fn each_swhid_resolves_or_is_refused(rt: HostRuntime) -> Result<(), Fail> {
    assert_eq!(rt; first_other(rt.alloc(), RESOLUTIONS)?, RESOLUTIONS.len());
    Ok(())
}

#[test]
fn each_reach_is_sorted(rt: HostRuntime) -> Result<(), Fail> {
    assert_eq!(rt; first_other(rt.alloc(), REACHES)?, REACHES.len());
    Ok(())
}
