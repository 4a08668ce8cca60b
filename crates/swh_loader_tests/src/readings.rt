// Inputs that are read, each to one of its ends. The ids of contents, directories and revisions are git's, those of
// snapshots by SWHID v1.2.
use crate::held_bodies::{Held, input_of};
use Ends::*;
use Held::{Batch, Folder, Stream};
use What::{File, Other};
use std::test::Fail;
use swh_base::{Kind, Memory, Name, Sha1Namer, Which};
use swh_dedup::Objects;
use swh_fastload::StreamWhy;
use swh_ingest::Next;
use swh_inputs::{BadText, InputFault, read_input};
use swh_object::Object;
use swh_outside::What;

/// The kind of an object, and its id.
type Id = (Kind, &'static [u8; 40]);

/// How a reading ends.
#[derive(Clone, Copy)]
enum Ends {
    /// These are the objects, in any order, and the last is the snapshot.
    Makes(&'static [Id]),
    BadStream(u64, StreamWhy),
    BadBatch(u64),
    WrongName(&'static [u8; 40], &'static [u8; 40]),
    BadRefs(u64),
    NoObject(&'static [u8; 40]),
    OtherKind(&'static str),
    BadModes(u64),
    IsOver(Which, u64),
    Fails,
}

fn is_id(id: &[u8; 20], hex: &[u8; 40]) -> bool {
    match Name::from_hex(Kind::Content, hex) {
        Some(name) => name.id == *id,
        None => false,
    }
}

fn has_id(objects: &[Object<Sha1Namer>], kind: Kind, hex: &[u8; 40]) -> bool {
    objects.iter().any(|object| {
        let name = object.name();
        name.kind == kind && is_id(&name.id, hex)
    })
}

fn has_snapshot(made: &Objects<Sha1Namer>, ids: &[Id]) -> bool {
    match ids.last() {
        Some((_, hex)) => is_id(&made.snapshot, hex),
        None => false,
    }
}

fn has_all(made: &Objects<Sha1Namer>, ids: &[Id]) -> bool {
    made.objects.len() == ids.len()
        && has_snapshot(made, ids)
        && ids
            .iter()
            .all(|(kind, hex)| has_id(made.objects.as_slice(), *kind, hex))
}

fn breaks_so(bad: &BadText, ends: Ends) -> bool {
    match (bad, ends) {
        (BadText::Stream { at, why }, BadStream(wanted, because)) => *at == wanted
            && *why == because,
        (BadText::Batch { at }, BadBatch(wanted)) => *at == wanted,
        (BadText::Name { given, got }, WrongName(wanted, other)) => is_id(given, wanted)
            && is_id(got, other),
        (BadText::Refs { line }, BadRefs(wanted)) => *line == wanted,
        (BadText::NoObject { id }, NoObject(wanted)) => is_id(id, wanted),
        (BadText::Other { path }, OtherKind(wanted)) => path.as_slice() == wanted.as_bytes(),
        (BadText::Modes { line }, BadModes(wanted)) => *line == wanted,
        (BadText::Limit { which, number }, IsOver(wanted, most)) => *which == wanted
            && *number == most,
        _ => false,
    }
}

fn ends_so(read: &Result<Next<Sha1Namer, InputFault>, Memory>, ends: Ends) -> bool {
    match (read, ends) {
        (Ok(Next::Last(made)), Makes(ids)) => has_all(made, ids),
        (Ok(Next::Bad(InputFault::ReadFault)), Fails) => true,
        (Ok(Next::Bad(InputFault::Bad(bad))), ends) => breaks_so(bad, ends),
        _ => false,
    }
}

const BLOB: &[u8; 40] = b"83baae61804e65cc73a7201a7252750c76066a30";

const VERSION: Id = (Kind::Content, BLOB);

const TREE: Id = (Kind::Directory, b"d8329fc1cc938780ffdd9f94e0d364e0ea74f579");

const COMMIT: Id = (Kind::Revision, b"295c0651a95ba32ac5e14f92da0161b122942cac");

const MAIN: Id = (Kind::Snapshot, b"5036c2b4a676f9dad60fbaed431ca21ecdec56ff");

const MAIN_AND_HEAD: Id = (Kind::Snapshot, b"6a27147bf068e96885531e22302944aa7bf4c5c8");

const HI: Id = (Kind::Content, b"45b983be36b73c0788dc9cbcb76cbb80fc7bb057");

const RUN: Id = (Kind::Content, b"e5224d533ef27b001224859a9b36696846a7e7fe");

/// A blob, and a commit of it on the branch `main`.
const COMMITTED: &[u8] = b"blob\n\
mark :1\n\
data 10\n\
version 1\n\
\n\
commit refs/heads/main\n\
mark :2\n\
committer A <a@e.org> 1000000000 +0000\n\
data 6\n\
first\n\
\n\
M 100644 :1 test.txt\n\
\n";

/// The same, as git's objects: the commit before its tree and its blob.
const OBJECTS: &[u8] = b"295c0651a95ba32ac5e14f92da0161b122942cac commit 128\n\
tree d8329fc1cc938780ffdd9f94e0d364e0ea74f579\n\
author A <a@e.org> 1000000000 +0000\n\
committer A <a@e.org> 1000000000 +0000\n\
\n\
first\n\
\n\
d8329fc1cc938780ffdd9f94e0d364e0ea74f579 tree 36\n\
100644 test.txt\0\x83\xba\xae\x61\x80\x4e\x65\xcc\x73\xa7\x20\x1a\x72\x52\x75\x0c\x76\x06\x6a\x30\n\
83baae61804e65cc73a7201a7252750c76066a30 blob 10\n\
version 1\n\
\n";

const REF: &[u8] = b"295c0651a95ba32ac5e14f92da0161b122942cac refs/heads/main\n";

/// A program and a link, both as files.
const TWO: &[(&str, What, &[u8])] = &[("run", File, b"hi\n"), ("ln", File, b"run")];

const ROWS: &[(Held, Ends)] = &[
    (
        Stream((COMMITTED, &[]), None),
        Makes(&[VERSION, TREE, COMMIT, MAIN]),
    ),
    (
        Stream((COMMITTED, &[]), Some(b"refs/heads/main")),
        Makes(&[VERSION, TREE, COMMIT, MAIN_AND_HEAD]),
    ),
    (
        Stream((b"feature done\n", &[]), None),
        BadStream(13, StreamWhy::End),
    ),
    (
        Stream((b"blob\ndata 67108865\n", &[]), None),
        IsOver(Which::Body, 67_108_865),
    ),
    (Stream((COMMITTED, &[1]), None), Fails),
    (
        Folder(TWO, &[], None),
        Makes(&[
            HI,
            RUN,
            (Kind::Directory, b"bd73a593f9ed1806804b962aeaf0b5957ceb38e1"),
            (Kind::Snapshot, b"e10c7026d6dc7c021219b19b52adc031094cd5da"),
        ]),
    ),
    (
        Folder(TWO, &[], Some((b"100755 run\n120000 ln\n", &[]))),
        Makes(&[
            HI,
            RUN,
            (Kind::Directory, b"fd1ddbd0b36255b027b7f28a48011a50332941b4"),
            (Kind::Snapshot, b"064732ac2b71aac3a64f68cba08fdbcfe3c6e935"),
        ]),
    ),
    // The folder's own faults go before those of its listing.
    (
        Folder(
            &[("a", File, b""), ("l", Other, b"")],
            &[],
            Some((b"x\n", &[])),
        ),
        OtherKind("l"),
    ),
    (
        Folder(TWO, &[], Some((b"100755 run\n120000 ln\n100755 no\n", &[]))),
        BadModes(3),
    ),
    (Folder(TWO, &[1], None), Fails),
    (Folder(TWO, &[], Some((b"100755 run\n", &[0]))), Fails),
    (
        Batch((OBJECTS, &[]), (REF, &[])),
        Makes(&[COMMIT, TREE, VERSION, MAIN]),
    ),
    // The faults of a batch go before those of its refs, and these before what is lacking.
    (
        Batch(
            (b"83baae61804e65cc73a7201a7252750c76066a30 blob 10\n", &[]),
            (b"x\n", &[]),
        ),
        BadBatch(0),
    ),
    (
        Batch(
            (
                b"e5224d533ef27b001224859a9b36696846a7e7fe blob 3\nhi\n\n",
                &[],
            ),
            (b"x\n", &[]),
        ),
        WrongName(
            b"e5224d533ef27b001224859a9b36696846a7e7fe",
            b"45b983be36b73c0788dc9cbcb76cbb80fc7bb057",
        ),
    ),
    (
        Batch(
            (
                b"83baae61804e65cc73a7201a7252750c76066a30 blob 67108865\n",
                &[],
            ),
            (b"x\n", &[]),
        ),
        IsOver(Which::Body, 67_108_865),
    ),
    (
        Batch(
            (b"", &[]),
            (b"83baae61804e65cc73a7201a7252750c76066a30 HEAD\nx\n", &[]),
        ),
        BadRefs(2),
    ),
    (
        Batch(
            (b"", &[]),
            (b"83baae61804e65cc73a7201a7252750c76066a30 HEAD\n", &[]),
        ),
        NoObject(BLOB),
    ),
    (Batch((OBJECTS, &[2]), (REF, &[])), Fails),
    (Batch((OBJECTS, &[]), (REF, &[0])), Fails),
];

/// Fails with the number of the first row, from 0, that ends in another way.
#[test]
fn inputs_are_read(rt: HostRuntime) -> Result<(), Fail> {
    for (number, (held, ends)) in ROWS.iter().enumerate() {
        let mut input = input_of(rt.alloc(), *held)?;
        let read = read_input(rt.alloc(), &Sha1Namer, &mut input);
        if !ends_so(&read, *ends) {
            return Err(Fail::new(number));
        }
    }
    Ok(())
}
