// What becomes of inputs.
ghost use Rattle.std.specs.Prelude.{IfOk};
ghost use Rattle.swh_inputs.specs.Parts.{HasGoodHead};

use crate::lines::line_of;
use crate::world::{holds, load, objects_in};
use std::alloc::{AllocError, Global};
use std::test::Fail;
use swh_base::{ByteNamer, Kind, Name, Namer, Sha1Namer, Url};
use swh_fixtures::{Archive, CONTENT, DIRECTORY, REVISION, STREAM, URL, found, made_archive};
use swh_loader::Input;
use swh_memory::{MemoryFolder, MemorySource};
use swh_outside::Opened;

// The input of a load.
#[derive(Clone, Copy)]
enum Given<'a> {
    Text(&'a [u8]),
    /// The source fails at its second call.
    Broken(&'a [u8]),
    /// A batch of objects, and its refs.
    Batch(&'a [u8], &'a [u8]),
    NotFound,
    Failed,
    Memory,
}

// A load, its line behind the origin, and how many events and objects the archive has then.
#[derive(Clone, Copy)]
struct Step<'a> {
    url: &'a str,
    given: Given<'a>,
    told: &'a [u8],
    events: usize,
    objects: usize,
}

fn stream(opened: Opened<MemorySource>) -> Input<MemorySource, MemoryFolder>
    ensures { HasGoodHead result }
{
    Input::Fast {
        stream: opened,
        head: None,
    }
}

fn opened(alloc: Global, given: Given<'_>) -> Result<Input<MemorySource, MemoryFolder>, AllocError>
    ensures { IfOk result HasGoodHead }
{
    match given {
        Given::Text(text) => Ok(stream(found(alloc, text, &[])?)),
        Given::Broken(text) => Ok(stream(found(alloc, text, &[1])?)),
        Given::Batch(objects, refs) => {
            let objects = found(alloc, objects, &[])?;
            let refs = found(alloc, refs, &[])?;
            Ok(Input::Batch { objects, refs })
        }
        Given::NotFound => Ok(stream(Opened::NotFound)),
        Given::Failed => Ok(stream(Opened::Failed)),
        Given::Memory => Ok(stream(Opened::Memory)),
    }
}

// Says whether a load ends so.
fn ends_so<N: Namer>(
    alloc: Global,
    namer: &N,
    keeper: &mut Archive<N>,
    step: &Step<'_>,
) -> Result<bool, AllocError> {
    let Ok(url) = Url::new(alloc, step.url) else {
        return Ok(false);
    };
    let input = opened(alloc, step.given)?;
    let answer = load(alloc, namer, keeper, step.url, input);
    let line = line_of(alloc, &url, &answer)?;
    let front = url.as_str().as_bytes();
    let told = match line.as_slice().strip_prefix(front) {
        Some(rest) => rest.strip_prefix(b"\t") == Some(step.told),
        None => false,
    };
    let history = keeper.history();
    Ok(told && history.len() == step.events && objects_in(history) == step.objects)
}

// The number, from 0, of the first load that ends in another way.
fn first_other<N: Namer>(
    alloc: Global,
    namer: &N,
    keeper: &mut Archive<N>,
    steps: &[Step<'_>],
) -> Result<Option<usize>, AllocError> {
    for (number, step) in steps.iter().enumerate() {
        if !ends_so(alloc, namer, keeper, step)? {
            return Ok(Some(number));
        }
    }
    Ok(None)
}

// Each load adds the visit's opening and its two marks, and a batch where something is new. Ids of contents are those of
// `git hash-object`, of snapshots by SWHID v1.2.
const STEPS: &[Step<'static>] = &[
    Step {
        url: "https://e.org/e",
        given: Given::Text(b""),
        told: b"1\tfull\tswh:1:snp:1a8893e6a86f444e8be8e7bda6cb34fb1735a00e\n",
        events: 4,
        objects: 1,
    },
    Step {
        url: URL,
        given: Given::Text(STREAM),
        told: b"1\tfull\tswh:1:snp:5036c2b4a676f9dad60fbaed431ca21ecdec56ff\n",
        events: 8,
        objects: 5,
    },
    Step {
        url: URL,
        given: Given::Text(STREAM),
        told: b"2\tfull\tswh:1:snp:5036c2b4a676f9dad60fbaed431ca21ecdec56ff\n",
        events: 11,
        objects: 5,
    },
    Step {
        url: URL,
        given: Given::Text(b"feature done\n"),
        told: b"3\tfailed\tstream 13 end\n",
        events: 14,
        objects: 5,
    },
    Step {
        url: URL,
        given: Given::Broken(STREAM),
        told: b"4\tfailed\tread\n",
        events: 17,
        objects: 5,
    },
    Step {
        url: URL,
        given: Given::Failed,
        told: b"5\tfailed\tread\n",
        events: 20,
        objects: 5,
    },
    Step {
        url: URL,
        given: Given::NotFound,
        told: b"6\tnot_found\t-\n",
        events: 22,
        objects: 5,
    },
    Step {
        url: URL,
        given: Given::Memory,
        told: b"7\tstopped\tmemory\n",
        events: 23,
        objects: 5,
    },
    // A batch whose one object is held; its snapshot is new.
    Step {
        url: "https://e.org/b",
        given: Given::Batch(
            b"83baae61804e65cc73a7201a7252750c76066a30 blob 10\nversion 1\n\n",
            b"83baae61804e65cc73a7201a7252750c76066a30 refs/tags/v1\n",
        ),
        told: b"1\tfull\tswh:1:snp:802b11ac802806ac49686e0ea96c29f4edc78963\n",
        events: 27,
        objects: 6,
    },
    Step {
        url: "https://e.org/b",
        given: Given::Batch(b"x\n", b""),
        told: b"2\tfailed\tbatch 0\n",
        events: 30,
        objects: 6,
    },
    Step {
        url: "https://e.org/b",
        given: Given::Batch(
            b"83baae61804e65cc73a7201a7252750c76066a31 blob 10\nversion 1\n\n",
            b"",
        ),
        told: b"3\tfailed\tname 83baae61804e65cc73a7201a7252750c76066a31 83baae61804e65cc73a7201a7252750c76066a30\n",
        events: 33,
        objects: 6,
    },
    Step {
        url: "https://e.org/b",
        given: Given::Batch(b"", b"x\n"),
        told: b"4\tfailed\trefs 1\n",
        events: 36,
        objects: 6,
    },
    Step {
        url: "https://e.org/b",
        given: Given::Batch(
            b"",
            b"83baae61804e65cc73a7201a7252750c76066a30 refs/tags/v1\n",
        ),
        told: b"5\tfailed\tno-object 83baae61804e65cc73a7201a7252750c76066a30\n",
        events: 39,
        objects: 6,
    },
];

#[test]
fn each_input_ends_its_visit(rt: HostRuntime) -> Result<(), Fail> {
    let alloc = rt.alloc();
    let mut keeper = made_archive(alloc, Sha1Namer, &[], &[])?;
    let other = first_other(alloc, &Sha1Namer, &mut keeper, STEPS);
    let content = holds(&keeper, Kind::Content, CONTENT, b"version 1\n");
    let directory = holds(&keeper, Kind::Directory, DIRECTORY, LISTING);
    let revision = holds(&keeper, Kind::Revision, REVISION, COMMIT);
    let (_store, _ledger) = keeper.close();
    assert_eq!(rt; other?, None);
    assert!(rt; content && directory && revision);
    Ok(())
}

// The worked stream's folder and its commit, as git prints them.
const LISTING: &[u8] =
    b"100644 test.txt\0\x83\xba\xae\x61\x80\x4e\x65\xcc\x73\xa7\x20\x1a\x72\x52\x75\x0c\x76\x06\x6a\x30";

const COMMIT: &[u8] =
    b"tree d8329fc1cc938780ffdd9f94e0d364e0ea74f579\nauthor A <a@e.org> 1000000000 +0000\n\
committer A <a@e.org> 1000000000 +0000\n\nfirst\n";

// The name that the sum of the bytes gives to two contents.
const COLLIDED: Name = Name {
    kind: Kind::Content,
    id: *b"\0\0\0\0\0\0\0\0\0\0\0\0\0\0\0\0\0\0\0\xc3",
};

const TWO_BODIES: &[Step<'static>] = &[
    Step {
        url: URL,
        given: Given::Text(b"blob\nmark :1\ndata 2\nab"),
        told: b"1\tfull\tswh:1:snp:0000000000000000000000000000000000000000\n",
        events: 4,
        objects: 2,
    },
    Step {
        url: "https://e.org/q",
        given: Given::Text(b"blob\nmark :1\ndata 2\nba"),
        told: b"1\tfailed\tcollision swh:1:cnt:00000000000000000000000000000000000000c3\n",
        events: 7,
        objects: 2,
    },
    // The first of the two is not held yet: it is added before the load ends.
    Step {
        url: "https://e.org/r",
        given: Given::Text(b"blob\nmark :1\ndata 2\ncd\nblob\nmark :2\ndata 2\ndc"),
        told: b"1\tfailed\tcollision swh:1:cnt:00000000000000000000000000000000000000c7\n",
        events: 11,
        objects: 3,
    },
];

#[test]
fn another_body_of_a_name_collides(rt: HostRuntime) -> Result<(), Fail> {
    let alloc = rt.alloc();
    let mut keeper = made_archive(alloc, ByteNamer, &[], &[])?;
    let other = first_other(alloc, &ByteNamer, &mut keeper, TWO_BODIES);
    let first = holds(&keeper, Kind::Content, COLLIDED.id, b"ab");
    let (_store, _ledger) = keeper.close();
    assert_eq!(rt; other?, None);
    assert!(rt; first);
    Ok(())
}
