// A loader that stops before a content, and another that brings it.
ghost use Rattle.std.specs.Prelude.{IfOk};
ghost use Rattle.swh_inputs.specs.Parts.{HasGoodHead};

use crate::world::{holds, load_by, objects_in};
use std::alloc::Global;
use std::test::Fail;
use swh_base::{Kind, Name, Sha1Namer, Url, VisitKind};
use swh_closure::Cert;
use swh_fixtures::{Archive, CONTENT, DIRECTORY, SNAPSHOT, STREAM, URL, found, made_archive};
use swh_keeper::{How, Outcome, Plan, Refusal};
use swh_loader::{End, Input};
use swh_memory::{MemoryFolder, MemorySource};
use swh_object::Object;

/// The worked stream's folder, as git prints it.
const LISTING: &[u8] =
    b"100644 test.txt\0\x83\xba\xae\x61\x80\x4e\x65\xcc\x73\xa7\x20\x1a\x72\x52\x75\x0c\x76\x06\x6a\x30";

/// A snapshot of it.
const BRANCHES: &[u8] =
    b"directory HEAD\020:\xd8\x32\x9f\xc1\xcc\x93\x87\x80\xff\xdd\x9f\x94\xe0\xd3\x64\xe0\xea\x74\xf5\x79";

/// Its id, by another SHA-1.
const OF_FOLDER: [u8; 20] =
    *b"\xd9\x2d\x2d\x15\xa9\x80\x9f\x34\x6b\x0a\xe1\x09\xc5\xb2\x42\x1b\x2d\x26\xb4\x91";

fn first_origin(alloc: Global) -> Result<Url, Fail> {
    match Url::new(alloc, "https://e.org/first") {
        Ok(url) => Ok(url),
        Err(_) => Err(Fail::from("a URL")),
    }
}

fn object(alloc: Global, kind: Kind, body: &[u8]) -> Result<Object<Sha1Namer>, Fail> {
    match Object::make(alloc, &Sha1Namer, kind, body.to_vec(alloc)?) {
        Ok(object) => Ok(object),
        Err(_) => Err(Fail::from("an object")),
    }
}

/// Opens a visit, and sends a folder and its snapshot without the content.
fn stops_before_content(alloc: Global, keeper: &mut Archive<Sha1Namer>) -> Result<bool, Fail> {
    let opening = Plan::Open {
        origin: first_origin(alloc)?,
        kind: VisitKind::Fast,
        date: 1_000_000_000,
    };
    let mut objects = Vec::with_capacity(alloc, 2)?;
    objects.push(object(alloc, Kind::Directory, LISTING)?)?;
    objects.push(object(alloc, Kind::Snapshot, BRANCHES)?)?;
    let opened = matches!(
        keeper.apply(1, opening),
        Ok(Outcome::Opened { event: 1, visit: 1 })
    );
    let sent = matches!(
        keeper.apply(1, Plan::Batch(objects)),
        Ok(Outcome::Added { event: 2, new: 2 })
    );
    Ok(opened && sent)
}

/// What is answered where that visit is to be full.
fn ended_full(
    alloc: Global,
    keeper: &mut Archive<Sha1Namer>,
) -> Result<Result<Outcome, Refusal>, Fail> {
    let root = Name {
        kind: Kind::Snapshot,
        id: OF_FOLDER,
    };
    let cert = Cert {
        root,
        names: Vec::from_slice(alloc, &[root])?,
    };
    let plan = Plan::Mark {
        origin: first_origin(alloc)?,
        visit: 1,
        how: How::Full {
            snapshot: OF_FOLDER,
            cert,
        },
    };
    Ok(keeper.apply(1, plan))
}

fn stream(alloc: Global) -> Result<Input<MemorySource, MemoryFolder>, Fail>
    ensures { IfOk result HasGoodHead }
{
    Ok(Input::Fast {
        stream: found(alloc, STREAM, &[])?,
        head: None,
    })
}

/// Another loader's visit of a stream with that folder and its content is full.
fn loads_all(alloc: Global, keeper: &mut Archive<Sha1Namer>) -> Result<bool, Fail> {
    let input = stream(alloc)?;
    let full = match load_by(alloc, &Sha1Namer, keeper, 2, URL, input) {
        Ok(loaded) => match loaded.end {
            End::Full { snapshot } => loaded.visit == 1 && snapshot == SNAPSHOT,
            _ => false,
        },
        Err(_) => false,
    };
    let history = keeper.history();
    Ok(full && history.len() == 6 && objects_in(history) == 5)
}

/// Says whether the folder is named, and the content that it lacks.
fn lacks_content(answer: Result<Outcome, Refusal>) -> bool {
    match answer {
        Err(Refusal::NotClosed { parent, child }) => parent == FOLDER && child == FILE,
        _ => false,
    }
}

const FOLDER: Name = Name {
    kind: Kind::Directory,
    id: DIRECTORY,
};

const FILE: Name = Name {
    kind: Kind::Content,
    id: CONTENT,
};

fn end_so(alloc: Global, keeper: &mut Archive<Sha1Namer>) -> Result<bool, Fail> {
    let stopped = stops_before_content(alloc, keeper)?;
    let refused = lacks_content(ended_full(alloc, keeper)?);
    let loaded = loads_all(alloc, keeper)?;
    let held = holds(keeper, Kind::Content, CONTENT, b"version 1\n");
    let ended = matches!(ended_full(alloc, keeper)?, Ok(Outcome::Marked { event: 7 }));
    Ok(stopped && refused && loaded && held && ended)
}

#[test]
fn what_one_lacks_another_brings(rt: HostRuntime) -> Result<(), Fail> {
    let alloc = rt.alloc();
    let mut keeper = made_archive(alloc, Sha1Namer, &[], &[])?;
    let so = end_so(alloc, &mut keeper);
    let (_store, _ledger) = keeper.close();
    assert!(rt; so?);
    Ok(())
}
