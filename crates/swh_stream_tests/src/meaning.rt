// What marks and refs lead to, and objects that are given once.
use std::alloc::{AllocError, Global};
use std::test::Fail;
use swh_base::{Kind, Name, Sha1Namer};
use swh_dedup::{Novelty, Seen};
use swh_fastmeaning::{MarksAndTips, Target, blob_of, commit_of};
use swh_object::Object;
use swh_trees::Tree;

fn target(kind: Kind) -> Target {
    let name = Name { kind, id: [1; 20] };
    Target {
        name,
        tree: Tree::empty(),
    }
}

#[test]
fn marks_and_tips(rt: HostRuntime) -> Result<(), Fail> {
    let alloc = rt.alloc();
    let mut aims = MarksAndTips::new(alloc);
    aims.set_mark(Some(7), target(Kind::Content))?;
    aims.set_tip(alloc, b"refs/heads/main", target(Kind::Revision))?;
    assert!(rt; blob_of(aims.mark(7)).is_some());
    assert!(rt; commit_of(aims.tip(b"refs/heads/main")).is_some());
    aims.drop_tip(b"refs/heads/main");
    assert!(rt; aims.tip(b"refs/heads/main").is_none());
    Ok(())
}

/// Bodies in their order, and whether each is new.
const BODIES: &[(&[u8], bool)] = &[
    (b"version 1\n", true),
    (b"hello\n", true),
    (b"version 1\n", false),
];

/// Whether the content of these bytes is new.
fn is_new(alloc: Global, seen: &mut Seen<Sha1Namer>, bytes: &[u8]) -> Result<bool, Fail> {
    let body = Vec::from_slice(alloc, bytes)?;
    match Object::make(alloc, &Sha1Namer, Kind::Content, body) {
        Ok(object) => Ok(seen.add(alloc, &object)? == Novelty::New),
        Err(_) => Err("no object".into()),
    }
}

#[test]
fn one_body_once(rt: HostRuntime) -> Result<(), Fail> {
    let alloc = rt.alloc();
    let mut seen = Seen::new(alloc);
    for (number, (bytes, new)) in BODIES.iter().enumerate() {
        assert_eq!(rt; is_new(alloc, &mut seen, bytes)?, *new, "row {number}");
    }
    Ok(())
}

/// How many contents are made, each another one.
const MANY: u32 = 70_000;

/// Some of them, the first and the last among them, which are not new again.
const AGAIN: &[u32] = &[0, 4_999, 5_000, 5_002, 65_535, 65_536, 69_999];

fn is_number_new(alloc: Global, seen: &mut Seen<Sha1Namer>, number: u32) -> Result<bool, Fail> {
    is_new(alloc, seen, &number.to_be_bytes())
}

fn are_new(alloc: Global, seen: &mut Seen<Sha1Namer>) -> Result<(), Fail> {
    for number in 0..MANY {
        if !is_number_new(alloc, seen, number)? {
            return Err(Fail::new(number));
        }
    }
    Ok(())
}

/// No number of contents is too high while there is memory.
#[test]
fn many_contents_are_seen(rt: HostRuntime) -> Result<(), Fail> {
    let alloc = rt.alloc();
    let mut seen = Seen::new(alloc);
    are_new(alloc, &mut seen)?;
    for number in AGAIN {
        assert_eq!(rt;
            is_number_new(alloc, &mut seen, *number)?,
            false,
            "number {number}"
        );
    }
    Ok(())
}
