// Snapshots: their branches, and where the first breaks.
use crate::worked_bodies::SNAPSHOT;
use std::alloc::Global;
use std::test::Fail;
use swh_snpfmt::{BadSnp, ReadSnpFault, Target, read_snp, spelled_snp};

fn is_alias(target: &Target, of: &[u8]) -> bool {
    match target {
        Target::Alias(name) => name.as_slice() == of,
        Target::Object(_) | Target::Dangling => false,
    }
}

// What the others lead to is told by the children of the snapshot.
#[test]
fn branches(rt: HostRuntime) -> Result<(), Fail> {
    let snapshot = read_snp(rt.alloc(), SNAPSHOT)?;
    let list = snapshot.list();
    assert!(rt; list.len() == 7);
    assert!(rt; is_alias(&list[0].target, b"revision"));
    assert!(rt; matches!(&list[2].target, Target::Dangling));
    assert!(rt; list[6].name.as_slice() == b"snapshot".as_slice());
    Ok(())
}

// An alias leads to any bytes: to a name that no branch has, to itself, to a NUL. A name may be any bytes but NUL.
static GOOD: [(&[u8], usize); 5] = [
    (b"alias a\x001:a", 1),
    (b"alias a\x003:\x00:\n", 1),
    (b"alias a b\x004:nonedangling a/\x000:", 2),
    (
        b"dangling \n\x000:dangling dangling \x000:dangling \x80\x000:",
        3,
    ),
    (
        b"dangling a\x000:revision a\xff\x0020:\x00\x00\x00\x00\x00\x00\x00\x00\x00\x00\x00\x00\x00\x00\x00\
\x00\x00\x00\x00\x00",
        2,
    ),
];

// Cut after each part, a word that is none, names that are none, lengths that are none, an alias to nothing; a name that
// stands twice, a name out of order, bytes left over. A NUL in a name ends it.
static BAD: [(&[u8], u64); 22] = [
    (b"revision", 0),
    (b"revision ", 0),
    (b"revision a", 0),
    (b"revision a\x00", 0),
    (b"revision a\x0020", 0),
    (b"revision a\x0020:", 0),
    (b"revision a\x0020:aaaaaaaaaaaaaaaaaaa", 0),
    (b"commit a\x0020:aaaaaaaaaaaaaaaaaaaa", 0),
    (b"revision \x0020:aaaaaaaaaaaaaaaaaaaa", 0),
    (b"revision a\x00b\x0020:aaaaaaaaaaaaaaaaaaaa", 0),
    (b"revision a\x0019:aaaaaaaaaaaaaaaaaaa", 0),
    (b"revision a\x00020:aaaaaaaaaaaaaaaaaaaa", 0),
    (b"revision a\x00+20:aaaaaaaaaaaaaaaaaaaa", 0),
    (b"alias a\x000:", 0),
    (b"alias a\x0001:b", 0),
    (b"alias a\x0099999999999999999999:b", 0),
    (b"dangling a\x001:b", 0),
    (b"dangling a\x00:", 0),
    (b"dangling b\x000:dangling b\x000:", 13),
    (b"dangling b\x000:alias b\x001:b", 13),
    (b"dangling b\x000:dangling a\x000:", 13),
    (b"dangling b\x000:\n", 13),
];

// How many branches a body has.
fn count(alloc: Global, body: &[u8]) -> Result<usize, ReadSnpFault> {
    let snapshot = read_snp(alloc, body)?;
    Ok(snapshot.list().len())
}

#[test]
fn good_snapshots_that_look_bad(rt: HostRuntime) {
    for (body, branches) in &GOOD {
        assert!(rt; count(rt.alloc(), body) == Ok(*branches));
    }
}

#[test]
fn snapshots_that_break(rt: HostRuntime) {
    for (body, at) in &BAD {
        let bad = ReadSnpFault::Bad(BadSnp { at: *at });
        assert!(rt; count(rt.alloc(), body) == Err(bad));
    }
}

#[test]
fn branches_stand_in_the_body(rt: HostRuntime) -> Result<(), Fail> {
    let branches = spelled_snp(rt.alloc(), SNAPSHOT)?;
    assert!(rt; branches.len() == 7);
    Ok(())
}
