// Artifacts as JSON: bodies, and the texts that are written of them.
use std::alloc::Global;
use std::test::Fail;
use swh_base::{Kind, Memory, Name, Shared};
use swh_dirfmt::spelled_dir;
use swh_replies::{
    branches_reply, content_value, entries_reply, log_value, release_value, resolved_value,
    revision_value,
};
use swh_revfmt::{spelled_rel, spelled_rev};
use swh_snpfmt::spelled_snp;

const EMPTY_CONTENT: [u8; 20] =
    *b"\xe6\x9d\xe2\x9b\xb2\xd1\xd6\x43\x4b\x8b\x29\xae\x77\x5a\xd8\xc2\xe4\x8c\x53\x91";

const ONES: [u8; 20] = [0x11; 20];

// Bodies of each kind, and what is written of each. The ids in them are git's of an empty file and an empty tree, and
// ones of a single digit.
static BODIES: [(Kind, &[u8], &[u8]); 10] = [
    (
        Kind::Content,
        b"",
        b"{\"length\":0,\"swhid\":\"swh:1:cnt:1111111111111111111111111111111111111111\"}",
    ),
    (
        Kind::Content,
        b"hello\n",
        b"{\"length\":6,\"swhid\":\"swh:1:cnt:1111111111111111111111111111111111111111\"}",
    ),
    (Kind::Directory, b"", b"[]"),
    (
        Kind::Directory,
        b"100644 a b%\0\xe6\x9d\xe2\x9b\xb2\xd1\xd6\x43\x4b\x8b\x29\xae\x77\x5a\xd8\xc2\xe4\x8c\x53\x91",
        b"[{\"name\":\"a%20b%25\",\"perms\":33188,\
\"target\":\"e69de29bb2d1d6434b8b29ae775ad8c2e48c5391\",\"type\":\"file\"}]",
    ),
    (
        Kind::Directory,
        b"40000 a\0\x4b\x82\x5d\xc6\x42\xcb\x6e\xb9\xa0\x60\xe5\x4b\xf8\xd6\x92\x88\xfb\xee\x49\x04\
100755 b\0\xe6\x9d\xe2\x9b\xb2\xd1\xd6\x43\x4b\x8b\x29\xae\x77\x5a\xd8\xc2\xe4\x8c\x53\x91\
120000 c\0\xe6\x9d\xe2\x9b\xb2\xd1\xd6\x43\x4b\x8b\x29\xae\x77\x5a\xd8\xc2\xe4\x8c\x53\x91\
160000 d\"\\\0\x11\x11\x11\x11\x11\x11\x11\x11\x11\x11\x11\x11\x11\x11\x11\x11\x11\x11\x11\x11",
        b"[{\"name\":\"a\",\"perms\":16384,\"target\":\"4b825dc642cb6eb9a060e54bf8d69288fbee4904\",\
\"type\":\"dir\"},{\"name\":\"b\",\"perms\":33261,\
\"target\":\"e69de29bb2d1d6434b8b29ae775ad8c2e48c5391\",\"type\":\"file\"},{\"name\":\"c\",\
\"perms\":40960,\"target\":\"e69de29bb2d1d6434b8b29ae775ad8c2e48c5391\",\"type\":\"file\"},\
{\"name\":\"d\\\"\\\\\",\"perms\":57344,\"target\":\"1111111111111111111111111111111111111111\",\
\"type\":\"rev\"}]",
    ),
    (
        Kind::Revision,
        b"tree 4b825dc642cb6eb9a060e54bf8d69288fbee4904\nauthor A <a@e.org> 1 +0000\n\nm;\n",
        b"{\"directory\":\"4b825dc642cb6eb9a060e54bf8d69288fbee4904\",\
\"id\":\"1111111111111111111111111111111111111111\",\"parents\":[],\
\"rest\":\"author%20A%20<a@e.org>%201%20+0000%0A%0Am%3B%0A\"}",
    ),
    (
        Kind::Revision,
        b"tree 4b825dc642cb6eb9a060e54bf8d69288fbee4904\n\
parent 2222222222222222222222222222222222222222\nparent 1111111111111111111111111111111111111111\n",
        b"{\"directory\":\"4b825dc642cb6eb9a060e54bf8d69288fbee4904\",\
\"id\":\"1111111111111111111111111111111111111111\",\
\"parents\":[\"2222222222222222222222222222222222222222\",\
\"1111111111111111111111111111111111111111\"],\"rest\":\"\"}",
    ),
    (
        Kind::Release,
        b"object 2222222222222222222222222222222222222222\ntype tag\ntag v 1\n\nm",
        b"{\"id\":\"1111111111111111111111111111111111111111\",\"name\":\"v%201\",\"rest\":\"%0Am\",\
\"target\":\"2222222222222222222222222222222222222222\",\"target_type\":\"release\"}",
    ),
    (
        Kind::Snapshot,
        b"",
        b"{\"branches\":{},\"id\":\"1111111111111111111111111111111111111111\"}",
    ),
    (
        Kind::Snapshot,
        b"alias HEAD\x003:a;bdangling a;b\x000:content b\x00\
20:\x11\x11\x11\x11\x11\x11\x11\x11\x11\x11\x11\x11\x11\x11\x11\x11\x11\x11\x11\x11snapshot \x80\x00\
20:\x11\x11\x11\x11\x11\x11\x11\x11\x11\x11\x11\x11\x11\x11\x11\x11\x11\x11\x11\x11",
        b"{\"branches\":{\"%80\":{\"target\":\"1111111111111111111111111111111111111111\",\
\"target_type\":\"snapshot\"},\"HEAD\":{\"target\":\"a%3Bb\",\"target_type\":\"alias\"},\
\"a%3Bb\":null,\"b\":{\"target\":\"1111111111111111111111111111111111111111\",\
\"target_type\":\"content\"}},\"id\":\"1111111111111111111111111111111111111111\"}",
    ),
];

// What is written of a body of a kind; none where it is no such body.
fn written(alloc: Global, kind: Kind, body: &[u8]) -> Result<Option<Shared<u8>>, Memory> {
    let value = match kind {
        Kind::Content => content_value(alloc, &Name { kind, id: ONES }, body)?,
        Kind::Directory => match spelled_dir(alloc, body) {
            Ok(entries) => return Ok(Some(entries_reply(alloc, entries.as_slice())?.body)),
            Err(_) => return Ok(None),
        },
        Kind::Revision => match spelled_rev(alloc, body) {
            Ok(rev) => revision_value(alloc, &ONES, &rev)?,
            Err(_) => return Ok(None),
        },
        Kind::Release => match spelled_rel(body) {
            Ok(rel) => release_value(alloc, &ONES, &rel)?,
            Err(_) => return Ok(None),
        },
        Kind::Snapshot => match spelled_snp(alloc, body) {
            Ok(branches) => return Ok(Some(
                branches_reply(alloc, &ONES, branches.as_slice())?.body,
            )),
            Err(_) => return Ok(None),
        },
    };
    Ok(Some(Shared::from_vec(value.to_string(alloc)?.into_bytes())?))
}

fn is_written(alloc: Global, kind: Kind, body: &[u8], text: &[u8]) -> Result<bool, Memory> {
    Ok(match written(alloc, kind, body)? {
        Some(found) => found.as_slice() == text,
        None => false,
    })
}

#[test]
fn artifacts(rt: HostRuntime) -> Result<(), Fail> {
    for (kind, body, text) in &BODIES {
        assert!(rt; is_written(rt.alloc(), *kind, body, text)?);
    }
    Ok(())
}

fn is_text(alloc: Global, names: &[Name], log: &str, last: &str) -> Result<bool, Memory> {
    let listed = log_value(alloc, names)?.to_string(alloc)?;
    let resolved = match names.last() {
        Some(name) => resolved_value(alloc, name)?.to_string(alloc)?,
        None => return Ok(false),
    };
    Ok(listed.as_str() == log && resolved.as_str() == last)
}

#[test]
fn logs_and_resolved_names(rt: HostRuntime) -> Result<(), Fail> {
    let names = [
        Name {
            kind: Kind::Revision,
            id: ONES,
        },
        Name {
            kind: Kind::Content,
            id: EMPTY_CONTENT,
        },
    ];
    assert!(rt;
        is_text(
            rt.alloc(),
            &names,
            "[\"1111111111111111111111111111111111111111\",\"e69de29bb2d1d6434b8b29ae775ad8c2e48c5391\"]",
            "{\"object_id\":\"e69de29bb2d1d6434b8b29ae775ad8c2e48c5391\",\"object_type\":\"content\"}"
        )?
    );
    Ok(())
}
