// The names that a request's body lists.
use std::alloc::Global;
use std::test::Fail;
use swh_base::Memory;
use swh_replies::listed_names;

// Bodies, and how many names each lists.
static LISTS: [(&[u8], usize); 6] = [
    (b"[]", 0),
    (b" [ ] \r\n", 0),
    (
        b"[\"swh:1:cnt:e69de29bb2d1d6434b8b29ae775ad8c2e48c5391\"]",
        1,
    ),
    (
        b"[\"\\u0073wh:1:cnt:e69de29bb2d1d6434b8b29ae775ad8c2e48c5391\"]",
        1,
    ),
    (
        b"[\"swh:1:dir:4b825dc642cb6eb9a060e54bf8d69288fbee4904\",\n\
\"swh:1:snp:1a8893e6a86f444e8be8e7bda6cb34fb1735a00e\"]",
        2,
    ),
    (
        b"[\"swh:1:cnt:e69de29bb2d1d6434b8b29ae775ad8c2e48c5391\",\"swh:1:cnt:e69de29bb2d1d6434b8b29ae775ad8c\
2e48c5391\"]",
        2,
    ),
];

static NO_LISTS: [&[u8]; 20] = [
    b"",
    b"[",
    b"{}",
    b"null",
    b"\"swh:1:cnt:e69de29bb2d1d6434b8b29ae775ad8c2e48c5391\"",
    b"[1]",
    b"[\"\"]",
    b"[\"x\"]",
    b"[null]",
    b"[[]]",
    b"[]x",
    b"[][]",
    b"[,]",
    b"[\"swh:1:cnt:e69de29bb2d1d6434b8b29ae775ad8c2e48c5391\"",
    b"[\"swh:1:cnt:e69de29bb2d1d6434b8b29ae775ad8c2e48c5391\",]",
    b"[\"swh:1:cnt:e69de29bb2d1d6434b8b29ae775ad8c2e48c5391;lines=1\"]",
    b"[\"swh:1:cnt:E69DE29BB2D1D6434B8B29AE775AD8C2E48C5391\"]",
    b"[\"swh:1:cnt:e69de29bb2d1d6434b8b29ae775ad8c2e48c5391\",1]",
    b"\xff",
    b"[\"\xff\"]",
];

fn lists(alloc: Global, body: &[u8], count: usize) -> Result<bool, Memory> {
    Ok(match listed_names(alloc, body)? {
        Some(names) => names.len() == count,
        None => false,
    })
}

#[test]
fn lists_of_names(rt: HostRuntime) -> Result<(), Fail> {
    for (body, count) in &LISTS {
        assert!(rt; lists(rt.alloc(), body, *count)?);
    }
    Ok(())
}

#[test]
fn no_lists_of_names(rt: HostRuntime) -> Result<(), Fail> {
    for body in &NO_LISTS {
        assert!(rt; listed_names(rt.alloc(), body)?.is_none());
    }
    Ok(())
}

// A body that lists this many names, each once more.
fn repeated(alloc: Global, count: usize) -> Result<Vec<u8>, Memory> {
    let mut body = Vec::new(alloc);
    body.push(b'[')?;
    for number in 0..count {
        if number > 0 {
            body.push(b',')?;
        }
        body.extend_from_slice(b"\"swh:1:cnt:e69de29bb2d1d6434b8b29ae775ad8c2e48c5391\"")?;
    }
    body.push(b']')?;
    Ok(body)
}

#[test]
fn a_thousand_names(rt: HostRuntime) -> Result<(), Fail> {
    let most = repeated(rt.alloc(), 1_000)?;
    assert!(rt; lists(rt.alloc(), most.as_slice(), 1_000)?);
    let more = repeated(rt.alloc(), 1_001)?;
    assert!(rt; listed_names(rt.alloc(), more.as_slice())?.is_none());
    Ok(())
}
