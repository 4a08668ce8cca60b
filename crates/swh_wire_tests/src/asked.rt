// What paths of the read API ask for.
use std::test::Fail;
use swh_replies::{Asked, read_path};

// Each path, the word of what it asks for, and the texts in it.
static PATHS: [(&[u8], &str, &[u8], &[u8]); 28] = [
    (b"/api/1/known/", "known", b"", b""),
    (b"/api/1/known/?page=1/", "known", b"", b""),
    (
        b"/api/1/origin/https://e.org/p/visits/",
        "visits",
        b"https://e.org/p",
        b"",
    ),
    (b"/api/1/origin/a%2fb/visits/?x", "visits", b"a%2fb", b""),
    (b"/api/1/origin//visits/", "visits", b"", b""),
    (b"/api/1/origin/visits/visits/", "visits", b"visits", b""),
    (b"/api/1/origin/a/get/visits/", "visits", b"a/get", b""),
    (
        b"/api/1/origin/https://e.org/p/get/",
        "origin",
        b"https://e.org/p",
        b"",
    ),
    (b"/api/1/origin/a/visits/get/", "origin", b"a/visits", b""),
    (b"/api/1/revision/ab/", "revision", b"ab", b""),
    (b"/api/1/revision//", "revision", b"", b""),
    (b"/api/1/revision/log/", "revision", b"log", b""),
    (b"/api/1/revision/ab/log/", "log", b"ab", b""),
    (b"/api/1/revision//log/", "log", b"", b""),
    (b"/api/1/release/ab/", "release", b"ab", b""),
    (b"/api/1/directory/ab/", "directory", b"ab", b""),
    (b"/api/1/directory/ab/c/", "entry", b"ab", b"c"),
    (b"/api/1/directory/ab/c/d%20/", "entry", b"ab", b"c/d%20"),
    (b"/api/1/directory/ab//", "entry", b"ab", b""),
    (b"/api/1/directory/ab/c//", "entry", b"ab", b"c/"),
    (b"/api/1/snapshot/ab/", "snapshot", b"ab", b""),
    (b"/api/1/content/sha1_git:ab/", "content", b"ab", b""),
    (
        b"/api/1/resolve/swh:1:cnt:ab;path=/a/b/",
        "resolve",
        b"swh:1:cnt:ab;path=/a/b",
        b"",
    ),
    (b"/api/1/resolve//", "resolve", b"", b""),
    (b"/api/1/raw/swh:1:cnt:ab/", "raw", b"swh:1:cnt:ab", b""),
    (b"/api/1/cook/swh:1:rev:ab/", "cook", b"swh:1:rev:ab", b""),
    (b"/api/1/cook//?raw/", "cook", b"", b""),
    (
        b"/api/1/load/fast/https://e.org/p/",
        "load",
        b"https://e.org/p",
        b"",
    ),
];

static NO_PATHS: [&[u8]; 24] = [
    b"",
    b"/",
    b"/known/",
    b"/api/2/known/",
    b"/api/1/",
    b"/api/1/known",
    b"/api/1/known/x/",
    b"/api/1/Known/",
    b"/api/1/origin/visits/",
    b"/api/1/origin/a/visits",
    b"/api/1/origin/a?/visits/",
    b"/api/1/origin/a/",
    b"/api/1/revision/ab",
    b"/api/1/revision/ab/c/",
    b"/api/1/revision/ab/log",
    b"/api/1/release/ab/c/",
    b"/api/1/directory/ab/c",
    b"/api/1/snapshot/ab/c/",
    b"/api/1/content/ab/",
    b"/api/1/content/sha256:ab/",
    b"/api/1/content/sha1_git:a/b/",
    b"/api/1/raw/a/b/",
    b"/api/1/cook/a/b/",
    b"/api/1/load/dir/https://e.org/p/",
];

fn parts<'a>(asked: Asked<'a>) -> (&'static str, &'a [u8], &'a [u8]) {
    match asked {
        Asked::Known => ("known", b"", b""),
        Asked::Visits(url) => ("visits", url, b""),
        Asked::Origin(url) => ("origin", url, b""),
        Asked::Revision(id) => ("revision", id, b""),
        Asked::Log(id) => ("log", id, b""),
        Asked::Release(id) => ("release", id, b""),
        Asked::Directory(id) => ("directory", id, b""),
        Asked::DirectoryEntry(id, path) => ("entry", id, path),
        Asked::Snapshot(id) => ("snapshot", id, b""),
        Asked::Content(id) => ("content", id, b""),
        Asked::Resolve(swhid) => ("resolve", swhid, b""),
        Asked::Raw(core) => ("raw", core, b""),
        Asked::Cook(core) => ("cook", core, b""),
        Asked::Load(url) => ("load", url, b""),
    }
}

fn asks(path: &[u8], word: &str, first: &[u8], second: &[u8]) -> bool {
    match read_path(path) {
        Some(asked) => {
            let (found, one, two) = parts(asked);
            found == word && one == first && two == second
        }
        None => false,
    }
}

#[test]
fn paths(rt: HostRuntime) -> Result<(), Fail> {
    for (path, word, first, second) in &PATHS {
        assert!(rt; asks(path, word, first, second));
    }
    Ok(())
}

#[test]
fn no_paths(rt: HostRuntime) -> Result<(), Fail> {
    for path in &NO_PATHS {
        assert!(rt; read_path(path).is_none());
    }
    Ok(())
}
