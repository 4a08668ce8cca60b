// Bodies with ids from outside: those that git's and Software Heritage's documents print, and those that git 2.39 gave.
use std::alloc::Global;
use std::test::Fail;
use swh_base::{Kind, Name, Namer, Sha1Namer};
use swh_dirfmt::{read_dir, write_dir};
use swh_object::Object;
use swh_revfmt::{read_rel, read_rev, write_rel, write_rev};
use swh_snpfmt::{read_snp, write_snp};

struct Worked {
    kind: Kind,
    body: &'static [u8],
    id: &'static [u8],
    children: &'static [Child],
}

struct Child {
    kind: Kind,
    id: &'static [u8],
}

// A revision without parents.
pub const FIRST: &[u8] =
    b"tree d8329fc1cc938780ffdd9f94e0d364e0ea74f579\nauthor A <a@e.org> 1000000000 +0000\n\
committer A <a@e.org> 1000000000 +0000\n\nfirst\n";

pub const MERGE: &[u8] =
    b"tree d8329fc1cc938780ffdd9f94e0d364e0ea74f579\nparent 94dfee1c055489e7b626a9454f7580b2f2e51181\n\
parent 0c530490cf162c594c24157a0000994e71fc8515\nauthor A <a@e.org> 1000000000 +0000\n\
committer A <a@e.org> 1000000000 +0000\n\nmerge\n";

// A revision with an encoding and a message in it.
pub const LATIN: &[u8] =
    b"tree d8329fc1cc938780ffdd9f94e0d364e0ea74f579\nparent f613210bc69a8fe1693e4e54c06d78cd5b6285b6\n\
author A <a@e.org> 1000000000 +0000\ncommitter A <a@e.org> 1000000000 +0000\nencoding ISO-8859-1\n\ncaf\xe9\n";

// A merge with a signature in its headers.
pub const SIGNED: &[u8] =
    b"tree d8329fc1cc938780ffdd9f94e0d364e0ea74f579\nparent 94dfee1c055489e7b626a9454f7580b2f2e51181\n\
parent 0c530490cf162c594c24157a0000994e71fc8515\nauthor A <a@e.org> 1000000000 +0000\n\
committer A <a@e.org> 1000000000 +0000\n\
gpgsig -----BEGIN PGP SIGNATURE-----\n \n iQEzBAABCAAdFiEE\n =abcd\n -----END PGP SIGNATURE-----\n\nmerge\n";

// A merge of a signed tag, which its headers carry.
pub const MERGED_TAG: &[u8] =
    b"tree d8329fc1cc938780ffdd9f94e0d364e0ea74f579\nparent 94dfee1c055489e7b626a9454f7580b2f2e51181\n\
parent 0c530490cf162c594c24157a0000994e71fc8515\nauthor A <a@e.org> 1000000000 +0000\n\
committer A <a@e.org> 1000000000 +0000\nmergetag object 0c530490cf162c594c24157a0000994e71fc8515\n\
\x20type commit\n tag v1-signed\n tagger A <a@e.org> 1000000000 +0000\n \n one\n\
\x20-----BEGIN PGP SIGNATURE-----\n \n iQEzBAABCAAdFiEE\n =abcd\n -----END PGP SIGNATURE-----\n\nmerge\n";

// A tag of a revision.
pub const TAG: &[u8] = b"object 0c530490cf162c594c24157a0000994e71fc8515\ntype commit\ntag v1\n\
tagger A <a@e.org> 1000000000 +0000\n\none\n";

// A tag of that tag.
pub const TAG_OF_TAG: &[u8] =
    b"object 330558e4309943d7e0eaa2b15fc9fdca6a21bb22\ntype tag\ntag v1-again\n\
tagger A <a@e.org> 1000000000 +0000\n\nof a tag\n";

// A directory that git wrote: a file, a folder, an executable, a link with a byte from 0x80 in its name, a submodule,
// and a name that is no UTF-8.
pub const DIRECTORY: &[u8] = b"100644 a.b\x00\x83\xba\xaea\x80Ne\xccs\xa7 \x1arRu\x0cv\x06j0\
40000 a\x00\xd82\x9f\xc1\xcc\x93\x87\x80\xff\xdd\x9f\x94\xe0\xd3d\xe0\xeat\xf5y\
100755 a0\x00\xce\x016%\x03\x0b\xa8\xdb\xa9\x06\xf7V\x96\x7f\x9e\x9c\xa3\x94FJ\
120000 caf\xc3\xa9\x00\xce\x016%\x03\x0b\xa8\xdb\xa9\x06\xf7V\x96\x7f\x9e\x9c\xa3\x94FJ\
160000 lib\x00\x11\x11\x11\x11\x11\x11\x11\x11\x11\x11\x11\x11\x11\x11\x11\x11\x11\x11\x11\x11\
100644 \xff\xfe\x00\xce\x016%\x03\x0b\xa8\xdb\xa9\x06\xf7V\x96\x7f\x9e\x9c\xa3\x94FJ";

// A branch to each kind of object, an alias and a branch to nothing: the example of Software Heritage's data model.
pub const SNAPSHOT: &[u8] = b"alias alias\x008:revision\
content content\x0020:\xfe\x95\xa4fy\xd1(\xff\x16{|U\xdf]\x025lZ\x1a\xe1\
dangling dangling\x000:\
directory directory\x0020:\x1b\xd0\xe6_}/\xf1J\xe9\x94\xde\x17\xa1\xe7\xfee\x11\x1d\xca\xd8\
release release\x0020:pE@O=\x1cT\xe6G<q\xbb\xb7\x16R\x9f\xba\xd4\xbe$\
revision revision\x0020:\xaa\xfb\x16\xd6\x9f\xd3\x0f\xf5\x8a\xfd\xd6\x906\xa2`G\xf3\xae\xbd\xc6\
snapshot snapshot\x0020:\x1a\x88\x93\xe6\xa8oDN\x8b\xe8\xe7\xbd\xa6\xcb4\xfb\x175\xa0\x0e";

static WORKED: [Worked; 17] = [
    Worked {
        kind: Kind::Content,
        body: b"",
        id: b"e69de29bb2d1d6434b8b29ae775ad8c2e48c5391",
        children: &[],
    },
    Worked {
        kind: Kind::Content,
        body: b"hello\n",
        id: b"ce013625030ba8dba906f756967f9e9ca394464a",
        children: &[],
    },
    Worked {
        kind: Kind::Content,
        body: b"hello",
        id: b"b6fc4c620b67d95f953a5c1c1230aaab5db5a1b0",
        children: &[],
    },
    Worked {
        kind: Kind::Content,
        body: b"test content\n",
        id: b"d670460b4b4aece5915caf5c68d12f560a9fe3e4",
        children: &[],
    },
    Worked {
        kind: Kind::Content,
        body: b"version 1\n",
        id: b"83baae61804e65cc73a7201a7252750c76066a30",
        children: &[],
    },
    Worked {
        kind: Kind::Directory,
        body: b"",
        id: b"4b825dc642cb6eb9a060e54bf8d69288fbee4904",
        children: &[],
    },
    Worked {
        kind: Kind::Directory,
        body: b"100644 test.txt\x00\x83\xba\xaea\x80Ne\xccs\xa7 \x1arRu\x0cv\x06j0",
        id: b"d8329fc1cc938780ffdd9f94e0d364e0ea74f579",
        children: &[Child {
            kind: Kind::Content,
            id: b"83baae61804e65cc73a7201a7252750c76066a30",
        }],
    },
    // A submodule is no child: it is a revision of another project.
    Worked {
        kind: Kind::Directory,
        body: DIRECTORY,
        id: b"4e87c2a61e18b4ac5c0d198fd48d017fb74c2b34",
        children: &[
            Child {
                kind: Kind::Content,
                id: b"83baae61804e65cc73a7201a7252750c76066a30",
            },
            Child {
                kind: Kind::Directory,
                id: b"d8329fc1cc938780ffdd9f94e0d364e0ea74f579",
            },
            Child {
                kind: Kind::Content,
                id: b"ce013625030ba8dba906f756967f9e9ca394464a",
            },
            Child {
                kind: Kind::Content,
                id: b"ce013625030ba8dba906f756967f9e9ca394464a",
            },
            Child {
                kind: Kind::Content,
                id: b"ce013625030ba8dba906f756967f9e9ca394464a",
            },
        ],
    },
    // The directory first, then the parents.
    Worked {
        kind: Kind::Revision,
        body: FIRST,
        id: b"295c0651a95ba32ac5e14f92da0161b122942cac",
        children: &[Child {
            kind: Kind::Directory,
            id: b"d8329fc1cc938780ffdd9f94e0d364e0ea74f579",
        }],
    },
    Worked {
        kind: Kind::Revision,
        body: MERGE,
        id: b"f613210bc69a8fe1693e4e54c06d78cd5b6285b6",
        children: MERGED,
    },
    Worked {
        kind: Kind::Revision,
        body: LATIN,
        id: b"70151aeae7b26360c4acdaa403f8612b24133a0b",
        children: &[
            Child {
                kind: Kind::Directory,
                id: b"d8329fc1cc938780ffdd9f94e0d364e0ea74f579",
            },
            Child {
                kind: Kind::Revision,
                id: b"f613210bc69a8fe1693e4e54c06d78cd5b6285b6",
            },
        ],
    },
    Worked {
        kind: Kind::Revision,
        body: SIGNED,
        id: b"8001fa27fac62a2462340696ae8a254ca0f16e4b",
        children: MERGED,
    },
    Worked {
        kind: Kind::Revision,
        body: MERGED_TAG,
        id: b"c07ce03122f01c35bf3a87edc51b905f2ac2ab59",
        children: MERGED,
    },
    Worked {
        kind: Kind::Release,
        body: TAG,
        id: b"330558e4309943d7e0eaa2b15fc9fdca6a21bb22",
        children: &[Child {
            kind: Kind::Revision,
            id: b"0c530490cf162c594c24157a0000994e71fc8515",
        }],
    },
    Worked {
        kind: Kind::Release,
        body: TAG_OF_TAG,
        id: b"210fc6c153174a5ff5b1071611d66c0373af50c9",
        children: &[Child {
            kind: Kind::Release,
            id: b"330558e4309943d7e0eaa2b15fc9fdca6a21bb22",
        }],
    },
    Worked {
        kind: Kind::Snapshot,
        body: b"",
        id: b"1a8893e6a86f444e8be8e7bda6cb34fb1735a00e",
        children: &[],
    },
    Worked {
        kind: Kind::Snapshot,
        body: SNAPSHOT,
        id: b"6e65b86363953b780d92b0a928f3e8fcdd10db36",
        children: &[
            Child {
                kind: Kind::Content,
                id: b"fe95a46679d128ff167b7c55df5d02356c5a1ae1",
            },
            Child {
                kind: Kind::Directory,
                id: b"1bd0e65f7d2ff14ae994de17a1e7fe65111dcad8",
            },
            Child {
                kind: Kind::Release,
                id: b"7045404f3d1c54e6473c71bbb716529fbad4be24",
            },
            Child {
                kind: Kind::Revision,
                id: b"aafb16d69fd30ff58afdd69036a26047f3aebdc6",
            },
            Child {
                kind: Kind::Snapshot,
                id: b"1a8893e6a86f444e8be8e7bda6cb34fb1735a00e",
            },
        ],
    },
];

const MERGED: &[Child] = &[
    Child {
        kind: Kind::Directory,
        id: b"d8329fc1cc938780ffdd9f94e0d364e0ea74f579",
    },
    Child {
        kind: Kind::Revision,
        id: b"94dfee1c055489e7b626a9454f7580b2f2e51181",
    },
    Child {
        kind: Kind::Revision,
        id: b"0c530490cf162c594c24157a0000994e71fc8515",
    },
];

#[test]
fn worked_bodies_have_their_ids(rt: HostRuntime) {
    for case in &WORKED {
        let id = Sha1Namer.id(case.kind, case.body);
        let name = Name {
            kind: case.kind,
            id,
        };
        assert!(rt; Name::from_hex(case.kind, case.id) == Some(name));
    }
}

fn is_child(found: &Name, child: &Child) -> bool {
    Name::from_hex(child.kind, child.id) == Some(*found)
}

fn are_children(found: &[Name], children: &[Child]) -> bool {
    found.len() == children.len() && found.iter().zip(children).all(|(f, c)| is_child(f, c))
}

#[test]
fn worked_bodies_make_objects(rt: HostRuntime) -> Result<(), Fail> {
    for case in &WORKED {
        let body = case.body.to_vec(rt.alloc())?;
        let object = Object::make(rt.alloc(), &Sha1Namer, case.kind, body)?;
        assert!(rt; Name::from_hex(case.kind, case.id) == Some(object.name()));
        assert!(rt; are_children(object.children(), case.children));
    }
    Ok(())
}

fn directory_again(alloc: Global, body: &[u8]) -> Option<Vec<u8>> {
    let directory = read_dir(alloc, body).ok()?;
    write_dir(alloc, &directory).ok()
}

fn revision_again(alloc: Global, body: &[u8]) -> Option<Vec<u8>> {
    let revision = read_rev(alloc, body).ok()?;
    write_rev(alloc, &revision).ok()
}

fn release_again(alloc: Global, body: &[u8]) -> Option<Vec<u8>> {
    let release = read_rel(alloc, body).ok()?;
    write_rel(alloc, &release).ok()
}

fn snapshot_again(alloc: Global, body: &[u8]) -> Option<Vec<u8>> {
    let snapshot = read_snp(alloc, body).ok()?;
    write_snp(alloc, &snapshot).ok()
}

// The body, read and written again.
fn again(alloc: Global, kind: Kind, body: &[u8]) -> Option<Vec<u8>> {
    match kind {
        Kind::Content => body.to_vec(alloc).ok(),
        Kind::Directory => directory_again(alloc, body),
        Kind::Revision => revision_again(alloc, body),
        Kind::Release => release_again(alloc, body),
        Kind::Snapshot => snapshot_again(alloc, body),
    }
}

fn is_written_again(alloc: Global, kind: Kind, body: &[u8]) -> bool {
    match again(alloc, kind, body) {
        Some(written) => written.as_slice() == body,
        None => false,
    }
}

#[test]
fn worked_bodies_are_written_again(rt: HostRuntime) {
    for case in &WORKED {
        assert!(rt; is_written_again(rt.alloc(), case.kind, case.body));
    }
}
