// Directories and snapshots. The ids of directories and contents are git's, of `git mktree` and `git hash-object`; those of
// snapshots were reckoned beside the program, by the manifest of snapshots in SWHID v1.2.
use crate::directory_making::{Outcome, end_of};
use crate::laid::Thing::{File as Bytes, Folder as List};
use crate::laid::{Laid, folder_of, listing_of};
use Kind::{Content, Directory, Snapshot};
use What::{File, Folder};
use std::alloc::{AllocError, Global};
use std::test::Fail;
use swh_base::{Kind, Name, Sha1Namer};
use swh_object::Object;
use swh_outside::What;

/// A folder and its listing, the ids of its directory and its snapshot, and all other objects, each once.
struct Row {
    title: &'static str,
    laid: &'static [Laid],
    listing: &'static [u8],
    root: &'static [u8],
    snapshot: &'static [u8],
    others: &'static [(Kind, &'static [u8])],
}

const EMPTY_CONTENT: (Kind, &[u8]) = (Content, b"e69de29bb2d1d6434b8b29ae775ad8c2e48c5391");

const EMPTY_DIRECTORY: (Kind, &[u8]) = (Directory, b"4b825dc642cb6eb9a060e54bf8d69288fbee4904");

/// `hello` without and with an LF.
const HELLO: (Kind, &[u8]) = (Content, b"b6fc4c620b67d95f953a5c1c1230aaab5db5a1b0");

const HELLO_LINE: (Kind, &[u8]) = (Content, b"ce013625030ba8dba906f756967f9e9ca394464a");

/// A directory of the one file `f`, which holds `hello` and an LF.
const OF_F: (Kind, &[u8]) = (Directory, b"10731d0b170b98481a00bdca161e874e0ab93377");

const ROWS: &[Row] = &[
    Row {
        title: "nothing",
        laid: &[("", List(&[]))],
        listing: b"",
        root: b"4b825dc642cb6eb9a060e54bf8d69288fbee4904",
        snapshot: b"fe3f4ea83a1ef269074d351f0b61313b3ed9b72d",
        others: &[],
    },
    Row {
        title: "one file",
        laid: &[
            ("", List(&[("test.txt", File)])),
            ("test.txt", Bytes(b"version 1\n")),
        ],
        listing: b"",
        root: b"d8329fc1cc938780ffdd9f94e0d364e0ea74f579",
        snapshot: b"d92d2d15a9809f346b0ae109c5b2421b2d26b491",
        others: &[(Content, b"83baae61804e65cc73a7201a7252750c76066a30")],
    },
    Row {
        title: "names that stand in another order as folders' names",
        laid: &[
            (
                "",
                List(&[
                    ("a0", File),
                    ("a", Folder),
                    ("a.d", Folder),
                    ("a.b", File),
                    ("a-", File),
                ]),
            ),
            ("a", List(&[("f", File)])),
            ("a/f", Bytes(b"hello\n")),
            ("a.d", List(&[])),
            ("a-", Bytes(b"hello\n")),
            ("a.b", Bytes(b"")),
            ("a0", Bytes(b"hello")),
        ],
        listing: b"",
        root: b"8043af315617b21e41f2fd4eee791d8d8fe7c056",
        snapshot: b"61d3e445e7fce0cd28255c5d8ac9d562b4d5d3eb",
        others: &[EMPTY_CONTENT, HELLO, HELLO_LINE, EMPTY_DIRECTORY, OF_F],
    },
    Row {
        title: "names from 0x7f on",
        laid: &[
            (
                "",
                List(&[
                    ("日", File),
                    ("é", Folder),
                    ("z", File),
                    ("éa", File),
                    ("\x7f", Folder),
                    ("é.t", File),
                ]),
            ),
            ("é", List(&[("u", File)])),
            ("é/u", Bytes(b"hello\n")),
            ("é.t", Bytes(b"")),
            ("éa", Bytes(b"hello\n")),
            ("日", Bytes(b"hello")),
            ("\x7f", List(&[])),
            ("z", Bytes(b"")),
        ],
        listing: b"",
        root: b"3ddfe3a7aa2f4523e89d8b454bc0b22add79fbd2",
        snapshot: b"06c419fc1972e6f3d802b8430e2413808ef243e8",
        others: &[
            EMPTY_CONTENT,
            HELLO,
            HELLO_LINE,
            EMPTY_DIRECTORY,
            (Directory, b"5ddfbc6b9915a235156ae1f153b354367a5087be"),
        ],
    },
    Row {
        title: "empty folders",
        laid: &[
            ("", List(&[("d", Folder), ("a", Folder), ("e", Folder)])),
            ("a", List(&[])),
            ("d", List(&[("b", Folder)])),
            ("d/b", List(&[("c", Folder)])),
            ("d/b/c", List(&[])),
            ("e", List(&[])),
        ],
        listing: b"",
        root: b"ece7223a8a98356cf02d0ef5f467dc6e7d31ecfd",
        snapshot: b"e94a0ab1fe5a39174ced304cbd0a1b963ee628cf",
        others: &[
            EMPTY_DIRECTORY,
            (Directory, b"ff2161256e81c3f88fc9942723d34524d5d1c0d0"),
            (Directory, b"4f973b34d02f4461d7c9935b7a3916208c402a19"),
        ],
    },
    Row {
        title: "a program and a link",
        laid: &[
            ("", List(&[("run", File), ("ln", File)])),
            ("run", Bytes(b"hi\n")),
            ("ln", Bytes(b"run")),
        ],
        listing: b"100755 run\n120000 ln\n",
        root: b"fd1ddbd0b36255b027b7f28a48011a50332941b4",
        snapshot: b"064732ac2b71aac3a64f68cba08fdbcfe3c6e935",
        others: &[
            (Content, b"45b983be36b73c0788dc9cbcb76cbb80fc7bb057"),
            (Content, b"e5224d533ef27b001224859a9b36696846a7e7fe"),
        ],
    },
    Row {
        title: "revisions of other projects, whose names stand as files' names do",
        laid: &[
            ("", List(&[("a.b", File), ("d", Folder), ("e", Folder)])),
            ("a.b", Bytes(b"")),
            ("d", List(&[("b", File)])),
            ("d/b", Bytes(b"")),
            ("e", List(&[])),
        ],
        listing: b"160000 0123456789abcdef0123456789abcdef01234567 \"d/\\377\"\n\
160000 0123456789abcdef0123456789abcdef01234567 e/p\n\
160000 0123456789abcdef0123456789abcdef01234567 a\n",
        root: b"6d1d536afd4e9f5f75408665bfa994c9b9f0fb3d",
        snapshot: b"8ac67d43785bda531da9ec215ef77ffad585d139",
        others: &[
            EMPTY_CONTENT,
            (Directory, b"988b4ee9984b909effb9cd4c5bd64fa3882c13f4"),
            (Directory, b"d115a1564bf39a434ef4ef5ffffaf90d438f7d51"),
        ],
    },
    Row {
        title: "folders that are alike",
        laid: &[
            ("", List(&[("y", Folder), ("x", Folder)])),
            ("x", List(&[("f", File)])),
            ("x/f", Bytes(b"hello\n")),
            ("y", List(&[("f", File), ("x", Folder)])),
            ("y/f", Bytes(b"hello\n")),
            ("y/x", List(&[("f", File)])),
            ("y/x/f", Bytes(b"hello\n")),
        ],
        listing: b"",
        root: b"7494fb9b7103aeab9d6c6b121c4b426b07914f72",
        snapshot: b"e20def6b486b229bb3fea4459d10c628922aaafd",
        others: &[
            HELLO_LINE,
            OF_F,
            (Directory, b"bc6d8c27260f3e27b40cff36edd47556d0caa23c"),
        ],
    },
];

/// Whether these digits are those of an id.
pub fn is_id(id: [u8; 20], hex: &[u8]) -> bool {
    match Name::from_hex(Content, hex) {
        Some(name) => name.id == id,
        None => false,
    }
}

/// Whether one of the objects has this kind, and an id of these digits.
fn has(objects: &[Object<Sha1Namer>], kind: Kind, hex: &[u8]) -> bool {
    objects.iter().any(|object| object.name().kind == kind && is_id(object.name().id, hex))
}

/// Whether these are a row's objects, each once.
fn are_all(objects: &[Object<Sha1Namer>], row: &Row) -> bool {
    objects.len() == row.others.len() + 2
        && has(objects, Directory, row.root)
        && has(objects, Snapshot, row.snapshot)
        && row
            .others
            .iter()
            .all(|(kind, hex)| has(objects, *kind, hex))
}

/// Whether a row's folder with its listing gives what it is to give.
fn gives(alloc: Global, row: &Row) -> Result<bool, AllocError> {
    let mut folder = folder_of(alloc, row.laid)?;
    let mut listing = listing_of(alloc, Vec::from_slice(alloc, row.listing)?);
    match end_of(alloc, &mut folder, &mut listing) {
        Outcome::Makes {
            objects,
            root,
            snapshot,
        } => Ok(
            is_id(root, row.root)
                && is_id(snapshot, row.snapshot)
                && are_all(objects.as_slice(), row),
        ),
        Outcome::IsLong(_) | Outcome::Fails => Ok(false),
    }
}

#[test]
fn directories_of_git(rt: HostRuntime) -> Result<(), Fail> {
    for row in ROWS {
        assert!(rt; gives(rt.alloc(), row)?, "{}", row.title);
    }
    Ok(())
}
