// What `cook` prints and makes. The streams are those that git-fast-import(1) describes, by hand; the ids are by another
// SHA-1.
use Grown::{File, Folder};
use std::alloc::Global;
use std::test::Fail;
use swh_program_fixtures::{
    BARE, Case, Grown, INIT, LOAD, LOADED, LOADING, Piece, Setting, is_met_leaving,
};

/// A row, and what then stands in the yard.
type Cooked = (Case<'static>, &'static [Grown<'static>]);

// Fails with the name of the first row that is not met.
fn all_cooked(alloc: Global, rows: &[Cooked]) -> Result<(), Fail> {
    for (case, grown) in rows {
        if !is_met_leaving(alloc, case, grown)? {
            return Err(Fail::new(case.name));
        }
    }
    Ok(())
}

/// The stream of the worked stream's revision.
const REVISION: &[u8] =
    b"feature done\nblob\nmark :1\ndata 10\nversion 1\n\nreset refs/swh/cook\n\ncommit refs/swh/cook\nma\
rk :2\nauthor A <a@e.org> 1000000000 +0000\ncommitter A <a@e.org> 1000000000 +0000\ndata 6\nfirst\
\n\ndeleteall\nM 100644 :1 test.txt\n\nreset refs/heads/main\nfrom :2\n\nreset refs/swh/cook\nfrom\
\x200000000000000000000000000000000000000000\n\ndone\n";

/// The stream of a release of it.
const TAGGED: &[u8] =
    b"feature done\nblob\nmark :1\ndata 10\nversion 1\n\nreset refs/swh/cook\n\ncommit refs/swh/cook\nma\
rk :2\nauthor A <a@e.org> 1000000000 +0000\ncommitter A <a@e.org> 1000000000 +0000\ndata 6\nfirst\
\n\ndeleteall\nM 100644 :1 test.txt\n\ntag v1\nmark :3\nfrom :2\ntagger A <a@e.org> 1000000000 +00\
00\ndata 10\nVersion 1\n\nreset refs/swh/cook\nfrom 0000000000000000000000000000000000000000\n\ndo\
ne\n";

// The job of the worked stream, with a head.
const HEADED: Setting<'static> = Setting {
    jobs: Some(&[Piece::Text(b"fast\thttps://e.org/p\te\trefs/heads/main\n")]),
    ..LOADING
};

const STREAMS: &[Cooked] = &[
    (
        Case {
            name: "a revision",
            setting: LOADED,
            runs: &[&[
                "cook",
                "A",
                "swh:1:rev:295c0651a95ba32ac5e14f92da0161b122942cac",
                "OUT",
            ]],
            statuses: &[0],
            printed: b"swh:1:rev:295c0651a95ba32ac5e14f92da0161b122942cac\t-\n",
            leaves: None,
        },
        &[File("OUT", REVISION)],
    ),
    (
        Case {
            name: "a snapshot",
            setting: LOADED,
            runs: &[&[
                "cook",
                "A",
                "swh:1:snp:5036c2b4a676f9dad60fbaed431ca21ecdec56ff",
                "OUT",
            ]],
            statuses: &[0],
            printed: b"swh:1:snp:5036c2b4a676f9dad60fbaed431ca21ecdec56ff\t-\n",
            leaves: None,
        },
        &[File("OUT", REVISION)],
    ),
    (
        Case {
            name: "a snapshot with a head",
            setting: HEADED,
            runs: &[
                INIT,
                LOAD,
                &[
                    "cook",
                    "A",
                    "swh:1:snp:6a27147bf068e96885531e22302944aa7bf4c5c8",
                    "OUT",
                ],
            ],
            statuses: &[0, 0, 0],
            printed: b"made\nhttps://e.org/p\t1\tfull\tswh:1:snp:6a27147bf068e96885531e22302944aa7bf4c5c8\n\
swh:1:snp:6a27147bf068e96885531e22302944aa7bf4c5c8\trefs/heads/main\n",
            leaves: None,
        },
        &[File("OUT", REVISION)],
    ),
    (
        Case {
            name: "a tag alone",
            setting: Setting {
                input: Some(&[Piece::Text(TAGGED)]),
                ..LOADING
            },
            runs: &[
                INIT,
                LOAD,
                &[
                    "cook",
                    "A",
                    "swh:1:snp:8e4ab9c68fed5533e5989465f92058fa230a8b5a",
                    "OUT",
                ],
                &[
                    "cook",
                    "A",
                    "swh:1:rel:b0d5ede077ab52c24dca95995fe1840e94308346",
                    "TAG",
                ],
            ],
            statuses: &[0, 0, 0, 0],
            printed: b"made\nhttps://e.org/p\t1\tfull\tswh:1:snp:8e4ab9c68fed5533e5989465f92058fa230a8b5a\n\
swh:1:snp:8e4ab9c68fed5533e5989465f92058fa230a8b5a\t-\nswh:1:rel:b0d5ede077ab52c24dca95995fe1840e94308346\t-\n",
            leaves: None,
        },
        &[File("OUT", TAGGED), File("TAG", TAGGED)],
    ),
];

#[test]
fn streams_are_cooked(rt: HostRuntime) -> Result<(), Fail> {
    all_cooked(rt.alloc(), STREAMS)
}

// An archive of two contents, a directory without entries, one with the file `test.txt`, one with a file, a link, a folder, a
// program and a project, a revision of that one, a revision with a signature, and one of a directory that is not held.
const LEDGER: &[u8] =
    b"SWHARC1\n\x01B\x00\x00\x00\x18\x00\x00\x00\x01\x00\x00\x00\x00\x00\x00\x00\x00\x00\x00\x00\x00\x00\
\x00\x038\x00\x00\x00\x08\x00";

const STORE: &[u8] =
    b"\x01\x00\x00\x00\x00\x00\x00\x00\n\x83\xba\xaea\x80Ne\xccs\xa7 \x1arRu\x0cv\x06j0version 1\n\x01\
\x00\x00\x00\x00\x00\x00\x00\x01.e\xef\xe2\xa1E\xdd\xa7\xeeQ\xd1t\x12\x99\xf8H\xe5\xbfu.a\x02\x00\
\x00\x00\x00\x00\x00\x00\x00K\x82]\xc6B\xcbn\xb9\xa0`\xe5K\xf8\xd6\x92\x88\xfb\xeeI\x04\x02\x00\
\x00\x00\x00\x00\x00\x00$\xd82\x9f\xc1\xcc\x93\x87\x80\xff\xdd\x9f\x94\xe0\xd3d\xe0\xeat\xf5y10064\
4 test.txt\x00\x83\xba\xaea\x80Ne\xccs\xa7 \x1arRu\x0cv\x06j0\x02\x00\x00\x00\x00\x00\x00\x00\x98%\
Q3\xe8\t\xc8\xae\xba\xdea\xe3B\xe7\x18H\xc40\x9f\x16o100644 a\x00\x83\xba\xaea\x80Ne\xccs\xa7 \x1a\
rRu\x0cv\x06j0120000 ln\x00.e\xef\xe2\xa1E\xdd\xa7\xeeQ\xd1t\x12\x99\xf8H\xe5\xbfu.40000 none\x00K\
\x82]\xc6B\xcbn\xb9\xa0`\xe5K\xf8\xd6\x92\x88\xfb\xeeI\x04100755 run\x00\x83\xba\xaea\x80Ne\xccs\
\xa7 \x1arRu\x0cv\x06j0160000 sub\x00\x11\x11\x11\x11\x11\x11\x11\x11\x11\x11\x11\x11\x11\x11\x11\
\x11\x11\x11\x11\x11\x03\x00\x00\x00\x00\x00\x00\x00\x80x\xef\xb8:=V\xb3\xd8\x12\xac6l\xbd\x81\xf1\
J+\xb9\xca\xa5tree 255133e809c8aebade61e342e71848c4309f166f\nauthor A <a@e.org> 1000000000 +0000\n\
committer A <a@e.org> 1000000000 +0000\n\nfirst\n\x03\x00\x00\x00\x00\x00\x00\x00\x89\x96\xa9xcVh\
\x8a\x9b\x9e\xa4\t \xcc(\x928\xbaf\xa8;tree d8329fc1cc938780ffdd9f94e0d364e0ea74f579\nauthor A <a@\
e.org> 1000000000 +0000\ncommitter A <a@e.org> 1000000000 +0000\ngpgsig x\n\nfirst\n\x03\x00\x00\
\x00\x00\x00\x00\x00\x80\x93\xfb\xeci\x1e\xd5Q\xb0\xcd\x06\x94Aew\x87*9\xe6\x98/tree 2222222222222\
222222222222222222222222222\nauthor A <a@e.org> 1000000000 +0000\ncommitter A <a@e.org> 1000000000\
\x20+0000\n\nfirst\n";

const HELD: Setting<'static> = Setting {
    ledger: Some(LEDGER),
    store: STORE,
    ..BARE
};

const WIDE: &[&str] = &[
    "cook",
    "A",
    "swh:1:dir:255133e809c8aebade61e342e71848c4309f166f",
    "OUT",
];

/// All that is made of the directory of all kinds of entries.
const WIDE_MADE: &[Grown<'static>] = &[
    Folder("OUT"),
    File("OUT/a", b"version 1\n"),
    File("OUT/ln", b"a"),
    Folder("OUT/none"),
    File("OUT/run", b"version 1\n"),
    File(
        "OUT.modes",
        b"120000 ln\n100755 run\n160000 1111111111111111111111111111111111111111 sub\n",
    ),
];

const FOLDERS: &[Cooked] = &[
    (
        Case {
            name: "a content",
            setting: HELD,
            runs: &[&[
                "cook",
                "A",
                "swh:1:cnt:83baae61804e65cc73a7201a7252750c76066a30",
                "OUT",
            ]],
            statuses: &[0],
            printed: b"swh:1:cnt:83baae61804e65cc73a7201a7252750c76066a30\t-\n",
            leaves: None,
        },
        &[File("OUT", b"version 1\n")],
    ),
    (
        Case {
            name: "a directory",
            setting: HELD,
            runs: &[WIDE],
            statuses: &[0],
            printed: b"swh:1:dir:255133e809c8aebade61e342e71848c4309f166f\t-\n",
            leaves: None,
        },
        WIDE_MADE,
    ),
    (
        Case {
            name: "two directories, of which one is empty",
            setting: HELD,
            runs: &[
                &[
                    "cook",
                    "A",
                    "swh:1:dir:4b825dc642cb6eb9a060e54bf8d69288fbee4904",
                    "none",
                ],
                &[
                    "cook",
                    "A",
                    "swh:1:dir:d8329fc1cc938780ffdd9f94e0d364e0ea74f579;path=/x",
                    "one",
                ],
            ],
            statuses: &[0, 0],
            printed: b"swh:1:dir:4b825dc642cb6eb9a060e54bf8d69288fbee4904\t-\n\
swh:1:dir:d8329fc1cc938780ffdd9f94e0d364e0ea74f579\t-\n",
            leaves: None,
        },
        &[
            Folder("none"),
            File("none.modes", b""),
            Folder("one"),
            File("one/test.txt", b"version 1\n"),
            File("one.modes", b""),
        ],
    ),
];

#[test]
fn folders_and_contents_are_cooked(rt: HostRuntime) -> Result<(), Fail> {
    all_cooked(rt.alloc(), FOLDERS)
}

const REFUSED: &[Cooked] = &[
    (
        Case {
            name: "no SWHIDs",
            setting: BARE,
            runs: &[
                &["cook", "A", "swh:1:cnt:x", "OUT"],
                &["cook", "A", "", "OUT"],
            ],
            statuses: &[1, 1],
            printed: b"swharc: no swhid 10\nswharc: no swhid 0\n",
            leaves: None,
        },
        &[],
    ),
    (
        Case {
            name: "no archive",
            setting: BARE,
            runs: &[WIDE],
            statuses: &[3],
            printed: b"swharc: not made\n",
            leaves: None,
        },
        &[],
    ),
    (
        Case {
            name: "names that are not held",
            setting: HELD,
            runs: &[
                &[
                    "cook",
                    "A",
                    "swh:1:cnt:4b825dc642cb6eb9a060e54bf8d69288fbee4904",
                    "OUT",
                ],
                &[
                    "cook",
                    "A",
                    "swh:1:rev:93fbec691ed551b0cd0694416577872a39e6982f",
                    "OUT",
                ],
                &[
                    "cook",
                    "A",
                    "swh:1:dir:93fbec691ed551b0cd0694416577872a39e6982f",
                    "OUT",
                ],
            ],
            statuses: &[1, 1, 1],
            printed: b"swharc: not held swh:1:cnt:4b825dc642cb6eb9a060e54bf8d69288fbee4904\n\
swharc: not held swh:1:dir:2222222222222222222222222222222222222222\nswharc: not held swh:1:dir:93fbec691ed551b0cd0694416577872a39e6982f\n",
            leaves: None,
        },
        &[],
    ),
    (
        Case {
            name: "what a stream cannot carry",
            setting: HELD,
            runs: &[
                &[
                    "cook",
                    "A",
                    "swh:1:rev:96a9786356688a9b9ea40920cc289238ba66a83b",
                    "OUT",
                ],
                &[
                    "cook",
                    "A",
                    "swh:1:rev:78efb83a3d56b3d812ac366cbd81f14a2bb9caa5",
                    "OUT",
                ],
            ],
            statuses: &[1, 1],
            printed: b"swharc: uncarried swh:1:rev:96a9786356688a9b9ea40920cc289238ba66a83b revision\n\
swharc: uncarried swh:1:dir:4b825dc642cb6eb9a060e54bf8d69288fbee4904 empty\n",
            leaves: None,
        },
        &[],
    ),
];

#[test]
fn what_is_not_cooked_leaves_the_yard(rt: HostRuntime) -> Result<(), Fail> {
    all_cooked(rt.alloc(), REFUSED)
}

const CONTENT: &[&str] = &[
    "cook",
    "A",
    "swh:1:cnt:83baae61804e65cc73a7201a7252750c76066a30",
    "OUT",
];

const THERE_ALREADY: &[Cooked] = &[(
    Case {
        name: "what is there already",
        setting: HELD,
        runs: &[CONTENT, CONTENT, WIDE],
        statuses: &[0, 4, 4],
        printed: b"swh:1:cnt:83baae61804e65cc73a7201a7252750c76066a30\t-\nswharc: outside yard\nswharc: outside yard\n",
        leaves: None,
    },
    &[File("OUT", b"version 1\n")],
)];

#[test]
fn what_is_there_stays(rt: HostRuntime) -> Result<(), Fail> {
    all_cooked(rt.alloc(), THERE_ALREADY)
}

/// Cooks of which this call of the yard fails, counted from 0.
const FAULTS: &[Cooked] = &[
    (
        Case {
            name: "a content's file",
            setting: Setting {
                yard_fails: Some(0),
                ..HELD
            },
            runs: &[CONTENT],
            statuses: &[4],
            printed: b"swharc: outside yard\n",
            leaves: None,
        },
        &[],
    ),
    (
        Case {
            name: "a content's bytes",
            setting: Setting {
                yard_fails: Some(1),
                ..HELD
            },
            runs: &[CONTENT],
            statuses: &[4],
            printed: b"swharc: outside yard\n",
            leaves: None,
        },
        &[File("OUT", b"versi")],
    ),
    (
        Case {
            name: "the folder",
            setting: Setting {
                yard_fails: Some(0),
                ..HELD
            },
            runs: &[WIDE],
            statuses: &[4],
            printed: b"swharc: outside yard\n",
            leaves: None,
        },
        &[],
    ),
    (
        Case {
            name: "its first file",
            setting: Setting {
                yard_fails: Some(1),
                ..HELD
            },
            runs: &[WIDE],
            statuses: &[4],
            printed: b"swharc: outside yard\n",
            leaves: None,
        },
        &[Folder("OUT")],
    ),
    (
        Case {
            name: "that file's bytes",
            setting: Setting {
                yard_fails: Some(2),
                ..HELD
            },
            runs: &[WIDE],
            statuses: &[4],
            printed: b"swharc: outside yard\n",
            leaves: None,
        },
        &[Folder("OUT"), File("OUT/a", b"versi")],
    ),
];

#[test]
fn each_call_of_the_yard_may_fail(rt: HostRuntime) -> Result<(), Fail> {
    all_cooked(rt.alloc(), FAULTS)
}
