// What an opening answers over bytes made by hand: the first harm with its place, an event that may not happen among them.
use std::alloc::Global;
use std::test::Fail;
use swh_base::Sha1Namer;
use swh_keeper::{Harm, Keeper, OpenFault, OpenWhy};
use swh_memory::{MemoryDisk, Room};

const ROOM: Room = Room {
    bytes: 64,
    calls: 64,
};

struct Case {
    title: &'static str,
    ledger: &'static [u8],
    store: &'static [u8],
    /// How many events there are, or why the archive is not opened.
    opened: Result<usize, OpenWhy>,
}

/// How many events an archive of these files has, or why it is not opened.
pub fn open(alloc: Global, ledger: MemoryDisk, store: MemoryDisk) -> Result<usize, OpenWhy> {
    match Keeper::open(alloc, Sha1Namer, store, ledger) {
        Ok(keeper) => {
            let events = keeper.history().len();
            let (_store, _ledger) = keeper.close();
            Ok(events)
        }
        Err(fault) => {
            let OpenFault {
                why,
                store: _store,
                ledger: _ledger,
            } = fault;
            Err(why)
        }
    }
}

/// Says whether the case's files are opened as it says.
fn is_opened(alloc: Global, case: &Case) -> Result<bool, Fail> {
    let ledger = MemoryDisk::new(alloc, case.ledger, ROOM, Vec::new(alloc))?;
    let store = MemoryDisk::new(alloc, case.store, ROOM, Vec::new(alloc))?;
    Ok(open(alloc, ledger, store) == case.opened)
}

const CASES: &[Case] = &[
    Case {
        title: "magic",
        ledger: b"SWHARX1\x0a\x00",
        store: b"",
        opened: Err(OpenWhy::Damaged {
            file: 0,
            at: 5,
            harm: Harm::Magic { found: 0x58 },
        }),
    },
    Case {
        title: "not made",
        ledger: b"SWHARC1\x0a",
        store: b"",
        opened: Err(OpenWhy::NotMade),
    },
    Case {
        title: "a record behind a history",
        ledger: b"SWHARC1\x0a\x01O\x00\x00\x00\x1c\x00\x00\x00\x01\x01\x00\x00\x00\x00;\x9a\xca\x00https://e.\
org/p\x01X",
        store: b"",
        opened: Err(OpenWhy::Damaged {
            file: 0,
            at: 43,
            harm: Harm::Kind { found: 0x58 },
        }),
    },
    Case {
        title: "a mark of no visit before a broken record",
        ledger: b"SWHARC1\x0a\x01T\x00\x00\x00\x1d\x00\x00\x00\x01\x02\x00\x00\x00\x00\x00\x00\x00\x01\x00htt\
ps://e.org/p\x01X",
        store: b"",
        opened: Err(OpenWhy::Damaged {
            file: 0,
            at: 8,
            harm: Harm::Refused { event: 1 },
        }),
    },
    Case {
        title: "a mark by another",
        ledger: b"SWHARC1\x0a\x01O\x00\x00\x00\x1c\x00\x00\x00\x01\x01\x00\x00\x00\x00;\x9a\xca\x00https://e.\
org/p\x01T\x00\x00\x00\x1d\x00\x00\x00\x02\x02\x00\x00\x00\x00\x00\x00\x00\x01\x00https://e.org/p\x00",
        store: b"",
        opened: Err(OpenWhy::Damaged {
            file: 0,
            at: 42,
            harm: Harm::Refused { event: 2 },
        }),
    },
    Case {
        title: "a full visit of no snapshot that is held",
        ledger: b"SWHARC1\x0a\x01O\x00\x00\x00\x1c\x00\x00\x00\x01\x01\x00\x00\x00\x00;\x9a\xca\x00https://e.\
org/p\x01T\x00\x00\x00\x31\x00\x00\x00\x01\x03\x00\x00\x00\x00\x00\x00\x00\x01\x01abcdefghijklmnopqrsthttps:/\
/e.org/p\x00",
        store: b"",
        opened: Err(OpenWhy::Damaged {
            file: 0,
            at: 42,
            harm: Harm::Refused { event: 2 },
        }),
    },
    Case {
        title: "an object twice in a batch",
        ledger: b"SWHARC1\x0a\x01B\x00\x00\x00\x18\x00\x00\x00\x01\x00\x00\x00\x00\x00\x00\x00\x00\x00\x00\
\x00\x00\x00\x00\x00\x3e\x00\x00\x00\x02\x00",
        store: b"\x01\x00\x00\x00\x00\x00\x00\x00\x022\xf9\x5c\x0d\x12D\xa7\x8b+\xe1\xba\xb8\xde\x17\x90o\xab\
\xb2\xc4\xa8hi\x01\x00\x00\x00\x00\x00\x00\x00\x022\xf9\x5c\x0d\x12D\xa7\x8b+\xe1\xba\xb8\xde\x17\x90o\xab\
\xb2\xc4\xa8hi",
        opened: Err(OpenWhy::Damaged {
            file: 0,
            at: 8,
            harm: Harm::Refused { event: 1 },
        }),
    },
    Case {
        title: "a byte of the store",
        ledger: b"SWHARC1\x0a\x01B\x00\x00\x00\x18\x00\x00\x00\x01\x00\x00\x00\x00\x00\x00\x00\x00\x00\x00\
\x00\x00\x00\x00\x00\x1f\x00\x00\x00\x01\x00",
        store: b"\x09\x00\x00\x00\x00\x00\x00\x00\x022\xf9\x5c\x0d\x12D\xa7\x8b+\xe1\xba\xb8\xde\x17\x90o\xab\
\xb2\xc4\xa8hi",
        opened: Err(OpenWhy::Damaged {
            file: 1,
            at: 0,
            harm: Harm::Kind { found: 9 },
        }),
    },
    Case {
        title: "an open gate and closed ones",
        ledger: b"SWHARC1\x0a\x01O\x00\x00\x00\x1c\x00\x00\x00\x01\x01\x00\x00\x00\x00;\x9a\xca\x00https://e.org/p\x00",
        store: b"",
        opened: Ok(1),
    },
    Case {
        title: "an open gate and closed ones",
        ledger: b"SWHARC1\x0a\x00O\x00\x00\x00\x1c\x00\x00\x00\x01\x01\x00\x00\x00\x00;\x9a\xca\x00https://e.org/p\x00",
        store: b"",
        opened: Ok(0),
    },
    Case {
        title: "an open gate and closed ones",
        ledger: b"SWHARC1\x0a\x07O\x00\x00\x00\x1c\x00\x00\x00\x01\x01\x00\x00\x00\x00;\x9a\xca\x00https://e.org/p\x00",
        store: b"",
        opened: Ok(0),
    },
];

#[test]
fn each_opening_has_its_answer(rt: HostRuntime) -> Result<(), Fail> {
    let alloc = rt.alloc();
    for case in CASES {
        assert!(rt; is_opened(alloc, case)?, "{}", case.title);
    }
    Ok(())
}
