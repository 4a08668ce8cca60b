// Folders that are found by their entries.
use std::alloc::{AllocError, Global};
use std::test::Fail;
use swh_entries::{Child, Entry, Known, Leaf, Packed};

const FILE: Entry = Entry {
    name: 3,
    child: Child::File(Leaf {
        mode: 100_644,
        id: [1; 20],
    }),
};

const PROGRAM: Entry = Entry {
    name: 4,
    child: Child::File(Leaf {
        mode: 100_755,
        id: [1; 20],
    }),
};

const FOLDER: Entry = Entry {
    name: 3,
    child: Child::Folder(0),
};

/// The entries of each folder. All but the first are learnt.
const LISTS: [&[Entry]; 5] = [&[PROGRAM], &[FILE], &[FILE, PROGRAM], &[FOLDER], &[]];

/// Below which number a folder is looked for, its entries, and which is found.
const ROWS: [(usize, &[Entry], Option<usize>); 8] = [
    (5, &[FILE], Some(1)),
    (5, &[FILE, PROGRAM], Some(2)),
    (5, &[FOLDER], Some(3)),
    (5, &[], Some(4)),
    (2, &[FILE], Some(1)),
    (2, &[FILE, PROGRAM], None),
    (5, &[PROGRAM], None),
    (5, &[PROGRAM, FILE], None),
];

fn folders(alloc: Global) -> Result<Vec<Packed>, AllocError> {
    let mut folders = Vec::new(alloc);
    for list in LISTS {
        folders.push(Packed::of(alloc, list)?)?;
    }
    Ok(folders)
}

#[test]
fn what_was_learnt_is_found(rt: HostRuntime) -> Result<(), Fail> {
    let nodes = folders(rt.alloc())?;
    let nodes = nodes.as_slice();
    let mut known = Known::new(rt.alloc());
    known.learn(nodes, 1);
    for (row, (base, entries, found)) in ROWS.iter().enumerate() {
        let base = nodes.len().min(*base);
        assert_eq!(rt; known.find(nodes, base, entries), *found, "row {row}");
    }
    Ok(())
}
