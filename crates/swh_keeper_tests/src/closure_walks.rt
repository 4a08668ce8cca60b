//! Walks over graphs of numbers, and what speaks against a certificate. Each begins at the name 0.
use crate::graphs::{Rows, chain, closed_of, graph, name, names, star};
use std::alloc::Global;
use std::test::Fail;
use swh_closure::{Cert, Closed, Gap, WalkFault, check, walk};

/// What a walk lists; or what is missing, and its parent.
struct Walk {
    rows: &'static [&'static [u32]],
    closed: &'static [u32],
    listed: Result<&'static [u32], (Option<u32>, u32)>,
}

const WALKS: &[Walk] = &[
    // A cycle and a diamond.
    Walk {
        rows: &[&[2], &[0], &[1, 2]],
        closed: &[],
        listed: Ok(&[0, 1, 2]),
    },
    Walk {
        rows: &[&[2, 1], &[3], &[3], &[]],
        closed: &[],
        listed: Ok(&[0, 1, 2, 3]),
    },
    // It goes into nothing that is known to be closed.
    Walk {
        rows: &[&[1, 3], &[2], &[2], &[4], &[]],
        closed: &[1],
        listed: Ok(&[0, 3, 4]),
    },
    Walk {
        rows: &[&[1, 3], &[2], &[2], &[4], &[]],
        closed: &[1, 0],
        listed: Ok(&[]),
    },
    // The root is not held, or a name far from it.
    Walk {
        rows: &[],
        closed: &[],
        listed: Err((None, 0)),
    },
    Walk {
        rows: &[&[1], &[2], &[0, 9]],
        closed: &[],
        listed: Err((Some(2), 9)),
    },
];

fn fault_of(missing: (Option<u32>, u32)) -> WalkFault {
    let (parent, child) = missing;
    WalkFault::Missing {
        parent: match parent {
            Some(number) => Some(name(number)),
            None => None,
        },
        child: name(child),
    }
}

/// Says whether a certificate of the name 0 lists these numbers, and passes.
fn is_passed(
    alloc: Global,
    rows: &Rows,
    closed: &Closed,
    cert: &Cert,
    listed: &[u32],
) -> Result<bool, Fail> {
    let wanted = names(alloc, listed)?;
    Ok(
        cert.root == name(0)
            && cert.names.as_slice() == wanted.as_slice()
            && check(rows, closed, cert).is_ok(),
    )
}

fn is_walked(alloc: Global, row: &Walk) -> Result<bool, Fail> {
    let rows = graph(alloc, row.rows)?;
    let closed = closed_of(alloc, row.closed)?;
    match (walk(alloc, &rows, name(0), &closed), row.listed) {
        (Ok(cert), Ok(listed)) => is_passed(alloc, &rows, &closed, &cert, listed),
        (Err(fault), Err(missing)) => Ok(fault == fault_of(missing)),
        _ => Ok(false),
    }
}

#[test]
fn each_walk_lists_what_is_reached(rt: HostRuntime) -> Result<(), Fail> {
    let alloc = rt.alloc();
    for (number, row) in WALKS.iter().enumerate() {
        assert!(rt; is_walked(alloc, row)?, "walk {number}");
    }
    Ok(())
}

/// How many names are listed of a graph of 300,000 that passes.
fn listed(alloc: Global, rows: &Rows) -> Result<usize, Fail> {
    let none = Closed::new(alloc);
    let cert = walk(alloc, rows, name(0), &none)?;
    if check(rows, &none, &cert).is_err() {
        return Err(Fail::from("a certificate"));
    }
    Ok(cert.names.len())
}

#[test]
fn a_long_chain_is_walked(rt: HostRuntime) -> Result<(), Fail> {
    let alloc = rt.alloc();
    let rows = chain(alloc, 300_000)?;
    assert_eq!(rt; listed(alloc, &rows)?, 300_000);
    Ok(())
}

#[test]
fn a_wide_star_is_walked(rt: HostRuntime) -> Result<(), Fail> {
    let alloc = rt.alloc();
    let rows = star(alloc, 300_000)?;
    assert_eq!(rt; listed(alloc, &rows)?, 300_000);
    Ok(())
}

/// What speaks against a list of numbers: the child that is not listed, with its parent; the name that is not held; or
/// nothing.
enum Against {
    Nothing,
    Unlisted(Option<u32>, u32),
    NotHeld(u32),
}

struct List {
    closed: &'static [u32],
    listed: &'static [u32],
    against: Against,
}

/// 0 leads to 1 and 2, and both to 3.
const DIAMOND: &[&[u32]] = &[&[1, 2], &[3], &[3], &[]];

const LISTS: &[List] = &[
    List {
        closed: &[],
        listed: &[],
        against: Against::Unlisted(None, 0),
    },
    List {
        closed: &[],
        listed: &[1, 2, 3],
        against: Against::Unlisted(None, 0),
    },
    List {
        closed: &[],
        listed: &[0],
        against: Against::Unlisted(Some(0), 1),
    },
    List {
        closed: &[],
        listed: &[0, 1, 2],
        against: Against::Unlisted(Some(1), 3),
    },
    List {
        closed: &[],
        listed: &[0, 1, 2, 3, 9],
        against: Against::NotHeld(9),
    },
    List {
        closed: &[],
        listed: &[0, 1, 2, 3],
        against: Against::Nothing,
    },
    // A list that does not ascend.
    List {
        closed: &[],
        listed: &[3, 1, 0, 2],
        against: Against::Nothing,
    },
    List {
        closed: &[],
        listed: &[2, 1, 0],
        against: Against::Unlisted(Some(2), 3),
    },
    // A child that is known to be closed.
    List {
        closed: &[3],
        listed: &[0, 1, 2],
        against: Against::Nothing,
    },
];

fn gap_of(against: &Against) -> Option<Gap> {
    match against {
        Against::Nothing => None,
        Against::Unlisted(None, child) => Some(Gap::Unlisted {
            parent: None,
            child: name(*child),
        }),
        Against::Unlisted(Some(parent), child) => Some(Gap::Unlisted {
            parent: Some(name(*parent)),
            child: name(*child),
        }),
        Against::NotHeld(number) => Some(Gap::NotHeld {
            name: name(*number),
        }),
    }
}

fn is_judged(alloc: Global, row: &List) -> Result<bool, Fail> {
    let rows = graph(alloc, DIAMOND)?;
    let closed = closed_of(alloc, row.closed)?;
    let cert = Cert {
        root: name(0),
        names: names(alloc, row.listed)?,
    };
    Ok(check(&rows, &closed, &cert).err() == gap_of(&row.against))
}

#[test]
fn each_gap_of_a_list_is_told(rt: HostRuntime) -> Result<(), Fail> {
    let alloc = rt.alloc();
    for (number, row) in LISTS.iter().enumerate() {
        assert!(rt; is_judged(alloc, row)?, "list {number}");
    }
    Ok(())
}

#[test]
fn a_set_has_each_name_once(rt: HostRuntime) -> Result<(), Fail> {
    let closed = closed_of(rt.alloc(), &[1])?;
    assert_eq!(rt; closed.len(), 1);
    assert!(rt; closed.contains(&name(1)) && !closed.contains(&name(2)));
    Ok(())
}
