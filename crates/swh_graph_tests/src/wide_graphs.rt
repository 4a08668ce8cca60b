//! Wide objects: a merge of a thousand parents, a hundred aliases in a row, and a folder of 100,000 files.
use std::alloc::Global;
use std::test::Fail;
use swh_base::{Kind, Name};
use swh_graph::{GraphFault, at_path, log, resolve};
use swh_graph_fixtures::add;
use swh_graph_fixtures::wide::{
    alias_body, digits, file_id, folder_body, hex_of, hex_of_number, merge_body, numbered_body,
};
use swh_replay::Replayed;
use swh_swhid::parse;

fn added(alloc: Global, shown: &mut Replayed, kind: Kind, body: Vec<u8>) -> Result<Name, Fail> {
    match add(alloc, shown, kind, body) {
        Some(name) => Ok(name),
        None => Err(Fail::from("an object")),
    }
}

/// How many parents of a merge are held, how many behind them are not, and how many names of its log are asked for.
type Merge = (u32, u32, u32);

// Of what a log does not list nothing need be held.
const MERGES: &[Merge] = &[
    (99, 901, 100),
    (99, 901, 101),
    (1_000, 0, 1),
    (1_000, 0, 100),
    (1_000, 0, 1_001),
    (1_000, 0, u32::MAX),
    (0, 1_000, 1),
    (0, 1_000, 2),
    (3, 0, 0),
];

/// Revisions without parents, by their numbers.
fn roots(
    alloc: Global,
    shown: &mut Replayed,
    folder: &Name,
    count: u32,
) -> Result<Vec<Name>, Fail> {
    let mut roots = Vec::new(alloc);
    for number in 0..count {
        let body = numbered_body(alloc, folder, number)?;
        roots.push(added(alloc, shown, Kind::Revision, body)?)?;
    }
    Ok(roots)
}

/// Whether the names are the merge and its first parents, as many as may be.
fn are_first(names: &[Name], merge: Name, parents: &[Name], limit: usize) -> bool {
    match names.split_first() {
        Some((first, others)) => {
            *first == merge
                && others.len() < limit
                && parents.starts_with(others)
                && (others.len() == parents.len() || others.len() + 1 == limit)
        }
        None => limit == 0,
    }
}

fn is_logged(alloc: Global, case: &Merge) -> Result<bool, Fail> {
    let (held, absent, limit) = *case;
    let mut shown = Replayed::new(alloc);
    let folder = added(alloc, &mut shown, Kind::Directory, Vec::new(alloc))?;
    let parents = roots(alloc, &mut shown, &folder, held)?;
    let body = merge_body(alloc, &folder, parents.as_slice(), absent)?;
    let merge = added(alloc, &mut shown, Kind::Revision, body)?;
    let first_absent = Name::from_hex(Kind::Revision, hex_of_number(alloc, 0)?.as_slice());
    let lacks = absent > 0 && held < limit.saturating_sub(1);
    Ok(match log(alloc, &shown, merge.id, limit) {
        Ok(names) => {
            !lacks && are_first(names.as_slice(), merge, parents.as_slice(), limit as usize)
        }
        Err(GraphFault::NotHeld { name }) => lacks && Some(name) == first_absent,
        Err(_) => false,
    })
}

#[test]
fn a_merge_of_a_thousand_parents_is_logged(rt: HostRuntime) -> Result<(), Fail> {
    for case in MERGES {
        assert!(rt; is_logged(rt.alloc(), case)?);
    }
    Ok(())
}

/// Whether the path `/` from a snapshot, whose HEAD leads over so many aliases, is the empty folder; or nowhere, where the
/// last of them has no branch.
fn is_resolved(alloc: Global, aliases: u32, ends: bool) -> Result<bool, Fail> {
    let mut shown = Replayed::new(alloc);
    let folder = added(alloc, &mut shown, Kind::Directory, Vec::new(alloc))?;
    let end = if ends { Some(folder) } else { None };
    let body = alias_body(alloc, aliases, end)?;
    let snapshot = added(alloc, &mut shown, Kind::Snapshot, body)?;
    let mut text = b"swh:1:dir:".to_vec(alloc)?;
    text.extend_from_slice(&hex_of(&folder))?;
    text.extend_from_slice(b";anchor=swh:1:snp:")?;
    text.extend_from_slice(&hex_of(&snapshot))?;
    text.extend_from_slice(b";path=/")?;
    let Ok(swhid) = parse(alloc, text.as_slice()) else {
        return Err(Fail::from("a SWHID"));
    };
    Ok(match resolve(alloc, &shown, &swhid) {
        Ok(name) => ends && name == folder,
        Err(fault) => !ends && fault == GraphFault::NoPath { component: 0 },
    })
}

#[test]
fn a_hundred_aliases_lead_to_a_root(rt: HostRuntime) -> Result<(), Fail> {
    for (aliases, ends) in &[(0, true), (100, true), (100, false)] {
        assert!(rt; is_resolved(rt.alloc(), *aliases, *ends)?);
    }
    Ok(())
}

/// Numbers of files, and whether the folder has them.
const FILES: &[(u32, bool)] = &[(0, true), (50_000, true), (99_999, true), (100_000, false)];

/// The number of the first file that is found otherwise, or how many there are.
fn first_other(alloc: Global) -> Result<usize, Fail> {
    let mut shown = Replayed::new(alloc);
    let body = folder_body(alloc, 100_000)?;
    let folder = added(alloc, &mut shown, Kind::Directory, body)?;
    for (place, (number, there)) in FILES.iter().enumerate() {
        let is = match at_path(alloc, &shown, folder.id, &digits(*number)) {
            Ok(entry) => *there && entry.mode == 100_644 && entry.id == file_id(*number),
            Err(fault) => !*there && fault == GraphFault::NoPath { component: 0 },
        };
        if !is {
            return Ok(place);
        }
    }
    Ok(FILES.len())
}

#[test]
fn a_wide_folder_is_searched(rt: HostRuntime) -> Result<(), Fail> {
    assert_eq!(rt; first_other(rt.alloc())?, FILES.len());
    Ok(())
}
