// Refs as many and as long as may be, and one more.
use crate::batch_world::fault_of_both;
use crate::refs_of_git::COMMIT_FIRST;
use std::alloc::{AllocError, Global};
use std::test::Fail;
use swh_base::{Kind, Name, Sha1Namer, Which};
use swh_batchread::BatchFault;

/// The id of the commit and a space.
const ID: &[u8] = b"295c0651a95ba32ac5e14f92da0161b122942cac ";

/// Adds a line of the id, a name that begins with this letter and goes on with so many others, and an LF.
fn add_line(
    lines: &mut Vec<u8>,
    alloc: Global,
    first: u8,
    letters: usize,
) -> Result<(), AllocError> {
    let mut name = Vec::from_elem(alloc, b'a', letters)?;
    lines.extend_from_slice(ID)?;
    lines.push(first)?;
    lines.append(&mut name)?;
    lines.push(b'\n')?;
    Ok(())
}

/// A line of 43 bytes and so many letters.
fn long_line(alloc: Global, letters: usize) -> Result<Vec<u8>, AllocError> {
    let mut line = Vec::new(alloc);
    add_line(&mut line, alloc, b'a', letters)?;
    Ok(line)
}

/// 64 of the longest lines, whose branches have 1,048,567 bytes each in a snapshot, and one of so many letters, whose branch has
/// 34 bytes more.
fn long_lines(alloc: Global, letters: usize) -> Result<Vec<u8>, AllocError> {
    let mut lines = Vec::new(alloc);
    for number in 0..64u8 {
        add_line(&mut lines, alloc, b'0' + number, 1_048_533)?;
    }
    add_line(&mut lines, alloc, b'a', letters)?;
    Ok(lines)
}

/// `HEAD`, and so many other refs, each named by five letters.
fn many_lines(alloc: Global, count: u64) -> Result<Vec<u8>, AllocError> {
    let mut lines = Vec::from_slice(alloc, ID)?;
    lines.extend_from_slice(b"HEAD\n")?;
    for number in 0..count {
        lines.extend_from_slice(ID)?;
        let mut rest = number;
        for _letter in 0..5 {
            lines.push(b'a' + (rest % 16) as u8)?;
            rest /= 16;
        }
        lines.push(b'\n')?;
    }
    Ok(lines)
}

/// What is told of the batch with these refs.
fn told(alloc: Global, refs: &[u8]) -> Result<Option<BatchFault>, AllocError> {
    fault_of_both(alloc, &Sha1Namer, COMMIT_FIRST, refs, 65_536)
}

#[test]
fn longest_line(rt: HostRuntime) -> Result<(), Fail> {
    let alloc = rt.alloc();
    let line = long_line(alloc, 1_048_533)?;
    assert_eq!(&rt; told(alloc, line.as_slice())?, None);
    Ok(())
}

#[test]
fn line_above_the_limit(rt: HostRuntime) -> Result<(), Fail> {
    let alloc = rt.alloc();
    let line = long_line(alloc, 1_048_534)?;
    let fault = BatchFault::Limit {
        which: Which::Line,
        number: 1_048_577,
    };
    assert_eq!(&rt; told(alloc, line.as_slice())?, Some(fault));
    Ok(())
}

#[test]
fn most_refs(rt: HostRuntime) -> Result<(), Fail> {
    let alloc = rt.alloc();
    let lines = many_lines(alloc, 65_536)?;
    assert_eq!(&rt; told(alloc, lines.as_slice())?, None);
    Ok(())
}

#[test]
fn refs_above_the_limit(rt: HostRuntime) -> Result<(), Fail> {
    let alloc = rt.alloc();
    let lines = many_lines(alloc, 65_537)?;
    let fault = BatchFault::Limit {
        which: Which::Refs,
        number: 65_537,
    };
    assert_eq!(&rt; told(alloc, lines.as_slice())?, Some(fault));
    Ok(())
}

#[test]
fn longest_snapshot(rt: HostRuntime) -> Result<(), Fail> {
    let alloc = rt.alloc();
    let lines = long_lines(alloc, 542)?;
    assert_eq!(&rt; told(alloc, lines.as_slice())?, None);
    Ok(())
}

#[test]
fn snapshot_above_the_limit(rt: HostRuntime) -> Result<(), Fail> {
    let alloc = rt.alloc();
    let lines = long_lines(alloc, 543)?;
    let fault = BatchFault::Limit {
        which: Which::Body,
        number: 67_108_865,
    };
    assert_eq!(&rt; told(alloc, lines.as_slice())?, Some(fault));
    Ok(())
}

/// The commit alone.
const NO_TREE: &[u8] = b"295c0651a95ba32ac5e14f92da0161b122942cac commit 128\n\
tree d8329fc1cc938780ffdd9f94e0d364e0ea74f579\n\
author A <a@e.org> 1000000000 +0000\n\
committer A <a@e.org> 1000000000 +0000\n\
\n\
first\n\
\n";

/// The id that no object of the commit alone has, with these refs.
fn lacks(alloc: Global, refs: &[u8]) -> Result<Option<Name>, AllocError> {
    match fault_of_both(alloc, &Sha1Namer, NO_TREE, refs, 65_536)? {
        Some(BatchFault::NoObject { id }) => Ok(Some(Name {
            kind: Kind::Directory,
            id,
        })),
        _ => Ok(None),
    }
}

#[test]
fn lacking_before_a_long_snapshot(rt: HostRuntime) -> Result<(), Fail> {
    let alloc = rt.alloc();
    let lines = long_lines(alloc, 543)?;
    let tree = Name::from_hex(Kind::Directory, b"d8329fc1cc938780ffdd9f94e0d364e0ea74f579");
    assert_eq!(&rt; lacks(alloc, lines.as_slice())?, tree);
    Ok(())
}

#[test]
fn refs_above_the_limit_before_lacking(rt: HostRuntime) -> Result<(), Fail> {
    let alloc = rt.alloc();
    let lines = many_lines(alloc, 65_537)?;
    let fault = BatchFault::Limit {
        which: Which::Refs,
        number: 65_537,
    };
    let told = fault_of_both(alloc, &Sha1Namer, b"", lines.as_slice(), 65_536)?;
    assert_eq!(&rt; told, Some(fault));
    Ok(())
}
