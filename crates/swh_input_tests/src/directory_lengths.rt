// Directories of 67,108,864 bytes, which is the most that a body may have, and of one more. The id is that of `git mktree`.
use crate::directories::is_id;
use crate::directory_making::{Outcome, end_of};
use crate::laid::Thing::{File as Bytes, Folder as List};
use crate::laid::{Laid, folder_of, listing_of};
use Told::{Gives, IsLong};
use What::{File, Folder};
use std::alloc::{AllocError, Global};
use std::test::Fail;
use swh_outside::What;

/// What is told of a folder.
#[derive(Clone, Copy)]
enum Told {
    /// Its directory has an id of these digits.
    Gives(&'static [u8]),
    /// The first directory that is too long has so many bytes.
    IsLong(u64),
}

/// An empty folder and an empty file, whose entries have 28 and 29 bytes.
const LAID: &[Laid] = &[
    ("", List(&[("d", Folder), ("f", File)])),
    ("d", List(&[])),
    ("f", Bytes(b"")),
];

/// In which folders, each with a slash behind it, a listing has projects: 1,023 whose entries have 65,536 bytes each, and one
/// whose name has so many letters behind its number.
type Row = (&'static [(&'static [u8], usize)], Told);

const ROWS: &[Row] = &[
    (
        &[(b"", 65_447)],
        Gives(b"7d32c5f8684842498a149ff107ffe98ca0e704ae"),
    ),
    (&[(b"", 65_448)], IsLong(67_108_865)),
    (&[(b"d/", 65_505)], IsLong(67_108_865)),
    // The first of two, which is that of the whole folder.
    (&[(b"d/", 65_505), (b"", 65_449)], IsLong(67_108_866)),
];

/// Adds a line of a project, which is named by a number and so many letters.
fn add_line(
    lines: &mut Vec<u8>,
    alloc: Global,
    folder: &[u8],
    number: u16,
    letters: usize,
) -> Result<(), AllocError> {
    lines.extend_from_slice(b"160000 0123456789abcdef0123456789abcdef01234567 ")?;
    lines.extend_from_slice(folder)?;
    let mut rest = number;
    for _digit in 0..4 {
        lines.push(b'0' + (rest % 10) as u8)?;
        rest /= 10;
    }
    let mut name = Vec::from_elem(alloc, b'a', letters)?;
    lines.append(&mut name)?;
    lines.push(b'\n')?;
    Ok(())
}

/// A row's listing.
fn lines_of(alloc: Global, folders: &[(&[u8], usize)]) -> Result<Vec<u8>, AllocError> {
    let mut lines = Vec::new(alloc);
    for (folder, letters) in folders {
        for number in 0..1_023 {
            add_line(&mut lines, alloc, folder, number, 65_504)?;
        }
        add_line(&mut lines, alloc, folder, 1_023, *letters)?;
    }
    Ok(lines)
}

/// Whether this is told of a row's folder.
fn tells(alloc: Global, (folders, told): Row) -> Result<bool, AllocError> {
    let mut folder = folder_of(alloc, LAID)?;
    let mut listing = listing_of(alloc, lines_of(alloc, folders)?);
    match (end_of(alloc, &mut folder, &mut listing), told) {
        (
            Outcome::Makes {
                objects,
                root,
                snapshot: _,
            },
            Gives(hex),
        ) => Ok(objects.len() == 4 && is_id(root, hex)),
        (Outcome::IsLong(size), IsLong(wanted)) => Ok(size == wanted),
        _ => Ok(false),
    }
}

#[test]
fn directories_of_the_limit(rt: HostRuntime) -> Result<(), Fail> {
    for (number, row) in ROWS.iter().enumerate() {
        assert!(rt; tells(rt.alloc(), *row)?, "row {number}");
    }
    Ok(())
}
