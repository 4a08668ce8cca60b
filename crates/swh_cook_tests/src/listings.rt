//! The lines of a listing.
use std::alloc::Global;
use std::test::Fail;
use swh_dircook::push_listed;
use swh_dirfmt::SpelledEntry;

/// The id of each entry.
const ID: [u8; 20] = [
    0x01, 0x23, 0x45, 0x67, 0x89, 0xab, 0xcd, 0xef, 0x10, 0x32, 0x54, 0x76, 0x98, 0xba, 0xdc, 0xfe,
    0x00, 0xff, 0x0a, 0xa0,
];

/// The mode of an entry, its path, and what a listing says of it.
const LINES: &[(u32, &[u8], &[u8])] = &[
    (100_644, b"test.txt", b""),
    (40_000, b"folder", b""),
    (100_755, b"run", b"100755 run\n"),
    (120_000, b"a/ln", b"120000 a/ln\n"),
    (
        160_000,
        b"sub",
        b"160000 0123456789abcdef1032547698badcfe00ff0aa0 sub\n",
    ),
    (100_755, b"a b", b"100755 a b\n"),
    (100_755, b"caf\xc3\xa9", b"100755 \"caf\\303\\251\"\n"),
    (
        120_000,
        b"say \"hi\"\n",
        b"120000 \"say \\\"hi\\\"\\012\"\n",
    ),
];

/// The number of the first line that is written in another way, or how many there are.
fn first_other_line(alloc: Global) -> Result<usize, Fail> {
    for (number, (mode, path, line)) in LINES.iter().enumerate() {
        let entry = SpelledEntry {
            mode: *mode,
            name: path,
            id: &ID,
        };
        let mut out = Vec::new(alloc);
        if push_listed(&mut out, path, &entry).is_err() || out.as_slice() != *line {
            return Ok(number);
        }
    }
    Ok(LINES.len())
}

#[test]
fn a_listing_says_what_files_do_not(rt: HostRuntime) -> Result<(), Fail> {
    assert_eq!(rt; first_other_line(rt.alloc())?, LINES.len());
    Ok(())
}
