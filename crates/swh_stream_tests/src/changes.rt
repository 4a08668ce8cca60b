// Lines that change the tree (git-fast-import(1), filemodify, filedelete, filecopy, filerename, filedeleteall).
use std::alloc::{AllocError, Global};
use std::test::Fail;
use swh_fastgrammar::{Change, Dataref};
use swh_fastlines::{ChangeLine, change_line};

/// What a line says.
#[derive(Clone, Copy)]
enum Said {
    /// The path is set to a mark's blob.
    Mark(u32, u64, &'static [u8]),
    Inline(u32, &'static [u8]),
    /// The path is a revision of another project; the first byte of its id, and the last.
    Revision(u8, u8, &'static [u8]),
    Delete(&'static [u8]),
    Copy(&'static [u8], &'static [u8]),
    Move(&'static [u8], &'static [u8]),
    Clear,
    No,
}

const ROWS: &[(&[u8], Said)] = &[
    (b"M 100644 :7 a/b c", Said::Mark(100_644, 7, b"a/b c")),
    (b"M 755 :7 \"a\\tb\"", Said::Mark(100_755, 7, b"a\tb")),
    (b"M 120000 :7 l", Said::Mark(120_000, 7, b"l")),
    (b"M 644 inline a", Said::Inline(100_644, b"a")),
    (
        b"M 160000 4b825dc642cb6eb9a060e54bf8d69288fbee4904 sub",
        Said::Revision(0x4b, 0x04, b"sub"),
    ),
    (b"C a b c", Said::Copy(b"a", b"b c")),
    (b"R \"a b\" c", Said::Move(b"a b", b"c")),
    (b"D a/b", Said::Delete(b"a/b")),
    (b"deleteall", Said::Clear),
    (b"M 777 :1 a", Said::No),
    (b"M 100644 :0 a", Said::No),
    (b"M 160000 :1 a", Said::No),
    (b"M 100644 inline a//b", Said::No),
    (b"C a", Said::No),
    (b"D ../a", Said::No),
    (b"deleteall ", Said::No),
    (b"from :1", Said::No),
];

fn sets(what: &Dataref, wanted_mode: u32, mode: u32, said: Said) -> bool {
    match (what, said) {
        (Dataref::Mark(mark), Said::Mark(_, wanted, _)) => mode == wanted_mode && *mark == wanted,
        (Dataref::Hex(id), Said::Revision(first, last, _)) => {
            mode == 160_000 && id[0] == first && id[19] == last
        }
        _ => false,
    }
}

fn is_change(change: &Change, said: Said) -> bool {
    match (change, said) {
        (Change::Set { mode, what, path }, Said::Mark(wanted, _, name)) => {
            path.as_slice() == name && sets(what, wanted, *mode, said)
        }
        (Change::Set { mode, what, path }, Said::Revision(_, _, name)) => {
            path.as_slice() == name && sets(what, 160_000, *mode, said)
        }
        (Change::Delete { path }, Said::Delete(name)) => path.as_slice() == name,
        (Change::Copy { source, path }, Said::Copy(from, to)) => {
            source.as_slice() == from && path.as_slice() == to
        }
        (Change::Move { source, path }, Said::Move(from, to)) => {
            source.as_slice() == from && path.as_slice() == to
        }
        (Change::Clear, Said::Clear) => true,
        _ => false,
    }
}

fn says(alloc: Global, line: &[u8], said: Said) -> Result<bool, AllocError> {
    match (change_line(alloc, line)?, said) {
        (ChangeLine::Whole(change), _) => Ok(is_change(&change, said)),
        (ChangeLine::Inline { mode, path }, Said::Inline(wanted, name)) => {
            Ok(mode == wanted && path.as_slice() == name)
        }
        (ChangeLine::No, Said::No) => Ok(true),
        _ => Ok(false),
    }
}

#[test]
fn lines_of_changes(rt: HostRuntime) -> Result<(), Fail> {
    let alloc = rt.alloc();
    for (number, (line, said)) in ROWS.iter().enumerate() {
        assert!(rt; says(alloc, line, *said)?, "row {number}");
    }
    Ok(())
}
