//! The limits of what a stream carries, at the limit and one above it: of paths, of branches, and of the whole text;
//! that a long text is put in pieces; and that a long history and a deep folder take no recursion.
use crate::stream_world::{archive_with, cooked, name_of, push_id, put, refusal};
use std::alloc::Global;
use std::test::Fail;
use swh_base::{Kind, Name};
use swh_carried::{CookFault, Why};
use swh_graph_fixtures::objects::{FIRST, VERSION_1};
use swh_memory_input::MemorySink;
use swh_replay::Replayed;

/// How long the names of a commit's folders are, each of which is the same directory; how long the name of its file is; and
/// whether a path is too long.
const PATHS: &[(&[usize], usize, bool)] = &[
    (&[1_000], 64_534, false),
    (&[1_000], 64_535, true),
    // The longest way to a directory is what counts.
    (&[1, 1_000], 64_534, false),
    (&[1, 1_000], 64_535, true),
    (&[65_533], 1, false),
    (&[65_534], 1, true),
    (&[70_000], 1, true),
];

/// Appends a letter so many times.
fn push_letters(text: &mut Vec<u8>, count: usize) -> Result<(), Fail> {
    for _letter in 0..count {
        text.push(b'a')?;
    }
    Ok(())
}

/// The last digit of a number.
fn digit(number: usize) -> u8 {
    b'0' + (number % 10) as u8
}

/// Appends a number in five digits.
fn push_number(text: &mut Vec<u8>, number: usize) -> Result<(), Fail> {
    text.push(digit(number / 10_000))?;
    text.push(digit(number / 1_000))?;
    text.push(digit(number / 100))?;
    text.push(digit(number / 10))?;
    text.push(digit(number))?;
    Ok(())
}

/// Appends an entry with a name of so many letters.
fn push_entry(body: &mut Vec<u8>, mode: &[u8], length: usize, name: &Name) -> Result<(), Fail> {
    body.extend_from_slice(mode)?;
    push_letters(body, length)?;
    body.push(0)?;
    body.extend_from_slice(&name.id)?;
    Ok(())
}

/// A commit of a directory, with a message of so many letters and an LF.
pub fn put_commit(
    alloc: Global,
    shown: &mut Replayed,
    directory: &Name,
    letters: usize,
) -> Result<Name, Fail> {
    let mut body = b"tree ".to_vec(alloc)?;
    push_id(&mut body, directory)?;
    body.extend_from_slice(b"\nauthor A <a@e.org> 1 +0000\ncommitter A <a@e.org> 1 +0000\n\n")?;
    push_letters(&mut body, letters)?;
    body.push(b'\n')?;
    put(alloc, shown, Kind::Revision, body)
}

/// Whether just the path of the file is too long, in a commit with these folders, where it is to be.
fn is_judged(alloc: Global, folders: &[usize], file: usize, long: bool) -> Result<bool, Fail> {
    let mut shown = archive_with(alloc, &[])?;
    let content = name_of(VERSION_1)?;
    let mut inner = Vec::new(alloc);
    push_entry(&mut inner, b"100644 ", file, &content)?;
    let name = put(alloc, &mut shown, Kind::Directory, inner)?;
    let mut outer = Vec::new(alloc);
    for length in folders {
        push_entry(&mut outer, b"40000 ", *length, &name)?;
    }
    let outer = put(alloc, &mut shown, Kind::Directory, outer)?;
    let root = put_commit(alloc, &mut shown, &outer, 0)?;
    let why = Why::Path;
    let told = long.then_some(CookFault::Uncarried { name, why });
    Ok(refusal(alloc, &shown, root)? == told)
}

/// The number of the first commit that is judged otherwise, or how many there are.
fn first_misjudged(alloc: Global) -> Result<usize, Fail> {
    for (number, (folders, file, long)) in PATHS.iter().enumerate() {
        if !is_judged(alloc, folders, *file, *long)? {
            return Ok(number);
        }
    }
    Ok(PATHS.len())
}

/// A snapshot of so many branches to a commit, and the alias `HEAD`.
fn put_branches(alloc: Global, shown: &mut Replayed, count: usize) -> Result<Name, Fail> {
    let commit = name_of(FIRST)?;
    let mut body = b"alias HEAD\015:refs/heads/main".to_vec(alloc)?;
    for number in 0..count {
        body.extend_from_slice(b"revision refs/heads/")?;
        push_number(&mut body, number)?;
        body.extend_from_slice(b"\020:")?;
        body.extend_from_slice(&commit.id)?;
    }
    put(alloc, shown, Kind::Snapshot, body)
}

/// A release of this name and kind, whose tag is a number in five digits and so many letters.
fn put_tag(
    alloc: Global,
    shown: &mut Replayed,
    target: &Name,
    number: usize,
    letters: usize,
) -> Result<Name, Fail> {
    let mut body = b"object ".to_vec(alloc)?;
    push_id(&mut body, target)?;
    let word: &[u8] = match target.kind {
        Kind::Release => b"\ntype tag\ntag ",
        _ => b"\ntype commit\ntag ",
    };
    body.extend_from_slice(word)?;
    push_number(&mut body, number)?;
    push_letters(&mut body, letters)?;
    body.extend_from_slice(b"\n\n")?;
    put(alloc, shown, Kind::Release, body)
}

/// A release of a release, and so on, of so many tags with so many letters each, down to a commit.
fn put_tags(
    alloc: Global,
    shown: &mut Replayed,
    count: usize,
    letters: usize,
) -> Result<Name, Fail> {
    let mut name = name_of(FIRST)?;
    for number in 0..count {
        name = put_tag(alloc, shown, &name, number, letters)?;
    }
    Ok(name)
}

/// Whether the root is refused for this rule, if for one.
fn is_told(alloc: Global, shown: &Replayed, name: Name, why: Option<Why>) -> Result<bool, Fail> {
    let told = match why {
        Some(why) => Some(CookFault::Uncarried { name, why }),
        None => None,
    };
    Ok(refusal(alloc, shown, name)? == told)
}

/// A commit of 17,894 files, each at a path of 60,006 bytes, of which 60,000 are written as four, with a message of so many
/// letters.
fn put_wide(alloc: Global, shown: &mut Replayed, letters: usize) -> Result<Name, Fail> {
    let content = name_of(VERSION_1)?;
    let mut files = Vec::new(alloc);
    for number in 0..17_894 {
        files.extend_from_slice(b"100644 ")?;
        push_number(&mut files, number)?;
        files.push(0)?;
        files.extend_from_slice(&content.id)?;
    }
    let files = put(alloc, shown, Kind::Directory, files)?;
    let mut top = b"40000 ".to_vec(alloc)?;
    top.resize(60_006, 1)?;
    top.push(0)?;
    top.extend_from_slice(&files.id)?;
    let top = put(alloc, shown, Kind::Directory, top)?;
    put_commit(alloc, shown, &top, letters)
}

/// A commit of a directory, whose one parent this is.
fn put_child(
    alloc: Global,
    shown: &mut Replayed,
    directory: &Name,
    parent: &Name,
) -> Result<Name, Fail> {
    let mut body = b"tree ".to_vec(alloc)?;
    push_id(&mut body, directory)?;
    body.extend_from_slice(b"\nparent ")?;
    push_id(&mut body, parent)?;
    body.extend_from_slice(b"\nauthor A <a@e.org> 1 +0000\ncommitter A <a@e.org> 1 +0000\n\n")?;
    put(alloc, shown, Kind::Revision, body)
}

/// A commit of a directory without entries, and so many more, each the child of the one before.
fn put_history(alloc: Global, shown: &mut Replayed, count: u32) -> Result<Name, Fail> {
    let directory = put(alloc, shown, Kind::Directory, Vec::new(alloc))?;
    let mut name = put_commit(alloc, shown, &directory, 0)?;
    for _child in 0..count {
        name = put_child(alloc, shown, &directory, &name)?;
    }
    Ok(name)
}

/// A directory of one entry, with a name of one letter.
fn put_holder(alloc: Global, shown: &mut Replayed, mode: &[u8], name: &Name) -> Result<Name, Fail> {
    let mut body = Vec::new(alloc);
    push_entry(&mut body, mode, 1, name)?;
    put(alloc, shown, Kind::Directory, body)
}

/// Whether of a commit of a directory that is so deep the innermost one is told, whose file has too long a path.
fn is_deep_told(alloc: Global, shown: &mut Replayed, levels: u32) -> Result<bool, Fail> {
    let content = name_of(VERSION_1)?;
    let name = put_holder(alloc, shown, b"100644 ", &content)?;
    let mut directory = name;
    for _level in 0..levels {
        directory = put_holder(alloc, shown, b"40000 ", &directory)?;
    }
    let root = put_commit(alloc, shown, &directory, 0)?;
    let why = Why::Path;
    Ok(refusal(alloc, shown, root)? == Some(CookFault::Uncarried { name, why }))
}

#[test]
fn paths_are_measured_with_their_folders(rt: HostRuntime) -> Result<(), Fail> {
    assert_eq!(rt; first_misjudged(rt.alloc())?, PATHS.len());
    Ok(())
}

#[test]
fn a_snapshot_may_have_so_many_branches_and_a_head(rt: HostRuntime) -> Result<(), Fail> {
    let alloc = rt.alloc();
    let mut shown = archive_with(alloc, &[])?;
    let most = put_branches(alloc, &mut shown, 65_536)?;
    let more = put_branches(alloc, &mut shown, 65_537)?;
    assert!(rt; is_told(alloc, &shown, most, None)?);
    assert!(rt; is_told(alloc, &shown, more, Some(Why::Refs))?);
    Ok(())
}

/// The last tag has the name of the one before it, and takes its place.
#[test]
fn so_many_tags_may_be_made(rt: HostRuntime) -> Result<(), Fail> {
    let alloc = rt.alloc();
    let mut shown = archive_with(alloc, &[])?;
    let most = put_tags(alloc, &mut shown, 65_536, 0)?;
    let same = put_tag(alloc, &mut shown, &most, 65_535, 0)?;
    let more = put_tag(alloc, &mut shown, &same, 65_536, 0)?;
    assert!(rt; is_told(alloc, &shown, most, None)?);
    assert!(rt; is_told(alloc, &shown, same, None)?);
    assert!(rt; is_told(alloc, &shown, more, Some(Why::Refs))?);
    Ok(())
}

/// The snapshot of 63,550 tags of 1,014 bytes and one of 22 has just as many bytes as a body may have.
#[test]
fn the_tags_may_make_so_long_a_snapshot(rt: HostRuntime) -> Result<(), Fail> {
    let alloc = rt.alloc();
    let mut shown = archive_with(alloc, &[])?;
    let long = put_tags(alloc, &mut shown, 63_550, 1_009)?;
    let most = put_tag(alloc, &mut shown, &long, 63_550, 17)?;
    let more = put_tag(alloc, &mut shown, &long, 63_550, 18)?;
    assert!(rt; is_told(alloc, &shown, most, None)?);
    assert!(rt; is_told(alloc, &shown, more, Some(Why::Refs))?);
    Ok(())
}

/// The lines of its files are 4,294,935,774 bytes, and all else is 278 and the message.
#[test]
fn a_stream_may_have_so_many_bytes(rt: HostRuntime) -> Result<(), Fail> {
    let alloc = rt.alloc();
    let mut shown = archive_with(alloc, &[])?;
    let most = put_wide(alloc, &mut shown, 31_243)?;
    assert!(rt; is_told(alloc, &shown, most, None)?);
    Ok(())
}

#[test]
fn a_stream_of_one_byte_more_is_too_long(rt: HostRuntime) -> Result<(), Fail> {
    let alloc = rt.alloc();
    let mut shown = archive_with(alloc, &[])?;
    let more = put_wide(alloc, &mut shown, 31_244)?;
    assert!(rt; is_told(alloc, &shown, more, Some(Why::Length))?);
    Ok(())
}

/// Three thousand branches are more than is held at once: a second call comes, and fails.
#[test]
fn a_long_text_is_put_in_pieces(rt: HostRuntime) -> Result<(), Fail> {
    let alloc = rt.alloc();
    let mut shown = archive_with(alloc, &[])?;
    let root = put_branches(alloc, &mut shown, 3_000)?;
    let mut sink = MemorySink::new(alloc, 300_000, vec![in alloc; 1; 1]?)?;
    let is_cut = matches!(
        cooked(alloc, &shown, root, &mut sink),
        Err(CookFault::WriteFault)
    );
    assert!(rt; is_cut);
    assert_eq!(rt; sink.faults(), 1);
    Ok(())
}

#[test]
fn a_long_history_is_carried(rt: HostRuntime) -> Result<(), Fail> {
    let alloc = rt.alloc();
    let mut shown = archive_with(alloc, &[])?;
    let last = put_history(alloc, &mut shown, 299_999)?;
    assert!(rt; is_told(alloc, &shown, last, None)?);
    Ok(())
}

#[test]
fn a_deep_folder_is_told_by_its_innermost(rt: HostRuntime) -> Result<(), Fail> {
    let alloc = rt.alloc();
    let mut shown = archive_with(alloc, &[])?;
    assert!(rt; is_deep_told(alloc, &mut shown, 100_000)?);
    Ok(())
}
