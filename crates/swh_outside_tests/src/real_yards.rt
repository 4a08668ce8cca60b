// Yards over the system.
use std::os::unix::fs::symlink;
use std::test::Fail;
use swh_outside::{Failed, Sink, Yard};
use swh_real::RealYard;
use swh_temp_folders::{Laid, Thing, clear, fresh_room, is_file_in, path_in, stands};

type HostYard = RealYard<HostRuntime>;

/// A call on a yard at a path of the room, and whether it is done.
#[derive(Clone, Copy)]
enum Act {
    Makes(&'static str),
    MakesNot(&'static str),
    Begins(&'static str),
    BeginsNot(&'static str),
    Puts(&'static [u8]),
    PutsNot(&'static [u8]),
    Faults(u64),
    /// A file of the room has these bytes.
    Has(&'static str, &'static [u8]),
    /// Nothing stands at the path of the room.
    Lacks(&'static str),
    /// Somebody else makes a link in the room, to a path.
    Links(&'static str, &'static str),
}

use Act::*;

fn makes(rt: &HostRuntime, yard: &mut HostYard, room: &str, name: &str) -> Result<bool, Fail> {
    let path = path_in(rt.alloc(), room, name)?;
    Ok(yard.folder(path.as_str()) == Ok(()))
}

fn begins(rt: &HostRuntime, yard: &mut HostYard, room: &str, name: &str) -> Result<bool, Fail> {
    let path = path_in(rt.alloc(), room, name)?;
    Ok(yard.file(path.as_str()) == Ok(()))
}

fn link(rt: &HostRuntime, room: &str, name: &str, target: &str) -> Result<bool, Fail> {
    let path = path_in(rt.alloc(), room, name)?;
    Ok(symlink(rt, target, path.as_str()).is_ok())
}

fn does(rt: &HostRuntime, yard: &mut HostYard, room: &str, act: Act) -> Result<bool, Fail> {
    match act {
        Makes(name) => makes(rt, yard, room, name),
        MakesNot(name) => Ok(!makes(rt, yard, room, name)?),
        Begins(name) => begins(rt, yard, room, name),
        BeginsNot(name) => Ok(!begins(rt, yard, room, name)?),
        Puts(bytes) => Ok(yard.put(bytes) == Ok(())),
        PutsNot(bytes) => Ok(yard.put(bytes) == Err(Failed)),
        Faults(count) => Ok(yard.faults() == count),
        Has(name, bytes) => Ok(is_file_in(rt, room, name, bytes)?),
        Lacks(name) => Ok(!stands(rt, room, name)?),
        Links(name, target) => link(rt, room, name, target),
    }
}

/// Fails with the number of the first act, from 0, that ends in another way.
fn all_done(rt: &HostRuntime, room: &str, acts: &[Act]) -> Result<(), Fail> {
    let mut yard = RealYard::new(rt.clone()?, rt.alloc());
    for (number, act) in acts.iter().enumerate() {
        if !does(rt, &mut yard, room, *act)? {
            return Err(Fail::new(number));
        }
    }
    Ok(())
}

fn ends_so(rt: &HostRuntime, name: &str, laid: &[Laid], acts: &[Act]) -> Result<(), Fail> {
    let room = fresh_room(rt, name, laid)?;
    all_done(rt, room.as_str(), acts)?;
    clear(rt, room.as_str())
}

const MAKING: &[Act] = &[
    // No file stands in a folder that is not there, and no byte goes anywhere before a file is begun.
    BeginsNot("out/early"),
    PutsNot(b"lost"),
    Faults(2),
    Makes("out"),
    Begins("out/b"),
    Puts(b"one "),
    Makes("out/a"),
    Puts(b"two"),
    Makes("out/a/c"),
    Begins("out/a/c/x"),
    Puts(b"three"),
    Begins("out/a/y"),
    Begins("out/z"),
    Puts(b""),
    Begins("out.modes"),
    Puts(b"120000 b\n"),
    Faults(2),
    Has("out/b", b"one two"),
    Has("out/a/c/x", b"three"),
    Has("out/a/y", b""),
    Has("out/z", b""),
    Has("out.modes", b"120000 b\n"),
];

#[test]
fn a_yard_makes_folders_and_files(rt: HostRuntime) -> Result<(), Fail> {
    ends_so(&rt, "yard", &[], MAKING)
}

const ALONE: &[Act] = &[
    BeginsNot(""),
    BeginsNot(".."),
    BeginsNot("absent/file"),
    Begins("only"),
    Puts(b"one "),
    BeginsNot("other"),
    BeginsNot("only"),
    BeginsNot("only.modes"),
    MakesNot("folder"),
    Puts(b"two"),
    Faults(7),
    Has("only", b"one two"),
    Lacks("other"),
    Lacks("only.modes"),
    Lacks("folder"),
];

#[test]
fn a_yard_makes_one_file_alone(rt: HostRuntime) -> Result<(), Fail> {
    ends_so(&rt, "yard-alone", &[], ALONE)
}

const KEPT: &[Act] = &[
    BeginsNot("file"),
    BeginsNot("folder"),
    BeginsNot("link"),
    BeginsNot("loose"),
    Lacks("nowhere"),
    Faults(4),
    Has("file", b"kept"),
];

#[test]
fn a_yard_begins_no_file_that_stands(rt: HostRuntime) -> Result<(), Fail> {
    ends_so(&rt, "yard-kept", LAID, KEPT)
}

const LAID: &[Laid] = &[
    ("file", Thing::File(b"kept")),
    ("folder", Thing::Folder),
    ("link", Thing::Link("folder")),
    ("loose", Thing::Link("nowhere")),
    ("out.modes", Thing::File(b"kept")),
];

const EXISTING: &[Act] = &[
    MakesNot("file"),
    MakesNot("folder"),
    MakesNot("link"),
    MakesNot("loose"),
    MakesNot("absent/out"),
    MakesNot(""),
    MakesNot("."),
    MakesNot(".."),
    MakesNot("folder/."),
    MakesNot("folder/.."),
    MakesNot("out\0"),
    Lacks("nowhere"),
    Lacks("out"),
    Faults(11),
    Makes("out"),
    Makes("out/a"),
    Begins("out/a/x"),
    MakesNot("out"),
    MakesNot("out/a"),
    MakesNot("out/a/x"),
    BeginsNot("out/a/x"),
    BeginsNot("out/a"),
    BeginsNot("out.modes"),
    Faults(17),
    Has("out.modes", b"kept"),
    Has("file", b"kept"),
];

/// What exists is refused, whatever it is, and stays as it is.
#[test]
fn a_yard_makes_only_what_is_not_there(rt: HostRuntime) -> Result<(), Fail> {
    ends_so(&rt, "yard_existing", LAID, EXISTING)
}

const LEAVING: &[Act] = &[
    Makes("out"),
    Makes("out/a"),
    // Names that are none.
    BeginsNot("out/"),
    BeginsNot("out/."),
    BeginsNot("out/.."),
    BeginsNot("out/a/."),
    MakesNot("out/a/.."),
    MakesNot("out//x"),
    BeginsNot("out/x\0y"),
    Faults(7),
    // Folders that it has not made, or that stand outside of the first.
    BeginsNot("other"),
    BeginsNot("folder/x"),
    BeginsNot("out/../x"),
    MakesNot("out/a/../x"),
    BeginsNot("outer/x"),
    MakesNot("out/absent/x"),
    BeginsNot("out.modes/x"),
    MakesNot("outer"),
    Faults(15),
    Lacks("other"),
    Lacks("x"),
    Lacks("outer"),
    // A link in the way is not followed, whoever has made it.
    Links("out/link", "../folder"),
    BeginsNot("out/link"),
    MakesNot("out/link"),
    BeginsNot("out/link/x"),
    Links("out.loose", "nowhere"),
    BeginsNot("out.loose"),
    Faults(19),
    Lacks("folder/x"),
    Lacks("nowhere"),
    Begins("out/a/x"),
    Puts(b"within"),
    Has("out/a/x", b"within"),
];

/// Nothing is made outside of the folder that comes first but files right beside it.
#[test]
fn a_yard_does_not_leave_its_folder(rt: HostRuntime) -> Result<(), Fail> {
    ends_so(&rt, "yard_leaving", LAID, LEAVING)
}
