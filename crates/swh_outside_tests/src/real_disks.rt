// Disks over files, which are written, closed, opened again and read.
use std::alloc::AllocError;
use std::test::Fail;
use std::{fs, mem};
use swh_outside::{Depot, Disk};
use swh_real::{RealDepot, RealDisk};
use swh_temp_folders::{Laid, Thing, clear, fresh_room, is_file_in, path_in};

type HostDepot = RealDepot<HostRuntime>;

type HostDisk = RealDisk<HostRuntime>;

// Three depots over one folder, by what they open its files for.
#[derive(Drop)]
struct Depots {
    makers: HostDepot,
    writers: HostDepot,
    readers: HostDepot,
}

#[derive(Clone, Copy)]
enum Who {
    Makers,
    Writers,
    Readers,
}

impl Depots {
    fn new(rt: &HostRuntime) -> Result<Depots, Fail> {
        Ok(Depots {
            makers: RealDepot::to_make(rt.clone()?, rt.alloc()),
            writers: RealDepot::to_write(rt.clone()?, rt.alloc()),
            readers: RealDepot::to_read(rt.clone()?, rt.alloc()),
        })
    }

    fn of(&mut self, who: Who) -> &mut HostDepot {
        match who {
            Who::Makers => &mut self.makers,
            Who::Writers => &mut self.writers,
            Who::Readers => &mut self.readers,
        }
    }
}

// The depots of a folder, and two of its files that may be open.
#[derive(Drop)]
struct Disks {
    dir: String,
    depots: Depots,
    held: Option<HostDisk>,
    other: Option<HostDisk>,
}

// What is tried, with how it ends.
#[derive(Clone, Copy)]
enum Act {
    // A depot opens a file and closes it again, or cannot.
    Opens(Who, u32, bool),
    // A depot opens no file of a folder without a name.
    OpensNowhere(Who),
    // A depot opens a file, which is held then, and closes what is held.
    Holds(Who, u32),
    Closes(Who, u32),
    // What is held and the other change places.
    Turns,
    // A write to what is held, at a place; and a barrier.
    Writes(u64, &'static [u8], bool),
    Syncs(bool),
    // All that is held.
    Gives(&'static [u8]),
    // The bytes of a file, as the system gives them.
    Has(&'static str, &'static [u8]),
    // The folder is not there; it is removed.
    IsAbsent,
    IsRemoved,
    // How often a depot failed.
    Faults(Who, u64),
}

use Act::*;
use Who::*;

fn opens(depot: &mut HostDepot, dir: &str, file: u32) -> bool {
    match depot.open(dir, file) {
        Ok(disk) => {
            depot.close(dir, file, disk);
            true
        }
        Err(_) => false,
    }
}

fn hold(disks: &mut Disks, who: Who, file: u32) -> bool {
    match disks.depots.of(who).open(disks.dir.as_str(), file) {
        Ok(disk) => {
            disks.held = Some(disk);
            true
        }
        Err(_) => false,
    }
}

fn close(disks: &mut Disks, who: Who, file: u32) -> bool {
    match disks.held.take() {
        Some(disk) => {
            disks.depots.of(who).close(disks.dir.as_str(), file, disk);
            true
        }
        None => false,
    }
}

// Says whether a disk is so long and gives these bytes, in pieces of 5, up to its hundredth byte.
fn gives(disk: &mut HostDisk, whole: &[u8]) -> bool {
    let mut rest = whole;
    for number in 0..20 {
        let mut piece = [0; 5];
        let Ok(count) = disk.read_at(5 * number, &mut piece) else {
            return false;
        };
        match rest.split_at_checked(count) {
            Some((front, behind)) if front == &piece[..count] => rest = behind,
            _ => return false,
        }
    }
    rest.is_empty() && disk.len() == Ok(whole.len() as u64)
}

// Says whether what is held ends an act so.
fn held_does(held: &mut Option<HostDisk>, act: Act) -> bool {
    match (held, act) {
        (Some(disk), Writes(at, bytes, ends)) => disk.write_at(at, bytes).is_ok() == ends,
        (Some(disk), Syncs(ends)) => disk.sync().is_ok() == ends,
        (Some(disk), Gives(whole)) => gives(disk, whole),
        _ => false,
    }
}

fn is_absent(rt: &HostRuntime, dir: &str) -> bool {
    matches!(fs::exists(rt, dir), Ok(false))
}

fn is_removed(rt: &HostRuntime, dir: &str) -> bool {
    fs::remove_dir_all(rt, dir).is_ok()
}

// Says whether an act ends so.
fn does(rt: &HostRuntime, disks: &mut Disks, act: Act) -> Result<bool, AllocError> {
    match act {
        Opens(who, file, ends) => {
            Ok(opens(disks.depots.of(who), disks.dir.as_str(), file) == ends)
        }
        OpensNowhere(who) => Ok(!opens(disks.depots.of(who), "", 0)),
        Holds(who, file) => Ok(hold(disks, who, file)),
        Closes(who, file) => Ok(close(disks, who, file)),
        Turns => {
            mem::swap(&mut disks.held, &mut disks.other);
            Ok(true)
        }
        Writes(_, _, _) | Syncs(_) | Gives(_) => Ok(held_does(&mut disks.held, act)),
        Has(name, bytes) => is_file_in(rt, disks.dir.as_str(), name, bytes),
        IsAbsent => Ok(is_absent(rt, disks.dir.as_str())),
        IsRemoved => Ok(is_removed(rt, disks.dir.as_str())),
        Faults(who, faults) => Ok(disks.depots.of(who).faults() == faults),
    }
}

// Fails with the number, from 0, of the first act that ends in another way.
fn all_done(rt: &HostRuntime, disks: &mut Disks, acts: &[Act]) -> Result<(), Fail> {
    for (number, act) in acts.iter().enumerate() {
        if !does(rt, disks, *act)? {
            return Err(Fail::new(number));
        }
    }
    Ok(())
}

fn all_done_in(rt: &HostRuntime, dir: String, acts: &[Act]) -> Result<(), Fail> {
    let mut disks = Disks {
        dir,
        depots: Depots::new(rt)?,
        held: None,
        other: None,
    };
    all_done(rt, &mut disks, acts)
}

// The same in the folder `A` of a fresh room.
fn all_done_anew(rt: &HostRuntime, name: &str, things: &[Laid], acts: &[Act]) -> Result<(), Fail> {
    let room = fresh_room(rt, name, things)?;
    all_done_in(rt, path_in(rt.alloc(), room.as_str(), "A")?, acts)?;
    clear(rt, room.as_str())
}

// What stands in the files then is found by hand.
const PUTS: &[Act] = &[
    Holds(Makers, 0),
    Writes(0, b"ledger", true),
    Writes(2, b"XY", true),
    Writes(6, b"more", true),
    Syncs(true),
    Closes(Makers, 0),
    Holds(Makers, 1),
    Writes(0, b"store", true),
    Writes(5, b"++++++++", true),
    Writes(3, b"--", true),
    Writes(13, b"end", true),
    Syncs(true),
    Closes(Makers, 1),
    Holds(Readers, 0),
    Gives(b"leXYermore"),
    Closes(Readers, 0),
    Has("0", b"leXYermore"),
    Holds(Readers, 1),
    Gives(b"sto--++++++++end"),
    Closes(Readers, 1),
    Has("1", b"sto--++++++++end"),
    Faults(Makers, 0),
    Faults(Readers, 0),
];

#[test]
fn bytes_stand_where_they_were_put(rt: HostRuntime) -> Result<(), Fail> {
    all_done_anew(&rt, "puts", &[], PUTS)
}

const LOCKS: &[Act] = &[
    Holds(Makers, 0),
    Opens(Readers, 0, false),
    Opens(Makers, 0, false),
    Closes(Makers, 0),
    Holds(Readers, 0),
    Opens(Readers, 0, true),
    Opens(Makers, 0, false),
    Writes(0, b"no", false),
    Closes(Readers, 0),
    Faults(Makers, 2),
    Faults(Readers, 2),
];

#[test]
fn a_ledger_has_one_writer_or_many_readers(rt: HostRuntime) -> Result<(), Fail> {
    all_done_anew(&rt, "locks", &[], LOCKS)
}

const LINKED: &[Laid] = &[
    ("A", Thing::Folder),
    ("A/target", Thing::File(b"kept")),
    ("A/0", Thing::Link("target")),
    ("A/1", Thing::Link("nowhere")),
    ("A/2", Thing::Folder),
];

const LINKS: &[Act] = &[
    Opens(Makers, 0, false),
    Opens(Makers, 1, false),
    Opens(Makers, 2, false),
    OpensNowhere(Makers),
    Faults(Makers, 4),
    Opens(Writers, 0, false),
    Opens(Writers, 1, false),
    Opens(Writers, 2, false),
    OpensNowhere(Writers),
    Faults(Writers, 4),
    Opens(Readers, 0, false),
    Opens(Readers, 1, false),
    Opens(Readers, 2, false),
    OpensNowhere(Readers),
    Faults(Readers, 4),
    Has("target", b"kept"),
];

/// A link to a file, one to nothing, a folder and no folder's name. Nothing is written through the link.
#[test]
fn files_are_ordinary_files(rt: HostRuntime) -> Result<(), Fail> {
    all_done_anew(&rt, "links", LINKED, LINKS)
}

// Of two that opened the file before it was there the second writes first.
const FIRST_WRITE: &[Act] = &[
    Holds(Writers, 0),
    Turns,
    Holds(Writers, 0),
    Gives(b""),
    Syncs(true),
    IsAbsent,
    Writes(0, b"abc", true),
    Turns,
    Writes(0, b"no", false),
    Turns,
    Closes(Writers, 0),
    Turns,
    Closes(Writers, 0),
    Faults(Writers, 1),
    Holds(Writers, 0),
    Gives(b"abc"),
    Closes(Writers, 0),
];

#[test]
fn a_file_is_made_at_its_first_write(rt: HostRuntime) -> Result<(), Fail> {
    all_done_anew(&rt, "made", &[], FIRST_WRITE)
}

const LOST_FOLDER: &[Act] = &[
    Holds(Makers, 0),
    Writes(0, b"abc", true),
    IsRemoved,
    Syncs(false),
    Closes(Makers, 0),
    Faults(Makers, 1),
];

/// Where the folder has gone its name cannot be brought to the disk.
#[test]
fn a_barrier_that_fails_is_told(rt: HostRuntime) -> Result<(), Fail> {
    all_done_anew(&rt, "barriers", &[], LOST_FOLDER)
}

const MADE_UP: &[Act] = &[
    Holds(Writers, 1),
    Syncs(false),
    Writes(0, b"no", false),
    Closes(Writers, 1),
    Faults(Writers, 1),
];

/// A process's own list of its open files the system makes up as it is read, and knows no barrier there, neither on a
/// file nor on the folder: that one of the two fails is told, and not which. Nor can such a file be written.
#[test]
fn what_the_system_makes_up_takes_nothing(rt: HostRuntime) -> Result<(), Fail> {
    let dir = String::from_str(rt.alloc(), "/proc/self/fdinfo")?;
    all_done_in(&rt, dir, MADE_UP)
}
