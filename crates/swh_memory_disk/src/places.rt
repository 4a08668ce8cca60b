// The files of a depot in memory.
ghost use Rattle.std.specs.Prelude.{◌≡◌, ◌<◌, ◌≤◌, List, ℕ, length, IfOk, OnErr};
ghost use Rattle.std.specs.List.{position_or_len};
ghost use Rattle.swh_outside.specs.Depot.{SameButAt};
ghost use Rattle.swh_outside.specs.Files.{absent};
ghost use Rattle.swh_memory_disk.specs.Memory.{memory_file, notes_of, new_notes};
ghost use Rattle.swh_memory_disk.specs.InPlace.{is_at, files_in, notes_in, SameNotesButAt};
ghost use Rattle.swh_memory_disk.specs.declared.record.Room.{Room};

use crate::MemoryDisk;
use crate::depot_file::DepotFile;
use std::alloc::{AllocError, Global};
use std::mem;

// The place of a file, or the number of places.
pub fn find_place(places: &[DepotFile], dir: &str, file: u32) -> usize
    ensures first { result ≡ position_or_len (is_at dir.now file) places.now }
    ensures within { result ≤ length places.now }
{
    for (i, place) in places.iter().enumerate() {
        if place.is_at(dir, file) {
            return i;
        }
    }
    places.len()
}

// What a read gives of the file at its first place.
pub fn read_place<'a>(places: &'a [DepotFile], i: usize, dir: &str, file: u32) -> &'a [u8]
    requires found { i ≡ position_or_len (is_at dir.now file) places.now }
    requires inside { i < length places.now }
    ensures { result.now ≡ (files_in places.now dir.now file).seen }
{
    places[i].disk.bytes()
}

// Puts a disk into a file's place, and gives the one that was there.
pub fn swap_disk(
    places: &mut [DepotFile],
    i: usize,
    disk: MemoryDisk,
    dir: &str,
    file: u32,
) -> MemoryDisk
    requires found { i ≡ position_or_len (is_at dir.now file) places.old }
    requires inside { i < length places.old }
    ensures given { memory_file result ≡ files_in places.old dir.now file }
    ensures taken { files_in places.new dir.now file ≡ memory_file disk }
    ensures others { SameButAt dir.now file (files_in places.old) (files_in places.new) }
    ensures notes_given { (room : Room) → notes_of result ≡ notes_in room places.old dir.now file }
    ensures notes_taken { (room : Room) → notes_in room places.new dir.now file ≡ notes_of disk }
    ensures other_notes { (room : Room)
        → SameNotesButAt dir.now file (notes_in room places.old) (notes_in room places.new) }
    ensures positions { (d : List ℕ) (n : ℕ) → position_or_len (is_at d n) places.new
        ≡ position_or_len (is_at d n) places.old }
{
    mem::replace(&mut places[i].disk, disk)
}

// Adds a place with an empty disk for a file that has none.
pub fn add_place(
    alloc: Global,
    places: &mut Vec<DepotFile>,
    dir: &str,
    file: u32,
    disk: MemoryDisk,
) -> Result<(), AllocError>
    requires absent { position_or_len (is_at dir.now file) places.old.items ≡ length places.old.items }
    requires empty { memory_file disk ≡ absent }
    ensures found { IfOk result (λ _. position_or_len (is_at dir.now file) places.new.items ≡ length places.old.items) }
    ensures inside { IfOk result (λ _. length places.old.items < length places.new.items) }
    ensures same { (d : List ℕ) (n : ℕ) → files_in places.new.items d n ≡ files_in places.old.items d n }
    ensures same_notes { (room : Room) → notes_of disk ≡ new_notes room → (d : List ℕ) (n : ℕ)
        → notes_in room places.new.items d n ≡ notes_in room places.old.items d n }
    ensures kept { (d : List ℕ) (n : ℕ) → position_or_len (is_at d n) places.old.items < length places.old.items
        → position_or_len (is_at d n) places.new.items < length places.new.items }
{
    let name = String::from_str(alloc, dir)?;
    places.push(DepotFile {
        dir: name,
        file,
        disk,
    })?;
    Ok(())
}
