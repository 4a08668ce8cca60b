// Folders of files in memory.
use crate::depot_file::DepotFile;
use crate::places::{add_place, find_place, read_place, swap_disk};
use crate::{MemoryDisk, Room};
use std::alloc::{AllocError, Global};
use swh_memory_failures::Failures;
use swh_outside::{Depot, OutFault};

/// Archives' folders in memory, each with its files by number. A file that is absent opens as an empty disk, with the
/// room that the depot was made with. The empty path is no folder's: an opening there fails and is counted.
#[derive(Drop)]
pub struct MemoryDepot {
    alloc: Global,
    room: Room,
    places: Vec<DepotFile>,
    failures: Failures,
}

impl MemoryDepot {
    ghost use Rattle.std.specs.Prelude.{◌≡◌, ◌<◌, ◌≤◌, [], List, ℕ, length, IfOk, OnOk, OnErr};
    ghost use Rattle.std.specs.List.{position_or_len};
    ghost use Rattle.swh_outside.specs.Depot.{SameButAt};
    ghost use Rattle.swh_outside.specs.Files.{absent};
    ghost use Rattle.swh_memory_disk.specs.Memory.{memory_file, notes_of, new_notes};
    ghost use Rattle.swh_memory_disk.specs.InPlace.{
      is_at,
      has_place,
      memory_files,
      memory_notes,
      depot_room,
      depot_tally,
      depot_faults,
      SameNotesButAt,
    };
    ghost use Rattle.swh_memory_failures.specs.Tally.{fresh_tally};

    /// A depot with no files, which makes disks of this room. Its openings with the listed numbers, from 0, will fail.
    pub fn new(alloc: Global, room: Room, failing: Vec<u64>) -> Self
        ensures empty { (dir : List ℕ) (file : ℕ) → memory_files result dir file ≡ absent }
        ensures notes { (dir : List ℕ) (file : ℕ) → memory_notes result dir file ≡ new_notes room }
        ensures room { depot_room result ≡ room }
        ensures failing { depot_tally result ≡ fresh_tally failing.items }
        ensures no_fault { depot_faults result ≡ 0 }
    {
        MemoryDepot {
            alloc,
            room,
            places: Vec::new(alloc),
            failures: Failures::at(failing),
        }
    }

    /// Lays a disk down as a file, over the one that is there.
    pub fn lay(&mut self, dir: &str, file: u32, disk: MemoryDisk) -> Result<(), AllocError>
        ensures laid { OnOk result (memory_files self.new dir.now file ≡ memory_file disk) }
        ensures refused { OnErr result (memory_files self.new dir.now file ≡ memory_files self.old dir.now file) }
        ensures others { SameButAt dir.now file (memory_files self.old) (memory_files self.new) }
        ensures notes { OnOk result (memory_notes self.new dir.now file ≡ notes_of disk) }
        ensures same_notes { OnErr result (memory_notes self.new dir.now file ≡ memory_notes self.old dir.now file) }
        ensures other_notes { SameNotesButAt dir.now file (memory_notes self.old) (memory_notes self.new) }
        ensures places { (d : List ℕ) (n : ℕ) → has_place self.old d n → has_place self.new d n }
        ensures tally { depot_tally self.new ≡ depot_tally self.old }
        ensures room { depot_room self.new ≡ depot_room self.old }
    {
        let i = self.place(dir, file)?;
        let _ = swap_disk(&mut self.places, i, disk, dir, file);
        Ok(())
    }

    /// What a read gives of a file that is not open. One that is absent has no bytes.
    pub fn bytes(&self, dir: &str, file: u32) -> &[u8]
        ensures { result.now ≡ (memory_files self.now dir.now file).seen }
    {
        let i = find_place(&self.places, dir, file);
        if i < self.places.len() {
            read_place(&self.places, i, dir, file)
        } else {
            &[]
        }
    }

    /// How often it has failed, its disks included once they are given back.
    pub fn faults(&self) -> u64
        ensures { result ≡ depot_faults self.now }
    {
        self.failures.count()
    }

    // The place of a file, made where it is not there.
    fn place(&mut self, dir: &str, file: u32) -> Result<usize, AllocError>
        ensures found { IfOk result (λ i. i ≡ position_or_len (is_at dir.now file) self.new.places.items) }
        ensures inside { IfOk result (λ i. i < length self.new.places.items) }
        ensures same { (d : List ℕ) (n : ℕ) → memory_files self.new d n ≡ memory_files self.old d n }
        ensures same_notes { (d : List ℕ) (n : ℕ) → memory_notes self.new d n ≡ memory_notes self.old d n }
        ensures places { (d : List ℕ) (n : ℕ) → has_place self.old d n → has_place self.new d n }
        ensures tally { depot_tally self.new ≡ depot_tally self.old }
        ensures room { depot_room self.new ≡ depot_room self.old }
    {
        let i = find_place(&self.places, dir, file);
        if i == self.places.len() {
            let disk = MemoryDisk::with_room(self.alloc, self.room)?;
            add_place(self.alloc, &mut self.places, dir, file, disk)?;
        }
        Ok(i)
    }
}

impl Depot for MemoryDepot {
    ghost use Rattle.std.specs.Prelude.{◌≡◌, ◌<◌, ◌≤◌, [], List, ℕ, IfOk, OnOk, OnErr, IsErrOf};
    ghost use Rattle.swh_outside.specs.Causes.{HasOutCause};
    ghost use Rattle.swh_outside.specs.Depot.{SameButAt};
    ghost use Rattle.swh_outside.specs.Faults.{Rose};
    ghost use Rattle.swh_outside.specs.Files.{absent};
    ghost use Rattle.swh_outside.specs.declared.fault.OutFault.TheVariants.{Failed};
    ghost use Rattle.swh_memory_failures.specs.Answers.{has_failed, with_given_back};
    ghost use Rattle.swh_memory_disk.specs.InPlace.{
      memory_files,
      memory_notes,
      has_place,
      depot_room,
      depot_tally,
      depot_faults,
      is_open_to_fail,
      SameNotesButAt,
    };
    ghost use Rattle.swh_memory_disk.specs.Memory.{memory_file, disk_faults, notes_of, reopened};
    ghost use Rattle.swh_memory_failures.specs.Tally.{tallied};

    type D = MemoryDisk;

    ghost tells = { Unit {0} };

    ghost files = { memory_files };

    ghost has_place = { has_place };

    ghost faults = { depot_faults };

    fn open(&mut self, dir: &str, file: u32) -> Result<MemoryDisk, OutFault>
        ensures given { IfOk result (λ disk. memory_file disk ≡ memory_files self.old dir.now file) }
        ensures no_fault { IfOk result (λ disk. disk_faults disk ≡ 0) }
        ensures others { SameButAt dir.now file (memory_files self.old) (memory_files self.new) }
        ensures refused { OnErr result (memory_files self.new dir.now file ≡ memory_files self.old dir.now file) }
        ensures place { OnOk result (has_place self.new dir.now file) }
        ensures places { (d : List ℕ) (n : ℕ) → has_place self.old d n → has_place self.new d n }
        ensures no_folder { dir.now ≡ [] → IsErrOf result Failed }
        ensures cause { HasOutCause (depot_faults self.old) (depot_faults self.new) result }

        ensures fails { has_failed result ≡ is_open_to_fail self.old dir.now }
        ensures counted { depot_tally self.new ≡ tallied (has_failed result) (depot_tally self.old) }

        // The disk is as it was made or laid down, and is out of the depot.
        ensures made { IfOk result (λ disk. notes_of disk ≡ reopened (memory_notes self.old dir.now file)) }
        ensures out { OnOk result (memory_files self.new dir.now file ≡ absent) }
        ensures same_notes { OnErr result (memory_notes self.new dir.now file ≡ memory_notes self.old dir.now file) }
        ensures other_notes { SameNotesButAt dir.now file (memory_notes self.old) (memory_notes self.new) }
        ensures room { depot_room self.new ≡ depot_room self.old }
    {
        let fails = self.failures.next_fails();
        if fails || dir.is_empty() {
            let _ = self.failures.refuse();
            return Err(OutFault::Failed);
        }
        let Ok(i) = self.place(dir, file) else {
            return Err(OutFault::Memory);
        };
        let empty = MemoryDisk::empty(self.alloc);
        Ok(swap_disk(&mut self.places, i, empty, dir, file).with_no_fault())
    }

    fn close(&mut self, dir: &str, file: u32, disk: MemoryDisk)
        requires { has_place self.old dir.now file }
        ensures taken { memory_files self.new dir.now file ≡ memory_file disk }
        ensures others { SameButAt dir.now file (memory_files self.old) (memory_files self.new) }
        ensures places { (d : List ℕ) (n : ℕ) → has_place self.old d n → has_place self.new d n }
        ensures later { depot_faults self.old ≤ depot_faults self.new }
        ensures cause { 0 < disk_faults disk → Rose (depot_faults self.old) (depot_faults self.new) }
        ensures quiet { disk_faults disk ≡ 0 → depot_faults self.new ≡ depot_faults self.old }

        ensures counted { depot_tally self.new ≡ with_given_back (disk_faults disk) (depot_tally self.old) }
        ensures notes { memory_notes self.new dir.now file ≡ notes_of disk }
        ensures other_notes { SameNotesButAt dir.now file (memory_notes self.old) (memory_notes self.new) }
        ensures room { depot_room self.new ≡ depot_room self.old }
    {
        if disk.faults() > 0 {
            let _ = self.failures.refuse();
        }
        let i = find_place(&self.places, dir, file);
        let _ = swap_disk(&mut self.places, i, disk, dir, file);
    }
}
