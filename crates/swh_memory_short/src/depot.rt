// A depot in memory, of which one file of each folder gives less than it holds.
ghost use Rattle.std.specs.Prelude.{◌≡◌};

use crate::{Reads, ShortDisk};
use std::alloc::Global;
use std::marker::Model;
use swh_memory_disk::MemoryDepot;
use swh_memory_failures::Failures;
use swh_outside::{Depot, OutFault};

/// A depot whose files of one number are read as `Reads` says, and all others whole.
#[derive(Drop)]
pub struct ShortDepot {
    alloc: Global,
    depot: MemoryDepot,
    file: u32,
    reads: Reads,
    failures: Failures,
}

impl Model for ShortDepot {
    ghost use Rattle.std.specs.Prelude.{ℕ};
    ghost use Rattle.swh_memory_disk.specs.declared.depot.MemoryDepot.{MemoryDepot};

    ghost Value = { ℕ × MemoryDepot };

    ghost view = { λ short. (short.failures.faults, short.depot) };
}

impl ShortDepot {
    /// A depot over another, whose files of this number fall short. It has no fault so far.
    pub fn new(alloc: Global, depot: MemoryDepot, file: u32, reads: Reads) -> Self
        ensures no_fault { result.0 ≡ 0 }
        ensures depot { result.1 ≡ depot }
    {
        ShortDepot {
            alloc,
            depot,
            file,
            reads,
            failures: Failures::at(Vec::new(alloc)),
        }
    }

    /// The depot below, whose files hold all that was written.
    pub fn depot(&self) -> &MemoryDepot
        ensures { result.now ≡ self.now.1 }
    {
        &self.depot
    }

    /// How often it has failed, its disks included once they are given back.
    pub fn faults(&self) -> u64
        ensures { result ≡ self.now.0 }
    {
        self.failures.count()
    }

    // What reads of a file give.
    fn reads_of(&self, file: u32) -> Reads {
        if file == self.file {
            self.reads
        } else {
            Reads::WHOLE
        }
    }
}

impl Depot for ShortDepot {
    ghost use Rattle.swh_outside.specs.Files.{absent};
    ghost use Rattle.swh_memory_disk.specs.InPlace.{has_place};

    type D = ShortDisk;

    ghost tells = { ⊥ };

    ghost files = { λ _ _ _. absent };

    ghost has_place = { λ depot. has_place depot.1 };

    ghost faults = { λ depot. depot.0 };

    fn open(&mut self, dir: &str, file: u32) -> Result<ShortDisk, OutFault> {
        match self.depot.open(dir, file) {
            Ok(disk) => Ok(ShortDisk::new(self.alloc, disk, self.reads_of(file))),
            Err(OutFault::Failed) => Err(OutFault::from(self.failures.refuse())),
            Err(OutFault::Memory) => Err(OutFault::Memory),
        }
    }

    fn close(&mut self, dir: &str, file: u32, disk: ShortDisk) {
        if disk.faults() > 0 {
            let _ = self.failures.refuse();
        }
        self.depot.close(dir, file, disk.into_disk());
    }
}
