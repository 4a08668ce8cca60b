// A disk in memory that gives less than it holds.
ghost use Rattle.std.specs.Prelude.{◌≡◌};

use std::alloc::Global;
use std::marker::Model;
use swh_memory_disk::MemoryDisk;
use swh_memory_failures::Failures;
use swh_outside::{Disk, Failed};

/// What the reads of a disk give.
#[derive(Clone, Copy, Debug, PartialEq, Eq)]
pub struct Reads {
    /// How many bytes a read gives at most.
    pub most: usize,
    /// The place from which no read gives anything, whatever length is told.
    pub end: u64,
}

impl Reads {
    /// All that is asked and stands.
    pub const WHOLE: Reads = Reads {
        most: usize::MAX,
        end: u64::MAX,
    };

    // How many bytes a read from a place gives at most.
    fn count(self, at: u64) -> usize {
        let left = self.end.saturating_sub(at);
        match usize::try_from(left) {
            Ok(left) => self.most.min(left),
            Err(_) => self.most,
        }
    }
}

/// A disk in memory whose reads give what `Reads` says. It counts its own faults; a write behind the end is one.
#[derive(Drop)]
pub struct ShortDisk {
    disk: MemoryDisk,
    reads: Reads,
    failures: Failures,
}

impl Model for ShortDisk {
    ghost use Rattle.std.specs.Prelude.{ℕ};
    ghost use Rattle.swh_memory_disk.specs.declared.disk.MemoryDisk.{MemoryDisk};

    ghost Value = { ℕ × MemoryDisk };

    ghost view = { λ short. (short.failures.faults, short.disk) };
}

impl ShortDisk {
    /// A disk over another, with no fault so far.
    pub fn new(alloc: Global, disk: MemoryDisk, reads: Reads) -> Self
        ensures no_fault { result.0 ≡ 0 }
        ensures disk { result.1 ≡ disk }
    {
        ShortDisk {
            disk,
            reads,
            failures: Failures::at(Vec::new(alloc)),
        }
    }

    /// The disk below, which holds all that was written.
    pub fn into_disk(self) -> MemoryDisk
        ensures { result ≡ self.1 }
    {
        self.disk
    }

    /// How often it has failed.
    pub fn faults(&self) -> u64
        ensures { result ≡ self.now.0 }
    {
        self.failures.count()
    }
}

impl Disk for ShortDisk {
    ghost use Rattle.swh_outside.specs.Files.{absent};

    ghost tells = { ⊥ };

    ghost file = { λ _. absent };

    ghost faults = { λ disk. disk.0 };

    ghost sees_image = { λ disk told. absurd told };

    fn len(&mut self) -> Result<u64, Failed> {
        match self.disk.len() {
            Ok(length) => Ok(length),
            Err(Failed) => Err(self.failures.refuse()),
        }
    }

    fn read_at(&mut self, at: u64, out: &mut [u8]) -> Result<usize, Failed> {
        let count = self.reads.count(at).min(out.len());
        match self.disk.read_at(at, &mut out[..count]) {
            Ok(count) => Ok(count),
            Err(Failed) => Err(self.failures.refuse()),
        }
    }

    fn write_at(&mut self, at: u64, bytes: &[u8]) -> Result<(), Failed> {
        if at > self.disk.bytes().len() as u64 {
            return Err(self.failures.refuse());
        }
        match self.disk.write_at(at, bytes) {
            Ok(()) => Ok(()),
            Err(Failed) => Err(self.failures.refuse()),
        }
    }

    fn sync(&mut self) -> Result<(), Failed> {
        match self.disk.sync() {
            Ok(()) => Ok(()),
            Err(Failed) => Err(self.failures.refuse()),
        }
    }
}
