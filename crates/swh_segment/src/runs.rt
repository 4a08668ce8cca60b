//! The runs of batches on their disk, the store: one write and a barrier each.
ghost use Rattle.std.specs.Prelude.{◌≡◌, ◌+◌, ◌≤◌, ◌<◌, ◌^◌, ◌++◌, List, ℕ, Some, length};

use crate::DiskFault;
use crate::event::append_run;
use crate::reading::fill;
use std::marker::Model;
use swh_outside::{Disk, Failed};

/// A store that owns its disk. Contracts see the disk, and the place where its last run ends.
pub struct Runs<D: Disk> {
    disk: D,
    end: u64,
}

impl<D: Disk> Model for Runs<D> {
    ghost use Rattle.std.specs.Prelude.{◌≤◌, length};
    ghost use Rattle.swh_segment.specs.OnDisk.{OnDisk, on_disk_code};

    ghost Value = { OnDisk D };

    ghost coded = { on_disk_code D.code };

    ghost view = { λ runs. record { disk = runs.disk; end = runs.end } };

    ghost invariant = { λ runs. D.tells → runs.end ≤ length (D.file runs.disk).seen };
}

impl<D: Disk> Runs<D> {
    ghost use Rattle.std.specs.Prelude.{IfOk, OnOk, OnErr};
    ghost use Rattle.swh_outside.specs.Disk.{EachImage};
    ghost use Rattle.swh_outside.specs.Disk.{Runs as IsRun};
    ghost use Rattle.swh_outside.specs.Faults.{HasCause};
    ghost use Rattle.swh_segment.specs.Calls.{run_calls};
    ghost use Rattle.swh_segment.specs.Reading.{IsFilled};
    ghost use Rattle.swh_segment.specs.Settled.{AreRunsSettled, BeginsWith};

    /// A store that was read, whose last run ends at this place.
    pub fn at(disk: D, end: u64) -> Runs<D>
        requires { D.tells → end ≤ length (D.file disk).seen }
        ensures disk { result.disk ≡ disk }
        ensures end { result.end ≡ end }
    {
        Runs { disk, end }
    }

    /// Adds a run, of which the bytes are given, and answers where it begins and ends: one write, left out where the run is
    /// empty, and a barrier.
    pub fn append_bytes(&mut self, run: &[u8]) -> Result<(u64, u64), DiskFault>
        requires { self.old.end + length run.now < 2 ^ 64 }
        ensures from { IfOk result (λ places. places.0 ≡ self.old.end) }
        ensures to { IfOk result (λ places. places.1 ≡ self.new.end) }
        ensures end { OnOk result (self.new.end ≡ self.old.end + length run.now) }
        ensures same_end { OnErr result (self.new.end ≡ self.old.end) }
        ensures runs { D.tells → IsRun (run_calls self.old.end (Some run.now))
            (D.file self.old.disk) (D.file self.new.disk) result }
        ensures appended { D.tells → (before : List ℕ) → AreRunsSettled (D.file self.old.disk) before self.old.end
            → OnOk result (AreRunsSettled (D.file self.new.disk) (before ++ run.now) self.new.end) }
        ensures left { D.tells → (before : List ℕ) → AreRunsSettled (D.file self.old.disk) before self.old.end
            → OnErr result (EachImage (D.file self.new.disk) (BeginsWith before)) }
        ensures cause { HasCause (D.faults self.old.disk) (D.faults self.new.disk) result }
    {
        let from = self.end;
        append_run(&mut self.disk, from, run)?;
        self.end = from + run.len() as u64;
        Ok((from, self.end))
    }

    /// Fills the buffer with what stands from a place on (in bytes from 0), up to the end of the file, and answers how many
    /// bytes there are. `Failed` where the disk failed.
    pub fn fill(&mut self, at: u64, out: &mut [u8]) -> Result<usize, Failed>
        requires { at + length out.old < 2 ^ 64 }
        ensures bound { IfOk result (λ n. n ≤ length out.new) }
        ensures filled { D.tells → IfOk result (λ n. IsFilled (D.file self.old.disk).seen at out.new n) }
        ensures same { D.tells → D.file self.new.disk ≡ D.file self.old.disk }
        ensures end { self.new.end ≡ self.old.end }
        ensures cause { HasCause (D.faults self.old.disk) (D.faults self.new.disk) result }
    {
        fill(&mut self.disk, at, out)
    }

    /// Where its last run ends.
    pub fn end(&self) -> u64
        ensures { result ≡ self.now.end }
    {
        self.end
    }

    /// Gives the disk back.
    pub fn close(self) -> D
        ensures { result ≡ self.disk }
    {
        let Runs { disk, end: _end } = self;
        disk
    }
}
