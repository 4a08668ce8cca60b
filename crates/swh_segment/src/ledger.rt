//! The ledger on its disk: the adding of a record with no memory.
ghost use Rattle.std.specs.Prelude.{◌≡◌, ◌+◌, ◌≤◌, ◌<◌, ◌^◌, ◌++◌, ◌∷◌, [], List, length};

use crate::DiskFault;
use crate::event::append_record;
use std::marker::Model;
use swh_outside::Disk;

/// A ledger that owns its disk. Contracts see the disk, and the place of the gate after its records, which is closed.
pub struct Ledger<D: Disk> {
    disk: D,
    end: u64,
}

impl<D: Disk> Model for Ledger<D> {
    ghost use Rattle.std.specs.Prelude.{◌+◌, ◌≤◌, length};
    ghost use Rattle.swh_segment.specs.OnDisk.{OnDisk, on_disk_code};

    ghost Value = { OnDisk D };

    ghost coded = { on_disk_code D.code };

    ghost view = { λ ledger. record { disk = ledger.disk; end = ledger.end } };

    ghost invariant = { λ ledger. D.tells → ledger.end + 1 ≤ length (D.file ledger.disk).seen };
}

impl<D: Disk> Ledger<D> {
    ghost use Rattle.std.specs.Prelude.{IfOk, OnOk, OnErr};
    ghost use Rattle.swh_outside.specs.Disk.{EachImage, Runs};
    ghost use Rattle.swh_outside.specs.Faults.{HasCause};
    ghost use Rattle.swh_format.specs.Record.{Record, IsReady, with_or_without};
    ghost use Rattle.swh_segment.specs.Calls.{append_calls};
    ghost use Rattle.swh_segment.specs.Settled.{IsSettled};

    /// A ledger that was read, whose closed gate after its records stands at this place.
    pub fn at(disk: D, end: u64) -> Ledger<D>
        requires { D.tells → end + 1 ≤ length (D.file disk).seen }
        ensures disk { result.disk ≡ disk }
        ensures end { result.end ≡ end }
    {
        Ledger { disk, end }
    }

    /// Adds a record, of which the bytes and the next gate, closed, are given, and answers the place of its gate: the record
    /// with the next gate, then its gate, each with a barrier after it. At `Ok` each crash from then on leaves the record too.
    pub fn append_bytes(&mut self, entry: &[u8]) -> Result<u64, DiskFault>
        requires { self.old.end + length entry.now + 1 < 2 ^ 64 }
        ensures gate { IfOk result (λ gate. gate ≡ self.old.end) }
        ensures end { OnOk result (self.new.end ≡ self.old.end + length entry.now) }
        ensures same_end { OnErr result (self.new.end ≡ self.old.end) }
        ensures runs { D.tells → Runs (append_calls self.old.end entry.now)
            (D.file self.old.disk) (D.file self.new.disk) result }
        ensures appended { D.tells → (rs : List Record) (r : Record) → IsSettled (D.file self.old.disk) rs self.old.end
            → IsReady entry.now r → OnOk result (IsSettled (D.file self.new.disk) (rs ++ r ∷ []) self.new.end) }
        ensures left { D.tells → (rs : List Record) (r : Record) → IsSettled (D.file self.old.disk) rs self.old.end
            → IsReady entry.now r → OnErr result (EachImage (D.file self.new.disk) (with_or_without rs r)) }
        ensures cause { HasCause (D.faults self.old.disk) (D.faults self.new.disk) result }
    {
        let gate = self.end;
        append_record(&mut self.disk, gate, entry)?;
        self.end = gate + entry.len() as u64;
        Ok(gate)
    }

    /// The place of the closed gate after its records.
    pub fn end(&self) -> u64
        ensures { result ≡ self.now.end }
    {
        self.end
    }

    /// Gives the disk back.
    pub fn close(self) -> D
        ensures { result ≡ self.disk }
    {
        let Ledger { disk, end: _end } = self;
        disk
    }
}
