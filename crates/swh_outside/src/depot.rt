// The folders of archives, each with its files by number.
ghost use Rattle.std.specs.Prelude.{◌≡◌, ◌≤◌, ◌<◌, [], List, ℕ, IfOk, OnOk, OnErr, IsErrOf};
ghost use Rattle.swh_outside.specs.Disk.{File};
ghost use Rattle.swh_outside.specs.Depot.{SameButAt};
ghost use Rattle.swh_outside.specs.Faults.{Rose};
ghost use Rattle.swh_outside.specs.Causes.{HasOutCause};
ghost use Rattle.swh_outside.specs.declared.fault.OutFault.TheVariants.{Failed};

use crate::{Disk, OutFault};

/// The archives' folders. In each, file 0 is the ledger and file 1 the store.
pub trait Depot: Send {
    type D: Disk;

    /// The implementation tells what its files hold.
    ghost tells: { Type 0 };

    /// What the file of a number in a folder holds. It speaks of files that are not open, and an absent one is empty.
    ghost files: { Self → List ℕ → ℕ → File };

    /// A file has a place to be given back to: it was opened before.
    ghost has_place: { Self → List ℕ → ℕ → Type 0 };

    /// How often it has failed, its disks included once they are given back.
    ghost faults: { Self → ℕ };

    /// Opens a file. One that is absent opens as an empty disk. The empty path is no folder's, and opening there fails.
    fn open(&mut self, dir: &str, file: u32) -> Result<Self::D, OutFault>
        ensures given { tells → IfOk result (λ disk. Self.D.file disk ≡ files self.old dir.now file) }
        ensures disk_tells { tells → Self.D.tells }
        ensures no_fault { IfOk result (λ disk. Self.D.faults disk ≡ 0) }
        ensures others { tells → SameButAt dir.now file (files self.old) (files self.new) }
        ensures refused { tells → OnErr result (files self.new dir.now file ≡ files self.old dir.now file) }
        ensures place { OnOk result (has_place self.new dir.now file) }
        ensures places { (d : List ℕ) (n : ℕ) → has_place self.old d n → has_place self.new d n }
        ensures no_folder { dir.now ≡ [] → IsErrOf result Failed }
        ensures cause { HasOutCause (faults self.old) (faults self.new) result };

    /// Takes a file back as it stands. Where the disk has failed, the depot's count rises, and else it stays.
    fn close(&mut self, dir: &str, file: u32, disk: Self::D)
        requires { has_place self.old dir.now file }
        ensures taken { tells → files self.new dir.now file ≡ Self.D.file disk }
        ensures others { tells → SameButAt dir.now file (files self.old) (files self.new) }
        ensures places { (d : List ℕ) (n : ℕ) → has_place self.old d n → has_place self.new d n }
        ensures later { faults self.old ≤ faults self.new }
        ensures cause { 0 < Self.D.faults disk → Rose (faults self.old) (faults self.new) }
        ensures quiet { Self.D.faults disk ≡ 0 → faults self.new ≡ faults self.old };
}
