// A folder of inputs.
ghost use Rattle.std.specs.Prelude.{◌≡◌, ◌≤◌, ◌<◌, List, ℕ, Some, map, string_bytes, IfOk};
ghost use Rattle.swh_outside.specs.Faults.{Rose};
ghost use Rattle.swh_outside.specs.Causes.{HasOutCause};
ghost use Rattle.swh_outside.specs.Folder.{Tree, entries_at, bytes_at, AreNames};

use crate::{OutFault, Source};
use std::alloc::Global;

/// What stands in a folder.
#[derive(Clone, Copy, Debug, PartialEq, Eq)]
pub enum What {
    File,
    Folder,
    /// Neither: a link, a device.
    Other,
}

/// An entry of a folder's list. Its name is UTF-8.
#[derive(Drop)]
pub struct Item {
    pub name: String,
    pub what: What,
}

/// A folder, with paths in it separated by `/`. The folder itself is the empty path.
pub trait Folder: Send {
    ghost use Rattle.swh_outside.specs.Listing.{listed};

    type S: Source;

    /// The implementation tells what the folder holds.
    ghost tells: { Type 0 };

    /// What the folder holds. A call does not change it.
    ghost holds: { Self → Tree };

    /// Where it was opened. A call does not change it.
    ghost opened_at: { Self → List ℕ };

    /// How often it has failed, its sources included once they are given back.
    ghost faults: { Self → ℕ };

    /// The entries of a folder, in any order. It fails where no folder stands there, and where a name is not UTF-8, is
    /// empty, `.` or `..`, holds `/` or NUL, or stands twice.
    fn list(&mut self, alloc: Global, dir: &str) -> Result<Vec<Item>, OutFault>
        ensures entries { tells → IfOk result (λ items. entries_at (holds self.old) dir.now
            ≡ Some (map listed items.items)) }
        ensures names { IfOk result (λ items. AreNames (map (λ item. string_bytes item.name) items.items)) }
        ensures same { tells → holds self.new ≡ holds self.old }
        ensures same_path { opened_at self.new ≡ opened_at self.old }
        ensures cause { HasOutCause (faults self.old) (faults self.new) result };

    /// Opens a file of the folder. It fails where none stands there.
    fn read(&mut self, path: &str) -> Result<Self::S, OutFault>
        ensures given { tells → IfOk result (λ source. bytes_at (holds self.old) path.now ≡ Some (Self.S.left source)) }
        ensures source_tells { tells → Self.S.tells }
        ensures source_path { IfOk result (λ source. Self.S.path source ≡ path.now) }
        ensures no_fault { IfOk result (λ source. Self.S.faults source ≡ 0) }
        ensures same { tells → holds self.new ≡ holds self.old }
        ensures same_path { opened_at self.new ≡ opened_at self.old }
        ensures cause { HasOutCause (faults self.old) (faults self.new) result };

    /// Takes a source back. Where it has failed, the folder's count rises.
    fn back(&mut self, source: Self::S)
        ensures same { tells → holds self.new ≡ holds self.old }
        ensures same_path { opened_at self.new ≡ opened_at self.old }
        ensures later { faults self.old ≤ faults self.new }
        ensures cause { 0 < Self.S.faults source → Rose (faults self.old) (faults self.new) }
        ensures quiet { Self.S.faults source ≡ 0 → faults self.new ≡ faults self.old };
}
