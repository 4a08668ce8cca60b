//! Why a name is not cooked.

ghost use Rattle.std.specs.Prelude.{◌≡◌};
ghost use Rattle.swh_carried.specs.declared.fault.CookFault.TheVariants.{Memory as OutOfMemory, WriteFault as Unwritten};

use swh_base::{Memory, Name};
use swh_outside::Failed;

/// Why a form cannot carry an object.
#[derive(Clone, Copy, Debug, PartialEq, Eq)]
pub enum Why {
    /// The name is reached from itself over one of its children.
    Cycle,
    /// A revision that is not plain.
    Revision,
    /// A release that is not plain.
    Release,
    /// An empty directory that is an entry of another.
    Empty,
    /// A directory with an entry `.` or `..`.
    Dots,
    /// A directory with an entry whose name is not UTF-8.
    Text,
    /// A path longer than 65,535 bytes.
    Path,
    /// A snapshot with a branch of another form, or inside of another.
    Branch,
    /// A release that does not stand at its own branch.
    Tagless,
    /// More branches than a stream may load, or a longer snapshot.
    Refs,
    /// More than 2 to the 32nd bytes.
    Length,
}

/// Why a name is not cooked.
#[derive(Clone, Copy, Debug, PartialEq, Eq)]
pub enum CookFault {
    /// Of the names that are reached, this is the first that is entered and not held.
    NotHeld { name: Name },
    /// Of the names that are reached, this is the first that the form cannot carry.
    Uncarried { name: Name, why: Why },
    /// The sink or the yard failed. What it has taken is a front of what was to be written.
    WriteFault,
    /// Memory ran out. What was taken is a front of what was to be written.
    Memory,
}

impl From<Memory> for CookFault {
    ghost from_gives = { λ _ e. e ≡ OutOfMemory };

    fn from(_e: Memory) -> CookFault {
        CookFault::Memory
    }
}

impl From<Failed> for CookFault {
    ghost from_gives = { λ _ e. e ≡ Unwritten };

    fn from(_e: Failed) -> CookFault {
        CookFault::WriteFault
    }
}
