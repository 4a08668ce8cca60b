//! Why bytes are no directory.

ghost use Rattle.std.specs.Prelude.{◌≡◌, ℕ, List};
ghost use Rattle.swh_dirfmt.specs.declared.fault.DirWhy.{DirWhy};
ghost use Rattle.swh_dirfmt.specs.Fault.{IsDirFault};
ghost use Rattle.swh_dirfmt.specs.declared.fault.ReadDirFault.TheVariants.{Memory as OutOfMemory};

use std::alloc::AllocFailed;
use swh_base::Memory;

/// What is wrong with an entry: the first of these that holds.
#[derive(Clone, Copy, Debug, PartialEq, Eq)]
pub enum DirWhy {
    /// It does not begin with a mode and a space.
    Mode,
    /// No name and NUL follow.
    Name,
    /// No 20 bytes follow.
    Short,
    /// An entry before it has its name.
    Twice,
    /// It does not come after the entries before it.
    Order,
}

/// The first entry that breaks: the place of its first byte in the body, in bytes from 0, and what is wrong with it.
#[derive(Clone, Copy, Debug, PartialEq, Eq)]
pub struct BadDir {
    pub at: u64,
    pub why: DirWhy,
}

/// Why a body gives no entries.
#[derive(Clone, Copy, Debug, PartialEq, Eq)]
pub enum ReadDirFault {
    /// Memory ran out.
    Memory,
    /// The body is no directory.
    Bad(BadDir),
}

impl From<Memory> for ReadDirFault {
    ghost from_gives = { λ _ e. e ≡ OutOfMemory };

    fn from(_e: Memory) -> ReadDirFault {
        ReadDirFault::Memory
    }
}

impl<T: Drop> From<AllocFailed<T>> for ReadDirFault {
    ghost from_gives = { λ _ e. e ≡ OutOfMemory };

    fn from(_e: AllocFailed<T>) -> ReadDirFault {
        ReadDirFault::Memory
    }
}

/// A body has one first fault at most, so the place and what is wrong there are determined.
pub fn one_fault()
    ensures { (body : List ℕ) (i j : ℕ) (a b : DirWhy) → IsDirFault body i a → IsDirFault body j b → (i ≡ j) × (a ≡ b) }
{}
