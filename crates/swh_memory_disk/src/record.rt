// What a disk in memory keeps of its calls.

/// The room that a disk is made with. No call allocates.
#[derive(Clone, Copy, Debug, PartialEq, Eq)]
pub struct Room {
    /// Its greatest length in bytes, and how many bytes all its writes may carry.
    pub bytes: usize,
    /// How many calls it takes, of any kind.
    pub calls: usize,
}

/// A call on a disk.
#[derive(Clone, Copy, Debug, PartialEq, Eq)]
pub enum MemoryCall {
    /// The length was asked.
    Length,
    /// Bytes were asked: from which place, and how many.
    Read(u64, usize),
    /// Bytes were written: at which place, and how many.
    Written(usize, usize),
    /// A barrier.
    Synced,
}

impl MemoryCall {
    ghost use Rattle.std.specs.Prelude.{◌≡◌};
    ghost use Rattle.swh_memory_disk.specs.Record.{is_change, size_of};

    /// Says whether it is a write or a barrier.
    pub fn is_change(self) -> bool
        ensures { result ≡ is_change self }
    {
        match self {
            MemoryCall::Length | MemoryCall::Read(..) => false,
            MemoryCall::Written(..) | MemoryCall::Synced => true,
        }
    }

    /// How many bytes it carries.
    pub fn size(self) -> usize
        ensures { result ≡ size_of self }
    {
        match self {
            MemoryCall::Length | MemoryCall::Read(..) | MemoryCall::Synced => 0,
            MemoryCall::Written(_at, count) => count,
        }
    }
}

/// A call on a disk that was begun, and whether it failed.
#[derive(Clone, Copy, Debug, PartialEq, Eq)]
pub struct MemoryRecord {
    pub call: MemoryCall,
    pub failed: bool,
}
