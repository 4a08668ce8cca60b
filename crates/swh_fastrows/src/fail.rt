//! Why a stream is not read on.

use std::alloc::{AllocError, AllocFailed};
use swh_base::{Memory, Which};
use swh_fastgrammar::StreamWhy;
use swh_outside::Failed;

/// Why nothing more is read of a source: it failed, or memory ran out.
#[derive(Clone, Copy, Debug, PartialEq, Eq)]
pub enum Outside {
    /// The source failed, and its count of faults rose.
    Failed,
    Memory,
}

impl From<AllocError> for Outside {
    ghost use Rattle.std.specs.Prelude.{◌≡◌};
    ghost use Rattle.swh_fastrows.specs.declared.fail.Outside.TheVariants.{Memory};

    ghost from_gives = { λ _ e. e ≡ Memory };

    fn from(_e: AllocError) -> Outside {
        Outside::Memory
    }
}

impl<T: Drop> From<AllocFailed<T>> for Outside {
    ghost use Rattle.std.specs.Prelude.{◌≡◌};
    ghost use Rattle.swh_fastrows.specs.declared.fail.Outside.TheVariants.{Memory};

    ghost from_gives = { λ _ e. e ≡ Memory };

    fn from(_e: AllocFailed<T>) -> Outside {
        Outside::Memory
    }
}

impl From<Failed> for Outside {
    ghost use Rattle.std.specs.Prelude.{◌≡◌};
    ghost use Rattle.swh_fastrows.specs.declared.fail.Outside.TheVariants.{Failed};

    ghost from_gives = { λ _ e. e ≡ Failed };

    fn from(_e: Failed) -> Outside {
        Outside::Failed
    }
}

/// Why a reader gives no command.
#[derive(Clone, Copy, Debug, PartialEq, Eq)]
pub enum ReadFail {
    /// The stream's first fault, and its place in bytes from the stream's first.
    BadStream { at: u64, why: StreamWhy },
    /// The source failed, and its count of faults rose.
    ReadFault,
    /// The stream passes a limit by this number.
    Limit { which: Which, number: u64 },
    Memory,
}

impl From<Outside> for ReadFail {
    ghost use Rattle.std.specs.Prelude.{◌≡◌};
    ghost use Rattle.swh_fastrows.specs.Outside.{fail_of};

    ghost from_gives = { λ outside e. e ≡ fail_of outside };

    fn from(outside: Outside) -> ReadFail {
        match outside {
            Outside::Failed => ReadFail::ReadFault,
            Outside::Memory => ReadFail::Memory,
        }
    }
}

impl From<Failed> for ReadFail {
    ghost use Rattle.std.specs.Prelude.{◌≡◌};
    ghost use Rattle.swh_fastrows.specs.declared.fail.ReadFail.TheVariants.{ReadFault};

    ghost from_gives = { λ _ e. e ≡ ReadFault };

    fn from(_e: Failed) -> ReadFail {
        ReadFail::ReadFault
    }
}

impl From<Memory> for ReadFail {
    ghost use Rattle.std.specs.Prelude.{◌≡◌};
    ghost use Rattle.swh_fastrows.specs.declared.fail.ReadFail.TheVariants.{Memory};

    ghost from_gives = { λ _ e. e ≡ Memory };

    fn from(_e: Memory) -> ReadFail {
        ReadFail::Memory
    }
}

impl From<AllocError> for ReadFail {
    ghost use Rattle.std.specs.Prelude.{◌≡◌};
    ghost use Rattle.swh_fastrows.specs.declared.fail.ReadFail.TheVariants.{Memory};

    ghost from_gives = { λ _ e. e ≡ Memory };

    fn from(_e: AllocError) -> ReadFail {
        ReadFail::Memory
    }
}

impl<T: Drop> From<AllocFailed<T>> for ReadFail {
    ghost use Rattle.std.specs.Prelude.{◌≡◌};
    ghost use Rattle.swh_fastrows.specs.declared.fail.ReadFail.TheVariants.{Memory};

    ghost from_gives = { λ _ e. e ≡ Memory };

    fn from(_e: AllocFailed<T>) -> ReadFail {
        ReadFail::Memory
    }
}
