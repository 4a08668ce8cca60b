// Why a source is not read whole, and why a line or data are not read.
use std::alloc::AllocError;
use swh_outside::Failed;

/// Why the bytes of a source are not given.
#[derive(Clone, Copy, Debug, PartialEq, Eq)]
pub enum SourceFault {
    /// The source failed, and its count of faults rose.
    Failed,
    /// More is left than the limit.
    Limit,
    Memory,
}

impl From<AllocError> for SourceFault {
    ghost use Rattle.std.specs.Prelude.{◌≡◌};
    ghost use Rattle.swh_fastlex.specs.declared.fault.SourceFault.TheVariants.{Memory};

    ghost from_gives = { λ _ e. e ≡ Memory };

    fn from(_e: AllocError) -> SourceFault {
        SourceFault::Memory
    }
}

impl From<Failed> for SourceFault {
    ghost use Rattle.std.specs.Prelude.{◌≡◌};
    ghost use Rattle.swh_fastlex.specs.declared.fault.SourceFault.TheVariants.{Failed};

    ghost from_gives = { λ _ e. e ≡ Failed };

    fn from(_e: Failed) -> SourceFault {
        SourceFault::Failed
    }
}

/// Why a line or data are not given.
#[derive(Clone, Copy, Debug, PartialEq, Eq)]
pub enum LineFault {
    /// The source failed, and its count of faults rose.
    Failed,
    /// The input ends inside the line or the data.
    End,
    /// The line, or the data, are longer than they may be.
    Limit,
    Memory,
}

impl From<AllocError> for LineFault {
    ghost use Rattle.std.specs.Prelude.{◌≡◌};
    ghost use Rattle.swh_fastlex.specs.declared.fault.LineFault.TheVariants.{Memory};

    ghost from_gives = { λ _ e. e ≡ Memory };

    fn from(_e: AllocError) -> LineFault {
        LineFault::Memory
    }
}

impl From<Failed> for LineFault {
    ghost use Rattle.std.specs.Prelude.{◌≡◌};
    ghost use Rattle.swh_fastlex.specs.declared.fault.LineFault.TheVariants.{Failed};

    ghost from_gives = { λ _ e. e ≡ Failed };

    fn from(_e: Failed) -> LineFault {
        LineFault::Failed
    }
}

/// Why data up to a delimiter are not given.
#[derive(Clone, Copy, Debug, PartialEq, Eq)]
pub enum DataFault {
    /// The source failed, and its count of faults rose.
    Failed,
    /// The input ends inside the data.
    End,
    /// A line is longer than it may be.
    Line,
    /// The data are longer than they may be.
    Body,
    Memory,
}

impl From<AllocError> for DataFault {
    ghost use Rattle.std.specs.Prelude.{◌≡◌};
    ghost use Rattle.swh_fastlex.specs.declared.fault.DataFault.TheVariants.{Memory};

    ghost from_gives = { λ _ e. e ≡ Memory };

    fn from(_e: AllocError) -> DataFault {
        DataFault::Memory
    }
}

impl From<LineFault> for DataFault {
    ghost use Rattle.std.specs.Prelude.{◌≡◌};
    ghost use Rattle.swh_fastlex.specs.Delimited.{data_fault};

    ghost from_gives = { λ fault e. e ≡ data_fault fault };

    fn from(fault: LineFault) -> DataFault {
        match fault {
            LineFault::Failed => DataFault::Failed,
            LineFault::End => DataFault::End,
            LineFault::Limit => DataFault::Line,
            LineFault::Memory => DataFault::Memory,
        }
    }
}
