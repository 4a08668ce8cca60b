//! The opening of an archive's two files, and why an archive is not opened or made.
ghost use Rattle.std.specs.Prelude.{◌≡◌, IfOk, IfErr, OnOk, IsErrOf};
ghost use Rattle.swh_outside.specs.Files.{files_of, files_done};
ghost use Rattle.swh_segment.specs.Counts.{CountFaults};
ghost use Rattle.swh_segment.specs.Reads.{OnlyReads, OnlyReadsBoth};
ghost use Rattle.swh_segment.specs.Making.{IsMade, IsNotMade, barriers};
ghost use Rattle.swh_format.specs.Stands.{StandsFor};
ghost use Rattle.swh_keeper.specs.Opening.{
  make_why,
  IsReadWhole,
  IsMadeFault,
  IsReadingFault,
  IsOpeningFault,
  IsLeftFor,
  UnlessDiskFault,
};
ghost use Rattle.swh_keeper.specs.Damage.{IfDamagedAt, IsDamagedAt};
ghost use Rattle.swh_keeper.specs.declared.opening.OpenWhy.TheVariants.{
  NotMade,
  DiskFault,
  Memory as OutOfMemory,
};

use crate::replaying::{harm_behind, replay_records};
use std::alloc::{AllocError, Global};
use swh_base::{Memory, Namer};
use swh_model::Event;
use swh_outside::{Disk, Failed};
use swh_recovery::{Harm, ReadAllFault, read_all};
use swh_replay::Replayed;
use swh_segment::{MakeFault, read_beginning, settle};

#[derive(Clone, Copy, Debug, PartialEq, Eq)]
pub enum OpenWhy {
    /// It is made already.
    Made,
    /// It is not made.
    NotMade,
    /// The two files stand for no history. The first harm is in the file of this number, 0 the ledger and 1 the store, at
    /// this place of it, in bytes from 0.
    Damaged { file: u32, at: u64, harm: Harm },
    /// A disk failed.
    DiskFault,
    Memory,
}

/// Hands both disks back.
pub struct OpenFault<D: Disk> {
    pub why: OpenWhy,
    pub store: D,
    pub ledger: D,
}

pub fn why_not_made(fault: MakeFault) -> OpenWhy
    ensures { result ≡ make_why fault }
{
    match fault {
        MakeFault::Made => OpenWhy::Made,
        MakeFault::Disk => OpenWhy::DiskFault,
    }
}

impl From<Memory> for OpenWhy {
    ghost from_gives = { λ _ why. why ≡ OutOfMemory };

    fn from(_: Memory) -> OpenWhy {
        OpenWhy::Memory
    }
}

impl From<AllocError> for OpenWhy {
    ghost from_gives = { λ _ why. why ≡ OutOfMemory };

    fn from(_: AllocError) -> OpenWhy {
        OpenWhy::Memory
    }
}

impl From<Failed> for OpenWhy {
    ghost from_gives = { λ _ why. why ≡ DiskFault };

    fn from(_: Failed) -> OpenWhy {
        OpenWhy::DiskFault
    }
}

/// The history for which two files stand, and its replay.
#[derive(Drop)]
pub struct Opened {
    pub replayed: Replayed,
    pub history: Vec<Event>,
}

// Whether the ledger is made.
fn check_made<D: Disk>(ledger: &mut D) -> Result<(), OpenWhy>
    ensures made { D.tells → OnOk result (IsMade (D.file ledger.old).seen) }
    ensures not_made { D.tells → IsErrOf result NotMade → IsNotMade (D.file ledger.old).seen }
    ensures why { IfErr result IsMadeFault }
    ensures reads { OnlyReads D.tells UnlessDiskFault DiskFault (D.file ledger.old, D.faults ledger.old)
        (D.file ledger.new, D.faults ledger.new) result }
{
    match read_beginning(ledger) {
        Err(MakeFault::Made) => Ok(()),
        Err(MakeFault::Disk) => Err(OpenWhy::DiskFault),
        Ok(_clears) => Err(OpenWhy::NotMade),
    }
}

// The history for which the two files of an archive that is made stand, and its replay.
fn read_archive<N: Namer, D: Disk>(
    alloc: Global,
    namer: &N,
    store: &mut D,
    ledger: &mut D,
) -> Result<Opened, OpenWhy>
    requires { D.tells → IsMade (D.file ledger.old).seen }
    ensures whole { IfOk result (IsReadWhole N.id_of) }
    ensures stand { D.tells → IfOk result (λ opened. StandsFor (D.file ledger.old).seen
        (D.file store.old).seen opened.history.items) }
    ensures why { IfErr result IsReadingFault }
    ensures damaged { D.tells → IfErr result (λ why. IfDamagedAt why
        (IsDamagedAt N.id_of (D.file ledger.old).seen (D.file store.old).seen)) }
    ensures reads { OnlyReadsBoth D.tells UnlessDiskFault DiskFault
        ((D.file store.old, D.faults store.old), (D.file store.new, D.faults store.new))
        ((D.file ledger.old, D.faults ledger.old), (D.file ledger.new, D.faults ledger.new)) result }
{
    match read_all(alloc, namer, ledger, store) {
        Ok(history) => replay_records(alloc, namer, history),
        Err(ReadAllFault::DiskFault) => Err(OpenWhy::DiskFault),
        Err(ReadAllFault::Memory) => Err(OpenWhy::Memory),
        Err(
            ReadAllFault::Damaged {
                file,
                at,
                harm,
                before,
            },
        ) => Err(harm_behind(alloc, namer, before, file, at, harm)),
    }
}

/// A barrier on each file, then the history for which they stand, and its replay. The ledger is read whole, and of the
/// store the runs alone.
pub fn open_archive<N: Namer, D: Disk>(
    alloc: Global,
    namer: &N,
    store: &mut D,
    ledger: &mut D,
) -> Result<Opened, OpenWhy>
    ensures whole { IfOk result (IsReadWhole N.id_of) }
    ensures stand { D.tells → IfOk result (λ opened. StandsFor (D.file ledger.old).seen
        (D.file store.old).seen opened.history.items) }
    ensures made { D.tells → OnOk result (IsMade (D.file ledger.old).seen) }
    ensures calls { D.tells → OnOk result (files_of (D.file ledger.new) (D.file store.new)
        ≡ files_done barriers (files_of (D.file ledger.old) (D.file store.old))) }
    ensures why { IfErr result IsOpeningFault }
    ensures not_made { D.tells → IsErrOf result NotMade → IsNotMade (D.file ledger.old).seen }
    ensures damaged { D.tells → IfErr result (λ why. IfDamagedAt why
        (IsDamagedAt N.id_of (D.file ledger.old).seen (D.file store.old).seen)) }
    ensures left { D.tells → IfErr result (λ why. IsLeftFor why (files_of (D.file ledger.old) (D.file store.old))
        (files_of (D.file ledger.new) (D.file store.new))) }
    ensures counts { CountFaults UnlessDiskFault DiskFault (D.faults store.old, D.faults store.new)
        (D.faults ledger.old, D.faults ledger.new) result }
{
    settle(store, ledger)?;
    check_made(ledger)?;
    read_archive(alloc, namer, store, ledger)
}
