//! The reading of both files.
ghost use Rattle.std.specs.Prelude.{
  ◌≡◌,
  ◌≢◌,
  ◌++◌,
  ◌≤◌,
  ◌<◌,
  IfOk,
  OnOk,
  IfErr,
  List,
  ℕ,
  length,
  drop,
};
ghost use Rattle.swh_segment.specs.Reads.{OnlyReads, OnlyReadsBoth};
ghost use Rattle.swh_format.specs.Record.{magic};
ghost use Rattle.swh_format.specs.Stands.{StandsFor};
ghost use Rattle.swh_segment.specs.Making.{IsMade};
ghost use Rattle.swh_base.specs.Limits.{file_limit};
ghost use Rattle.swh_recovery.specs.Harms.{MagicBreaks};
ghost use Rattle.swh_recovery.specs.Records.{AreWhole, IsHarm};
ghost use Rattle.swh_recovery.specs.Answers.{all_fault, IfDamaged, UnlessDiskFault};
ghost use Rattle.swh_recovery.specs.declared.archive.ReadAllFault.TheVariants.{DiskFault};

use crate::fault::NextFault;
use crate::harm::{Found, Harm};
use crate::reading::{Reached, read_next};
use std::alloc::Global;
use swh_base::{FILE_LIMIT, Namer};
use swh_model::Event;
use swh_outside::Disk;
use swh_segment::{ReadFileFault, read_file};

/// Why the events are not read.
#[derive(Drop)]
pub enum ReadAllFault {
    /// A disk failed.
    DiskFault,
    /// The first harm, at a place of the file of this number, in bytes from 0, and the events of the whole records before it.
    /// File 0 is the ledger, 1 the store.
    Damaged {
        file: u32,
        at: u64,
        harm: Harm,
        before: Vec<Event>,
    },
    /// Memory is wanting, or a file is as long as no archive's.
    Memory,
}

// How a ledger begins.
const MAGIC: [u8; 8] = *b"SWHARC1\n";

fn check_magic(ledger: &[u8]) -> Result<(), Found>
    requires { 8 ≤ length ledger.now }
    ensures ok { OnOk result (ledger.now ≡ magic ++ drop 8 ledger.now) }
    ensures err { IfErr result (MagicBreaks ledger.now 0) }
{
    for i in 0..8 {
        if ledger[i] != MAGIC[i] {
            let harm = Harm::Magic { found: ledger[i] };
            return Err(Found { at: i as u64, harm });
        }
    }
    Ok(())
}

fn damaged(fault: NextFault, before: Vec<Event>) -> ReadAllFault
    ensures { result ≡ all_fault fault before }
{
    match fault {
        NextFault::DiskFailed => ReadAllFault::DiskFault,
        NextFault::Memory => ReadAllFault::Memory,
        NextFault::Harmed(file, found) => ReadAllFault::Damaged {
            file,
            at: found.at,
            harm: found.harm,
            before,
        },
    }
}

// The events of the records behind the magic.
fn read_records<N: Namer, D: Disk>(
    alloc: Global,
    namer: &N,
    store: &mut D,
    size: u64,
    ledger: &[u8],
) -> Result<Vec<Event>, ReadAllFault>
    requires size { D.tells → size ≡ length (D.file store.old).seen }
    requires small { size ≤ file_limit }
    requires ledger_small { length ledger.now < file_limit }
    requires magic { ledger.now ≡ magic ++ drop 8 ledger.now }
    ensures whole { IfOk result (λ h. AreWhole N.id_of h.items) }
    ensures before { IfErr result (λ fault. IfDamaged fault (λ _ _ _ before. AreWhole N.id_of before)) }
    ensures ok { D.tells → IfOk result (λ h.
        StandsFor ledger.now (D.file store.old).seen h.items) }
    ensures harm { D.tells → IfErr result (λ fault.
        IfDamaged fault (IsHarm N.id_of ledger.now (D.file store.old).seen)) }
    ensures reads { OnlyReads D.tells UnlessDiskFault DiskFault (D.file store.old, D.faults store.old)
        (D.file store.new, D.faults store.new) result }
{
    let mut reached = Reached {
        gate: 8,
        end: 0,
        events: Vec::new(alloc),
    };
    'records: loop {
        match read_next(alloc, namer, store, size, ledger, &mut reached) {
            Ok(true) => {}
            Ok(false) => {
                let Reached {
                    gate: _,
                    end: _,
                    events,
                } = reached;
                return Ok(events);
            }
            Err(fault) => {
                let Reached {
                    gate: _,
                    end: _,
                    events,
                } = reached;
                return Err(damaged(fault, events));
            }
        }
    }
}

// The events of the records of a ledger of these bytes and of the store.
fn read_both<N: Namer, D: Disk>(
    alloc: Global,
    namer: &N,
    store: &mut D,
    ledger: &[u8],
) -> Result<Vec<Event>, ReadAllFault>
    requires { 8 ≤ length ledger.now }
    ensures whole { IfOk result (λ h. AreWhole N.id_of h.items) }
    ensures before { IfErr result (λ fault. IfDamaged fault (λ _ _ _ before. AreWhole N.id_of before)) }
    ensures ok { D.tells → IfOk result (λ h.
        StandsFor ledger.now (D.file store.old).seen h.items) }
    ensures harm { D.tells → IfErr result (λ fault.
        IfDamaged fault (IsHarm N.id_of ledger.now (D.file store.old).seen)) }
    ensures reads { OnlyReads D.tells UnlessDiskFault DiskFault (D.file store.old, D.faults store.old)
        (D.file store.new, D.faults store.new) result }
{
    if let Err(found) = check_magic(ledger) {
        return Err(damaged(NextFault::Harmed(0, found), Vec::new(alloc)));
    }
    let Ok(size) = store.len() else {
        return Err(ReadAllFault::DiskFault);
    };
    if size > FILE_LIMIT || ledger.len() as u64 >= FILE_LIMIT {
        return Err(ReadAllFault::Memory);
    }
    read_records(alloc, namer, store, size, ledger)
}

/// The events for which the two files of an archive that is made stand, or the first harm and the events before it.
/// The ledger is read whole, and of the store the runs alone, object by object.
pub fn read_all<N: Namer, D: Disk>(
    alloc: Global,
    namer: &N,
    ledger: &mut D,
    store: &mut D,
) -> Result<Vec<Event>, ReadAllFault>
    requires { D.tells → IsMade (D.file ledger.old).seen }
    // On every disk: what is read is a list of whole events, and so is what is before a harm.
    ensures whole { IfOk result (λ h. AreWhole N.id_of h.items) }
    ensures before { IfErr result (λ fault. IfDamaged fault (λ _ _ _ before. AreWhole N.id_of before)) }

    // They are those for which the files stand, and what is damaged is the first harm.
    ensures ok { D.tells → IfOk result (λ h.
        StandsFor (D.file ledger.old).seen (D.file store.old).seen h.items) }
    ensures damaged { D.tells → IfErr result (λ fault.
        IfDamaged fault (IsHarm N.id_of (D.file ledger.old).seen (D.file store.old).seen)) }

    // What the files hold stays, and `DiskFault` comes only where a disk failed.
    ensures reads { OnlyReadsBoth D.tells UnlessDiskFault DiskFault
        ((D.file store.old, D.faults store.old), (D.file store.new, D.faults store.new))
        ((D.file ledger.old, D.faults ledger.old), (D.file ledger.new, D.faults ledger.new)) result }
{
    let bytes = match read_file(alloc, ledger) {
        Ok(bytes) => bytes,
        Err(ReadFileFault::Disk) => return Err(ReadAllFault::DiskFault),
        Err(ReadFileFault::Memory) => return Err(ReadAllFault::Memory),
    };
    let ledger_bytes = bytes.as_slice();
    if ledger_bytes.len() < 8 {
        return Err(ReadAllFault::Damaged {
            file: 0,
            at: 0,
            harm: Harm::Short { have: 0, need: 1 },
            before: Vec::new(alloc),
        });
    }
    read_both(alloc, namer, store, ledger_bytes)
}
