//! An archive's two files, each with its owner: their making, and the adding of an event.
ghost use Rattle.std.specs.Prelude.{
  ◌≡◌,
  ◌⊎◌,
  ◌+◌,
  ◌≤◌,
  ◌<◌,
  ◌^◌,
  ◌++◌,
  ◌∷◌,
  [],
  List,
  length,
  OnOk,
  OnErr,
  IfOk,
  IfErr,
  MatchResult,
};
ghost use Rattle.swh_outside.specs.Disk.{Runs as IsRun};
ghost use Rattle.swh_outside.specs.Faults.{HasCause};
ghost use Rattle.swh_outside.specs.Files.{FilesRuns, FilesBreaks, EachImages, files_of, files_done};
ghost use Rattle.swh_format.specs.Events.{Append, IsWritten, run_bytes};
ghost use Rattle.swh_segment.specs.Counts.{ADiskFailed, HaveCause};
ghost use Rattle.swh_segment.specs.Making.{IsMade, IsNotMade, making_calls};
ghost use Rattle.swh_segment.specs.Calls.{run_calls, event_calls};
ghost use Rattle.swh_segment.specs.Settled.{AreSettled, with_or_without_event};
ghost use Rattle.swh_segment.specs.Runs.{run_of};
ghost use Rattle.swh_segment.specs.declared.fault.MakeFault.TheVariants.{Made, Disk as DiskFailed};

use crate::{DiskFault, Ledger, MakeFault, Run, Runs, make};
use swh_outside::Disk;

/// An archive's two files, each with its owner.
pub struct Both<D: Disk> {
    pub store: Runs<D>,
    pub ledger: Ledger<D>,
}

/// The disks of an archive that was not made, and why.
pub struct BothBack<D> {
    pub store: D,
    pub ledger: D,
    pub fault: MakeFault,
}

// The run of an event, where it has one.
fn append_some<D: Disk>(store: &mut Runs<D>, run: Run<'_>) -> Result<(), DiskFault>
    requires { store.old.end + length (run_bytes (run_of run)) < 2 ^ 64 }
    ensures runs { D.tells → IsRun (run_calls store.old.end (run_of run.entry)) (D.file store.old.disk)
        (D.file store.new.disk) result }
    ensures end { OnOk result (store.new.end ≡ store.old.end + length (run_bytes (run_of run.entry))) }
    ensures cause { HasCause (D.faults store.old.disk) (D.faults store.new.disk) result }
{
    match run {
        Run::None => Ok(()),
        Run::Batch(bytes) => {
            store.append_bytes(bytes)?;
            Ok(())
        }
    }
}

/// Adds an event to the two files: its run at the store's end, and its record at the ledger's end, where the gate of
/// the next record stands, closed. The record's bytes are its kind, its length, its payload and the next gate, closed.
/// At `Ok` each crash from then on leaves files that stand for the event too.
pub fn append_to_both<D: Disk>(
    store: &mut Runs<D>,
    run: Run<'_>,
    ledger: &mut Ledger<D>,
    entry: &[u8],
) -> Result<(), DiskFault>
    requires store_limit { store.old.end + length (run_bytes (run_of run)) < 2 ^ 64 }
    requires limit { ledger.old.end + length entry.now + 1 < 2 ^ 64 }

    // The device calls that it makes, in order, on either file.
    ensures runs { D.tells → FilesRuns (event_calls store.old.end (run_of run.entry) ledger.old.end entry.now)
        (files_of (D.file ledger.old.disk) (D.file store.old.disk))
        (files_of (D.file ledger.new.disk) (D.file store.new.disk)) result }

    ensures store_end { OnOk result (store.new.end ≡ store.old.end + length (run_bytes (run_of run.entry))) }
    ensures end { OnOk result (ledger.new.end ≡ ledger.old.end + length entry.now) }
    ensures appended { D.tells → (h : List Append) (e : Append)
        → AreSettled (files_of (D.file ledger.old.disk) (D.file store.old.disk)) h store.old.end ledger.old.end
        → IsWritten (run_of run.entry) entry.now e
        → OnOk result (AreSettled (files_of (D.file ledger.new.disk) (D.file store.new.disk)) (h ++ e ∷ [])
        store.new.end ledger.new.end) }
    ensures left { D.tells → (h : List Append) (e : Append)
        → AreSettled (files_of (D.file ledger.old.disk) (D.file store.old.disk)) h store.old.end ledger.old.end
        → IsWritten (run_of run.entry) entry.now e
        → OnErr result (EachImages (files_of (D.file ledger.new.disk) (D.file store.new.disk))
        (with_or_without_event h e)) }

    ensures cause { HaveCause (D.faults store.old.disk, D.faults store.new.disk)
        (D.faults ledger.old.disk, D.faults ledger.new.disk) result }
{
    append_some(store, run)?;
    ledger.append_bytes(entry)?;
    Ok(())
}

/// Makes an archive of two disks: a barrier on both, and then the ledger's magic, its first byte last. A made ledger is
/// left as it is. The disks of an archive that is not made come back.
pub fn make_both<D: Disk>(mut store: D, mut ledger: D) -> Result<Both<D>, BothBack<D>>
    ensures made { D.tells → IfErr result (λ back. back.fault ≡ Made → IsMade (D.file ledger).seen) }
    ensures not_made { D.tells → OnOk result (IsNotMade (D.file ledger).seen) }
    ensures calls { D.tells → IfOk result (λ both. files_of (D.file both.ledger.disk) (D.file both.store.disk)
        ≡ files_done (making_calls (D.file ledger).seen) (files_of (D.file ledger) (D.file store))) }
    ensures store_end { IfOk result (λ both. both.store.end ≡ 0) }
    ensures end { IfOk result (λ both. both.ledger.end ≡ 8) }
    ensures settled { D.tells → IfOk result (λ both. AreSettled (files_of (D.file both.ledger.disk)
        (D.file both.store.disk)) [] both.store.end both.ledger.end) }

    // A made archive is as it was, also where a disk failed; else the calls are cut where one did.
    ensures same { D.tells → IfErr result (λ back. back.fault ≡ Made → files_of (D.file back.ledger) (D.file back.store)
        ≡ files_of (D.file ledger) (D.file store)) }
    ensures broken { D.tells → IfErr result (λ back. back.fault ≡ DiskFailed
        → (files_of (D.file back.ledger) (D.file back.store) ≡ files_of (D.file ledger) (D.file store))
        ⊎ FilesBreaks (making_calls (D.file ledger).seen) (files_of (D.file ledger) (D.file store))
        (files_of (D.file back.ledger) (D.file back.store))) }
    ensures spared { D.tells → IsMade (D.file ledger).seen → IfErr result (λ back.
        files_of (D.file back.ledger) (D.file back.store) ≡ files_of (D.file ledger) (D.file store)) }

    ensures store_later { MatchResult result (λ both. D.faults store ≤ D.faults both.store.disk)
        (λ back. D.faults store ≤ D.faults back.store) }
    ensures ledger_later { MatchResult result (λ both. D.faults ledger ≤ D.faults both.ledger.disk)
        (λ back. D.faults ledger ≤ D.faults back.ledger) }
    ensures cause { IfErr result (λ back. back.fault ≡ DiskFailed
        → ADiskFailed (D.faults store) (D.faults back.store) (D.faults ledger) (D.faults back.ledger)) }

    // Where no disk failed, both counts are as they were.
    ensures store_quiet { IfOk result (λ both. D.faults both.store.disk ≡ D.faults store) }
    ensures ledger_quiet { IfOk result (λ both. D.faults both.ledger.disk ≡ D.faults ledger) }
    ensures made_store { IfErr result (λ back. back.fault ≡ Made → D.faults back.store ≡ D.faults store) }
    ensures made_ledger { IfErr result (λ back. back.fault ≡ Made → D.faults back.ledger ≡ D.faults ledger) }
{
    match make(&mut store, &mut ledger) {
        Ok(()) => Ok(Both {
            store: Runs::at(store, 0),
            ledger: Ledger::at(ledger, 8),
        }),
        Err(fault) => Err(BothBack {
            store,
            ledger,
            fault,
        }),
    }
}
