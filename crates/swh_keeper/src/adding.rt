//! A planned event: carried out in memory, then on both disks.
ghost use Rattle.std.specs.Prelude.{◌≡◌, ◌++◌, ◌∷◌, [], OnOk, OnErr, IsErrOf};
ghost use Rattle.swh_outside.specs.Files.{EachImages, FilesBreaks, files_of, files_done};
ghost use Rattle.swh_segment.specs.Calls.{event_calls};
ghost use Rattle.swh_model.specs.declared.event.Event.{Event};
ghost use Rattle.swh_replay.specs.Replay.{IsReplayOf, MayAdvance};
ghost use Rattle.swh_keeper.specs.Adding.{IsAdded, IsNotAdded, UnlessDiskFault};
ghost use Rattle.swh_segment.specs.Counts.{CountFaults};
ghost use Rattle.swh_keeper.specs.Keeping.{AreSettledFor, HaveEnds, IsToAdd, FilesHaveRoom};
ghost use Rattle.swh_segment.specs.Standing.{WithOrWithout};
ghost use Rattle.swh_format.specs.EventRecord.{run_written};
ghost use Rattle.swh_keeper.specs.declared.adding.AddFault.TheVariants.{Disk as DiskFailed, Memory as OutOfMemory};

use crate::writing::write_event;
use std::alloc::{AllocError, Global};
use swh_base::Memory;
use swh_model::Event;
use swh_outside::Disk;
use swh_plan::Planned;
use swh_replay::{Replayed, advance};
use swh_segment::{Ledger, Runs};

#[derive(Clone, Copy, Debug, PartialEq, Eq)]
pub enum AddFault {
    Disk,
    Memory,
}

impl From<AllocError> for AddFault {
    ghost from_gives = { λ _ e. e ≡ OutOfMemory };

    fn from(_e: AllocError) -> AddFault {
        AddFault::Memory
    }
}

impl From<Memory> for AddFault {
    ghost from_gives = { λ _ e. e ≡ OutOfMemory };

    fn from(_e: Memory) -> AddFault {
        AddFault::Memory
    }
}

/// Adds an event, and gives the vector of its run back. Each growth is made before the first device call.
pub fn add_event<D: Disk>(
    alloc: Global,
    store: &mut Runs<D>,
    ledger: &mut Ledger<D>,
    replayed: &mut Replayed,
    history: &mut Vec<Event>,
    planned: Planned,
) -> Result<Vec<u8>, AddFault>
    requires replay { IsReplayOf replayed.old history.old.items }
    requires may { MayAdvance replayed.old planned.event.what }
    requires to_add { IsToAdd replayed.old history.old.items planned.event planned.run.items planned.bytes.items }
    requires room { FilesHaveRoom replayed.old planned.run.items planned.bytes.items }
    requires ends { HaveEnds store.old.end ledger.old.end replayed.old }
    requires settled { D.tells → AreSettledFor (D.file ledger.old.disk)
        (D.file store.old.disk) history.old.items replayed.old.store_end replayed.old.ledger_end }

    ensures added { OnOk result (IsAdded history.old.items planned.event history.new.items replayed.new) }
    ensures settled { D.tells → OnOk result (AreSettledFor (D.file ledger.new.disk) (D.file store.new.disk)
        (history.old.items ++ planned.event ∷ []) replayed.new.store_end replayed.new.ledger_end) }

    ensures ends { OnOk result (HaveEnds store.new.end ledger.new.end replayed.new) }

    // The device calls that it makes.
    ensures calls { D.tells → OnOk result (files_of (D.file ledger.new.disk) (D.file store.new.disk)
        ≡ files_done (event_calls replayed.old.store_end
        (run_written planned.event.what) replayed.old.ledger_end planned.bytes.items) (files_of (D.file ledger.old.disk)
        (D.file store.old.disk))) }
    ensures broken { D.tells → IsErrOf result DiskFailed → FilesBreaks
        (event_calls replayed.old.store_end
        (run_written planned.event.what) replayed.old.ledger_end planned.bytes.items)
        (files_of (D.file ledger.old.disk) (D.file store.old.disk)) (files_of (D.file ledger.new.disk) (D.file store.new.disk)) }

    ensures not_added { OnErr result (IsNotAdded history.old.items history.new.items replayed.old replayed.new) }
    ensures same_replay { IsErrOf result OutOfMemory → replayed.new ≡ replayed.old }
    ensures same_store { IsErrOf result OutOfMemory → store.new ≡ store.old }
    ensures same_ledger { IsErrOf result OutOfMemory → ledger.new ≡ ledger.old }
    ensures left { D.tells → IsErrOf result DiskFailed → EachImages (files_of (D.file ledger.new.disk) (D.file store.new.disk))
        (WithOrWithout history.old.items planned.event) }
    ensures counts { CountFaults UnlessDiskFault DiskFailed (D.faults store.old.disk, D.faults store.new.disk)
        (D.faults ledger.old.disk, D.faults ledger.new.disk) result }
{
    let Planned {
        event,
        outcome: _outcome,
        run,
        bytes,
    } = planned;
    history.reserve(1)?;
    advance(alloc, replayed, &event)?;
    let Ok(()) = write_event(store, ledger, replayed, &event, &run, &bytes, history) else {
        return Err(AddFault::Disk);
    };
    replayed.store_end += run.as_slice().len() as u64;
    replayed.ledger_end += bytes.as_slice().len() as u64;
    match history.push(event) {
        Ok(()) => Ok(run),
        Err(_) => unreachable!(),
    }
}
