//! An event on both disks.
ghost use Rattle.std.specs.Prelude.{◌≡◌, ◌+◌, ◌++◌, ◌∷◌, [], length, OnOk, OnErr};
ghost use Rattle.swh_outside.specs.Files.{EachImages, FilesRuns, files_of};
ghost use Rattle.swh_segment.specs.Calls.{event_calls};
ghost use Rattle.swh_segment.specs.Counts.{HaveCause};
ghost use Rattle.swh_segment.specs.Runs as runs;
ghost use Rattle.swh_format.specs.EventRecord.{packed_objects, run_written};
ghost use Rattle.swh_model.specs.declared.event.Event.{Event};
ghost use Rattle.swh_keeper.specs.Keeping.{AreSettledFor, FilesHaveRoom, HaveEnds, IsToAdd};
ghost use Rattle.swh_segment.specs.Standing.{WithOrWithout};

use swh_model::{Event, EventKind};
use swh_outside::{Disk, Failed};
use swh_replay::Replayed;
use swh_segment::{Ledger, Run, Runs, append_to_both};

/// What the event adds to the store.
fn run_for<'a>(event: &Event, run: &'a [u8]) -> Run<'a>
    requires { run.now ≡ packed_objects event.now.what }
    ensures { runs.run_of result ≡ run_written event.now.what }
{
    match &event.what {
        EventKind::Batch(_) => Run::Batch(run),
        _ => Run::None,
    }
}

/// Writes an event on both disks.
pub fn write_event<D: Disk>(
    store: &mut Runs<D>,
    ledger: &mut Ledger<D>,
    replayed: &Replayed,
    event: &Event,
    run: &[u8],
    bytes: &[u8],
    history: &Vec<Event>,
) -> Result<(), Failed>
    requires room { FilesHaveRoom replayed.now run.now bytes.now }
    requires ends { HaveEnds store.old.end ledger.old.end replayed.now }
    requires to_add { IsToAdd replayed.now history.now.items event.now run.now bytes.now }
    requires settled { D.tells → AreSettledFor (D.file ledger.old.disk)
        (D.file store.old.disk) history.now.items replayed.now.store_end replayed.now.ledger_end }
    // The device calls that it makes, in order, on either file.
    ensures calls { D.tells → FilesRuns (event_calls replayed.now.store_end
        (run_written event.now.what) replayed.now.ledger_end bytes.now)
        (files_of (D.file ledger.old.disk) (D.file store.old.disk))
        (files_of (D.file ledger.new.disk) (D.file store.new.disk)) result }

    ensures ok { D.tells → OnOk result (AreSettledFor (D.file ledger.new.disk) (D.file store.new.disk)
        (history.now.items ++ event.now ∷ []) (replayed.now.store_end + length run.now)
        (replayed.now.ledger_end + length bytes.now)) }
    ensures store_end { OnOk result (store.new.end ≡ replayed.now.store_end + length run.now) }
    ensures ledger_end { OnOk result (ledger.new.end ≡ replayed.now.ledger_end + length bytes.now) }
    ensures left { D.tells → OnErr result (EachImages (files_of (D.file ledger.new.disk) (D.file store.new.disk))
        (WithOrWithout history.now.items event.now)) }
    ensures cause { HaveCause (D.faults store.old.disk, D.faults store.new.disk)
        (D.faults ledger.old.disk, D.faults ledger.new.disk) result }
{
    let run = run_for(event, run);
    append_to_both(store, run, ledger, bytes)
}
