//! What an event changes in memory.
ghost use Rattle.std.specs.Prelude.{OnOk, OnErr};
ghost use Rattle.swh_replay.specs.Replay.{MayAdvance, Advances, IsSameReplayed};

use crate::replayed::Replayed;
use std::alloc::Global;
use swh_base::Memory;
use swh_model::{Event, EventKind};

/// Carries an event out on the maps. The files' ends stay as they are.
pub fn advance(alloc: Global, replayed: &mut Replayed, event: &Event) -> Result<(), Memory>
    requires { MayAdvance replayed.old event.now.what }
    ensures ok { OnOk result (Advances replayed.old event.now replayed.new) }
    ensures err { OnErr result (IsSameReplayed replayed.old replayed.new) }
{
    match &event.what {
        EventKind::Batch(entries) => replayed.store.add_new(entries.as_slice()),
        EventKind::Open { origin, kind, date } => {
            replayed.visits.open(alloc, origin, *kind, *date, event.by)?;
            Ok(())
        }
        EventKind::Mark {
            origin,
            visit,
            status,
            snapshot,
        } => replayed.visits.mark(origin, *visit, *status, *snapshot),
    }
}
