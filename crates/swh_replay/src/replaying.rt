//! The replay of events that were read from an archive's files, the oldest first.
ghost use Rattle.std.specs.Prelude.{◌≤◌, ◌^◌, ℕ, List, IfOk, IfErr, OnOk};
ghost use Rattle.std.specs.List.{AllByRecursion};
ghost use Rattle.swh_base.specs.declared.kind.Kind.{Kind};
ghost use Rattle.swh_model.specs.Limits.{store_length, ledger_length};
ghost use Rattle.swh_model.specs.Step.{IsHistory};
ghost use Rattle.swh_model.specs.Happens.{IsGoodEvent, IsNamedEvent};
ghost use Rattle.swh_replay.specs.Replay.{IsReplayOf, IsInFiles, IsReplayFault};

use crate::collecting::collect_entries;
use crate::happening::happen;
use crate::replayed::Replayed;
use std::alloc::Global;
use swh_base::Memory;
use swh_closure::Closed;
use swh_model::{Event, length_of_ledger, length_of_store};
use swh_store::Preloaded;
use swh_visits::Visits;

/// Why there is no replay.
#[derive(Clone, Copy, Debug, PartialEq, Eq)]
pub enum ReplayFault {
    /// The event of this number, from 1, is the first that may not happen after those before it.
    Refused { event: u64 },
    /// Memory ran out.
    Memory,
}

impl From<Memory> for ReplayFault {
    ghost use Rattle.std.specs.Prelude.{◌≡◌};
    ghost use Rattle.swh_replay.specs.declared.replaying.ReplayFault.TheVariants.{Memory as OutOfMemory};

    ghost from_gives = { λ _ e. e ≡ OutOfMemory };

    fn from(_e: Memory) -> ReplayFault {
        ReplayFault::Memory
    }
}

/// The replay of the events, one after another from the empty archive on. It is asked that their entries are bodies of
/// their kinds with their children, and that the files end within their limits; that the names are a namer's is for what
/// is said of the answer. All entries are indexed at once, before the first event is judged, and each event over those that
/// are shown of them by then. No body is copied, and no name that is known to be closed is walked again: the time is n log n
/// in all entries, children and statuses.
pub fn replay_all(alloc: Global, events: &[Event]) -> Result<Replayed, ReplayFault>
    requires good { AllByRecursion IsGoodEvent events.now }
    requires store_fits { store_length events.now ≤ 2 ^ 62 }
    requires ledger_fits { ledger_length events.now ≤ 2 ^ 62 }
    ensures replay { IfOk result (λ replayed. IsReplayOf replayed events.now) }
    ensures fits { IfOk result IsInFiles }
    ensures history { (id_of : Kind → List ℕ → List ℕ) → AllByRecursion (IsNamedEvent id_of) events.now
        → OnOk result (IsHistory id_of events.now) }
    ensures refused { (id_of : Kind → List ℕ → List ℕ) → AllByRecursion (IsNamedEvent id_of) events.now
        → IfErr result (IsReplayFault id_of events.now) }
{
    let store_end = length_of_store(events)?;
    let ledger_end = length_of_ledger(events)? - 1;
    let entries = collect_entries(alloc, events)?;
    let mut preloaded = Preloaded::of(alloc, entries)?;
    let mut visits = Visits::new(alloc);
    let mut closed = Closed::new(alloc);
    for (place, event) in events.iter().enumerate() {
        if !happen(alloc, &mut preloaded, &mut visits, &mut closed, event)? {
            let event = place as u64 + 1;
            return Err(ReplayFault::Refused { event });
        }
    }
    Ok(Replayed {
        store: preloaded.into_store(),
        visits,
        store_end,
        ledger_end,
    })
}
