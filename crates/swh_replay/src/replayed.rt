//! What is kept in memory of a history.
use std::alloc::Global;
use swh_store::Store;
use swh_visits::Visits;

/// What is kept in memory of a history: its replay, and where its events end in the two files.
#[derive(Drop)]
pub struct Replayed {
    pub store: Store,
    pub visits: Visits,
    /// The length of all runs in the store.
    pub store_end: u64,
    /// The place of the ledger's closed gate.
    pub ledger_end: u64,
}

impl Replayed {
    ghost use Rattle.std.specs.Prelude.{[]};
    ghost use Rattle.swh_replay.specs.Replay.{IsReplayOf, IsInFiles};

    /// What is in memory before anything happened. It takes no memory.
    pub fn new(alloc: Global) -> Replayed
        ensures replay { IsReplayOf result [] }
        ensures in_files { IsInFiles result }
    {
        Replayed {
            store: Store::new(alloc),
            visits: Visits::new(alloc),
            store_end: 0,
            ledger_end: 8,
        }
    }
}
