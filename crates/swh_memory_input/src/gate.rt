// A gate in memory.
use std::sync::atomic::{AtomicU64, Ordering};
use swh_outside::Gate;

/// A gate that holds nobody and counts its calls.
#[derive(Drop)]
pub struct MemoryGate {
    before: AtomicU64,
    after: AtomicU64,
}

impl MemoryGate {
    /// A gate that was not called.
    pub fn new() -> Self {
        MemoryGate {
            before: AtomicU64::new(0),
            after: AtomicU64::new(0),
        }
    }

    /// How often a worker came to the mark of a full visit.
    pub fn count_before(&self) -> u64 {
        self.before.load(Ordering::SeqCst)
    }

    /// How often such a mark was acknowledged.
    pub fn count_after(&self) -> u64 {
        self.after.load(Ordering::SeqCst)
    }
}

impl Gate for MemoryGate {
    fn before(&self, _worker: u32, _job: u32) {
        let _ = self.before.fetch_add(1, Ordering::SeqCst);
    }

    fn after(&self, _worker: u32, _job: u32) {
        let _ = self.after.fetch_add(1, Ordering::SeqCst);
    }
}
