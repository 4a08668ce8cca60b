// Where loads pass the gate: right before the mark that makes a visit full, and once it is acknowledged.
use crate::job_world::load_three;
use std::alloc::Global;
use std::sync::atomic::{AtomicU64, Ordering};
use std::test::Fail;
use swh_fixtures::{STREAM, found};
use swh_outside::{Gate, Opened};

/// A gate that writes down its calls, each as three digits: 1 before the mark or 2 after it, the worker and the job.
#[derive(Drop)]
struct NotingGate {
    digits: AtomicU64,
}

impl NotingGate {
    fn note(&self, side: u64, worker: u32, job: u32) {
        let call = side
            .saturating_mul(100)
            .saturating_add(u64::from(worker).saturating_mul(10))
            .saturating_add(u64::from(job));
        let noted = self.digits.load(Ordering::SeqCst);
        self.digits.store(
            noted.saturating_mul(1_000).saturating_add(call),
            Ordering::SeqCst,
        );
    }
}

impl Gate for NotingGate {
    fn before(&self, worker: u32, job: u32) {
        self.note(1, worker, job);
    }

    fn after(&self, worker: u32, job: u32) {
        self.note(2, worker, job);
    }
}

/// Which calls of the ledger fail, and the calls of the gate. Nine calls make the archive, the first job makes sixteen, four
/// for each event, and the second, which has no input, eight; the mark that makes the first visit full is made by the last
/// four of its calls.
const ROWS: &[(&[u64], u64)] = &[
    (&[], 111_211_113_213),
    (&[17], 0),
    (&[21], 111),
    (&[24], 111),
    (&[25], 111_211),
    (&[48], 111_211_113),
];

/// The calls of the gate in loads of a stream, of nothing, and of an empty stream.
fn passed(alloc: Global, failing: &[u64]) -> Result<u64, Fail> {
    let gate = NotingGate {
        digits: AtomicU64::new(0),
    };
    let first = found(alloc, STREAM, &[])?;
    let third = found(alloc, b"", &[])?;
    let _left = load_three(alloc, &gate, first, Opened::NotFound, third, failing)?;
    Ok(gate.digits.load(Ordering::SeqCst))
}

#[test]
fn full_visits_pass_the_gate(rt: HostRuntime) -> Result<(), Fail> {
    for (number, (failing, calls)) in ROWS.iter().enumerate() {
        assert_eq!(rt; passed(rt.alloc(), failing)?, *calls, "row {number}");
    }
    Ok(())
}
