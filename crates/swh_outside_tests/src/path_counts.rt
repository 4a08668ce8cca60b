// Faults counted by path.
use std::alloc::AllocError;
use std::test::Fail;
use swh_outside::PathCounts;

// Faults at `a`, at `b` and elsewhere.
type Counts = (u64, u64, u64);

// A path that gets a place, or at which a fault is counted; and what is counted then.
#[derive(Clone, Copy)]
enum Step {
    Placed(&'static str, Counts),
    Raised(&'static str, Counts),
}

const STEPS: [Step; 8] = [
    Step::Raised("elsewhere", (1, 1, 1)),
    Step::Placed("a", (1, 1, 1)),
    Step::Raised("a", (2, 1, 1)),
    Step::Raised("b", (2, 2, 2)),
    Step::Placed("b", (2, 2, 2)),
    Step::Placed("a", (2, 2, 2)),
    Step::Raised("elsewhere", (2, 2, 3)),
    Step::Raised("b", (2, 3, 3)),
];

fn are_counted(counts: &PathCounts, wanted: Counts) -> bool {
    (counts.at("a"), counts.at("b"), counts.at("elsewhere")) == wanted
}

fn counts_so(counts: &mut PathCounts, step: Step) -> Result<bool, AllocError> {
    match step {
        Step::Placed(path, wanted) => {
            counts.place(path)?;
            Ok(are_counted(counts, wanted))
        }
        Step::Raised(path, wanted) => {
            counts.raise(path);
            Ok(are_counted(counts, wanted))
        }
    }
}

fn all_count_so(counts: &mut PathCounts) -> Result<bool, AllocError> {
    for step in STEPS {
        if !counts_so(counts, step)? {
            return Ok(false);
        }
    }
    Ok(true)
}

/// A path without a place of its own shares one with the others, and takes its count with it.
#[test]
fn each_path_counts_for_itself(rt: HostRuntime) -> Result<(), Fail> {
    let mut counts = PathCounts::new(rt.alloc());
    assert!(rt; all_count_so(&mut counts)?);
    Ok(())
}
