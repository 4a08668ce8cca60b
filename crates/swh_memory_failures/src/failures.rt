// Which calls of a part fail, and how many did.
ghost use Rattle.std.specs.Prelude.{◌≡◌, ◌≤◌, ◌==◌, ◌+◌, ◌-◌, ◌^◌, min};
ghost use Rattle.std.specs.List.{list_any};
ghost use Rattle.swh_outside.specs.Faults.{Rose};

use std::marker::Model;
use swh_outside::Failed;

/// Which calls of a part are to fail, by their numbers from 0, how many calls there were, and how many have failed.
#[derive(Drop)]
pub struct Failures {
    failing: Vec<u64>,
    calls: u64,
    faults: u64,
}

impl Model for Failures {
    ghost use Rattle.swh_memory_failures.specs.Tally.{Tally};

    ghost Value = { Tally };

    ghost view = { λ failures.
        record { failing = failures.failing.items; calls = failures.calls; faults = failures.faults } };
}

impl Failures {
    ghost use Rattle.swh_memory_failures.specs.Tally.{fresh_tally, is_next_listed, called, refused};

    /// The calls of these numbers will fail.
    pub fn at(failing: Vec<u64>) -> Self
        ensures { result ≡ fresh_tally failing.items }
    {
        Failures {
            failing,
            calls: 0,
            faults: 0,
        }
    }

    /// Counts a call, and says whether it is to fail.
    pub fn next_fails(&mut self) -> bool
        ensures fails { result ≡ is_next_listed self.old }
        ensures counted { self.new ≡ called self.old }
    {
        let fails = self.failing.contains(&self.calls);
        self.calls = self.calls.saturating_add(1);
        fails
    }

    /// Counts a failure.
    pub fn refuse(&mut self) -> Failed
        ensures counted { self.new ≡ refused self.old }
        ensures later { self.old.faults ≤ self.new.faults }
        ensures rose { Rose self.old.faults self.new.faults }
    {
        self.faults = self.faults.saturating_add(1);
        Failed
    }

    /// How many calls have failed.
    pub fn count(&self) -> u64
        ensures { result ≡ self.now.faults }
    {
        self.faults
    }

    /// Forgets the failures so far, and not which calls are to fail.
    pub fn forget(&mut self)
        ensures { self.new ≡ record self.old { faults = 0 } }
    {
        self.faults = 0;
    }
}
