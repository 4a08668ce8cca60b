// How often the system refused.
ghost use Rattle.std.specs.Prelude.{◌≡◌, ◌≤◌, ◌+◌, ◌-◌, ◌^◌, min};
ghost use Rattle.swh_outside.specs.Faults.{Rose};

use std::marker::Model;
use swh_outside::Failed;

/// A count of faults. It stays at its last value.
#[derive(Drop)]
pub struct Count {
    faults: u64,
}

impl Model for Count {
    ghost use Rattle.std.specs.Prelude.{ℕ};

    ghost Value = { ℕ };

    ghost view = { λ count. count.faults };
}

impl Count {
    /// No fault yet.
    pub fn new() -> Self
        ensures { result ≡ 0 }
    {
        Count { faults: 0 }
    }

    /// Counts a fault.
    pub fn refuse(&mut self) -> Failed
        ensures counted { self.new ≡ min (self.old + 1) (2 ^ 64 - 1) }
        ensures later { self.old ≤ self.new }
        ensures rose { Rose self.old self.new }
    {
        self.faults = self.faults.saturating_add(1);
        Failed
    }

    /// How many faults were counted.
    pub fn get(&self) -> u64
        ensures { result ≡ self.now }
    {
        self.faults
    }
}
