// A clock in memory that stands.
ghost use Rattle.std.specs.Prelude.{◌≡◌, ℕ};

use swh_memory_failures::Failures;
use swh_outside::{Clock, Failed};

/// A clock that always says one time, or fails.
#[derive(Drop)]
pub struct MemoryClock {
    time: u64,
    failures: Failures,
}

impl MemoryClock {
    ghost use Rattle.swh_memory_input.specs.Parts.{clock_time, clock_tally, clock_faults};
    ghost use Rattle.swh_memory_failures.specs.Tally.{fresh_tally};

    /// A clock that says this many seconds since 1970. Its calls with the listed numbers, from 0, will fail.
    pub fn new(time: u64, failing: Vec<u64>) -> Self
        ensures says { (k : ℕ) → clock_time result k ≡ time }
        ensures failing { clock_tally result ≡ fresh_tally failing.items }
        ensures no_fault { clock_faults result ≡ 0 }
    {
        MemoryClock {
            time,
            failures: Failures::at(failing),
        }
    }

    /// How often it has failed.
    pub fn faults(&self) -> u64
        ensures { result ≡ clock_faults self.now }
    {
        self.failures.count()
    }
}

impl Clock for MemoryClock {
    ghost use Rattle.std.specs.Prelude.{◌+◌, IfOk, is_err};
    ghost use Rattle.swh_outside.specs.Faults.{HasCause};
    ghost use Rattle.swh_memory_input.specs.Parts.{clock_time, clock_tally, clock_faults};
    ghost use Rattle.swh_memory_failures.specs.Tally.{is_next_listed, tallied};

    ghost tells = { Unit {0} };

    ghost time = { clock_time };

    ghost faults = { clock_faults };

    fn now(&mut self) -> Result<u64, Failed>
        ensures value { IfOk result (λ n. n ≡ clock_time self.old 0) }
        ensures next { (k : ℕ) → clock_time self.new k ≡ clock_time self.old (k + 1) }
        ensures cause { HasCause (clock_faults self.old) (clock_faults self.new) result }

        ensures fails { is_err result ≡ is_next_listed (clock_tally self.old) }
        ensures counted { clock_tally self.new ≡ tallied (is_err result) (clock_tally self.old) }
    {
        if self.failures.next_fails() {
            return Err(self.failures.refuse());
        }
        Ok(self.time)
    }
}
