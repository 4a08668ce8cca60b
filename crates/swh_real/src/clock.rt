// The system's clock.
ghost use Rattle.std.specs.Prelude.{◌≡◌};

use std::marker::Model;
use std::rt;
use swh_files::Count;
use swh_outside::{Clock, Failed};

/// The time of day. A contract sees the count of faults.
#[derive(Drop)]
pub struct RealClock<R: rt::Clock + Drop> {
    rt: R,
    count: Count,
}

impl<R: rt::Clock + Drop> Model for RealClock<R> {
    ghost use Rattle.std.specs.Prelude.{ℕ};

    ghost Value = { ℕ };

    ghost view = { λ clock. clock.count };
}

impl<R: rt::Clock + Drop> RealClock<R> {
    pub fn new(rt: R) -> Self
        ensures { result ≡ 0 }
    {
        RealClock {
            rt,
            count: Count::new(),
        }
    }

    /// How often it has failed.
    pub fn faults(&self) -> u64
        ensures { result ≡ self.now }
    {
        self.count.get()
    }
}

impl<R: rt::Clock + Drop + Send> Clock for RealClock<R> {
    ghost tells = { ⊥ };

    ghost time = { λ _ _. 0 };

    ghost faults = { λ clock. clock };

    fn now(&mut self) -> Result<u64, Failed> {
        match self.rt.since_1970() {
            Ok(time) => Ok(time.as_secs()),
            Err(_) => Err(self.count.refuse()),
        }
    }
}
