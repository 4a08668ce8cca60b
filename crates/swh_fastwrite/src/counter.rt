//! A count of the bytes of a text.
ghost use Rattle.swh_fastwrite.specs.Counts.{Counts, AnyFront, counts_add_up};

use crate::taker::Taker;
use swh_outside::Failed;

/// How many bytes were taken, as far as a number goes.
#[derive(Clone, Copy, Debug, PartialEq, Eq)]
pub struct Counter {
    pub count: u64,
}

impl Taker for Counter {
    ghost takes = { λ a t b. Counts a.count t b.count };

    ghost takes_front = { λ a t b. AnyFront a.count t b.count };

    ghost failures = { λ _. 0 };

    ghost adds_up = { counts_add_up (λ a. a.count) };

    fn take(&mut self, bytes: &[u8]) -> Result<(), Failed> {
        self.count = self.count.saturating_add(bytes.len() as u64);
        Ok(())
    }
}
