//! What takes a text piece by piece.
ghost use Rattle.std.specs.Prelude.{◌≡◌, ℕ, List, OnOk, OnErr};
ghost use Rattle.swh_outside.specs.Faults.{HasCause};
ghost use Rattle.swh_fastwrite.specs.Held.{AddsUp};

use swh_outside::Failed;

/// What takes a text piece by piece.
pub trait Taker {
    /// Between the two just these bytes were taken.
    ghost takes: { Self → List ℕ → Self → Type 0 };

    /// Between the two no more than a front of these bytes was taken.
    ghost takes_front: { Self → List ℕ → Self → Type 0 };

    /// How often it has failed.
    ghost failures: { Self → ℕ };

    /// Takes all the bytes; where it fails, the first few of them.
    fn take(&mut self, bytes: &[u8]) -> Result<(), Failed>
        ensures ok { OnOk result (takes self.old bytes.now self.new) }
        ensures err { OnErr result (takes_front self.old bytes.now self.new) }
        ensures cause { HasCause (failures self.old) (failures self.new) result };

    /// What it takes adds up.
    ghost adds_up: { AddsUp takes takes_front };
}
