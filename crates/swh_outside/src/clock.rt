// The time.
ghost use Rattle.std.specs.Prelude.{◌≡◌, ℕ, ◌+◌, IfOk};
ghost use Rattle.swh_outside.specs.Faults.{HasCause};

use crate::Failed;

/// A clock.
pub trait Clock: Send {
    /// The implementation tells what it says.
    ghost tells: { Type 0 };

    /// What the clock says at each call from here on, counted from 0.
    ghost time: { Self → ℕ → ℕ };

    /// How often it has failed.
    ghost faults: { Self → ℕ };

    /// Whole seconds since 1970.
    fn now(&mut self) -> Result<u64, Failed>
        ensures value { tells → IfOk result (λ n. n ≡ time self.old 0) }
        ensures next { tells → (k : ℕ) → time self.new k ≡ time self.old (k + 1) }
        ensures cause { HasCause (faults self.old) (faults self.new) result };
}
