// Where bytes are got.
ghost use Rattle.std.specs.Prelude.{◌≡◌, ◌≤◌, ◌<◌, List, [], ℕ, Bool, length, IfOk, OnErr};
ghost use Rattle.swh_outside.specs.Source.{IsGot, LosesSome, IsHeard};
ghost use Rattle.swh_outside.specs.Faults.{HasCause};

use crate::Failed;

/// A stream of bytes that is read once, from its front.
pub trait Source: Send {
    /// The implementation tells what is left.
    ghost tells: { Type 0 };

    /// The bytes that are left.
    ghost left: { Self → List ℕ };

    /// The bytes that it gave so far.
    ghost given: { Self → List ℕ };

    /// A call met the end of input.
    ghost ended: { Self → Bool };

    /// How often it has failed.
    ghost faults: { Self → ℕ };

    /// Where it was opened.
    ghost path: { Self → List ℕ };

    /// The bytes put on the other side, for what is a sink too.
    ghost put_so_far: { Self → List ℕ } = { λ _. [] };

    /// Takes the next bytes that are left, as many as it gives, into the front of `out`; 0 is the end of input. Where
    /// it fails, some of them may be lost.
    fn get(&mut self, out: &mut [u8]) -> Result<usize, Failed>
        requires { 0 < length out.old }
        ensures bound { IfOk result (λ n. n ≤ length out.new) }
        ensures bytes { tells → IfOk result (λ n. IsGot (left self.old) n out.new (left self.new)) }
        ensures fails { tells → OnErr result (LosesSome (left self.old) (left self.new)) }
        ensures heard { tells → IsHeard (given self.old) (ended self.old) out.new (given self.new)
            (ended self.new) result }

        // What it leaves as it was.
        ensures same_path { path self.new ≡ path self.old }
        ensures same_put { put_so_far self.new ≡ put_so_far self.old }

        ensures cause { HasCause (faults self.old) (faults self.new) result };
}
