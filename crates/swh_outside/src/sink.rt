// Where bytes are put.
ghost use Rattle.std.specs.Prelude.{◌≡◌, List, [], ℕ};
ghost use Rattle.swh_outside.specs.Sink.{IsPut, Begun};
ghost use Rattle.swh_outside.specs.Source.{Heard, nothing_heard};
ghost use Rattle.swh_outside.specs.Faults.{HasCause};

use crate::Failed;

/// A stream of bytes that is only added to.
pub trait Sink: Send {
    /// The implementation tells which bytes it took.
    ghost tells: { Type 0 };

    /// The bytes that were put so far.
    ghost taken: { Self → List ℕ };

    /// How often it has failed.
    ghost faults: { Self → ℕ };

    /// The folders and files that were begun so far, for what makes them too.
    ghost begun: { Self → List Begun } = { λ _. [] };

    /// What was heard on the other side, for what is a source too.
    ghost heard: { Self → Heard } = { λ _. nothing_heard };

    /// Appends all the bytes; where it fails, the first few of them.
    fn put(&mut self, bytes: &[u8]) -> Result<(), Failed>
        ensures bytes { tells → IsPut (taken self.old) bytes.now (taken self.new) result }

        // What it leaves as it was.
        ensures same_begun { begun self.new ≡ begun self.old }
        ensures same_heard { heard self.new ≡ heard self.old }

        ensures cause { HasCause (faults self.old) (faults self.new) result };
}
