// Where folders and files are made.
ghost use Rattle.std.specs.Prelude.{◌≡◌, ◌++◌, ◌∷◌, [], length, OnOk, OnErr, IsErr};
ghost use Rattle.swh_outside.specs.Sink.{Begun, FolderAt, FileAt, IsBegunAt};
ghost use Rattle.swh_outside.specs.Causes.{HasOutCause};

use crate::{OutFault, Sink};

/// A place for new folders and files. Each `put` goes to the file that was begun last.
pub trait Yard: Sink {
    /// Makes an empty folder. It fails where the path exists.
    fn folder(&mut self, path: &str) -> Result<(), OutFault>
        ensures made { Self.tells → OnOk result (Self.begun self.new ≡ Self.begun self.old ++ FolderAt path.now ∷ []) }
        ensures refused { Self.tells → OnErr result (Self.begun self.new ≡ Self.begun self.old) }
        ensures exists { Self.tells → IsBegunAt path.now (Self.begun self.old) → IsErr result }
        ensures same_taken { Self.tells → Self.taken self.new ≡ Self.taken self.old }
        ensures cause { HasOutCause (Self.faults self.old) (Self.faults self.new) result };

    /// Begins an empty file. It fails where the path exists.
    fn file(&mut self, path: &str) -> Result<(), OutFault>
        ensures made { Self.tells → OnOk result (Self.begun self.new
            ≡ Self.begun self.old ++ FileAt path.now (length (Self.taken self.old)) ∷ []) }
        ensures refused { Self.tells → OnErr result (Self.begun self.new ≡ Self.begun self.old) }
        ensures exists { Self.tells → IsBegunAt path.now (Self.begun self.old) → IsErr result }
        ensures same_taken { Self.tells → Self.taken self.new ≡ Self.taken self.old }
        ensures cause { HasOutCause (Self.faults self.old) (Self.faults self.new) result };
}
