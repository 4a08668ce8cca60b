//! What is shown of an archive.
ghost use Rattle.std.specs.Prelude.{◌≡◌, ◌↔◌, None, Some, IsTrue, IfSome, IfNone};
ghost use Rattle.swh_model.specs.Archive.{Archive, AreAllOfBytes, body_of, visits_of, IsHeld, IsGraphOf};

use crate::event::Visit;
use swh_base::{Graph, Name, Shared};

/// An archive to look at. No method takes memory or waits.
pub trait Look: Graph {
    /// The archive that it shows.
    ghost archive: { Self → Archive };

    /// Whether a body is held under a name.
    fn has(&self, name: &Name) -> bool
        ensures { IsTrue result ↔ IsHeld (archive self.now).bodies name.now };

    /// The body that is held under a name, to read or to share; none exactly where no body is.
    fn body(&self, name: &Name) -> Option<&Shared<u8>>
        ensures held { IfSome result (λ body. body_of (archive self.now).bodies name.now ≡ Some body.now) }
        ensures not_held { IfNone result (body_of (archive self.now).bodies name.now ≡ None) };

    /// The visits of an origin, the oldest first; none where it was never opened.
    fn visits(&self, origin: &[u8]) -> &[Visit]
        ensures { result.now ≡ visits_of (archive self.now).origins origin.now };

    /// The graph is that of the archive's bodies.
    fn is_graph(&self)
        ensures { IsGraphOf (archive self.now).bodies (Self.children_of self.now) };

    /// The bodies are made of bytes. None of them is read.
    fn is_of_bytes(&self)
        ensures { AreAllOfBytes (archive self.now).bodies };
}
