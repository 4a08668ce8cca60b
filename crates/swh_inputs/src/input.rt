// An input, as it was opened.
ghost use Rattle.std.specs.Prelude.{◌≡◌};
ghost use Rattle.swh_inputs.specs.Opening.{found_as, found_first, listing_found, kind_of, opening_of};

use swh_base::{Bytes, VisitKind};
use swh_ingest::Opening;
use swh_outside::Opened;

/// An input by its parts, each as it was opened.
#[derive(Drop)]
pub enum Input<S, F> {
    /// A stream, and the head that is named for it.
    Fast {
        stream: Opened<S>,
        head: Option<Bytes>,
    },
    /// A folder, and the listing of modes that may stand beside it.
    Dir {
        folder: Opened<F>,
        modes: Option<Opened<S>>,
    },
    /// A batch of objects, and its refs.
    Batch {
        objects: Opened<S>,
        refs: Opened<S>,
    },
}

/// How a part was found.
fn found_part<T>(part: &Opened<T>) -> Opening
    ensures { result ≡ found_as part.now }
{
    match part {
        Opened::Found(_) => Opening::Found,
        Opened::NotFound => Opening::NotFound,
        Opened::Failed => Opening::Failed,
        Opened::Memory => Opening::Memory,
    }
}

/// How a listing was found. One that is not named is wanted by nobody.
fn found_listing<T>(modes: &Option<Opened<T>>) -> Opening
    ensures { result ≡ listing_found modes.now }
{
    match modes {
        Some(part) => found_part(part),
        None => Opening::Found,
    }
}

/// How two parts were found: the first that is not there decides.
fn both_found(first: Opening, second: Opening) -> Opening
    ensures { result ≡ found_first first second }
{
    match first {
        Opening::Found => second,
        Opening::NotFound => Opening::NotFound,
        Opening::Failed => Opening::Failed,
        Opening::Memory => Opening::Memory,
    }
}

impl<S, F> Input<S, F> {
    /// The kind of the visits that load it.
    pub fn kind(&self) -> VisitKind
        ensures { result ≡ kind_of self.now }
    {
        match self {
            Input::Fast { .. } => VisitKind::Fast,
            Input::Dir { .. } => VisitKind::Dir,
            Input::Batch { .. } => VisitKind::Batch,
        }
    }

    /// How it was found: its first part that is not found decides.
    pub fn opening(&self) -> Opening
        ensures { result ≡ opening_of self.now }
    {
        match self {
            Input::Fast { stream, head: _ } => found_part(stream),
            Input::Dir { folder, modes } => both_found(found_part(folder), found_listing(modes)),
            Input::Batch { objects, refs } => both_found(found_part(objects), found_part(refs)),
        }
    }
}
