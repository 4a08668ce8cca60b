// How a visit ends.
use swh_base::Name;
use swh_inputs::BadText;

/// Why an input makes no snapshot.
#[derive(Debug, Drop)]
pub enum BadInput {
    /// It breaks, or passes a limit.
    Broken(BadText),
    /// An object of the input bears the name of another body.
    Collision { name: Name },
    /// The input does not open, or fails while it is read.
    Read,
}

/// The end of a visit.
#[derive(Debug, Drop)]
pub enum End {
    /// All that the snapshot reaches is held.
    Full { snapshot: [u8; 20] },
    /// There is no input.
    NotFound,
    Failed(BadInput),
}

/// A visit by its number, and its end.
#[derive(Debug, Drop)]
pub struct Loaded {
    pub visit: u64,
    pub end: End,
}
