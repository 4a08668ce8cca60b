// A certificate, and what speaks against one.
use swh_base::Name;

/// Names that show that all that is reached from a root is held: each is held, and its children, as the root, are among
/// them or known to be closed.
#[derive(Debug, Drop)]
pub struct Cert {
    pub root: Name,
    /// In ascending order, where a walk made it.
    pub names: Vec<Name>,
}

/// What speaks against a certificate.
#[derive(Clone, Copy, Debug, PartialEq, Eq)]
pub enum Gap {
    /// A listed name is not held.
    NotHeld { name: Name },
    /// A child of a listed name, or the root, is neither listed nor closed.
    Unlisted { parent: Option<Name>, child: Name },
}
