//! Certificates that all that is reached from a name is held: a walk makes one, and anybody checks it.
//! Stands on `swh_base`.
//! Callers may rely on: a certificate passes exactly where it leads nowhere else, and a walk gives one exactly where
//! all that is reached is held.
#![tactic(auto)]

mod certificate;
mod checking;
mod closed;
mod closing;
mod hints;
mod laws;
mod met;
mod walking;

pub use certificate::{Cert, Gap};
pub use checking::check;
pub use closed::Closed;
pub use closing::close;
pub use laws::{gaps_refute_certificates, missing_names_refute_closure};
pub use walking::{WalkFault, walk};
