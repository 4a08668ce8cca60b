//! What tests of what is read of an archive share: objects that git named, and archives in memory of single objects and
//! of revisions in a chain, and bodies of wide objects.
//! Stands on objects and on what is in memory of a replay.
//! Callers may rely on: an object is held under the name that its body has.
#![tactic(auto)]

pub mod objects;
mod revisions;
mod shown;
pub mod wide;

pub use revisions::{History, chain};
pub use shown::{add, archive_of};
