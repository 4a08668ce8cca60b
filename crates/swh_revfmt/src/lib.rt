//! Revision and release manifests (git objects, commit and tag): read into their parts, and written again, byte for
//! byte.
//! Stands on `swh_base`, whose grammars of revisions and releases it reads and writes, on `swh_base` and on `hex`.
//! Callers may rely on: exactly the grammars are read, and a refusal tells how far the bytes go that some body
//! continues.
#![tactic(auto)]

mod fault;
mod line;
mod place;
mod plain;
mod release;
mod rest;
mod revision;
mod writing;

pub use fault::{BadRel, BadRev, ReadRelFault, ReadRevFault, one_fault};
pub use plain::{PlainRel, PlainRev, plain_rel, plain_rev};
pub use release::{Rel, SpelledRel, read_rel, spelled_rel, write_rel};
pub use revision::{Rev, SpelledRev, read_rev, spelled_rev, write_rev};
pub use writing::{write_plain_rel, write_plain_rev};
