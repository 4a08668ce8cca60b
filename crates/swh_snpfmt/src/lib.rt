//! Snapshot manifests (SWHID v1.2, core identifiers, snapshots): a body read into its branches, and written again, byte
//! for byte.
//! Stands on `swh_base`, whose grammar of snapshots it reads and writes, on `swh_base` and on `itoa`.
//! Callers may rely on: exactly the grammar is read, a refusal names the first branch that breaks, and each list of
//! branches has one spelling.
#![tactic(auto)]

mod branch;
mod branches;
mod fault;
mod front;
mod number;
mod reading;
mod target;
mod writing;

pub use branch::{Branch, SpelledBranch, SpelledTarget, Target};
pub use branches::Branches;
pub use fault::{BadSnp, ReadSnpFault, one_fault};
pub use reading::{read_snp, spelled_snp};
pub use writing::{one_spelling, write_snp};
