//! Which calls of a part in memory are to fail, by their numbers, and how many have failed.
//! Stands on `swh_outside`.
//! Callers may rely on: a call fails exactly where its number is listed, and each failure is counted once.
#![tactic(auto)]

mod failures;

pub use failures::Failures;
