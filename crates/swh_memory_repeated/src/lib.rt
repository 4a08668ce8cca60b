//! A source in memory that gives one text many times over, and a file that is one: inputs that are too long to be held.
//! They do not tell what they give.
//! Stands on `swh_outside`.
//! Callers may rely on: no call of them fails.
#![tactic(auto)]

mod file;
mod source;

pub use file::RepeatedFile;
pub use source::RepeatedSource;
