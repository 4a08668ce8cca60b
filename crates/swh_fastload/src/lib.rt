//! What inputs mean and how they break (`Means` and `Breaks` in specs/Input.antt), and the loader that makes what they
//! mean: `load_source` for a whole source, `FastLoad` command by command (git-fast-import(1), commands).
//! Stands on `swh_base`, `swh_outside`, `swh_fastlex`, `swh_revfmt`, `swh_snpfmt`, `swh_object`, `swh_dedup`,
//! `swh_fastrows`, `swh_fastread`, `swh_entries`, `swh_forest`, `swh_trees` and `swh_fastmeaning`, and on the types and
//! definitions of `swh_fastgrammar` and `swh_model`.
//! Callers may rely on: for each command a loader gives exactly the objects that it makes and that were not given
//! before, each after all that it names, or it tells the place of the first line that names what is not there, or a
//! body above the limit; at the end it gives the snapshot of the tips; after a refusal it answers the same again. A
//! reader of a stream keeps the body of each object that was given, its own or an equal one that it was lent to share.
//! An input has one meaning at most, or one fault, or passes limits first at one place, and has no two of these.
#![tactic(auto)]

mod bad;
mod commit;
mod ending;
mod feeding;
mod input;
mod laws;
mod load;
mod parents;
mod parts;

pub use bad::{BadStream, InputFault};
pub use input::load_source;
pub use laws::{never_both, one_break, one_limit, same_making, ways_to_break};
pub use load::FastLoad;
pub use parts::{StreamPart, StreamParts};
pub use swh_dedup::{Novelty, Objects, Seen};
pub use swh_fastgrammar::StreamWhy;
pub use swh_fastlex::Window;
pub use swh_fastmeaning::{FeedFault, MarksAndTips, Target, blob_of, commit_of};
