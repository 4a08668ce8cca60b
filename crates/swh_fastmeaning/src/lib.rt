//! What the commands of a stream make (git-fast-import(1), commands), as definitions, and the parts that make it: marks
//! and tips, contents, the changes of a commit, and the branches of a snapshot.
//! Stands on `swh_base`, `swh_fastlex`, `swh_revfmt`, `swh_snpfmt`, `swh_object`, `swh_dedup`, `swh_entries`,
//! `swh_forest` and `swh_trees`, and on the types and definitions of `swh_fastgrammar` and `swh_model`.
//! Callers may rely on: what a mark or a ref leads to is what was set last; a tree with a commit's changes is the path
//! map that they make of its parent's, or the place of the first change that names what is not there is told.
#![tactic(auto)]

mod aims;
mod changes;
mod contents;
mod feed_fault;
mod giving;
mod laws;
mod lookups;
mod marks;
mod parts;
mod sides;

pub use aims::{MarksAndTips, Target, blob_of, commit_of};
pub use changes::changed_tree;
pub use contents::Contents;
pub use feed_fault::FeedFault;
pub use giving::{give_own, make_or_refuse};
pub use laws::limit_of_refs;
pub use parts::Parts;
pub use sides::{REFS_LIMIT, Sides, head_branch_of, joined};
