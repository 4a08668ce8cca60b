//! Trees of commits: the changes of a commit (git-fast-import(1)) made to a tree that shares with others the folders
//! that it does not change, and the objects of its new folders (git objects, tree).
//! Stands on `swh_base`, `swh_fastlex`, whose paths they are, `swh_entries`, `swh_forest`, `swh_folders`, `swh_dirfmt`
//! and `swh_object`.
//! Callers may rely on: a change makes of a tree what it makes of a map from paths; the objects made are those of the
//! map's directories, each after its own folders, and none that was made before is made again; of the folders without
//! objects about as many stand, with about as many entries, as the tree that was changed last has; a name is kept once,
//! and none that stood in no path.
#![tactic(auto)]

mod directory;
mod fault;
mod making;
mod objects;
mod tree;
mod trees;

pub use fault::TreeFault;
pub use swh_entries::Leaf;
pub use tree::Tree;
pub use trees::{Made, Trees};
