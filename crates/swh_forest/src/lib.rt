//! Folders by their numbers, which trees share and none of which is ever changed: what stands at a path, and what
//! something put there, or a copy or a rename of a commit (git-fast-import(1)), makes of a root.
//! Stands on `swh_base`, `swh_fastlex`, whose paths they are, and `swh_entries`.
//! Callers may rely on: what stands at a path is found; what is put at a path makes of a root just what its definition
//! says, and a copy or a rename what it makes of a map from paths; folders that stood stay what they were, and sound;
//! no name is kept but those before and the components of the paths.
#![tactic(auto)]

mod arena;
mod edits;
mod node;
mod path;

pub use arena::{add_some, seal};
pub use edits::{Transfer, number_of, root_of, transfer_path};
pub use node::{child_in, kept};
pub use path::{components_of, find, graft};
