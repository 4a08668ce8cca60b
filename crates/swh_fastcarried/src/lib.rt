//! What a stream (git-fast-import(1)) cannot carry of all that is reached from a name.
//! Stands on `swh_carried`, which has what any form cannot carry and why, on `swh_postorder`, which has the order of
//! the objects, on `swh_carried` for how long paths are, on `swh_closure` for sets of names, and on the readers of what
//! is held.
//! Callers may rely on: of an order in which each name stands once and behind its children, the first object that a
//! stream cannot carry is told, with the first rule that it breaks; whether the stream loads too many branches is
//! handed in, and how long it is remains to be seen.
#![tactic(auto)]

mod branches;
mod directories;
mod first;
mod folders;
mod plain;
mod reached;
mod roots;
mod tagged;

pub use branches::{have_odd_branch, is_at_own_branch};
pub use directories::have_dots;
pub use first::first_uncarried;
pub use folders::is_folder;
pub use tagged::tagged_of;
