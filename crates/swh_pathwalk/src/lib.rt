//! The walk over the paths of a directory: its entries in their order, each folder followed at once by its own entries;
//! and the same walk where all is held, and nothing is reached from itself.
//! Stands on `swh_graph`, which reads the directories of an archive, on `swh_postorder`, which has the order of what is
//! reached, and on `swh_base`, `swh_model` and `swh_dirfmt`.
//! Callers may rely on: the entries are given one by one with their paths, in this order, and no folder is entered that
//! is not held; where all is held and nothing is reached from itself a directory has one walk, no step of it fails but
//! for want of memory, and it comes to an end.
#![tactic(auto)]

mod held_laws;
mod laws;
mod stepping;
mod walk;
mod walking;

pub use held_laws::{acyclic_orders_are_held, one_path_walk, path_walks_exist};
pub use laws::{
    all_remains_at_first, less_remains_after_a_step, nothing_remains_at_last, steps_come_to_an_end,
};
pub use walk::PathWalk;
pub use walking::{begin, next};
