//! What a form, a stream or a folder, can carry of all that is reached from a name; and how long the paths are that
//! lead to each directory from some of them, a slash behind each folder's name.
//! Stands on `swh_postorder`, which has the order of the names, on `swh_graph`, which reads directories, and on
//! `swh_base`, `swh_outside`, `swh_model`, `swh_dirfmt` and `swh_closure`.
//! Callers may rely on: the first name that is not held is told before all else, then the first on a cycle; the rules
//! of a form name the first object that it cannot carry, by the first rule that the object breaks; and of an order in
//! which each name stands once and behind its children, one pass from its end tells of each directory whether a way
//! leads to it, and of the longest how long it is, up to the limit of a path.
#![tactic(auto)]

mod fault;
mod long;
mod order;
mod ways;
mod words;

pub use fault::{CookFault, Why};
pub use long::{have_long, way_over};
pub use order::acyclic_order;
pub use ways::{raise_over_all, starts_of, way_to, ways_from};
pub use words::why_word;
