//! The entries of a folder, by the numbers of their names: in the room that they need, or, while many of them are
//! changed, in pieces under forks, which the lists before and after a change share, so a change costs about the
//! logarithm of their number. Names have numbers, and folders that were made before are found by their entries.
//! Stands on no library.
//! Callers may rely on: a list is what contracts see, in whatever form it is kept; no name stands twice; the order is
//! that of git's directories; what is found by entries has these entries.
#![tactic(auto)]

mod entry;
mod known;
mod names;
mod order;
mod packed;
mod packing;
mod spans;

pub use entry::{Child, Entry, Gap, Leaf, whole_id};
pub use known::Known;
pub use names::Names;
pub use order::{comes_before, suffix};
pub use packed::Packed;
