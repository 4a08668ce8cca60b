//! Folders by their numbers, which trees share: what the changes of a commit (git-fast-import(1)) make of them, and
//! those that are no longer needed dropped. None knows of ids that are computed, or of objects.
//! Stands on `swh_base`, `swh_fastlex`, whose paths they are, `swh_entries` and `swh_forest`, which has the folders.
//! Callers may rely on: a change makes of a root what it makes of a map from paths; the folders below a base stay;
//! after a drop each folder from the base on is one of the root's, and there is a drop before more folders, or entries,
//! stand than may.
#![tactic(auto)]

mod compacting;
mod folders;
mod live;
mod opened;
mod splitting;

pub use compacting::compact;
pub use folders::{Folders, count_from};
pub use opened::{Opened, Start, delete_in, root_from, set_in, transfer_from};
