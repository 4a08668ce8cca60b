//! Keeps an archive: two disks, and the replay of their history in memory.
//! Stands on `swh_base`, `swh_outside`, `swh_segment`, `swh_model`, `swh_store`, `swh_visits`, `swh_replay` and
//! `swh_plan`.
//! Callers may rely on: a plan is judged as the model says, and the disks stand for the history unless a disk failed.
#![tactic(auto)]

mod adding;
mod damage;
mod fault;
mod finding;
mod keeper;
mod opening;
mod own;
mod replaying;
mod stored;
mod writing;

pub use damage::{damaged_files_have_no_history, one_damage};
pub use fault::Refusal;
pub use finding::head_length;
pub use keeper::{Keeper, keeper_is_sent};
pub use opening::{OpenFault, OpenWhy};
pub use own::{
    events_keep_own, making_keeps_own, opening_keeps_own, own_files_are_not_damaged,
    unwritten_files_are_own,
};
pub use stored::StoredFault;
pub use swh_base::Which;
pub use swh_model::Outcome;
pub use swh_plan::{How, Plan};
pub use swh_recovery::Harm;
