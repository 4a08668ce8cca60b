//! What an event would be: a plan judged over what is in memory, before anything is written.
//! Stands on `swh_base`, `swh_model`, `swh_format`, `swh_object`, `swh_closure`, `swh_store`, `swh_visits` and
//! `swh_replay`.
//! Callers may rely on: a plan is refused for the first cause against it, or becomes its event with the event's bytes.
#![tactic(auto)]

mod entries;
mod fresh;
mod how;
mod lengths;
mod planning;
mod plans;
mod proposal;
mod snapshots;

pub use how::How;
pub use planning::{PlanFault, Planned};
pub use plans::judge_plan;
pub use proposal::Plan;
