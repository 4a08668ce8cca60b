//! What is in memory of a history: its replay, and where its events end in the two files.
//! Stands on `swh_base`, `swh_model`, `swh_store`, `swh_visits` and `swh_closure`.
//! Callers may rely on: what is in memory is the replay of the events, or the first event that may not happen is told.
#![tactic(auto)]

mod advancing;
mod collecting;
mod happening;
mod look;
mod replayed;
mod replaying;

pub use advancing::advance;
pub use replayed::Replayed;
pub use replaying::{ReplayFault, replay_all};
