//! One archive over every interleaving: its history, its two files and what each actor has seen, as one pure machine.
//! Stands on `swh_base`, `swh_outside`, `swh_model`, `swh_format` and `swh_segment`.
//! Callers may rely on: after every list of applies, looks, device faults and crashes the replay of the history is
//! sound, all that was seen is a front of it, the files stand for it, and no event leaves it.
#![tactic(auto)]

mod applying;
mod call;
mod copies;
mod crashing;
mod disk;
mod judging;
mod laws;
mod parts;
mod step;
mod world;

pub use laws::{
    acknowledged_events_stay, first_worlds_are_worlds, looks_go_on, runs_keep_worlds,
    worlds_are_sound,
};
pub use step::{Held, Step, StepFault, Told};
pub use world::World;
