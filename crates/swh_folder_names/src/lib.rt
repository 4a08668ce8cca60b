//! Whether the names in the list of a folder are as a list owes them, for whatever makes such lists.
//! Stands on `swh_outside`, whose definition of them it tests.
//! Callers may rely on: names are told to be good exactly where each may stand in a folder and none stands twice.
#![tactic(auto)]

mod names;

pub use names::are_names;
