//! The reading of an archive's two files: the events for which they stand, or the first harm with its place and the
//! events before it.
//! Stands on `swh_base`, `swh_outside`, `swh_model`, the readers of manifests, `swh_format`, `swh_segment` and
//! `swh_object`.
//! Callers may rely on: what is read is what the files stand for, and a harm is what breaks first of the stages of the
//! next record, after the records before it.
#![tactic(auto)]

mod archive;
mod event;
mod fault;
mod field;
mod frame;
mod harm;
mod laws;
mod object;
mod piece;
mod reading;
mod run;

pub use archive::{ReadAllFault, read_all};
pub use harm::Harm;
pub use laws::{an_event_does_not_break, harms_leave_no_history, one_harm};
