//! The device calls on the two files of an archive: the making, the adding of a record, of a run and of an event, also
//! by owners of their disks, and the reading of a whole file.
//! Stands on `swh_base`, `swh_outside`, `swh_model` and `swh_format`.
//! Callers may rely on: each call on the disks is one of a stated plan, cut where a disk fails, and a crash at any call
//! of it leaves files that stand for the history with the event or without; at any call of several events, for the
//! history and a front of them, which has each that was acknowledged, and at most one more.
#![tactic(auto)]

mod beginning;
mod both;
mod event;
mod fault;
mod fronts;
mod laws;
mod ledger;
mod making;
mod reading;
mod runs;
mod writing;

pub use beginning::read_beginning;
pub use both::{Both, BothBack, append_to_both, make_both};
pub use event::Run;
pub use fault::MakeFault;
pub use fronts::{
    broken_event_is_in_doubt, events_are_added, fronts_survive_crashes, opening_survives_crashes,
    worked_acknowledgements,
};
pub use laws::{event_is_added, event_survives_crashes, made_is_empty, making_survives_crashes};
pub use ledger::Ledger;
pub use making::make;
pub use reading::{ReadFileFault, fill, read_file};
pub use runs::Runs;
pub use swh_outside::Failed as DiskFault;
pub use writing::{settle, write_synced};
