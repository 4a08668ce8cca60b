//! A keeper as the destination of one loader, to which nobody else adds: its protocol, the calls that make it, and a
//! load over it.
//! Stands on `swh_ingest` and `swh_keeper`, and on crates below these; crates.txt lists all.
//! Callers may rely on: a load adds the events of its visit alone, with their device calls, in order; where a disk
//! fails, up to one of the event that comes next; a visit whose load stopped has no end.
#![tactic(auto)]

mod fitting;
mod keeping;
mod loading_parts;
mod protocol;
mod refusing;

pub use keeping::{body_in, carry_out, certificate_in, standing_in};
pub use loading_parts::load_kept_parts;
pub use protocol::Alone;
