//! A load and its steps, over any archive that takes plans and however its input is read: a visit is opened and marked,
//! what is new of an input's objects is sent in batches while it is read part by part, and the visit is ended; and what
//! an archive is to one loader: how an object stands to what is held, which body is held, and what comes of a plan.
//! Stands on `swh_plan` and `swh_store` for plans, on `swh_dedup` for what an input makes, on `swh_outside` for gates
//! alone, and on crates below these; crates.txt lists all. It stands on no disk.
//! Callers may rely on: a front that a loader has seen only grows, and what others add may stand before and between its
//! own events; a plan is judged at a history that begins with the front; each step says which events of its own were
//! added, in order, why it stopped, and what is held in the new front.
#![tactic(auto)]

mod calls;
mod destination;
mod end;
mod ending;
mod input;
mod loading_parts;
mod parts;
mod pending;
mod refusal;
mod sending;
mod sending_parts;
mod stop;
mod turn;
mod visiting;

pub use calls::{Calls, HasProtocol};
pub use destination::{Destination, Wanted};
pub use end::{End, LoadFault, Loaded};
pub use input::{Job, Opening};
pub use loading_parts::load_parts;
pub use parts::{ByParts, GoesOn, Next, ReadsParts, SaidOfParts};
pub use pending::Pending;
pub use refusal::Refusal;
pub use stop::Stop;
pub use turn::{Turn, Worker};
pub use visiting::{OpenVisit, mark, open_visit};
