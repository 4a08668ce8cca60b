//! The read API: which requests are loads, and the reply to every other request, over an archive that is looked at.
//! Stands on `swh_base`, `swh_model`, `swh_swhid`, `swh_graph`, `swh_fastcook`, `swh_roundtrip` and `swh_replies`.
//! Callers may rely on: a reply is the archive's answer to the request; and a stream that is answered loads back.
#![tactic(auto)]

mod answer;
mod collected;
mod cooking;
mod get;
mod laws;
mod objects;
mod posted;
mod refusals;
mod routing;
mod wanted;

pub use answer::reply;
pub use get::reply_to_get;
pub use laws::{carried_is_cooked, one_answer, what_was_answered_loads_back};
pub use posted::load_reply;
pub use refusals::refusal_reply;
pub use routing::route;
pub use wanted::Route;
