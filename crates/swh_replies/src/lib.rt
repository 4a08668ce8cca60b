//! Answers of the read API: what a path asks for, and artifacts, visits and refusals as JSON.
//! Stands on `swh_base`, `swh_model`, the formats of manifests, `swh_swhid`, `json`, `serde_json`,
//! `percent_encoding` and `hex`.
//! Callers may rely on: a path asks for one thing at most, and each text is the definition's.
#![tactic(auto)]

mod artifacts;
mod asked;
mod branches;
mod entries;
mod known;
mod laws;
mod members;
mod replies;
mod value;
mod visits;
mod words;

pub use artifacts::{
    content_value, entry_value, log_value, release_value, resolved_value, revision_value,
};
pub use asked::{Asked, read_path};
pub use branches::branches_reply;
pub use entries::entries_reply;
pub use known::listed_names;
pub use laws::one_shape;
pub use replies::{
    content_reply, core_of, id_of, known_reply, listed_visits, no_path, not_held, origin_reply,
    raw_reply, refusal, uncarried, url_of, visits_reply,
};
pub use value::json_reply;
