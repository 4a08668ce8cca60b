//! Answers the requests of connections over a keeper that nobody else adds to, on one thread: reads by what it holds,
//! and posted streams by loads.
//! Stands on one connection (`swh_serve`), on the read API (`swh_api`), on the loader (`swh_loader`) and the keeper, and on
//! crates below these; crates.txt lists all.
//! Callers may rely on: a reply to a read is the archive's answer and changes nothing; a posted stream is loaded as the
//! loader says, and its reply is that load's line as JSON, or why it stopped; and a keeper whose disk failed answers on.
#![tactic(auto)]

mod answering;
mod body;
mod keeping;
mod laws;
mod links;
mod loading;
mod outcome;
mod reading;
mod tally;

pub use answering::answer_at_keeper;
pub use body::{BodySource, NoFolder};
pub use keeping::{AtKeeper, serve_at_keeper};
pub use laws::history_grows;
pub use links::serve_links;
pub use tally::{ServeStop, Tally};
