//! Inputs of three kinds, streams, folders with a listing of modes, and batches with refs: how one was found, what it
//! means, how it breaks, and how it is read.
//! Stands on the readers of the three kinds, `swh_fastload`, `swh_dirload` and `swh_batchread`, on `swh_dedup` for what
//! an input makes, on `swh_ingest` for what a reading gives, and on crates below these; crates.txt lists all.
//! Callers may rely on: what an input means, and how it breaks, is one definition each for all kinds
//! (specs/Input.antt); of an input that is found either what it means is made, or it is told how it breaks, or a part
//! of it failed; whatever comes, each part keeps its path, and no count of faults falls; a stream, and a batch with its
//! refs, may be read part by part, and what an input may give before its reading stops is one definition too
//! (`MayGiveInput`), and belongs to what the input means.
#![tactic(auto)]

mod bad;
mod batching;
mod input;
mod laws;
mod reading;
mod streaming;

pub use bad::{BadText, InputFault};
pub use batching::{BatchByParts, BatchInput, next_of_batch};
pub use input::Input;
pub use laws::{given_is_meant, one_break, one_meaning};
pub use reading::{WholeInput, read_input};
pub use streaming::{StreamByParts, next_of_stream};
