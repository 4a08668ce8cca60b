//! Batches of objects and files of refs, as git writes them (git-cat-file(1), batch output; git-show-ref(1)), and what
//! they mean.
//! Stands on `swh_base`, `swh_outside`, `swh_fastlex`, `swh_closure`, `swh_snpfmt`, `swh_object` and `swh_dedup`, and
//! on the types of `swh_model`.
//! Callers may rely on: the objects are those of the batch in its order, each kind and body once, in whatever pieces
//! the source gives it, or its first fault is told, with its place; no room is taken for a body above the limit; with
//! refs the objects have their snapshot behind them and all that they name among them, or the first fault of the refs
//! is told.
#![tactic(auto)]

mod fault;
mod giving;
mod header;
mod laws;
mod limits;
mod names;
mod objects;
mod parts;
mod ref_line;
mod refs;
mod snapshot;

pub use fault::BatchFault;
pub use giving::{BatchPart, BatchParts};
pub use laws::{limit_of_input, limit_of_refs, one_batch, one_refs};
pub use limits::{INPUT_LIMIT, REFS_LIMIT};
pub use objects::read_batch;
pub use snapshot::read_refs;
