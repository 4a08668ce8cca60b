//! The bodies of an archive in memory, by their names, each once.
//! Stands on `swh_base` and `swh_model`.
//! Callers may rely on: a store is the finite map of the archive and the graph of its bodies; a batch is added whole,
//! or it stays as it was, and is refused exactly where a name would have two bodies; the entries of a whole history are
//! indexed at once, and so many more of them are shown as a store exactly where they are new.
#![tactic(auto)]

mod adding;
mod distinct;
mod entries;
mod fault;
mod key;
mod places;
mod preloaded;
mod store;

pub use adding::Standing;
pub use distinct::Distinct;
pub use fault::StoreFault;
pub use preloaded::Preloaded;
pub use store::Store;
