//! The reader of streams: the commands that the rows of a source are (git-fast-import(1), input format).
//! Stands on `swh_base`, `swh_outside`, `swh_fastlex`, `swh_fastgrammar`, `swh_fastlines` and `swh_fastrows`.
//! Callers may rely on: a command is read exactly where the grammar has it, the first fault is told at its place, and
//! the first limit before it; a text is a stream within the limits, has a fault, or passes a limit, and no two of
//! these.
#![tactic(auto)]

mod blob;
mod changes;
mod commit;
mod items;
mod laws;
mod lent;
mod reader;
mod reset;
mod tag;
mod tail;

pub use laws::{one_kind, one_outcome, starts_go_on};
pub use lent::Lent;
pub use reader::{Ending, Reader};
pub use swh_fastgrammar::{At, Change, Command, Commitish, Dataref, Start, StreamWhy};
pub use swh_fastrows::{Outside, ReadFail};
