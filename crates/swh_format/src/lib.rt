//! The format of an archive's two files: the ledger's records and the store's runs, and for which history the files
//! stand.
//! Stands on `swh_base` and `swh_model`.
//! Callers may rely on: two files stand for one history at most, and records and runs are written and read exactly, as
//! long as the limits count them.
//!
//! # The ledger
//!
//! ```text offset  bytes 0      8  the magic, `SWHARC1` and LF 8      1  a gate: 1 is open, every other byte is closed
//! 9      1  the kind of a record: `B`, `O` or `T` 10      4  the payload's length 14      n  the payload 14 + n      1
//!  the next gate, and so on ```
//!
//! Numbers are written with the highest byte first. The records that count are those up to the first closed gate. What
//! follows it counts for nothing: it may be what is left of a record whose gate was never opened.
//!
//! A payload is the fields of its kind, one after another, which kinds.rt lists, and what is behind them:
//!
//! ```text kind            fields                                                              behind them `B`, a batch
//!    by (4), where its run begins (8) and ends (8), its objects (4)      nothing `O`, an opening by (4), the visit's
//! kind (1), the date (8)                          the origin `T`, a mark     by (4), the status (1), the visit (8), a
//! snapshot (1, or 1 and 20)  the origin ```
//!
//! # The store
//!
//! The runs of the batches in their order, each where the one before it ends, and the first at 0. A run is, for each
//! object, its kind (1), the body's length (8), the id (20) and the body. What is behind the last run counts for
//! nothing.
//!
//! # The order of writes
//!
//! 1. The run of a batch at the store's end, in one write, and a barrier on the store. 2. The record behind the closed
//! gate at the ledger's end, with the next gate, closed, in the same write, and a barrier on the ledger. 3. The gate in
//! front of the record is opened, and a barrier.
//!
//! So what an open gate shows is whole on the disk: its run by step 1, and its bytes and the gate behind them by step
//! 2. A crash before step 3 leaves a closed gate, with which the records end, and a crash within it either gate.
//! `swh_segment` makes these calls and shows what each crash leaves.
#![tactic(auto)]

mod batch_record;
mod frame;
mod kinds;
mod laws;
mod mark_record;
mod number;
mod open_record;
mod origin;
mod stored_object;
mod told;

pub use batch_record::{RunTold, run_told};
pub use frame::RecordParts;
pub use kinds::{Choice, Field, RecordKind, fields_of_payload, may_stand};
pub use laws::{
    closed_at_once, files_stand_for_one_history, ledger_stands_once, lengths_are_counted,
    worked_bytes,
};
pub use mark_record::snapshot_is_codable;
pub use number::{split_bytes, split_eight, split_four};
pub use origin::origin_is_codable;
pub use stored_object::{entries_are_codable, entry_is_codable, run_of_entries};
pub use told::{read_whole, record_of_event};
