//! What tests of the program share: a world in memory to run in, what runs begin with and end with, and long inputs.
//! Stands on `swh_program`, the fakes and the fixtures.
//! Callers may rely on: a row is met exactly where its runs end with its statuses and print what it says.
#![tactic(auto)]

mod batches;
mod folders;
mod pieces;
mod plain;
mod rows;
mod setting;
mod words;
mod world;
mod yards;

pub use folders::{Laid, Layout};
pub use pieces::{Piece, spelled};
pub use plain::{PlainDepot, Spoil};
pub use rows::{all_met, all_met_in_sums, all_met_plainly, all_met_spelled};
pub use setting::{BARE, Case, Setting, Spelled, StandingFile, StandingFolder};
pub use words::{ASK, CHECK, INIT, LEDGER, LOAD, LOADED, LOADING, STORE, TWO_JOBS};
pub use world::{is_met, is_met_by, is_met_leaving, is_met_printing};
pub use yards::Grown;
