//! Rows that have names, kept as lists that several owners share, and where the row of a name stands among them.
//! Stands on `swh_base`.
//! Callers may rely on: lists one behind another are one list, of which a row is found by its place and none is copied;
//! a name is found exactly where a row of it stands; where memory runs out all is found that was found before.
#![tactic(auto)]

mod front;
mod key;
mod pieces;
mod places;
mod rows;
mod slots;

pub use front::Front;
pub use pieces::{Pieces, pieces_are_sent, pieces_are_shared};
pub use places::{Places, places_are_sent, places_are_shared, places_of};
pub use rows::Rows;
