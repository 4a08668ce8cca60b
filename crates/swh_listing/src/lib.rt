//! The lines of a modes listing, which says what a folder cannot: which of its files are executables or links, and
//! where revisions of other projects stand.
//! Stands on `swh_base`, `swh_outside` and `swh_fastlex`, and takes the word of an id from `swh_fastlines`.
//! Callers may rely on: a listing is read exactly, in whatever pieces the source gives it, and else its first line that
//! is none is named, or its first limit; a text has one reading at most, or one fault, and not both.
#![tactic(auto)]

mod fault;
mod laws;
mod limits;
mod listed;
mod next;
mod reading;
mod row;

pub use fault::ListingFault;
pub use laws::{limit_of_a_listing, one_listing, one_listing_fault};
pub use limits::LISTING_LIMIT;
pub use listed::{Listed, Mode};
pub use next::next_listed;
pub use reading::read_listing;
