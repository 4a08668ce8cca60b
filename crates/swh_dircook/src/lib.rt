//! Cooking: a directory becomes a folder again, with a listing of what its files do not say.
//! Stands on `swh_pathwalk`, which has the entries of a directory with their paths, on `swh_listing` and
//! `swh_fastwrite`, which have what a listing says and how a path is written, on `swh_carried` for why a name is not
//! cooked, on `swh_carried` for how long paths are, on `swh_pathsums` for how long all of it is, on `swh_fastwrite` for
//! what is put in large pieces, and on what these stand on.
//! Callers may rely on: a directory of which all is held, and which a folder carries, becomes just the folder that the
//! definition gives, or a front of it where the yard fails; else the first name that is not held is told, or the first
//! that a folder cannot carry and why, and nothing is begun; and a listing is read as what it says.
#![tactic(auto)]

mod cook;
mod first;
mod laws;
mod listing;
mod long;
mod making;
mod names;
mod rows;
mod walk;
mod weights;
mod whole;

pub use cook::cook_dir;
pub use laws::listings_are_read_again;
pub use listing::push_listed;
pub use making::make_entry;
pub use names::rule_of_names;
pub use rows::make_row;
