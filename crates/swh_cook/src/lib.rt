//! Cooking into a yard: a held name becomes a folder with its listing beside it, or a file, or is refused by the first
//! object that its form cannot carry; and what was made is the name again.
//! Stands on `swh_fastcook`, which has the streams, on `swh_dircook`, which has the folders, on `swh_carried`, which
//! has the refusals, and on `swh_dirload`, which has what a folder means.
//! Callers may rely on: nothing is begun in the yard before all that is reached is known to be carried; what is made is
//! all that the definitions give, or a front of it where the yard fails or memory runs out; a folder that holds what
//! was made of a directory, with its listing, means a snapshot of the one branch `HEAD` to that directory, and some
//! tree is such a folder.
#![tactic(auto)]

mod cooking;
mod file;
mod folder_laws;
mod laws;

pub use cooking::cook_name;
pub use folder_laws::{
    made_folders_load_back, some_folder_holds_what_was_made, what_was_made_loads_back,
};
pub use laws::{one_end, what_was_made_is_again};
