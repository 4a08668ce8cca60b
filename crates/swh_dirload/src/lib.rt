//! Folders as inputs: what stands in one, in the order of its path walk, the contents of its files, what a modes
//! listing says of it, and the objects that all of it makes.
//! Stands on `swh_outside`, on `swh_fastlex`, which reads files, on `swh_listing`, which reads listings, and on the
//! objects and what makes them.
//! Callers may rely on: the table of a walk has all that stands in the folder, in the order of git's trees, or its
//! first item that is neither file nor folder, or whose path is too long, is told; each file is read once, in that
//! order, and its content is given once, or the first that passes a limit is told; the lines of a listing are taken one
//! after another, or the first that is none or may not come after those before it is told; a folder is loaded as it
//! means with its listing, or is told how it breaks; and without one it is named, as the directory to which its
//! snapshot leads.
#![tactic(auto)]

mod content;
mod fault;
mod file;
mod folder_name;
mod found;
mod laws;
mod limits;
mod listing;
mod loading;
mod lookup;
mod order;
mod path;
mod reading;
mod spot;
mod taking;
mod walking;

pub use fault::DirFault;
pub use folder_name::name_folder;
pub use found::Found;
pub use laws::{limit_of_files, one_folder, one_root, one_walk};
pub use limits::FILES_LIMIT;
pub use listing::take_lines;
pub use loading::load_folder;
pub use lookup::index_of;
pub use reading::read_files;
pub use spot::spots_of;
pub use walking::walk;
