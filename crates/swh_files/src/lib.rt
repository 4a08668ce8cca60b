//! Files and folders of the system, as the parts of the outside need them: opened only where they are ordinary, locked,
//! named and synced, read on past signals; and a count of faults.
//! Stands on `swh_outside`, `swh_folder_names` and `libc`.
//! Callers may rely on: the count rises by one at each fault; a read gives no more than it was asked for; the names
//! that a listed folder has are good ones; a barrier of which the system says that it failed is none; a file that may
//! be written owes a barrier to its name; no bytes end past the system's limit. What a file really holds nothing tells.
#![tactic(auto)]

mod barrier;
mod count;
mod forgetting;
mod inside;
mod items;
mod numbered_file;
mod opening;
mod reading;
mod size_limit;

pub use barrier::barrier_of;
pub use count::Count;
pub use forgetting::forget_cached;
pub use inside::{ends_in_name, is_beside, is_within};
pub use items::{fault_of, items_at, look_inside, look_through, path_in};
pub use numbered_file::{Names, NumberedFile};
pub use opening::{Access, open_ordinary};
pub use reading::{read_from, read_next};
pub use size_limit::check_size_limit;
