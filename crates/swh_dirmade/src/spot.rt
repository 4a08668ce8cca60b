//! The names of what stands in a folder.

use swh_base::Bytes;

/// A name in a folder, which it names by the folder's number in the table of all that stands. The number 0 is the folder
/// itself.
#[derive(Drop)]
pub struct Spot {
    pub above: usize,
    pub name: Bytes,
}
