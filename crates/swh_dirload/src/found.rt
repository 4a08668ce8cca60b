//! What a walk finds.

use swh_outside::What;

/// What stands under a name in a folder, which it names by the folder's number in the table of all that was found. The
/// number 0 is the folder itself.
#[derive(Drop)]
pub struct Found {
    pub above: usize,
    pub name: String,
    pub what: What,
}
