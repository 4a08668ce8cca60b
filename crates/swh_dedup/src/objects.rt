//! What an input makes.

use swh_base::Namer;
use swh_object::Object;

/// The objects in the order of making, the snapshot among them, and the snapshot's id.
#[derive(Drop)]
pub struct Objects<N: Namer> {
    pub objects: Vec<Object<N>>,
    pub snapshot: [u8; 20],
}
