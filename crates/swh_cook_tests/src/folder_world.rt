//! What the tests of folders share.
use std::alloc::Global;
use swh_base::{Kind, Name};
use swh_carried::CookFault;
use swh_dircook::cook_dir;
use swh_memory_input::MemoryYard;
use swh_replay::Replayed;

/// What cooking answers of a directory, whose folder is `out`; nothing is cooked of another root.
pub fn cooked(
    alloc: Global,
    shown: &Replayed,
    root: Name,
    yard: &mut MemoryYard,
) -> Result<(), CookFault> {
    match root.kind {
        Kind::Directory => cook_dir(alloc, shown, root, yard, "out"),
        Kind::Content | Kind::Revision | Kind::Release | Kind::Snapshot => Err(CookFault::Memory),
    }
}
