//! What stands in a folder.

/// A file with its mode and the id of its content, a folder, or a revision of another project, by its id.
#[derive(Clone, Copy, Debug, PartialEq, Eq)]
pub enum Member {
    File { mode: u32, id: [u8; 20] },
    Folder,
    Project([u8; 20]),
}
