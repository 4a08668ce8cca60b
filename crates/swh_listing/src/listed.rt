//! What a line of a modes listing says.

use swh_base::Bytes;

/// What stands at a path: a file of the folder whose mode is not 100644, or what the folder does not hold.
#[derive(Clone, Copy, Debug, PartialEq, Eq)]
pub enum Mode {
    /// An executable file: 100755.
    Executable,
    /// A link: 120000. Its text is what the file holds.
    Link,
    /// A revision of another project, by its id: 160000.
    Project([u8; 20]),
}

/// A path, and what stands there.
#[derive(Debug, Drop)]
pub struct Listed {
    pub mode: Mode,
    pub path: Bytes,
}
