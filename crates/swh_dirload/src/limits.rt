//! How long the files of a folder may be together.

/// The bytes of a folder's files together.
pub const FILES_LIMIT: u64 = 1 << 32;
