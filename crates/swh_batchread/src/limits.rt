//! The limits of batches and of files of refs. Definitions name these very constants.

/// The bytes of a batch, and of a file of refs.
pub const INPUT_LIMIT: u64 = 1 << 32;

/// The refs that a file may have, but for `HEAD`.
pub const REFS_LIMIT: u64 = 65_536;
