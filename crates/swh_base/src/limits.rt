//! The limits that several crates count against. Definitions name these very constants.

/// The bytes of a body.
pub const BODY_LIMIT: u64 = 67_108_864;

/// The bytes of a line of a stream, a listing or a manifest, with its LF.
pub const LINE_LIMIT: usize = 1_048_576;

/// The bytes of a path.
pub const PATH_LIMIT: usize = 65_535;

/// The bytes of a ref.
pub const REF_LIMIT: usize = 1_024;

/// The bytes of a tag's name, which is a ref after `refs/tags/`.
pub const TAG_LIMIT: usize = 1_014;

/// The bytes of a URL.
pub const URL_LIMIT: usize = 2_048;

/// The objects of a batch.
pub const OBJECTS_LIMIT: usize = 4_096;

/// The bytes of a batch's bodies, but for the last.
pub const BYTES_LIMIT: u64 = 8_388_608;

/// The bytes of a batch's run in the store: a kind, a length in eight bytes and an id before each body.
pub const RUN_LIMIT: u64 = 75_616_256;

/// The bytes of each of an archive's two files.
pub const FILE_LIMIT: u64 = 1 << 62;

const _: () = prove!(RUN_LIMIT == 4_096 * (1 + 8 + 20) + BYTES_LIMIT + BODY_LIMIT);
