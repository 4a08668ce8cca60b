//! Why no object is made.

/// Why a body of its kind makes no object.
#[derive(Clone, Copy, Debug, PartialEq, Eq)]
pub enum MakeFault {
    /// The body has this many bytes, and the limit is 67,108,864.
    TooLong { len: u64 },
    /// Memory ran out.
    Memory,
}
