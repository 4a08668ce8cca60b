//! How long a listing may be.

/// The bytes of a listing.
pub const LISTING_LIMIT: u64 = 1 << 32;
