//! Limits, as numbers.
ghost use Rattle.std.specs.Prelude.{◌≡◌};
ghost use Rattle.swh_fastrows.specs.declared.row_source.TheConstants.{STREAM_LIMIT as stream_limit};

/// A stream may have as many bytes, 2 to the 32nd.
pub fn limit_of_a_stream()
    ensures { stream_limit ≡ 4294967296 }
{}
