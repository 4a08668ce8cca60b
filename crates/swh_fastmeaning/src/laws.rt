//! Limits, as numbers.
ghost use Rattle.std.specs.Prelude.{◌≡◌};
ghost use Rattle.swh_fastmeaning.specs.Ending.{refs_limit};

/// As many refs may have a tip at the end of a stream, `HEAD` apart.
pub fn limit_of_refs()
    ensures { refs_limit ≡ 65536 }
{}
