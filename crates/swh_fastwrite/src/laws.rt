//! That what is written is read again.
ghost use Rattle.std.specs.Prelude.{ℕ, ◌<◌, List};
ghost use Rattle.std.specs.List.{AllByRecursion};
ghost use Rattle.swh_fastlex.specs.Path.{IsPath, NamesPath};
ghost use Rattle.swh_fastwrite.specs.Quoted.{quoted_path};

/// What is written of a path names it (git-fast-import(1), filemodify).
pub fn paths_are_read_again()
    ensures { (path : List ℕ) → AllByRecursion (λ c. c < 256) path → IsPath path → NamesPath (quoted_path path) path }
{}
