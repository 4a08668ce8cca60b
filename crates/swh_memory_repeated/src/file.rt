// A source that knows its path.
ghost use Rattle.std.specs.Prelude.{◌≡◌, string_bytes};

use crate::RepeatedSource;
use std::marker::Model;
use swh_outside::{Failed, Source};

/// A source that was opened at a path.
#[derive(Drop)]
pub struct RepeatedFile {
    path: String,
    source: RepeatedSource,
}

impl Model for RepeatedFile {
    ghost use Rattle.std.specs.Prelude.{ℕ, List, string_bytes};

    ghost Value = { List ℕ };

    ghost view = { λ file. string_bytes file.path };
}

impl RepeatedFile {
    /// This source, opened at this path.
    pub fn new(path: String, source: RepeatedSource) -> Self
        ensures { result ≡ string_bytes path }
    {
        RepeatedFile { path, source }
    }
}

impl Source for RepeatedFile {
    ghost use Rattle.std.specs.Prelude.{[], false};

    ghost tells = { ⊥ };

    ghost left = { λ _. [] };

    ghost given = { λ _. [] };

    ghost ended = { λ _. false };

    ghost faults = { λ _. 0 };

    ghost path = { λ file. file };

    fn get(&mut self, out: &mut [u8]) -> Result<usize, Failed> {
        self.source.get(out)
    }
}
