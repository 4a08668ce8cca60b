// A file of the system that is read once, from its front.
ghost use Rattle.std.specs.Prelude.{◌≡◌, string_bytes};

use std::fs::File;
use std::marker::Model;
use swh_files::{Count, read_next};
use swh_outside::{Failed, Source};

/// An input. A contract sees its count of faults and where it was opened.
#[derive(Drop)]
pub struct RealSource {
    file: File,
    path: String,
    count: Count,
}

impl Model for RealSource {
    ghost use Rattle.std.specs.Prelude.{ℕ, List, string_bytes};

    ghost Value = { ℕ × List ℕ };

    ghost view = { λ source. (source.count, string_bytes source.path) };
}

impl RealSource {
    /// A source over an open file, which can be read.
    pub fn new(file: File, path: String) -> Self
        ensures no_fault { result.0 ≡ 0 }
        ensures path { result.1 ≡ string_bytes path }
    {
        RealSource {
            file,
            path,
            count: Count::new(),
        }
    }

    /// How often it has failed.
    pub fn faults(&self) -> u64
        ensures { result ≡ self.now.0 }
    {
        self.count.get()
    }

    /// Where it was opened.
    pub fn path(&self) -> &str
        ensures { result.now ≡ self.now.1 }
    {
        self.path.as_str()
    }
}

impl Source for RealSource {
    ghost use Rattle.std.specs.Prelude.{[], false};

    ghost tells = { ⊥ };

    ghost left = { λ _. [] };

    ghost given = { λ _. [] };

    ghost ended = { λ _. false };

    ghost faults = { λ source. source.0 };

    ghost path = { λ source. source.1 };

    fn get(&mut self, out: &mut [u8]) -> Result<usize, Failed> {
        match read_next(&mut self.file, out) {
            Ok(count) => Ok(count),
            Err(_) => Err(self.count.refuse()),
        }
    }
}
