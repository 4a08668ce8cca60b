// The body of a request, as what a stream is read from.
ghost use Rattle.std.specs.Prelude.{◌≤◌, length};

use std::alloc::Global;
use std::marker::Model;
use swh_outside::{Failed, Folder, Item, OutFault, Source};

/// The bytes of a body, which are read where they lie, from the front. It never fails.
#[derive(Drop)]
pub struct BodySource<'a> {
    bytes: &'a [u8],
    at: usize,
    ended: bool,
    ghost in_range: { at ≤ length bytes.now },
}

impl<'a> Model for BodySource<'a> {
    ghost use Rattle.std.specs.Prelude.{take, drop};
    ghost use Rattle.swh_outside.specs.Source.{Heard};

    ghost Value = { Heard };

    ghost view = { λ s. record {
      left = drop s.at s.bytes.now;
      given = take s.at s.bytes.now;
      ended = s.ended;
    } };
}

impl<'a> BodySource<'a> {
    ghost use Rattle.std.specs.Prelude.{◌≡◌};
    ghost use Rattle.swh_desk.specs.Body.{unread};

    /// A body of which nothing is read.
    pub fn new(bytes: &'a [u8]) -> Self
        ensures { result ≡ unread bytes.now }
    {
        BodySource {
            bytes,
            at: 0,
            ended: false,
        }
    }
}

impl<'a> Source for BodySource<'a> {
    ghost use Rattle.std.specs.Prelude.{[]};

    ghost tells = { Unit {0} };

    ghost left = { λ s. s.left };

    ghost given = { λ s. s.given };

    ghost ended = { λ s. s.ended };

    ghost faults = { λ _. 0 };

    ghost path = { λ _. [] };

    fn get(&mut self, out: &mut [u8]) -> Result<usize, Failed> {
        let count = out.len().min(self.bytes.len() - self.at);
        let end = self.at + count;
        out[..count].copy_from_slice(&self.bytes[self.at..end]);
        self.at = end;
        if count == 0 {
            self.ended = true;
        }
        Ok(count)
    }
}

/// A folder in which nothing stands, for inputs of which none is a folder: what is posted is a stream.
#[derive(Debug, Drop)]
pub struct NoFolder {
    faults: u64,
}

impl Folder for NoFolder {
    ghost use Rattle.std.specs.Prelude.{[]};
    ghost use Rattle.swh_outside.specs.Folder.{nothing};

    type S = BodySource<'static>;

    ghost tells = { ⊥ };

    ghost holds = { λ _. nothing };

    ghost opened_at = { λ _. [] };

    ghost faults = { λ folder. folder.faults };

    fn list(&mut self, alloc: Global, _dir: &str) -> Result<Vec<Item>, OutFault> {
        Ok(Vec::new(alloc))
    }

    fn read(&mut self, _path: &str) -> Result<BodySource<'static>, OutFault> {
        self.faults = self.faults.saturating_add(1);
        Err(OutFault::Failed)
    }

    fn back(&mut self, _source: BodySource<'static>) {}
}
