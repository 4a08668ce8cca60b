//! A source that is lent to a reader.
ghost use Rattle.std.specs.Prelude.{◌∷◌};

use swh_outside::{Failed, Source};

/// A source that its owner has again once the reader is done with it.
#[derive(Drop)]
pub struct Lent<'a, S: Source> {
    pub source: &'a mut S,
}

impl<'a, S: Source> Source for Lent<'a, S> {
    ghost tells = { S.tells };

    ghost left = { λ l. S.left l.source.now };

    ghost given = { λ l. S.given l.source.now };

    ghost ended = { λ l. S.ended l.source.now };

    ghost faults = { λ l. S.faults l.source.now };

    // Which loan it is, and where the source was opened.
    ghost path = { λ l. l.source.ghost_name ∷ S.path l.source.now };

    ghost put_so_far = { λ l. S.put_so_far l.source.now };

    fn get(&mut self, out: &mut [u8]) -> Result<usize, Failed> {
        self.source.get(out)
    }
}
