//! The first of some rows.
ghost use Rattle.std.specs.Prelude.{take};

use crate::rows::Rows;
use swh_base::Name;

/// The first so many of some rows, or all of them where there are not so many.
#[derive(Drop)]
pub struct Front<'a, R> {
    pub rows: &'a R,
    pub count: usize,
}

impl<R: Rows> Rows for Front<'_, R> {
    ghost names = { λ f. take f.count (R.names f.rows.now) };

    fn len(&self) -> usize {
        self.rows.len().min(self.count)
    }

    fn name_at(&self, place: usize) -> Option<&Name> {
        if place < self.count {
            self.rows.name_at(place)
        } else {
            None
        }
    }
}
