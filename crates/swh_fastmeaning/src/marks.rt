//! What the marks of a stream lead to (git-fast-import(1), mark).
ghost use Rattle.std.specs.Prelude.{◌≡◌, [], OnOk, slice_get};
ghost use Rattle.std.specs.Map.{lookup};
ghost use Rattle.std.specs.BTreeMap.{insert_entry, is_at};
ghost use Rattle.std.specs.Ordering.{nat_cmp};

use crate::aims::Target;
use std::alloc::Global;
use std::collections::BTreeMap;
use std::marker::Model;
use swh_base::Memory;

/// What marks lead to, in their order. Streams number their marks from 1 upward, so that these stand in a row; a mark that
/// is set out of turn stands in a map, and takes no room for those that it skips.
#[derive(Drop)]
pub struct Marks {
    /// What the mark 0 leads to.
    first: Option<Target>,
    /// What the marks from 1 on lead to.
    row: Vec<Target>,
    /// What marks behind the row lead to.
    others: BTreeMap<u64, Target>,
}

impl Model for Marks {
    ghost use Rattle.std.specs.Prelude.{ℕ, List};
    ghost use Rattle.swh_fastmeaning.specs.declared.aims.Target.{Target};
    ghost use Rattle.swh_fastmeaning.specs.Marks.{marks_in, AreAboveZero};

    ghost Value = { List (ℕ × Target) };

    ghost view = { λ m. marks_in m.first m.row.items m.others.entries };

    ghost invariant = { λ m. AreAboveZero m.others.entries };
}

/// What stands at this place of a row.
fn stands_at(row: &[Target], place: usize) -> Option<Target>
    ensures { result ≡ slice_get row.now place }
{
    row.get(place).copied()
}

impl Marks {
    /// No marks. It takes no memory.
    pub fn new(alloc: Global) -> Marks
        ensures { result ≡ [] }
    {
        Marks {
            first: None,
            row: Vec::new(alloc),
            others: BTreeMap::new(alloc),
        }
    }

    /// What a mark leads to.
    pub fn get(&self, mark: u64) -> Option<Target>
        ensures { result ≡ lookup (is_at (nat_cmp mark)) self.now }
    {
        if mark == 0 {
            return self.first;
        }
        match stands_at(self.row.as_slice(), (mark - 1) as usize) {
            Some(target) => Some(target),
            None => self.others.get(&mark).copied(),
        }
    }

    /// Sets a mark. A later setting replaces an earlier one.
    pub fn set(&mut self, mark: u64, target: Target) -> Result<(), Memory>
        ensures { OnOk result (self.new ≡ insert_entry nat_cmp self.old mark target) }
    {
        if mark == 0 {
            self.first = Some(target);
            return Ok(());
        }
        let place = (mark - 1) as usize;
        if place < self.row.len() {
            self.row[place] = target;
            return Ok(());
        }
        if place == self.row.len() && self.others.is_empty() {
            self.row.push(target)?;
            return Ok(());
        }
        self.others.insert(mark, target)?;
        Ok(())
    }
}
