// Faults counted per path, for implementations of `Origins`.
ghost use Rattle.std.specs.Prelude.{◌≡◌, ◌≢◌, ◌≤◌, ◌<◌, List, ℕ, length, OnOk};
ghost use Rattle.std.specs.List.{position_or_len};
ghost use Rattle.swh_outside.specs.Faults.{one_more};
ghost use Rattle.swh_outside.specs.Counts.{is_of, count_in};

use std::alloc::{AllocError, Global};

#[derive(Drop)]
struct PathCount {
    path: String,
    faults: u64,
}

/// A count of faults for each path. Paths with no place of their own share one.
#[derive(Drop)]
pub struct PathCounts {
    alloc: Global,
    counts: Vec<PathCount>,
    others: u64,
}

impl PathCount {
    fn is_of(&self, path: &str) -> bool
        ensures { result ≡ is_of path.now self.now }
    {
        self.path.as_str() == path
    }
}

impl PathCounts {
    ghost use Rattle.swh_outside.specs.Counts.{count_at, is_counted};

    pub fn new(alloc: Global) -> Self
        ensures { (p : List ℕ) → count_at result p ≡ 0 }
    {
        PathCounts {
            alloc,
            counts: Vec::new(alloc),
            others: 0,
        }
    }

    /// Makes a place for the path's count, where it has none.
    pub fn place(&mut self, path: &str) -> Result<(), AllocError>
        ensures counted { OnOk result (is_counted self.new path.now) }
        ensures places { (p : List ℕ) → is_counted self.old p → is_counted self.new p }
        ensures same { (p : List ℕ) → count_at self.new p ≡ count_at self.old p }
    {
        if find_count(&self.counts, path) < self.counts.len() {
            return Ok(());
        }
        add_count(self.alloc, &mut self.counts, path, self.others)
    }

    /// Counts a fault at a path: at its own place where it has one, and else at that of all others.
    pub fn raise(&mut self, path: &str)
        ensures rose { count_at self.new path.now ≡ one_more (count_at self.old path.now) }
        ensures later { (p : List ℕ) → count_at self.old p ≤ count_at self.new p }
        ensures other_paths { is_counted self.old path.now → (p : List ℕ) → p ≢ path.now
            → count_at self.new p ≡ count_at self.old p }
        ensures other_places { (p : List ℕ) → p ≢ path.now → is_counted self.old p
            → count_at self.new p ≡ count_at self.old p }
        ensures places { (p : List ℕ) → is_counted self.old p → is_counted self.new p }
    {
        let i = find_count(&self.counts, path);
        if i < self.counts.len() {
            raise_count(&mut self.counts, i, path);
        } else {
            self.others = self.others.saturating_add(1);
        }
    }

    /// The faults counted at a path.
    pub fn at(&self, path: &str) -> u64
        ensures { result ≡ count_at self.now path.now }
    {
        let i = find_count(&self.counts, path);
        if i < self.counts.len() {
            read_count(&self.counts, i, path)
        } else {
            self.others
        }
    }
}

// The place of a path's count, or the number of places.
fn find_count(counts: &[PathCount], path: &str) -> usize
    ensures first { result ≡ position_or_len (is_of path.now) counts.now }
    ensures within { result ≤ length counts.now }
{
    for (i, count) in counts.iter().enumerate() {
        if count.is_of(path) {
            return i;
        }
    }
    counts.len()
}

// A place for a path that has none, with the count that it had among all others.
fn add_count(
    alloc: Global,
    counts: &mut Vec<PathCount>,
    path: &str,
    others: u64,
) -> Result<(), AllocError>
    requires { position_or_len (is_of path.now) counts.old.items ≡ length counts.old.items }
    ensures counted { OnOk result (position_or_len (is_of path.now) counts.new.items < length counts.new.items) }
    ensures places { (p : List ℕ) → position_or_len (is_of p) counts.old.items < length counts.old.items
        → position_or_len (is_of p) counts.new.items < length counts.new.items }
    ensures same { (p : List ℕ) → count_in counts.new.items others p ≡ count_in counts.old.items others p }
{
    let name = String::from_str(alloc, path)?;
    counts.push(PathCount {
        path: name,
        faults: others,
    })?;
    Ok(())
}

// One more at the first place of a path.
fn raise_count(counts: &mut [PathCount], i: usize, path: &str)
    requires found { i ≡ position_or_len (is_of path.now) counts.old }
    requires inside { i < length counts.old }
    ensures rose { (others : ℕ) → count_in counts.new others path.now ≡ one_more (count_in counts.old others path.now) }
    ensures later { (others : ℕ) (p : List ℕ) → count_in counts.old others p ≤ count_in counts.new others p }
    ensures other_paths { (others : ℕ) (p : List ℕ) → p ≢ path.now
        → count_in counts.new others p ≡ count_in counts.old others p }
    ensures positions { (p : List ℕ) → position_or_len (is_of p) counts.new ≡ position_or_len (is_of p) counts.old }
{
    let count = &mut counts[i];
    count.faults = count.faults.saturating_add(1);
}

// The count at the first place of a path.
fn read_count(counts: &[PathCount], i: usize, path: &str) -> u64
    requires found { i ≡ position_or_len (is_of path.now) counts.now }
    requires inside { i < length counts.now }
    ensures { (others : ℕ) → result ≡ count_in counts.now others path.now }
{
    counts[i].faults
}
