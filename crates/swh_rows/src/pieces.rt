//! Lists of several owners, one behind another.
use crate::rows::item_at;
use std::alloc::Global;
use std::marker::Model;
use swh_base::{Memory, Shared};

/// Lists that several owners share, one behind another, which contracts see as one list.
#[derive(Drop)]
pub struct Pieces<T: Drop> {
    lists: Vec<Shared<T>>,
    /// Where each list ends: how many rows stand before the next one.
    ends: Vec<usize>,
}

impl<T: Drop> Model for Pieces<T> {
    ghost use Rattle.std.specs.Prelude.{◌≡◌, List};
    ghost use Rattle.swh_rows.specs.Pieces.{joined, ends_from};

    ghost Value = { List T };

    ghost view = { λ p. joined p.lists.items };

    ghost invariant = { λ p. p.ends.items ≡ ends_from 0 p.lists.items };
}

ghost use Rattle.std.specs.Prelude.{
  ◌≡◌,
  ◌<◌,
  ◌≤◌,
  ◌++◌,
  ◌∷◌,
  ℕ,
  [],
  OnOk,
  OnErr,
  length,
  slice_index,
  slice_index_or,
  slice_get,
};
ghost use Rattle.std.specs.List.Sorted.{IsNonDecreasingBy};
ghost use Rattle.std.specs.Option.{option_copied};
ghost use Rattle.swh_rows.specs.Pieces.{joined, ends_from, start_in};

/// The first of these ends that is behind a place, which is how many are not.
fn first_behind(ends: &[usize], place: usize) -> usize
    requires { IsNonDecreasingBy (λ (end : ℕ). end) ends.now }
    ensures within { result ≤ length ends.now }
    ensures before { (k : ℕ) → k < result → slice_index ends.now k ≤ place }
    ensures behind { (k : ℕ) → result ≤ k → k < length ends.now → place < slice_index ends.now k }
{
    ends.partition_point(|end| *end <= place)
}

/// Where the list with a number begins: where the one before it ends.
fn start_of(ends: &[usize], number: usize) -> usize
    requires { number ≤ length ends.now }
    ensures { result ≡ start_in ends.now number }
{
    if number == 0 { 0 } else { ends[number - 1] }
}

/// The list with a number, or an empty one where there are not so many.
fn list_at<T: Drop>(lists: &[Shared<T>], number: usize) -> &[T]
    ensures { result.now ≡ slice_index_or lists.now number [] }
{
    match lists.get(number) {
        Some(list) => list.as_slice(),
        None => &[],
    }
}

/// The row at a place of lists that end there.
fn row_at<'a, T: Drop>(lists: &'a [Shared<T>], ends: &[usize], place: usize) -> Option<&'a T>
    requires { ends.now ≡ ends_from 0 lists.now }
    ensures { option_copied result ≡ slice_get (joined lists.now) place }
{
    let number = first_behind(ends, place);
    let start = start_of(ends, number);
    let behind = place - start;
    item_at(list_at(lists, number), behind)
}

/// Adds a list behind others that end there.
fn push_list<T: Drop>(
    lists: &mut Vec<Shared<T>>,
    ends: &mut Vec<usize>,
    list: Shared<T>,
) -> Result<(), Memory>
    requires { ends.old.items ≡ ends_from 0 lists.old.items }
    ensures ends { ends.new.items ≡ ends_from 0 lists.new.items }
    ensures ok { OnOk result (lists.new.items ≡ lists.old.items ++ list ∷ []) }
    ensures err { OnErr result (lists.new.items ≡ lists.old.items) }
{
    let count = list.as_slice().len();
    let start = start_of(ends.as_slice(), ends.len());
    let Some(end) = start.checked_add(count) else {
        return Err(Memory);
    };
    lists.reserve(1)?;
    ends.reserve(1)?;
    lists.push_reserved(list);
    ends.push_reserved(end);
    Ok(())
}

/// Adds equal lists behind all others.
fn push_all<T: Drop>(pieces: &mut Pieces<T>, lists: &[Shared<T>]) -> Result<(), Memory>
    ensures { OnOk result (pieces.new ≡ pieces.old ++ joined lists.now) }
{
    for list in lists {
        let more = list.again()?;
        pieces.push(more)?;
    }
    Ok(())
}

impl<T: Drop> Pieces<T> {
    ghost use Rattle.std.specs.Prelude.{◌≡◌, ◌-◌, ◌++◌, [], IfOk, IfNone, IfSome, OnOk, OnErr, length, slice_get};
    ghost use Rattle.std.specs.Option.{option_copied};
    ghost use Rattle.swh_rows.specs.Pieces.{joined};

    /// No rows. It takes no memory.
    pub fn new(alloc: Global) -> Pieces<T>
        ensures { result ≡ [] }
    {
        Pieces {
            lists: Vec::new(alloc),
            ends: Vec::new(alloc),
        }
    }

    /// How many rows there are. It takes no memory.
    pub fn len(&self) -> usize
        ensures { result ≡ length self.now }
    {
        start_of(self.ends.as_slice(), self.ends.len())
    }

    /// The row at a place, counted from zero; none where there are not so many. It takes no memory, and the time of a
    /// search by halves over the lists.
    pub fn at(&self, place: usize) -> Option<&T>
        ensures { option_copied result ≡ slice_get self.now place }
    {
        row_at(self.lists.as_slice(), self.ends.as_slice(), place)
    }

    /// The last row; none where there is no row. It takes no memory.
    pub fn last(&self) -> Option<&T>
        ensures { option_copied result ≡ slice_get self.now (length self.now - 1) }
    {
        self.at(self.len().saturating_sub(1))
    }

    /// Adds the rows of a list behind all others; none of them is copied. Fails where memory runs out, or where there
    /// would be 2 to the 64th rows; the rows are then as they were.
    pub fn push(&mut self, list: Shared<T>) -> Result<(), Memory>
        ensures ok { OnOk result (self.new ≡ self.old ++ list) }
        ensures err { OnErr result (self.new ≡ self.old) }
    {
        push_list(&mut self.lists, &mut self.ends, list)
    }

    /// Takes the list that was added last out again; none where there is no list. It takes no memory.
    pub fn pop(&mut self) -> Option<Shared<T>>
        ensures some { IfSome result (λ list. self.old ≡ self.new ++ list) }
        ensures none { IfNone result (self.old ≡ []) }
        ensures same { IfNone result (self.new ≡ []) }
    {
        let list = self.lists.pop();
        self.ends.truncate(self.lists.len());
        list
    }

    /// The lists in their order, for a walk over the rows.
    pub fn lists(&self) -> &[Shared<T>]
        ensures { joined result.now ≡ self.now }
    {
        self.lists.as_slice()
    }

    /// An equal one, which shares each list: no row is copied. Fails where memory runs out.
    pub fn again(&self, alloc: Global) -> Result<Pieces<T>, Memory>
        ensures { IfOk result (λ pieces. pieces ≡ self.now) }
    {
        let mut pieces = Pieces::new(alloc);
        push_all(&mut pieces, self.lists())?;
        Ok(pieces)
    }
}

// What another thread may be handed.
fn is_sent<T: Send>(_value: &T) {}

// What several threads may look at.
fn is_shared<T: Sync>(_value: &T) {}

/// Pieces may be handed to another thread where their rows may be handed to one and looked at by several.
pub fn pieces_are_sent<T: Drop + Send + Sync>(pieces: &Pieces<T>) {
    is_sent(pieces)
}

/// Several threads may look at pieces where their rows may be handed to one and looked at by several.
pub fn pieces_are_shared<T: Drop + Send + Sync>(pieces: &Pieces<T>) {
    is_shared(pieces)
}
