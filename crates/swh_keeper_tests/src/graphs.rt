//! Graphs of numbered names.
ghost use Rattle.std.specs.Prelude.{◌≡◌, ◌+◌, ◌*◌, slice_index};

use std::alloc::{AllocError, Global};
use swh_base::{Graph, Kind, Name};
use swh_closure::Closed;

/// The name of a number has the children of that row, and is held where there is one.
#[derive(Drop)]
pub struct Rows {
    rows: Vec<Vec<Name>>,
}

fn number_of(name: &Name) -> usize
    ensures { result ≡ (slice_index name.now.id 0 * 65536 + slice_index name.now.id 1 * 256) + slice_index name.now.id 2 }
{
    usize::from(name.id[0]) * 65536 + usize::from(name.id[1]) * 256 + usize::from(name.id[2])
}

impl Graph for Rows {
    ghost use Rattle.std.specs.Prelude.{slice_get};
    ghost use Rattle.std.specs.Option.{option_map};

    ghost children_of = { λ graph name. option_map (λ kids. kids.items) (slice_get graph.rows.items ((slice_index name.id 0 * 65536 + slice_index name.id 1 * 256) + slice_index name.id 2)) };

    fn children_of(&self, name: &Name) -> Option<&[Name]> {
        match self.rows.get(number_of(name)) {
            Some(kids) => Some(kids.as_slice()),
            None => None,
        }
    }
}

/// The name of a number below 2^24.
pub fn name(number: u32) -> Name {
    let bytes = number.to_be_bytes();
    let mut id = [0; 20];
    id[0] = bytes[1];
    id[1] = bytes[2];
    id[2] = bytes[3];
    let kind = Kind::Revision;
    Name { kind, id }
}

/// The names of these numbers.
pub fn names(alloc: Global, numbers: &[u32]) -> Result<Vec<Name>, AllocError> {
    let mut names = Vec::with_capacity(alloc, numbers.len())?;
    for number in numbers {
        names.push(name(*number))?;
    }
    Ok(names)
}

/// A graph whose rows are these numbers.
pub fn graph(alloc: Global, numbers: &[&[u32]]) -> Result<Rows, AllocError> {
    let mut rows = Vec::with_capacity(alloc, numbers.len())?;
    for row in numbers {
        rows.push(names(alloc, row)?)?;
    }
    Ok(Rows { rows })
}

/// A chain of so many names.
pub fn chain(alloc: Global, count: u32) -> Result<Rows, AllocError> {
    let mut rows = Vec::new(alloc);
    for number in 1..count {
        rows.push(names(alloc, &[number])?)?;
    }
    rows.push(Vec::new(alloc))?;
    Ok(Rows { rows })
}

/// A name with so many children but one, which have none.
pub fn star(alloc: Global, count: u32) -> Result<Rows, AllocError> {
    let mut kids = Vec::new(alloc);
    let mut rows = Vec::new(alloc);
    for number in 1..count {
        kids.push(name(number))?;
    }
    rows.push(kids)?;
    for _ in 1..count {
        rows.push(Vec::new(alloc))?;
    }
    Ok(Rows { rows })
}

/// A set of the names of these numbers, each added twice.
pub fn closed_of(alloc: Global, numbers: &[u32]) -> Result<Closed, swh_base::Memory> {
    let mut closed = Closed::new(alloc);
    for number in numbers {
        closed.add(name(*number))?;
        closed.add(name(*number))?;
    }
    Ok(closed)
}
