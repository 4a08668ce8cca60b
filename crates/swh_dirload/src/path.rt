//! The paths of what a walk finds.
ghost use Rattle.std.specs.Prelude.{◌≡◌, ◌<◌, ◌≤◌, ◌-◌, IfOk, OnOk, length, string_bytes};
ghost use Rattle.swh_dirmade.specs.Paths.{child};
ghost use Rattle.swh_dirload.specs.Found.{path_at, path_in, paths_of, IsPlaced, ArePlaced, Leads};

use crate::found::Found;
use std::alloc::{AllocError, Global};
use std::collections::VecDeque;

/// Goes on to a name in the folder at a path.
fn enter(path: &mut String, name: &str) -> Result<(), AllocError>
    ensures { OnOk result (string_bytes path.new ≡ child (string_bytes path.old) name.now) }
{
    if !path.is_empty() {
        path.push('/')?;
    }
    path.push_str(name)?;
    Ok(())
}

/// The way from the folder itself to the one of this number.
fn way_to(alloc: Global, found: &[Found], number: usize) -> Result<VecDeque<usize>, AllocError>
    requires placed { ArePlaced 0 found.now }
    requires within { number ≤ length found.now - 1 }
    ensures { IfOk result (λ way. Leads found.now 0 way.items number) }
{
    let mut way = VecDeque::new(alloc);
    let mut above = number;
    'up: while above != 0 {
        way.push_front(above)?;
        above = found[above].above;
    }
    Ok(way)
}

/// The path of the number to which a way leads from the folder itself.
fn path_along(
    alloc: Global,
    found: &[Found],
    mut way: VecDeque<usize>,
    number: usize,
) -> Result<String, AllocError>
    requires placed { ArePlaced 0 found.now }
    requires way { Leads found.now 0 way.items number }
    ensures { IfOk result (λ path. string_bytes path ≡ path_at (paths_of found.now) number) }
{
    let mut path = String::new(alloc);
    'down: while let Some(next) = way.pop_front() {
        enter(&mut path, found[next].name.as_str())?;
    }
    let _end = number;
    Ok(path)
}

/// The path of what was found next, behind what is in the table.
pub fn path_of(alloc: Global, found: &[Found], next: &Found) -> Result<String, AllocError>
    requires placed { ArePlaced 0 found.now }
    requires next { IsPlaced (length found.now) next.now }
    ensures { IfOk result (λ path. string_bytes path ≡ path_in (paths_of found.now) next.now) }
{
    let way = way_to(alloc, found, next.above)?;
    let mut path = path_along(alloc, found, way, next.above)?;
    enter(&mut path, next.name.as_str())?;
    Ok(path)
}
