//! The entries of a whole history, of which batch after batch is shown.
ghost use Rattle.std.specs.Prelude.{◌≡◌, IfOk, length};

use crate::stores::{content, contents, holds_just, named};
use std::alloc::Global;
use std::test::Fail;
use swh_base::{Graph, Memory};
use swh_store::Preloaded;

/// Says whether the first content is shown, and the second is not.
fn shows_the_first(preloaded: &Preloaded) -> bool {
    preloaded.has(&named(0xc3))
        && !preloaded.has(&named(0xc7))
        && preloaded.children_of(&named(0xc7)).is_none()
}

#[test]
fn a_batch_is_shown_after_another(rt: HostRuntime) -> Result<(), Fail> {
    let alloc = rt.alloc();
    let entries = vec![in alloc; content(alloc, *b"ab")?, content(alloc, *b"cd")?]?;
    let mut preloaded = Preloaded::of(alloc, entries)?;
    let none = !preloaded.has(&named(0xc3));
    if !preloaded.show(1) {
        return Err(Fail::from("the first"));
    }
    let first = shows_the_first(&preloaded);
    if !preloaded.show(1) {
        return Err(Fail::from("the second"));
    }
    let store = preloaded.into_store();
    assert!(rt; none && first && holds_just(&store, &[(0xc3, *b"ab"), (0xc7, *b"cd")]));
    Ok(())
}

/// Three contents, of which the last has the name of the first.
fn with_a_name_twice(alloc: Global) -> Result<Preloaded, Memory>
    ensures { IfOk result (λ preloaded. length preloaded.rest ≡ 3) }
{
    let entries = contents(alloc, &[*b"ab", *b"cd", *b"ba"])?;
    Preloaded::of(alloc, entries)
}

#[test]
fn no_name_is_shown_twice_at_once(rt: HostRuntime) -> Result<(), Fail> {
    let mut preloaded = with_a_name_twice(rt.alloc())?;
    let shown = preloaded.show(3);
    assert!(rt; !shown && !preloaded.has(&named(0xc3)));
    Ok(())
}

#[test]
fn no_name_is_shown_twice(rt: HostRuntime) -> Result<(), Fail> {
    let mut preloaded = with_a_name_twice(rt.alloc())?;
    if !preloaded.show(2) {
        return Err(Fail::from("the first two"));
    }
    let shown = preloaded.show(1);
    let is_first = match preloaded.get(&named(0xc3)) {
        Some(entry) => entry.body.as_slice() == b"ab".as_slice(),
        None => false,
    };
    assert!(rt; !shown && is_first);
    Ok(())
}
