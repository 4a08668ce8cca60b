//! Batches that are added to a store. A content of two bytes is named by their sum, behind nineteen zeros.
ghost use Rattle.std.specs.Prelude.{◌≡◌, IfOk, length};
ghost use Rattle.std.specs.List.{AllByRecursion};
ghost use Rattle.swh_model.specs.Step.{HasItsChildren};

use std::alloc::Global;
use std::test::Fail;
use swh_base::{Entry, Graph, Kind, Memory, Name, Shared};
use swh_store::{Distinct, Standing, Store, StoreFault};

/// The name of a content whose id is nineteen zeros and a byte.
pub fn named(byte: u8) -> Name {
    let mut id = [0; 20];
    id[19] = byte;
    let kind = Kind::Content;
    Name { kind, id }
}

pub fn content(alloc: Global, bytes: [u8; 2]) -> Result<Entry, Memory>
    ensures { IfOk result HasItsChildren }
{
    let body = Shared::from_vec(Vec::from_slice(alloc, &bytes)?)?;
    let kids = Shared::from_vec(Vec::new(alloc))?;
    let mut id = [0; 20];
    id[19] = bytes[0].wrapping_add(bytes[1]);
    let kind = Kind::Content;
    let name = Name { kind, id };
    Ok(Entry { name, body, kids })
}

/// The contents of these bytes.
pub fn contents(alloc: Global, batch: &[[u8; 2]]) -> Result<Vec<Entry>, Memory>
    ensures good { IfOk result (λ entries. AllByRecursion HasItsChildren entries.items) }
    ensures count { IfOk result (λ entries. length entries.items ≡ length batch.now) }
{
    let mut entries = Vec::with_capacity(alloc, batch.len())?;
    for bytes in batch {
        entries.push(content(alloc, *bytes)?)?;
    }
    Ok(entries)
}

/// A batch, how many of it are new or the byte of the name that would have two bodies, and what is then held.
struct Row {
    batch: &'static [[u8; 2]],
    added: Result<u32, u8>,
    held: &'static [(u8, [u8; 2])],
}

/// One batch after another, into one store.
const ROWS: &[Row] = &[
    Row {
        batch: &[*b"ab"],
        added: Ok(1),
        held: &[(0xc3, *b"ab")],
    },
    Row {
        batch: &[*b"ab"],
        added: Ok(0),
        held: &[(0xc3, *b"ab")],
    },
    Row {
        batch: &[*b"cd", *b"ab", *b"cd"],
        added: Ok(1),
        held: &[(0xc3, *b"ab"), (0xc7, *b"cd")],
    },
    // A batch that is refused adds nothing.
    Row {
        batch: &[*b"ee", *b"ba"],
        added: Err(0xc3),
        held: &[(0xc3, *b"ab"), (0xc7, *b"cd")],
    },
    Row {
        batch: &[*b"eg", *b"ge"],
        added: Err(0xcc),
        held: &[(0xc3, *b"ab"), (0xc7, *b"cd")],
    },
];

/// Says whether a store holds these bodies under the names of their bytes, which have no children, and no others.
pub fn holds_just(store: &Store, held: &[(u8, [u8; 2])]) -> bool {
    for (byte, body) in held {
        let name = named(*byte);
        let is_body = match store.get(&name) {
            Some(entry) => entry.body.as_slice() == body.as_slice(),
            None => false,
        };
        if !is_body || !store.has(&name) || store.children_of(&name).is_none() {
            return false;
        }
    }
    let other = named(0xc8);
    store.len() == held.len() && !store.has(&other) && store.children_of(&other).is_none()
}

fn fault_of(byte: u8) -> StoreFault {
    StoreFault::Collision { name: named(byte) }
}

fn is_added(alloc: Global, store: &mut Store, row: &Row) -> Result<bool, Fail> {
    let batch = contents(alloc, row.batch)?;
    if batch.len() > 100 {
        return Err(Fail::from("a short batch"));
    }
    let told = match (store.add(batch.as_slice()), row.added) {
        (Ok(count), Ok(new)) => count == new,
        (Err(fault), Err(byte)) => fault == fault_of(byte),
        _ => false,
    };
    Ok(told && holds_just(store, row.held))
}

#[test]
fn each_batch_is_added_or_refused_whole(rt: HostRuntime) -> Result<(), Fail> {
    let alloc = rt.alloc();
    let mut store = Store::new(alloc);
    for (number, row) in ROWS.iter().enumerate() {
        assert!(rt; is_added(alloc, &mut store, row)?, "batch {number}");
    }
    Ok(())
}

#[test]
fn nothing_that_is_new_is_added(rt: HostRuntime) -> Result<(), Fail> {
    let mut none = Store::new(rt.alloc());
    none.add_new(&[])?;
    assert!(rt; holds_just(&none, &[]));
    Ok(())
}

fn is_of(entry: &Entry, bytes: [u8; 2]) -> bool {
    entry.body.as_slice() == bytes.as_slice()
}

#[test]
fn an_entry_joins_those_of_other_names(rt: HostRuntime) -> Result<(), Fail> {
    let alloc = rt.alloc();
    let mut distinct = Distinct::new(alloc);
    let first = distinct.join(content(alloc, *b"ab")?)?;
    let again = distinct.join(content(alloc, *b"ab")?)?;
    let other = distinct.join(content(alloc, *b"ba")?)?;
    let last = distinct.join(content(alloc, *b"cd")?)?;
    assert!(rt; matches!(first, Standing::New));
    assert!(rt; matches!(again, Standing::Known));
    assert!(rt; matches!(other, Standing::Other));
    assert!(rt; matches!(last, Standing::New));
    let entries = distinct.into_vec();
    let are_two = match entries.as_slice() {
        [one, two] => is_of(one, *b"ab") && is_of(two, *b"cd"),
        _ => false,
    };
    assert!(rt; are_two);
    Ok(())
}
