// What runs leave in the yard.
use swh_memory::MemoryYard;
use swh_memory_input::{Begins, Making};

/// What stands in a yard.
#[derive(Clone, Copy)]
pub enum Grown<'a> {
    /// A folder at this path.
    Folder(&'a str),
    /// A file at this path, with these bytes.
    File(&'a str, &'a [u8]),
}

// Where the bytes of the next file begin, or all of them end.
fn next_place(makings: &[Making], end: usize) -> usize {
    for making in makings {
        if let Begins::File { from } = making.begins {
            return from;
        }
    }
    end
}

// Says whether this making is as expected, where the makings after it are these.
fn is_grown(yard: &MemoryYard, making: &Making, behind: &[Making], expected: Grown<'_>) -> bool {
    match (making.begins, expected) {
        (Begins::Folder, Grown::Folder(path)) => making.is_at(path),
        (Begins::File { from }, Grown::File(path, bytes)) => {
            let end = next_place(behind, yard.bytes().len());
            making.is_at(path) && yard.bytes().get(from..end) == Some(bytes)
        }
        _ => false,
    }
}

/// Says whether just this stands in a yard, in this order.
pub fn has_grown(yard: &MemoryYard, expected: &[Grown<'_>]) -> bool {
    let mut rest = yard.makings();
    for grown in expected {
        let Some((making, behind)) = rest.split_first() else {
            return false;
        };
        if !is_grown(yard, making, behind, *grown) {
            return false;
        }
        rest = behind;
    }
    rest.is_empty()
}
