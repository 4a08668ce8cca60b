//! What was made in a yard, against what is to be made.
use Laid::{Bytes, List};
use std::alloc::{AllocError, Global};
use swh_memory_input::{Begins, Making, MemoryYard};
use swh_outside::What;

/// What is to stand at a path of a folder: a folder with the names in it, in any order, or a file with its bytes.
#[derive(Clone, Copy)]
pub enum Laid {
    List(&'static [(&'static str, What)]),
    Bytes(&'static [u8]),
}

/// What is to stand in a folder, in the order in which it is made, by its path there; the folder itself comes first, and
/// has the empty path.
pub type Layout = &'static [(&'static str, Laid)];

/// Bytes that are still to be found in their order.
#[derive(Drop)]
struct Rest<'a> {
    bytes: &'a [u8],
}

impl<'a> Rest<'a> {
    /// Whether these come next; they are then taken.
    fn has(&mut self, bytes: &[u8]) -> bool {
        if self.bytes.len() < bytes.len() {
            return false;
        }
        let (first, behind) = self.bytes.split_at(bytes.len());
        self.bytes = behind;
        first == bytes
    }
}

/// The path in the yard of what stands in the folder `out`.
fn place(alloc: Global, path: &str) -> Result<String, AllocError> {
    let mut place = String::from_str(alloc, "out")?;
    if !path.is_empty() {
        place.push_str("/")?;
        place.push_str(path)?;
    }
    Ok(place)
}

/// Whether this is a file that begins where so many bytes are still to be found.
fn begins_at(making: &Making, rest: usize, all: usize) -> bool {
    match making.begins {
        Begins::File { from } => from.checked_add(rest) == Some(all),
        Begins::Folder => false,
    }
}

fn is_laid(making: &Making, laid: Laid, rest: &mut Rest<'_>, all: usize) -> bool {
    match laid {
        List(_) => making.begins == Begins::Folder,
        Bytes(bytes) => begins_at(making, rest.bytes.len(), all) && rest.has(bytes),
    }
}

/// Whether just this folder was made, at `out`, with this listing behind it.
pub fn is_made(
    alloc: Global,
    yard: &MemoryYard,
    layout: Layout,
    listing: &[u8],
) -> Result<bool, AllocError> {
    let all = yard.bytes().len();
    let mut rest = Rest {
        bytes: yard.bytes(),
    };
    let Some((last, makings)) = yard.makings().split_last() else {
        return Ok(false);
    };
    if makings.len() != layout.len() {
        return Ok(false);
    }
    for (making, (path, laid)) in makings.iter().zip(layout) {
        if !making.is_at(place(alloc, path)?.as_str()) || !is_laid(making, *laid, &mut rest, all) {
            return Ok(false);
        }
    }
    let begins = last.is_at("out.modes") && begins_at(last, rest.bytes.len(), all);
    Ok(begins && rest.bytes == listing)
}
