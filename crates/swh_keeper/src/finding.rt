//! Where the body of a name stands in the store: by the lengths of all that stands before it.
ghost use Rattle.std.specs.Prelude.{◌≡◌, ◌↔◌, ◌+◌, ◌<◌, ◌≤◌, ◌^◌, IsTrue, IfSome, IfNone, length};
ghost use Rattle.swh_model.specs.Limits.{run_length, store_length};
ghost use Rattle.swh_keeper.specs.Places.{IsPlaceIn, IsPlaceOf, IsUnnamed, AreUnnamed};

use swh_base::{Entry, Name};
use swh_model::{Event, length_in_store};

/// Where a body stands: at a place in bytes from 0, and how many bytes it has.
#[derive(Clone, Copy)]
pub struct Extent {
    pub at: u64,
    pub size: usize,
}

fn is_same(a: &Name, b: &Name) -> bool
    ensures { IsTrue result ↔ (a.now ≡ b.now) }
{
    a == b
}

/// How many bytes stand in the store before the body of an object: its kind in one, its length in eight, and its id.
pub fn head_length(id: [u8; 20]) -> usize
    ensures value { result ≡ 9 + length id }
    ensures small { result ≡ 29 }
{
    9 + id.len()
}

/// The place of the body of a name in a run that begins at a place.
fn place_in(entries: &[Entry], name: &Name, from: u64) -> Option<Extent>
    requires { from + run_length entries.now < 2 ^ 64 }
    ensures some { IfSome result (IsPlaceIn from entries.now name.now) }
    ensures none { IfNone result (IsUnnamed name.now entries.now) }
{
    let mut at = from;
    for entry in entries {
        let body = at + head_length(entry.name.id) as u64;
        let size = entry.body.as_slice().len();
        if is_same(&entry.name, name) {
            return Some(Extent { at: body, size });
        }
        at = body + size as u64;
    }
    None
}

/// The place of the body of a name among the runs of a history; none exactly where no batch has the name.
pub fn place_of(history: &[Event], name: &Name) -> Option<Extent>
    requires { store_length history.now < 2 ^ 64 }
    ensures some { IfSome result (IsPlaceOf history.now name.now) }
    ensures none { IfNone result (AreUnnamed name.now history.now) }
{
    let mut at = 0;
    for event in history {
        if let Some(place) = place_in(event.what.entries(), name, at) {
            return Some(place);
        }
        let Ok(length) = length_in_store(&event.what) else {
            unreachable!()
        };
        at += length;
    }
    None
}
