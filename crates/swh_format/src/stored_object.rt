//! The objects of a batch as they stand in the store, one after another: how they are written.
ghost use Rattle.std.specs.Prelude.{◌≡◌, ◌++◌, IfOk, OnOk, length};
ghost use Rattle.std.specs.List.{AllByRecursion};
ghost use Rattle.swh_format.specs.StoredObject.{coded_entry, coded_run, IsCodableEntry};

use swh_base::{Entry, Memory};
use swh_model::kind_byte;

#[tactic(auto, unfolding(crate::specs::StoredObject::coded_entry))]
fn push_entry(bytes: &mut Vec<u8>, entry: &Entry) -> Result<(), Memory>
    ensures { OnOk result (bytes.new.items ≡ bytes.old.items ++ coded_entry entry.now) }
{
    let body = entry.body.as_slice();
    bytes.push(kind_byte(entry.name.kind))?;
    bytes.extend_from_slice(&(body.len() as u64).to_be_bytes())?;
    bytes.extend_from_slice(&entry.name.id)?;
    bytes.extend_from_slice(body)?;
    Ok(())
}

/// The room that is taken for a run is a whole number of these. Where nothing so large is free, the C library maps it alone
/// (glibc from 32 MiB on) and gives it back whole, so that nothing small comes to stand where a run was and the next wants
/// new room. Of a mapping only what is written takes memory.
const ROOM: usize = 33 << 20;

/// Room for the run of these entries: the kind, the length and the id of each stand before its body.
fn room_of(entries: &[Entry]) -> usize {
    let mut bytes = 0_usize;
    for entry in entries {
        bytes = bytes
            .saturating_add(1 + 8 + 20)
            .saturating_add(entry.body.as_slice().len());
    }
    (bytes.saturating_add(ROOM - 1) / ROOM).saturating_mul(ROOM)
}

/// The run of a batch: its objects, one after another; `Memory` where there is none. It is written in the room that is given,
/// of which nothing is kept but the room. What that lacks is taken once: a run may have millions of bytes, which would be
/// held twice while it grows.
pub fn run_of_entries(room: Vec<u8>, entries: &[Entry]) -> Result<Vec<u8>, Memory>
    ensures { IfOk result (λ bytes. bytes.items ≡ coded_run entries.now) }
{
    let mut run = room;
    run.clear();
    run.reserve_exact(room_of(entries))?;
    for entry in entries {
        push_entry(&mut run, entry)?;
    }
    Ok(run)
}

/// An id has twenty bytes.
pub fn has_twenty_bytes(id: [u8; 20]) -> usize
    ensures value { result ≡ 20 }
    ensures length { length id ≡ 20 }
{
    let bytes: &[u8] = &id;
    bytes.len()
}

/// What the types say of an entry: an id has twenty bytes, and no body is longer than memory.
pub fn entry_is_codable(entry: &Entry)
    ensures { IsCodableEntry entry.now }
{
    let _twenty = has_twenty_bytes(entry.name.id);
    let _length = entry.body.as_slice().len();
}

/// The same of each.
pub fn entries_are_codable(entries: &[Entry])
    ensures { AllByRecursion IsCodableEntry entries.now }
{
    for entry in entries {
        entry_is_codable(entry);
    }
}
