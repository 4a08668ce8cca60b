//! A disk that tells nothing: what a read gives of it is changed at one place, or ends there.
ghost use Rattle.std.specs.Prelude.{◌≡◌, ◌≤◌, length};
ghost use Rattle.swh_outside.specs.Faults.{Rose};

use std::alloc::Global;
use swh_outside::{Disk, Failed};

/// How a read differs from what was written: the lowest bit of the byte at a place is another, or the bytes end there.
#[derive(Clone, Copy)]
pub enum Change {
    Bit(u64),
    End(u64),
}

/// A disk in memory to which bytes are only added, and what reads of it change.
#[derive(Drop)]
pub struct Changing {
    bytes: Vec<u8>,
    change: Change,
    faults: u64,
}

impl Changing {
    /// An empty disk.
    pub fn with(alloc: Global, change: Change) -> Changing {
        Changing {
            bytes: Vec::new(alloc),
            change,
            faults: 0,
        }
    }

    /// Counts a fault.
    fn fail(&mut self) -> Failed
        ensures rose { Rose self.old.faults self.new.faults }
        ensures later { self.old.faults ≤ self.new.faults }
    {
        self.faults = self.faults.saturating_add(1);
        Failed
    }
}

/// Copies what stands from a place on, as much as there is room for, and says how much.
fn copy_from(bytes: &[u8], at: u64, out: &mut [u8]) -> usize
    ensures { result ≤ length out.new }
{
    if at >= bytes.len() as u64 {
        return 0;
    }
    let behind = &bytes[at as usize..];
    let count = behind.len().min(out.len());
    out[..count].copy_from_slice(&behind[..count]);
    count
}

/// Changes the bit of the byte at a place, where it is among so many bytes that were read from another on.
fn change_bit(at: u64, out: &mut [u8], count: usize, place: u64)
    requires { count ≤ length out.old }
    ensures { length out.new ≡ length out.old }
{
    if place >= at && place - at < count as u64 {
        let changed = (place - at) as usize;
        out[changed] = out[changed] ^ 1;
    }
}

/// What stands before a place.
fn front(bytes: &[u8], place: u64) -> &[u8] {
    let count = (bytes.len() as u64).min(place);
    &bytes[..count as usize]
}

/// What a read from a place on gives of these bytes, and how much.
fn read_changed(bytes: &[u8], at: u64, out: &mut [u8], change: Change) -> usize
    ensures { result ≤ length out.new }
{
    match change {
        Change::Bit(place) => {
            let count = copy_from(bytes, at, out);
            change_bit(at, out, count, place);
            count
        }
        Change::End(place) => copy_from(front(bytes, place), at, out),
    }
}

impl Disk for Changing {
    ghost use Rattle.swh_outside.specs.Files.{absent};

    ghost tells = { ⊥ };

    ghost file = { λ _. absent };

    ghost faults = { λ disk. disk.faults };

    fn len(&mut self) -> Result<u64, Failed> {
        Ok(self.bytes.len() as u64)
    }

    fn read_at(&mut self, at: u64, out: &mut [u8]) -> Result<usize, Failed> {
        Ok(read_changed(self.bytes.as_slice(), at, out, self.change))
    }

    fn write_at(&mut self, at: u64, bytes: &[u8]) -> Result<(), Failed> {
        if at < self.bytes.len() as u64 {
            return Ok(());
        }
        match self.bytes.extend_from_slice(bytes) {
            Ok(()) => Ok(()),
            Err(_) => Err(self.fail()),
        }
    }

    fn sync(&mut self) -> Result<(), Failed> {
        Ok(())
    }

    ghost sees_image = { λ disk told. absurd told };
}
