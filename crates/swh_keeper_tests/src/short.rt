//! A disk that tells nothing: its reads fall short of its length.
ghost use Rattle.std.specs.Prelude.{◌≤◌, length};

use std::alloc::{AllocError, Global};
use swh_outside::{Disk, Failed};

/// A disk of these bytes, of which a read gives what stands before a place. It counts its writes, and does none.
#[derive(Drop)]
pub struct Short {
    bytes: Vec<u8>,
    given: usize,
    writes: u64,
}

impl Short {
    pub fn new(alloc: Global, bytes: &[u8], given: usize) -> Result<Short, AllocError> {
        Ok(Short {
            bytes: bytes.to_vec(alloc)?,
            given,
            writes: 0,
        })
    }

    pub fn writes(&self) -> u64 {
        self.writes
    }
}

/// Copies what stands from a place on, as much as there is room for, and says how much.
fn copy_from(bytes: &[u8], at: u64, out: &mut [u8]) -> usize
    ensures { result ≤ length out.new }
{
    if at >= bytes.len() as u64 {
        return 0;
    }
    let behind = &bytes[at as usize..];
    let count = behind.len().min(out.len());
    out[..count].copy_from_slice(&behind[..count]);
    count
}

impl Disk for Short {
    ghost use Rattle.swh_outside.specs.Files.{absent};

    ghost tells = { ⊥ };

    ghost file = { λ _. absent };

    ghost faults = { λ _. 0 };

    fn len(&mut self) -> Result<u64, Failed> {
        Ok(self.bytes.len() as u64)
    }

    fn read_at(&mut self, at: u64, out: &mut [u8]) -> Result<usize, Failed> {
        let given = self.given.min(self.bytes.len());
        Ok(copy_from(&self.bytes.as_slice()[..given], at, out))
    }

    fn write_at(&mut self, _at: u64, _bytes: &[u8]) -> Result<(), Failed> {
        self.writes = self.writes.saturating_add(1);
        Ok(())
    }

    fn sync(&mut self) -> Result<(), Failed> {
        Ok(())
    }

    ghost sees_image = { λ disk told. absurd told };
}
