// Files of an archive that tell nothing of what they hold: plain bytes, which take no more memory than they are long.
ghost use Rattle.std.specs.Prelude.{◌≤◌, length};
ghost use Rattle.swh_outside.specs.Faults.{Rose};

use std::alloc::Global;
use swh_outside::{Depot, Disk, Failed, OutFault};

/// The lowest bit of the byte at a place is changed in what every read gives but the first ones.
#[derive(Clone, Copy)]
pub struct Spoil {
    pub place: u64,
    pub first_reads: u64,
}

/// A file as plain bytes.
#[derive(Drop)]
pub struct PlainDisk {
    bytes: Vec<u8>,
    reads: u64,
    spoil: Option<Spoil>,
    faults: u64,
}

impl PlainDisk {
    fn new(alloc: Global, spoil: Option<Spoil>) -> PlainDisk {
        PlainDisk {
            bytes: Vec::new(alloc),
            reads: 0,
            spoil,
            faults: 0,
        }
    }

    // Counts a fault.
    fn fail(&mut self) -> Failed
        ensures rose { Rose self.old.faults self.new.faults }
    {
        self.faults = self.faults.saturating_add(1);
        Failed
    }
}

// Copies what stands from a place on, as much as there is room for.
fn copy_behind(bytes: &[u8], at: u64, out: &mut [u8]) -> usize
    ensures { result ≤ length out.new }
{
    if at >= bytes.len() as u64 {
        return 0;
    }
    let behind = &bytes[at as usize..];
    let count = behind.len().min(out.len());
    out[..count].copy_from_slice(&behind[..count]);
    count
}

// Changes a byte of what was read from a place on.
fn change(out: &mut [u8], at: u64, spoil: Spoil) {
    if spoil.place >= at && spoil.place - at < out.len() as u64 {
        let changed = (spoil.place - at) as usize;
        out[changed] = out[changed] ^ 1;
    }
}

impl Disk for PlainDisk {
    ghost use Rattle.swh_outside.specs.Files.{absent};

    ghost tells = { ⊥ };

    ghost file = { λ _. absent };

    ghost faults = { λ disk. disk.faults };

    fn len(&mut self) -> Result<u64, Failed> {
        Ok(self.bytes.len() as u64)
    }

    fn read_at(&mut self, at: u64, out: &mut [u8]) -> Result<usize, Failed> {
        let count = copy_behind(self.bytes.as_slice(), at, out);
        if let Some(spoil) = self.spoil {
            if self.reads >= spoil.first_reads {
                change(out, at, spoil);
            }
        }
        self.reads = self.reads.saturating_add(1);
        Ok(count)
    }

    fn write_at(&mut self, at: u64, bytes: &[u8]) -> Result<(), Failed> {
        if at > self.bytes.len() as u64 {
            return Err(self.fail());
        }
        let at = at as usize;
        let over = (self.bytes.len() - at).min(bytes.len());
        self.bytes.as_mut_slice()[at..at + over].copy_from_slice(&bytes[..over]);
        match self.bytes.extend_from_slice(&bytes[over..]) {
            Ok(()) => Ok(()),
            Err(_) => Err(self.fail()),
        }
    }

    fn sync(&mut self) -> Result<(), Failed> {
        Ok(())
    }

    ghost sees_image = { λ disk told. absurd told };
}

/// The folder of one archive.
#[derive(Drop)]
pub struct PlainDepot {
    alloc: Global,
    ledger: Option<PlainDisk>,
    store: Option<PlainDisk>,
    spoil: Option<Spoil>,
    faults: u64,
}

impl PlainDepot {
    /// An empty folder, whose store gives what was read so.
    pub fn new(alloc: Global, spoil: Option<Spoil>) -> PlainDepot {
        PlainDepot {
            alloc,
            ledger: None,
            store: None,
            spoil,
            faults: 0,
        }
    }
}

impl Depot for PlainDepot {
    ghost use Rattle.swh_outside.specs.Files.{absent};

    type D = PlainDisk;

    ghost tells = { ⊥ };

    ghost files = { λ _ _ _. absent };

    ghost has_place = { λ _ _ _. Unit {0} };

    ghost faults = { λ depot. depot.faults };

    fn open(&mut self, dir: &str, file: u32) -> Result<PlainDisk, OutFault> {
        if dir.is_empty() {
            self.faults = self.faults.saturating_add(1);
            return Err(OutFault::Failed);
        }
        let held = if file == 0 {
            self.ledger.take()
        } else {
            self.store.take()
        };
        let spoil = if file == 0 { None } else { self.spoil };
        Ok(PlainDisk {
            reads: 0,
            spoil,
            faults: 0,
            ..held.unwrap_or(PlainDisk::new(self.alloc, None))
        })
    }

    fn close(&mut self, _dir: &str, file: u32, disk: PlainDisk) {
        if disk.faults > 0 {
            self.faults = self.faults.saturating_add(1);
        }
        if file == 0 {
            self.ledger = Some(disk);
        } else {
            self.store = Some(disk);
        }
    }
}
