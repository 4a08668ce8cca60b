// A text in memory.

use std::alloc::Global;
use swh_outside::{Failed, Sink};

/// The bytes of a text. It fails where memory runs out, and for nothing else.
#[derive(Drop)]
pub struct Collected {
    bytes: Vec<u8>,
    faults: u64,
}

impl Collected {
    ghost use Rattle.std.specs.Prelude.{◌≡◌, []};
    ghost use Rattle.swh_api.specs.Collected.{collected_bytes};

    /// No bytes yet.
    pub fn new(alloc: Global) -> Self
        ensures { collected_bytes result ≡ [] }
    {
        Collected {
            bytes: Vec::new(alloc),
            faults: 0,
        }
    }

    pub fn into_bytes(self) -> Vec<u8>
        ensures { result.items ≡ collected_bytes self }
    {
        self.bytes
    }
}

impl Sink for Collected {
    ghost use Rattle.swh_api.specs.Collected.{collected_bytes, collected_faults};

    ghost tells = { Unit {0} };

    ghost taken = { collected_bytes };

    ghost faults = { collected_faults };

    fn put(&mut self, bytes: &[u8]) -> Result<(), Failed> {
        match self.bytes.extend_from_slice(bytes) {
            Ok(()) => Ok(()),
            Err(_) => {
                self.faults = self.faults.saturating_add(1);
                Err(Failed)
            }
        }
    }
}
