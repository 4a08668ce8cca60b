// A sink in memory.
ghost use Rattle.std.specs.Prelude.{◌≡◌, ◌≤◌, [], length, vec_capacity, IfOk};

use std::alloc::{AllocError, Global};
use swh_memory_failures::Failures;
use swh_outside::{Failed, Sink};

/// A sink with room for a number of bytes. A call that would pass it takes none, fails and is counted. No call allocates.
#[derive(Drop)]
pub struct MemorySink {
    room: usize,
    bytes: Vec<u8>,
    failures: Failures,
    ghost has_room: { room ≤ vec_capacity bytes },
}

impl MemorySink {
    ghost use Rattle.swh_memory_input.specs.Parts.{sink_bytes, sink_room, sink_tally, sink_faults};
    ghost use Rattle.swh_memory_failures.specs.Tally.{fresh_tally, is_next_listed, called, refused};
    ghost use Rattle.swh_outside.specs.Faults.{Rose};

    /// An empty sink with room for this many bytes. Its calls with the listed numbers, from 0, will fail, with the
    /// first half of their bytes taken.
    pub fn new(alloc: Global, room: usize, failing: Vec<u64>) -> Result<Self, AllocError>
        ensures empty { IfOk result (λ sink. sink_bytes sink ≡ []) }
        ensures room { IfOk result (λ sink. sink_room sink ≡ room) }
        ensures failing { IfOk result (λ sink. sink_tally sink ≡ fresh_tally failing.items) }
        ensures no_fault { IfOk result (λ sink. sink_faults sink ≡ 0) }
    {
        Ok(MemorySink {
            room,
            bytes: Vec::with_capacity(alloc, room)?,
            failures: Failures::at(failing),
        })
    }

    /// An empty sink without room, of whose calls none will fail for its number.
    pub fn without_room(alloc: Global) -> Self
        ensures empty { sink_bytes result ≡ [] }
        ensures room { sink_room result ≡ 0 }
        ensures failing { sink_tally result ≡ fresh_tally [] }
        ensures no_fault { sink_faults result ≡ 0 }
    {
        MemorySink {
            room: 0,
            bytes: Vec::new(alloc),
            failures: Failures::at(Vec::new(alloc)),
        }
    }

    /// Counts another call than a `put`, and says whether it is to fail.
    pub(crate) fn next_fails(&mut self) -> bool
        ensures fails { result ≡ is_next_listed (sink_tally self.old) }
        ensures counted { sink_tally self.new ≡ called (sink_tally self.old) }
        ensures same { sink_bytes self.new ≡ sink_bytes self.old }
        ensures same_room { sink_room self.new ≡ sink_room self.old }
    {
        self.failures.next_fails()
    }

    /// Counts the failure of another call than a `put`.
    pub(crate) fn refuse(&mut self) -> Failed
        ensures counted { sink_tally self.new ≡ refused (sink_tally self.old) }
        ensures same { sink_bytes self.new ≡ sink_bytes self.old }
        ensures same_room { sink_room self.new ≡ sink_room self.old }
        ensures later { sink_faults self.old ≤ sink_faults self.new }
        ensures rose { Rose (sink_faults self.old) (sink_faults self.new) }
    {
        self.failures.refuse()
    }

    /// The bytes that were put.
    pub fn bytes(&self) -> &[u8]
        ensures { result.now ≡ sink_bytes self.now }
    {
        &self.bytes
    }

    /// How often it has failed.
    pub fn faults(&self) -> u64
        ensures { result ≡ sink_faults self.now }
    {
        self.failures.count()
    }
}

impl Sink for MemorySink {
    ghost use Rattle.std.specs.Prelude.{◌++◌, take, is_err};
    ghost use Rattle.swh_outside.specs.Faults.{HasCause};
    ghost use Rattle.swh_outside.specs.Sink.{IsPut};
    ghost use Rattle.swh_memory_input.specs.Parts.{
      sink_bytes,
      sink_room,
      sink_tally,
      sink_faults,
      is_put_to_fail,
      taken_count,
    };
    ghost use Rattle.swh_memory_failures.specs.Tally.{tallied};

    ghost tells = { Unit {0} };

    ghost taken = { sink_bytes };

    ghost faults = { sink_faults };

    fn put(&mut self, bytes: &[u8]) -> Result<(), Failed>
        ensures bytes { IsPut (sink_bytes self.old) bytes.now (sink_bytes self.new) result }
        ensures cause { HasCause (sink_faults self.old) (sink_faults self.new) result }

        ensures taken { sink_bytes self.new ≡ sink_bytes self.old ++ take
            (taken_count self.old (length bytes.now)) bytes.now }
        ensures fails { is_err result ≡ is_put_to_fail self.old (length bytes.now) }
        ensures counted { sink_tally self.new ≡ tallied (is_err result) (sink_tally self.old) }
        ensures room { sink_room self.new ≡ sink_room self.old }
    {
        let fails = self.failures.next_fails();
        let count = if fails { bytes.len() / 2 } else { bytes.len() };
        if self.bytes.len() + count > self.room {
            return Err(self.failures.refuse());
        }
        let _ = self.bytes.extend_from_slice(&bytes[..count]);
        if fails {
            return Err(self.failures.refuse());
        }
        Ok(())
    }
}
