// A link in memory.
ghost use Rattle.std.specs.Prelude.{◌≡◌, ◌≤◌, ◌<◌, ◌++◌, length, take, drop, min, max, is_err, IfOk, OnErr};
ghost use Rattle.swh_outside.specs.Faults.{HasCause};

use crate::{MemorySink, MemorySource};
use std::alloc::{AllocError, Global};
use swh_outside::{Failed, Link, Sink, Source};

/// A client in memory: a `MemorySource` of what it sends and a `MemorySink` for what it is sent, whose calls are
/// counted together. A call that would pass the room takes none, fails and is counted. No call allocates.
#[derive(Drop)]
pub struct MemoryLink {
    source: MemorySource,
    sink: MemorySink,
}

impl MemoryLink {
    ghost use Rattle.swh_memory_failures.specs.Tally.{fresh_tally};
    ghost use Rattle.swh_memory_input.specs.Links.{
      link_left,
      link_given,
      link_ended,
      link_piece,
      link_taken,
      link_room,
      link_tally,
      link_faults,
      IsUnused,
    };

    /// A link that gives these bytes, a piece of them at most in a call, and one byte where the piece is 0, and that
    /// has room for so many others. Its calls with the listed numbers, from 0, will fail: a `get` among them gives
    /// nothing, and a `put` takes the first half of its bytes.
    pub fn new(
        alloc: Global,
        bytes: Vec<u8>,
        piece: usize,
        room: usize,
        failing: Vec<u64>,
    ) -> Result<Self, AllocError>
        ensures unused { IfOk result IsUnused }
        ensures left { IfOk result (λ link. link_left link ≡ bytes.items) }
        ensures piece { IfOk result (λ link. link_piece link ≡ piece) }
        ensures room { IfOk result (λ link. link_room link ≡ room) }
        ensures failing { IfOk result (λ link. link_tally link ≡ fresh_tally failing.items) }
    {
        let sink = MemorySink::new(alloc, room, failing)?;
        Ok(MemoryLink {
            source: MemorySource::new(String::new(alloc), bytes, piece, Vec::new(alloc)),
            sink,
        })
    }

    /// The bytes that it gave.
    pub fn given(&self) -> &[u8]
        ensures { result.now ≡ link_given self.now }
    {
        self.source.given()
    }

    /// Whether a `get` met the end of what it gives.
    pub fn has_ended(&self) -> bool
        ensures { result ≡ link_ended self.now }
    {
        self.source.has_ended()
    }

    /// The bytes that were put.
    pub fn bytes(&self) -> &[u8]
        ensures { result.now ≡ link_taken self.now }
    {
        self.sink.bytes()
    }

    /// How often it has failed.
    pub fn faults(&self) -> u64
        ensures { result ≡ link_faults self.now }
    {
        self.sink.faults()
    }
}

impl Source for MemoryLink {
    ghost use Rattle.std.specs.Prelude.{[]};
    ghost use Rattle.swh_memory_failures.specs.Tally.{is_next_listed, tallied};
    ghost use Rattle.swh_memory_input.specs.Links.{
      link_left,
      link_given,
      link_ended,
      link_piece,
      link_taken,
      link_room,
      link_tally,
      link_faults,
    };
    ghost use Rattle.swh_outside.specs.Source.{IsGot, IsHeard};

    ghost tells = { Unit {0} };

    ghost left = { link_left };

    ghost given = { link_given };

    ghost ended = { link_ended };

    ghost faults = { link_faults };

    ghost path = { λ _. [] };

    ghost put_so_far = { link_taken };

    fn get(&mut self, out: &mut [u8]) -> Result<usize, Failed>
        requires { 0 < length out.old }
        ensures bound { IfOk result (λ n. n ≤ length out.new) }
        ensures bytes { IfOk result (λ n. IsGot (link_left self.old) n out.new (link_left self.new)) }
        ensures loses { OnErr result (link_left self.new ≡ link_left self.old) }
        ensures heard { IsHeard (link_given self.old) (link_ended self.old) out.new (link_given self.new)
            (link_ended self.new) result }
        ensures cause { HasCause (link_faults self.old) (link_faults self.new) result }

        ensures piece { IfOk result (λ n. n ≡ min (min (length out.old) (max (link_piece self.old) 1))
            (length (link_left self.old))) }
        ensures rest { IfOk result (λ n. drop n out.new ≡ drop n out.old) }
        ensures untouched { OnErr result (out.new ≡ out.old) }
        ensures fails { is_err result ≡ is_next_listed (link_tally self.old) }
        ensures counted { link_tally self.new ≡ tallied (is_err result) (link_tally self.old) }

        // What it leaves as it was.
        ensures same_taken { link_taken self.new ≡ link_taken self.old }
        ensures same_room { link_room self.new ≡ link_room self.old }
        ensures same_piece { link_piece self.new ≡ link_piece self.old }
    {
        if self.sink.next_fails() {
            return Err(self.sink.refuse());
        }
        Ok(self.source.give(out))
    }
}

impl Sink for MemoryLink {
    ghost use Rattle.swh_memory_failures.specs.Tally.{tallied};
    ghost use Rattle.swh_memory_input.specs.Links.{
      link_taken,
      link_room,
      link_piece,
      link_heard,
      link_tally,
      link_faults,
      is_link_put_to_fail,
      link_taken_count,
    };
    ghost use Rattle.swh_outside.specs.Sink.{IsPut};

    ghost tells = { Unit {0} };

    ghost taken = { link_taken };

    ghost faults = { link_faults };

    ghost heard = { link_heard };

    fn put(&mut self, bytes: &[u8]) -> Result<(), Failed>
        ensures bytes { IsPut (link_taken self.old) bytes.now (link_taken self.new) result }
        ensures cause { HasCause (link_faults self.old) (link_faults self.new) result }

        ensures taken { link_taken self.new ≡ link_taken self.old ++ take
            (link_taken_count self.old (length bytes.now)) bytes.now }
        ensures fails { is_err result ≡ is_link_put_to_fail self.old (length bytes.now) }
        ensures counted { link_tally self.new ≡ tallied (is_err result) (link_tally self.old) }

        // What it leaves as it was.
        ensures same_heard { link_heard self.new ≡ link_heard self.old }
        ensures same_room { link_room self.new ≡ link_room self.old }
        ensures same_piece { link_piece self.new ≡ link_piece self.old }
    {
        self.sink.put(bytes)
    }
}

impl Link for MemoryLink {
    ghost use Rattle.std.specs.Prelude.{refl};

    ghost both_tell = { (λ told. told, λ told. told) };

    ghost one_count = { λ _. refl };

    ghost puts_stay = { λ _. refl };

    ghost gets_stay = { λ _. refl };

    // Nobody waits for the end here.
    fn finish(&mut self)
        ensures { self.new ≡ self.old }
    {}
}
