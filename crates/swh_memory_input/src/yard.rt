// A yard in memory.
ghost use Rattle.std.specs.Prelude.{◌≡◌, ◌++◌, ◌∷◌, [], map, IfOk, OnOk, OnErr};
ghost use Rattle.std.specs.List.{list_any};
ghost use Rattle.swh_memory_input.specs.Yards.{is_making_at, begins_at, begun_of};

use crate::{Begins, Making, MemorySink};
use std::alloc::{AllocError, Global};
use swh_outside::{Failed, OutFault, Sink, Yard};

/// A yard with room for a number of bytes, which keeps what was begun in it, in its order. A call with a given number
/// fails, and so does one that would begin something where something was begun, and a `put` that would pass the room;
/// no other fails, and each that does is counted. A path is any text, and a call looks through all that was begun.
#[derive(Drop)]
pub struct MemoryYard {
    alloc: Global,
    makings: Vec<Making>,
    sink: MemorySink,
}

/// Whether something was begun at a path.
fn is_made(makings: &[Making], path: &str) -> bool
    ensures { result ≡ list_any (is_making_at path.now) makings.now }
{
    makings.iter().any(|making| making.is_at(path))
}

/// Adds what begins at a path.
fn push_making(
    alloc: Global,
    makings: &mut Vec<Making>,
    path: &str,
    begins: Begins,
) -> Result<(), AllocError>
    ensures made { OnOk result (map begun_of makings.new.items
        ≡ map begun_of makings.old.items ++ begins_at begins path.now ∷ []) }
    ensures refused { OnErr result (makings.new.items ≡ makings.old.items) }
{
    let path = String::from_str(alloc, path)?;
    match makings.push(Making { path, begins }) {
        Ok(()) => Ok(()),
        Err(_) => Err(AllocError),
    }
}

impl MemoryYard {
    ghost use Rattle.swh_memory_failures.specs.Answers.{has_failed};
    ghost use Rattle.swh_memory_failures.specs.Tally.{fresh_tally, tallied};
    ghost use Rattle.swh_outside.specs.Causes.{HasOutCause};
    ghost use Rattle.swh_memory_input.specs.Yards.{
      yard_makings,
      yard_begun,
      yard_taken,
      yard_room,
      yard_tally,
      yard_faults,
      is_making_to_fail,
    };

    /// An empty yard without room for bytes, of whose calls none will fail for its number.
    pub fn new(alloc: Global) -> Self
        ensures empty { yard_makings result ≡ [] }
        ensures taken { yard_taken result ≡ [] }
        ensures room { yard_room result ≡ 0 }
        ensures failing { yard_tally result ≡ fresh_tally [] }
        ensures no_fault { yard_faults result ≡ 0 }
    {
        MemoryYard {
            alloc,
            makings: Vec::new(alloc),
            sink: MemorySink::without_room(alloc),
        }
    }

    /// An empty yard with room for this many bytes. Its calls with the listed numbers, from 0, will fail; a `put` among
    /// them takes the first half of its bytes.
    pub fn with_room(alloc: Global, room: usize, failing: Vec<u64>) -> Result<Self, AllocError>
        ensures empty { IfOk result (λ yard. yard_makings yard ≡ []) }
        ensures taken { IfOk result (λ yard. yard_taken yard ≡ []) }
        ensures room { IfOk result (λ yard. yard_room yard ≡ room) }
        ensures failing { IfOk result (λ yard. yard_tally yard ≡ fresh_tally failing.items) }
        ensures no_fault { IfOk result (λ yard. yard_faults yard ≡ 0) }
    {
        Ok(MemoryYard {
            alloc,
            makings: Vec::new(alloc),
            sink: MemorySink::new(alloc, room, failing)?,
        })
    }

    /// What was begun, in its order.
    pub fn makings(&self) -> &[Making]
        ensures { result.now ≡ yard_makings self.now }
    {
        &self.makings
    }

    /// The bytes that were put, of all files.
    pub fn bytes(&self) -> &[u8]
        ensures { result.now ≡ yard_taken self.now }
    {
        self.sink.bytes()
    }

    /// How often it has failed.
    pub fn faults(&self) -> u64
        ensures { result ≡ yard_faults self.now }
    {
        self.sink.faults()
    }

    // Begins something at a path.
    fn begin(&mut self, path: &str, begins: Begins) -> Result<(), OutFault>
        ensures made { OnOk result (yard_begun self.new ≡ yard_begun self.old ++ begins_at begins path.now ∷ []) }
        ensures refused { OnErr result (yard_begun self.new ≡ yard_begun self.old) }
        ensures fails { has_failed result ≡ is_making_to_fail self.old path.now }
        ensures counted { yard_tally self.new ≡ tallied (has_failed result) (yard_tally self.old) }
        ensures same_taken { yard_taken self.new ≡ yard_taken self.old }
        ensures same_room { yard_room self.new ≡ yard_room self.old }
        ensures cause { HasOutCause (yard_faults self.old) (yard_faults self.new) result }
    {
        if self.sink.next_fails() {
            return Err(OutFault::from(self.sink.refuse()));
        }
        if is_made(self.makings.as_slice(), path) {
            return Err(OutFault::from(self.sink.refuse()));
        }
        push_making(self.alloc, &mut self.makings, path, begins)?;
        Ok(())
    }
}

impl Sink for MemoryYard {
    ghost use Rattle.std.specs.Prelude.{length, take, is_err};
    ghost use Rattle.swh_memory_failures.specs.Tally.{tallied};
    ghost use Rattle.swh_outside.specs.Faults.{HasCause};
    ghost use Rattle.swh_outside.specs.Sink.{IsPut};
    ghost use Rattle.swh_memory_input.specs.Yards.{
      yard_makings,
      yard_begun,
      yard_taken,
      yard_room,
      yard_tally,
      yard_faults,
      is_yard_put_to_fail,
      yard_taken_count,
    };

    ghost tells = { Unit {0} };

    ghost taken = { yard_taken };

    ghost faults = { yard_faults };

    ghost begun = { yard_begun };

    fn put(&mut self, bytes: &[u8]) -> Result<(), Failed>
        ensures bytes { IsPut (yard_taken self.old) bytes.now (yard_taken self.new) result }
        ensures cause { HasCause (yard_faults self.old) (yard_faults self.new) result }
        ensures same_begun { yard_makings self.new ≡ yard_makings self.old }
        ensures taken { yard_taken self.new ≡ yard_taken self.old ++ take
            (yard_taken_count self.old (length bytes.now)) bytes.now }
        ensures fails { is_err result ≡ is_yard_put_to_fail self.old (length bytes.now) }
        ensures counted { yard_tally self.new ≡ tallied (is_err result) (yard_tally self.old) }
        ensures room { yard_room self.new ≡ yard_room self.old }
    {
        self.sink.put(bytes)
    }
}

impl Yard for MemoryYard {
    ghost use Rattle.std.specs.Prelude.{IsErr, length};
    ghost use Rattle.swh_memory_failures.specs.Answers.{has_failed};
    ghost use Rattle.swh_memory_failures.specs.Tally.{tallied};
    ghost use Rattle.swh_outside.specs.Causes.{HasOutCause};
    ghost use Rattle.swh_outside.specs.Sink.{FolderAt, FileAt, IsBegunAt};
    ghost use Rattle.swh_memory_input.specs.Yards.{
      yard_begun,
      yard_taken,
      yard_room,
      yard_tally,
      yard_faults,
      is_making_to_fail,
    };

    fn folder(&mut self, path: &str) -> Result<(), OutFault>
        ensures made { OnOk result (yard_begun self.new ≡ yard_begun self.old ++ FolderAt path.now ∷ []) }
        ensures refused { OnErr result (yard_begun self.new ≡ yard_begun self.old) }
        ensures exists { IsBegunAt path.now (yard_begun self.old) → IsErr result }
        ensures fails { has_failed result ≡ is_making_to_fail self.old path.now }
        ensures counted { yard_tally self.new ≡ tallied (has_failed result) (yard_tally self.old) }
        ensures same_taken { yard_taken self.new ≡ yard_taken self.old }
        ensures same_room { yard_room self.new ≡ yard_room self.old }
        ensures cause { HasOutCause (yard_faults self.old) (yard_faults self.new) result }
    {
        self.begin(path, Begins::Folder)
    }

    fn file(&mut self, path: &str) -> Result<(), OutFault>
        ensures made { OnOk result (yard_begun self.new
            ≡ yard_begun self.old ++ FileAt path.now (length (yard_taken self.old)) ∷ []) }
        ensures refused { OnErr result (yard_begun self.new ≡ yard_begun self.old) }
        ensures exists { IsBegunAt path.now (yard_begun self.old) → IsErr result }
        ensures fails { has_failed result ≡ is_making_to_fail self.old path.now }
        ensures counted { yard_tally self.new ≡ tallied (has_failed result) (yard_tally self.old) }
        ensures same_taken { yard_taken self.new ≡ yard_taken self.old }
        ensures same_room { yard_room self.new ≡ yard_room self.old }
        ensures cause { HasOutCause (yard_faults self.old) (yard_faults self.new) result }
    {
        let from = self.sink.bytes().len();
        self.begin(path, Begins::File { from })
    }
}
