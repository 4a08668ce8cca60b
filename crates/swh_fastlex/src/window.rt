// A window over a source, and how its bytes are given out.
use crate::source::WINDOW;
use std::alloc::{AllocError, Global};
use std::marker::Model;
use swh_outside::{Failed, Source};

/// At most 65,536 bytes that were got from a source and not given out, and the number of bytes that were given out: the
/// place in the stream. What is to be read is what the window holds and then what the source has left.
#[derive(Drop)]
pub struct Window {
    buffer: Vec<u8>,
    start: usize,
    end: usize,
    place: u64,
}

impl Model for Window {
    ghost use Rattle.std.specs.Prelude.{◌≡◌, ◌≤◌, length};
    ghost use Rattle.swh_fastlex.specs.Line.{Held, held_between};

    ghost Value = { Held };

    ghost view = { λ w. held_between w.buffer.items w.start w.end w.place };

    ghost invariant = { λ w. (w.start ≤ w.end) × (w.end ≤ 65536) × (length w.buffer.items ≡ 65536) };
}

impl Window {
    ghost use Rattle.std.specs.Prelude.{
      ◌≡◌,
      ◌≢◌,
      ◌≤◌,
      ◌<◌,
      ◌+◌,
      ◌^◌,
      [],
      length,
      drop,
      IfOk,
      IfErr,
      MatchBool,
    };
    ghost use Rattle.swh_outside.specs.Source.{LosesSome};
    ghost use Rattle.swh_outside.specs.Faults.{HasCause};
    ghost use Rattle.swh_fastlex.specs.Line.{unread};

    /// A window that holds nothing, at the first byte.
    pub fn new(alloc: Global) -> Result<Window, AllocError>
        ensures empty { IfOk result (λ window. window.bytes ≡ []) }
        ensures first { IfOk result (λ window. window.place ≡ 0) }
    {
        let buffer = Vec::from_elem(alloc, 0, WINDOW)?;
        Ok(Window {
            buffer,
            start: 0,
            end: 0,
            place: 0,
        })
    }

    /// How many bytes were given out.
    pub fn place(&self) -> u64
        ensures { result ≡ self.now.place }
    {
        self.place
    }

    /// What is held.
    pub fn held(&self) -> &[u8]
        ensures { result.now ≡ self.now.bytes }
    {
        &self.buffer[self.start..self.end]
    }

    /// How many bytes are held, no more than a window.
    pub fn count(&self) -> usize
        ensures count { result ≡ length self.now.bytes }
        ensures within { result ≤ WINDOW }
    {
        self.end - self.start
    }

    /// Gives out the first bytes that are held, so many of them.
    pub fn skip(&mut self, count: usize)
        requires within { count ≤ length self.old.bytes }
        requires fits { self.old.place + count < 2 ^ 64 }
        ensures bytes { self.new.bytes ≡ drop count self.old.bytes }
        ensures place { self.new.place ≡ self.old.place + count }
    {
        self.start += count;
        self.place += count as u64;
    }

    /// Gets the next bytes of the source where nothing is held, and answers whether something is held then. Where
    /// nothing is, nothing is to be read any more.
    pub fn fill<S: Source>(&mut self, source: &mut S) -> Result<bool, Failed>
        ensures kept { S.tells → IfOk result (λ _. unread self.new (S.left source.new)
            ≡ unread self.old (S.left source.old)) }
        ensures some { IfOk result (λ some. MatchBool some (self.new.bytes ≢ []) (self.new.bytes ≡ [])) }
        ensures end { S.tells → IfOk result (λ some. MatchBool some (Unit {0})
            (unread self.old (S.left source.old) ≡ [])) }
        ensures loses { S.tells → IfErr result (λ _. LosesSome (unread self.old (S.left source.old))
            (unread self.new (S.left source.new))) }
        ensures same_place { self.new.place ≡ self.old.place }
        ensures same_path { S.path source.new ≡ S.path source.old }
        ensures cause { HasCause (S.faults source.old) (S.faults source.new) result }
    {
        if self.start == self.end {
            self.start = 0;
            self.end = 0;
            let count = source.get(self.buffer.as_mut_slice())?;
            self.end = count;
        }
        Ok(self.start < self.end)
    }
}
